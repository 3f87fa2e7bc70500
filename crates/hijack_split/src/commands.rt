/// The command of fcntl that makes a duplicate.
pub const F_DUPFD: u64 = 0;

/// The command of fcntl that reads close-on-exec.
pub const F_GETFD: u64 = 1;

/// The command of fcntl that sets close-on-exec.
pub const F_SETFD: u64 = 2;

/// The bit of F_SETFD's argument that is close-on-exec.
pub const FD_CLOEXEC: u64 = 1;

/// The flag of open that sets close-on-exec.
pub const O_CLOEXEC: u64 = 0x400000;
