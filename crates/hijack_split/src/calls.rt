//! Calls with a kernel's names in place of the guest's, and what calls make.
ghost use Rattle.std.specs.Prelude.{◌≡◌};
ghost use Rattle.hijack_split.specs.Calls.{below_offset, change_by, made_by, sets_flag, with_first};
ghost use Rattle.hijack_split.specs.Calls.{with_paths};

use crate::change::Change;
use crate::commands::{F_DUPFD, F_SETFD, FD_CLOEXEC, O_CLOEXEC};
use crate::turn::Made;
use hijack_rules::SideName;
use sp_base::Call;

/// A call with a word in the place of its first one, by the rows of the table: a call with its
/// first word and the others.
macro_rules! with_word {
    ($given:expr, $word:expr; $($call:ident($first:ident; $($rest:ident),*),)*) => {
        match $given {
            $(Call::$call { $($rest,)* .. } => Call::$call { $first: $word, $($rest: *$rest),* },)*
            other => other.copy(),
        }
    };
}

/// The call with another descriptor, or another path, in front; any other call as it is.
pub fn with_first(call: &Call, word: u64) -> Call
    ensures { result ≡ with_first call.now word }
{
    with_word!(call, word;
        Open(path; flags),
        Close(fd;),
        Read(fd; out, len),
        Write(fd; input, len),
        Pread(fd; out, len, offset),
        Pwrite(fd; input, len, offset),
        Lseek(fd; offset, whence),
        Ftruncate(fd; len),
        Fstat(fd; out),
        Stat(path; out),
        Unlink(path;),
        Mkdir(path;),
        Rmdir(path;),
        Chdir(path;),
        Dup(fd;),
        Fcntl(fd; command, argument),
        Bind(fd; address, address_len),
        Listen(fd; backlog),
        Accept(fd;),
        Connect(fd; address, address_len),
        Sendto(fd; input, len, address, address_len),
        Recvfrom(fd; out, len, address, address_max),
        Shutdown(fd; how),
        Getsockname(fd; out, max),
        Getpeername(fd; out, max),
    )
}

/// The call with two other paths; any other call as it is.
pub fn with_paths(call: &Call, path: u64, new_path: u64) -> Call
    ensures { result ≡ with_paths call.now path new_path }
{
    match call {
        Call::Link { .. } => Call::Link { path, new_path },
        Call::Rename { .. } => Call::Rename { path, new_path },
        other => other.copy(),
    }
}

/// A call for the rump kernel, which doesn't know the offset.
pub fn below_offset(offset: u64, call: Call) -> Call
    ensures { result ≡ below_offset offset call }
{
    match call {
        Call::Fcntl {
            fd,
            command,
            argument,
        } => {
            if command == F_DUPFD {
                return Call::Fcntl {
                    fd,
                    command,
                    argument: argument.saturating_sub(offset),
                };
            }
            Call::Fcntl {
                fd,
                command,
                argument,
            }
        }
        other => other,
    }
}

/// How many descriptors a call makes.
pub fn made_by(call: &Call) -> Made
    ensures { result ≡ made_by call.now }
{
    match call {
        Call::Open { .. } | Call::Dup { .. } | Call::Socket { .. } | Call::Accept { .. } => {
            Made::One
        }
        Call::Fcntl { command, .. } => {
            if *command == F_DUPFD {
                return Made::One;
            }
            Made::Nothing
        }
        Call::Pipe | Call::Socketpair { .. } => Made::Two,
        _ => Made::Nothing,
    }
}

/// Whether a call is an open that sets close-on-exec.
pub fn sets_flag(call: &Call) -> bool
    ensures { result ≡ sets_flag call.now }
{
    match call {
        Call::Open { flags, .. } => *flags & O_CLOEXEC != 0,
        _ => false,
    }
}

/// How a call changes the view that succeeds on a side.
pub fn change_by(side: SideName, call: &Call) -> Change
    ensures { result ≡ change_by side call.now }
{
    match call {
        Call::Chdir { .. } => Change::Sits(side),
        Call::Close { fd } => Change::Drops(*fd),
        Call::Fcntl {
            fd,
            command,
            argument,
        } => {
            if *command == F_SETFD {
                return Change::Marks(*fd, *argument & FD_CLOEXEC != 0);
            }
            Change::Stays
        }
        _ => Change::Stays,
    }
}
