//! The limits that several crates speak of.

/// How many descriptors a process has, from 0 on.
pub const DESCRIPTORS: u64 = 128;

/// How many processes a kernel has at the most.
pub const PROCESSES: u64 = 256;

/// The first number of a process; 0 stands for no process, and 1 is never given.
pub const FIRST_PROCESS: u64 = 2;

/// How many bytes one call moves at the most, in bytes of the caller's memory.
pub const TRANSFER: u64 = 65_536;

/// How many bytes of a path are looked at; one without its zero byte among them is too long.
pub const PATH_TEXT: u64 = 1_024;

/// How many bytes the address of a socket has at the most.
pub const ADDRESS: u64 = 104;

/// How many bytes fstat and stat write.
pub const STAT: u64 = 24;

/// How many entries one poll has at the most.
pub const POLL_ENTRIES: u64 = 128;

/// How many bytes an entry of a poll has.
pub const POLL_ENTRY: u64 = 8;
