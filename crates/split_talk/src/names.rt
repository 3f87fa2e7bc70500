//! What the rows call things.

use hijack_rules::SideName;
use hijack_split::Stage;
use std::str;

/// The names of the calls in the order of their numbers, from 1 on.
const CALLS: [&str; 33] = [
    "getpid",
    "open",
    "close",
    "read",
    "write",
    "pread",
    "pwrite",
    "lseek",
    "ftruncate",
    "fstat",
    "stat",
    "link",
    "unlink",
    "rename",
    "mkdir",
    "rmdir",
    "chdir",
    "dup",
    "dup2",
    "fcntl",
    "pipe",
    "socket",
    "socketpair",
    "bind",
    "listen",
    "accept",
    "connect",
    "sendto",
    "recvfrom",
    "shutdown",
    "getsockname",
    "getpeername",
    "poll",
];

/// A word as text; the empty text where it is none.
pub fn name_in(word: &[u8]) -> &str {
    str::from_utf8(word).unwrap_or("")
}

/// The number of the call of a name.
pub fn call_number(name: &str) -> Option<u32> {
    for (i, call) in CALLS.iter().enumerate() {
        if *call == name {
            return Some(i as u32 + 1);
        }
    }
    None
}

/// The name of the call of a number; None where it has none.
pub fn call_name(number: u32) -> Option<&'static str> {
    if number == 0 {
        return None;
    }
    match CALLS.get(number as usize - 1) {
        Some(name) => Some(*name),
        None => None,
    }
}

/// A side by its name.
pub fn side_in(name: &str) -> Option<SideName> {
    match name {
        "rump" => Some(SideName::Rump),
        "host" => Some(SideName::Host),
        _ => None,
    }
}

/// A side's name.
pub fn side_name(side: SideName) -> &'static str {
    match side {
        SideName::Rump => "rump",
        SideName::Host => "host",
    }
}

/// A stage's name.
pub fn stage_name(stage: Stage) -> &'static str {
    match stage {
        Stage::Main => "main",
        Stage::Raise => "raise",
        Stage::Flag => "flag",
        Stage::Shed => "shed",
        Stage::ShedOld => "shed old",
    }
}
