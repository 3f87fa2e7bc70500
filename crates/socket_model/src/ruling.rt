ghost use Rattle.std.specs.Prelude.{◌≡◌};
ghost use Rattle.socket_model.specs.declared.ruling.SockFault.TheVariants as fault;

use sp_base::{Errno, NoMemory};

/// Which ends are shut: the one that is read from, the one that is written to, or both.
#[derive(Clone, Copy, Debug, PartialEq, Eq)]
pub enum How {
    Reading,
    Writing,
    Both,
}

/// What a call comes to, before anything is changed.
#[derive(Clone, Copy, Debug, PartialEq, Eq)]
pub enum Ruling {
    /// It answers this error and changes nothing.
    Refused(Errno),
    /// It waits.
    Waits,
    /// It is done, with so many bytes where the call moves bytes.
    Goes(u32),
}

/// Why a call on sockets isn't done. It left all as it was.
#[derive(Clone, Copy, Debug, PartialEq, Eq)]
pub enum SockFault {
    /// What the guest is answered.
    Errno(Errno),
    /// The call waits.
    NotReady,
    /// Memory was refused.
    NoMemory,
}

impl From<NoMemory> for SockFault {
    ghost from_gives = { λ _ made. made ≡ fault.NoMemory };

    fn from(_e: NoMemory) -> SockFault {
        SockFault::NoMemory
    }
}

/// What a poll tells of an end of a pipe or of a socket.
#[derive(Clone, Copy, Debug, PartialEq, Eq)]
pub struct Ready {
    /// There is something to read, or reading has ended.
    pub readable: bool,
    /// There is room to write, or writing has ended.
    pub writable: bool,
    /// A pipe has no reader.
    pub error: bool,
    /// A pipe has no writer.
    pub hangup: bool,
}
