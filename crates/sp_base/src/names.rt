ghost use Rattle.std.specs.Prelude.{◌≡◌, IfSome, Some};
ghost use Rattle.sp_base.specs.declared.names.SpError.{SpError};
ghost use Rattle.sp_base.specs.Names.{sp_error_number, sp_error_of};

/// A process of a kernel: 2 to 257. 0 stands for no process.
#[derive(Clone, Copy, Debug, PartialEq, Eq, PartialOrd, Ord)]
pub struct Pid(pub u32);

/// A descriptor of a process, 0 to 127.
#[derive(Clone, Copy, Debug, PartialEq, Eq, PartialOrd, Ord)]
pub struct Fd(pub u32);

/// A connection of a server, or a link of a client. Any number names one.
#[derive(Clone, Copy, Debug, PartialEq, Eq, PartialOrd, Ord)]
pub struct ConnNo(pub u32);

/// A caller of a client: a thread of the guest. Any number names one.
#[derive(Clone, Copy, Debug, PartialEq, Eq, PartialOrd, Ord)]
pub struct Caller(pub u32);

/// A request on a connection. The client counts its requests from 1 on, and uses no number twice.
#[derive(Clone, Copy, Debug, PartialEq, Eq, PartialOrd, Ord)]
pub struct ReqNo(pub u64);

/// The index in a kernel's journal, from 0, of the entry that an operation appended.
#[derive(Clone, Copy, Debug, PartialEq, Eq, PartialOrd, Ord)]
pub struct Place(pub u64);

/// An open file of a kernel, by how many were made before it.
#[derive(Clone, Copy, Debug, PartialEq, Eq, PartialOrd, Ord)]
pub struct FileNo(pub u64);

/// A node of a file system, counted from 1, the root, in order of making. No number comes again.
#[derive(Clone, Copy, Debug, PartialEq, Eq, PartialOrd, Ord)]
pub struct NodeNo(pub u64);

/// What hands a process over to another connection. Each cookie is used once at most.
#[derive(Clone, Copy, Debug, PartialEq, Eq)]
pub struct Cookie {
    /// The cookie's number. The server gives no number twice.
    pub number: u64,
    /// A random number, without which the cookie's number is worth nothing.
    pub salt: u64,
}

/// What a call answered.
#[derive(Clone, Copy, Debug, PartialEq, Eq)]
pub struct Answer {
    /// 0 for success, else an error's number. Where a kernel answers an error, both values are 0.
    pub err: u32,
    /// The call's value: a descriptor, a count of bytes, or what else it answers.
    pub ret0: u64,
    /// The second value, of calls that have two; otherwise 0.
    pub ret1: u64,
    /// Where the journal has the call.
    pub place: Place,
}

/// Why a server refuses a request. The numbers are 1 to 7, in this order.
#[derive(Clone, Copy, Debug, PartialEq, Eq)]
pub enum SpError {
    /// The request can't be served now, and may be sent again later.
    TryAgain = 1,
    /// The peer isn't allowed in. This error is never sent.
    Auth,
    /// No unused cookie has this number and salt.
    BadCookie,
    /// The kernel has as many processes as it can hold.
    ProcFull,
    /// The process is about to run another program.
    InExec,
    /// The server is out of memory.
    Memory,
    /// The frame is none that a client may send here.
    Malformed,
}

impl SpError {
    /// The number that a frame carries, 1 to 7.
    pub fn number(self) -> u32
        ensures { result ≡ sp_error_number self }
    {
        self as u32
    }

    /// The error of a number; none for any but 1 to 7.
    pub fn of_number(number: u32) -> Option<SpError>
        ensures value { result ≡ sp_error_of number }
        ensures number { IfSome result (λ error. sp_error_number error ≡ number) }
        ensures again { (error : SpError) → sp_error_number error ≡ number → result ≡ Some error }
    {
        match number {
            1 => Some(SpError::TryAgain),
            2 => Some(SpError::Auth),
            3 => Some(SpError::BadCookie),
            4 => Some(SpError::ProcFull),
            5 => Some(SpError::InExec),
            6 => Some(SpError::Memory),
            7 => Some(SpError::Malformed),
            _ => None,
        }
    }
}
