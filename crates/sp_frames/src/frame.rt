use sp_base::{Answer, Cookie, Octets, Pid, Place, ReqNo, SpError, Words};

/// The index of a request for memory is below this.
pub const INDEX_LIMIT: u64 = 8;

/// What a frame says. Each variant is a row of the table of frames.
///
/// An index is below `INDEX_LIMIT`. A name has 1 to 255 bytes, none of them zero.
#[derive(Debug, Drop)]
pub enum Body {
    /// A request of a new guest.
    Guest {
        name: Octets,
    },
    /// A request of a forked guest, with the cookie that its parent was given.
    Join {
        cookie: Cookie,
        name: Octets,
    },
    /// A request of a guest that runs another program, with the cookie that it was given before.
    Image {
        cookie: Cookie,
        name: Octets,
    },
    /// A request to perform the call of a number with its words, at most eight.
    Sys {
        num: u32,
        words: Words,
    },
    /// A request of the server for `len` bytes of the caller's memory.
    AskBytes {
        index: u32,
        addr: u64,
        len: u64,
    },
    /// A request of the server for a text in the caller's memory, of at most `max` bytes.
    AskText {
        index: u32,
        addr: u64,
        max: u64,
    },
    /// A request of the server to write bytes into the caller's memory: 1 to 131,040 of them.
    Put {
        index: u32,
        addr: u64,
        bytes: Octets,
    },
    /// A request to make a child.
    Prefork,
    /// A request to give up a child that was made.
    Cancel {
        cookie: Cookie,
    },
    /// A request to run another program.
    Preexec,
    /// The response to Guest: the new process.
    Hello {
        pid: Pid,
    },
    /// The response to Join: the child's process.
    Joined {
        pid: Pid,
    },
    /// The response to Image: the process, and its entry's place in the journal.
    Imaged {
        pid: Pid,
        place: Place,
    },
    /// The response to Sys: what the call answered, and its entry's place in the journal.
    Answered(Answer),
    /// The response to AskBytes: the error 0 with at most 131,044 bytes, or 14 with none.
    GotBytes {
        index: u32,
        err: u32,
        bytes: Octets,
    },
    /// The response to AskText: the error 0 with at most 1,023 bytes, none of them zero, or 14 or 63
    /// with none.
    GotText {
        index: u32,
        err: u32,
        bytes: Octets,
    },
    /// The response to Prefork: the child, its cookie, and its entry's place in the journal.
    Forked {
        cookie: Cookie,
        place: Place,
        pid: Pid,
    },
    /// The response to Cancel.
    Cancelled,
    /// The response to Preexec: the cookie for the program that is run.
    ExecReady {
        cookie: Cookie,
    },
    /// The error that a request of type 0, 1, 5 or 6 is refused with.
    Refused {
        kind: u16,
        why: SpError,
    },
}

/// A message between a server and its client.
#[derive(Debug, Drop)]
pub struct Frame {
    /// The request's number, which its response repeats.
    pub number: ReqNo,
    /// What the frame says.
    pub body: Body,
}
