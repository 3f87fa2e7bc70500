use kern_model::Pieces;
use sp_base::{Call, Errno, Pid};

/// How many calls of one connection are open at the most.
pub const OPEN_CALLS: u64 = 64;

/// How far a connection is that isn't over.
#[derive(Clone, Copy, Debug, PartialEq, Eq)]
pub enum Condition {
    /// No handshake was taken yet.
    Fresh,
    /// It speaks for a process.
    Live(Pid),
    /// It speaks for a process that is about to go on as another program.
    InExec(Pid),
    /// Its process went on as another program, over another connection.
    Left,
    /// It takes nothing more, and still has frames to send.
    Draining,
}

/// A call that was asked for, and whose response wasn't handed out yet.
#[derive(Debug, Drop)]
pub enum OpenCall {
    /// What it reads is gathered: the copies so far, and whether an ask for the next one is out.
    Gathers {
        call: Call,
        got: Pieces,
        asked: bool,
    },
    /// A copy came back with an error, which ends the asking.
    Fails {
        call: Call,
        error: Errno,
    },
    /// Its response, or the error that it was refused with, is queued.
    Answers,
}
