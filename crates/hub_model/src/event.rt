ghost use Rattle.std.specs.Prelude.{◌≡◌, ◌↔◌, IfOk, IsErr};
ghost use Rattle.hub_model.specs.declared.event.Reply.{Reply};

use sp_base::{ConnNo, NoMemory, ReqNo, SpError};
use sp_frames::{Frame, FrameFault};

/// How a connection's input ended.
#[derive(Clone, Copy, Debug, PartialEq, Eq)]
pub enum Finish {
    /// Between two frames.
    Clean,
    /// Inside a frame.
    Inside,
    /// At bytes that are no frame.
    Bad(FrameFault),
}

/// What happens to the server.
#[derive(Debug, Drop)]
pub enum Event {
    /// A client connected.
    Opened(ConnNo),
    /// A frame came; the number is the salt for a cookie, where the frame makes one.
    Frame(ConnNo, Frame, u64),
    /// Somebody has time to work an open call.
    Work(ConnNo, ReqNo),
    /// The connection can send a frame.
    Take(ConnNo),
    /// The connection's input ended.
    Ended(ConnNo, Finish),
    /// The connection's link was lost.
    Lost(ConnNo),
    /// The server is to take nothing more.
    Halt,
}

/// What the server answers to an event.
#[derive(Debug, Drop)]
pub enum Reply {
    /// The call of this number is open, and can be worked; or, where a copy came, can be worked on.
    Task(ReqNo),
    /// An ask for the next of what the call reads is queued.
    Asked,
    /// The call waits for the answer to an ask.
    AwaitsAnswer,
    /// The call waits: the kernel isn't ready for it.
    NotReady,
    /// The operation was performed, and its response is queued.
    Done,
    /// The oldest queued frame.
    Out(Frame),
    /// There was nothing to do, or no more than was asked.
    Nothing,
    /// The server can't halt yet: a connection still speaks.
    NotQuiet,
    /// The frame was refused; or, with the error Memory, a call that was worked.
    Refused(SpError),
    /// The connection takes no such event any more, or was never opened.
    Closed,
    /// Memory was refused, and nothing changed.
    NoMemory,
}

impl Reply {
    /// The reply, or the error where memory was refused.
    pub fn or_no_memory(self) -> Result<Reply, NoMemory>
        ensures ok { IfOk result (λ reply. reply ≡ self) }
        ensures memory { IsErr result ↔ (self ≡ Reply.NoMemory) }
    {
        match self {
            Reply::NoMemory => Err(NoMemory),
            reply => Ok(reply),
        }
    }
}
