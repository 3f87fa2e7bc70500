ghost use Rattle.std.specs.Prelude.{◌≡◌};
ghost use Rattle.client_model.specs.Requests.{over};

use crate::event::Reply;
use sp_base::{Answer, Call, Cookie, Pid, Place, SpError};
use sp_copy::Mem;

/// How many requests of one client are open at the most.
pub const OPEN_REQUESTS: u64 = 64;

/// What was asked of the server.
#[derive(Debug, Drop)]
pub enum Request {
    /// A process of its own, by the handshake.
    Attach,
    /// The child that a cookie hands over, by the handshake.
    Join,
    /// The process that a cookie hands over to its next program, by the handshake.
    Image,
    /// A system call.
    Call(Call),
    /// A child, and a cookie that hands it over.
    Prefork,
    /// That a cookie is taken back.
    Cancel,
    /// A cookie with which the process goes on as its next program.
    Preexec,
}

/// What the server answered to a request.
#[derive(Clone, Copy, Debug, PartialEq, Eq)]
pub enum Response {
    /// The client speaks for a process, which was made for it or is a child.
    Joined(Pid),
    /// The client speaks for a process as its next program; the place is that of its exec.
    Imaged(Pid, Place),
    /// The call was performed.
    Answered(Answer),
    /// The process has a child, which the cookie hands over; the place is that of the fork.
    Forked {
        cookie: Cookie,
        place: Place,
        pid: Pid,
    },
    /// The cookie was taken back.
    Cancelled,
    /// The process can go on as its next program, by the cookie.
    ExecReady(Cookie),
    /// The request was refused.
    Refused(SpError),
}

/// What ended the talk with the server; the first one decides.
#[derive(Clone, Copy, Debug, PartialEq, Eq)]
pub enum Ending {
    /// The link is gone.
    Gone,
    /// The server sent what no server may send.
    Broken,
}

impl Ending {
    /// What an unanswered request is answered once this ended the talk with the server.
    pub fn reply(self, mem: Mem) -> Reply
        ensures { result ≡ over self mem }
    {
        match self {
            Ending::Gone => Reply::Lost(mem),
            Ending::Broken => Reply::Broken(mem),
        }
    }
}
