use sp_base::{Answer, Call, Caller, Cookie, Octets, Pid, Place, ReqNo, SpError};
use sp_copy::Mem;
use sp_frames::Frame;

/// How a client begins, with a name of 1 to 255 bytes without a zero.
#[derive(Debug, Drop)]
pub enum Hello {
    /// As a guest of this name, for which the server makes a process.
    Guest(Octets),
    /// As the child that a cookie hands over, under this name.
    Join(Cookie, Octets),
    /// As the next program, of this name, of the process that a cookie hands over.
    Image(Cookie, Octets),
}

/// What a caller wants of a cookie.
#[derive(Clone, Copy, Debug, PartialEq, Eq)]
pub enum Want {
    /// A child of the caller's process, and a cookie that hands it over.
    Make,
    /// That a cookie that the client was given is taken back: a child that it would have handed
    /// over ends, and a process that was to go on as its next program goes on as it is.
    Cancel(Cookie),
}

/// What happens to the client.
#[derive(Debug, Drop)]
pub enum Event {
    /// A caller asks for a system call, and lends its memory for it.
    Start(Caller, Call, Mem),
    /// A caller wants a child that a cookie hands over, or a cookie to be taken back.
    Prefork(Caller, Want),
    /// A caller asks for a cookie, with which its process goes on as its next program.
    Preexec(Caller),
    /// A frame came from the server.
    Frame(Frame),
    /// A caller asks for the answer to a request.
    Collect(ReqNo),
    /// The link can send a frame.
    Take,
    /// The link is gone.
    Gone,
}

/// What the client answers to an event. The memory that a caller lent comes back with the reply
/// that ends its request.
#[derive(Debug, Drop)]
pub enum Reply {
    /// The request has this number.
    Started(ReqNo),
    /// As many requests are open as can be, or there is no number left.
    Busy(Mem),
    /// The call was performed.
    Got(Answer, Mem),
    /// The client speaks for a process; the place is that of its entry, where the server tells it.
    Joined {
        pid: Pid,
        place: Option<Place>,
    },
    /// The process has a child, which the cookie hands over; the place is that of the fork's entry.
    Forked {
        cookie: Cookie,
        place: Place,
        pid: Pid,
    },
    /// The cookie was taken back.
    Cancelled,
    /// The process can go on as its next program, over a connection that has the cookie.
    ExecReady(Cookie),
    /// The server refused the request.
    Refused(SpError, Mem),
    /// The link is gone: whether the call was performed isn't known.
    Lost(Mem),
    /// The server is out of its mind: whether the call was performed isn't known.
    Broken(Mem),
    /// The handshake, or the request, isn't answered yet.
    NotYet(Mem),
    /// The oldest queued frame.
    Out(Frame),
    /// There was nothing to do, or no more than was asked.
    Nothing,
    /// The frame is none that the server may send now.
    BadServer(Frame),
    /// No request of this number is open.
    Unknown,
    /// Memory was refused, and nothing changed.
    NoMemory(Mem),
}
