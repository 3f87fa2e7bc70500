use sp_base::{Call, Cookie, Errno, SpError};

/// What becomes of a frame that comes over a connection.
#[derive(Debug, Drop)]
pub enum Verdict {
    /// Nothing: the connection takes no frame any more.
    Closed,
    /// The connection drains: the frame is none that its client may send now.
    Malformed,
    /// The request is refused with an error.
    Refused(SpError),
    /// A process is made, for which the connection speaks from then on.
    Attach,
    /// The connection speaks from then on for the child that a fork cookie hands over.
    Join(Cookie),
    /// The connection speaks from then on for the process that an exec cookie hands over, which
    /// goes on as its next program.
    Image(Cookie),
    /// The connection's process forks, and a cookie hands its child over.
    Fork,
    /// A cookie is made by which the connection's process is to go on as its next program.
    Ready,
    /// An unused cookie of the connection is taken back.
    Cancel(Cookie),
    /// A call is open.
    Task(Call),
    /// The bytes that came are what an open call reads next.
    Copy,
    /// What an open call reads next couldn't be read.
    CopyFault(Errno),
}
