use client_model::{Hello, Reply as ClientReply, Want};
use hub_model::Reply as ServerReply;
use kern_model::Op;
use sp_base::{Answer, Call, Caller, ConnNo, Pid, ReqNo};
use sp_copy::Mem;

/// What happens in a world: a guest does something, a frame moves on, the server works, a link
/// breaks, or a call is made of the host's kernel.
#[derive(Debug, Drop)]
pub enum Event {
    /// A connection of a new number opens, and its client greets.
    Connect(ConnNo, Hello),
    /// A caller asks for a system call over a connection, and lends its memory for it.
    Start(ConnNo, Caller, Call, Mem),
    /// A caller wants a child that a cookie hands over, or a cookie to be taken back.
    Prefork(ConnNo, Caller, Want),
    /// A caller asks for a cookie, with which its process goes on as its next program.
    Preexec(ConnNo, Caller),
    /// A caller asks for the answer to a request.
    Collect(ConnNo, ReqNo),
    /// The oldest frame that is under way to the server comes there; the number is the salt for a
    /// cookie, where the frame makes one.
    ToServer(ConnNo, u64),
    /// The server sends its oldest frame for a connection.
    FromServer(ConnNo),
    /// The oldest frame that is under way to the client comes there.
    ToClient(ConnNo),
    /// The client sends its oldest frame.
    FromClient(ConnNo),
    /// The server works the call of a request.
    Work(ConnNo, ReqNo),
    /// The link of a connection breaks.
    Cut(ConnNo),
    /// A guest closes its connection.
    Ends(ConnNo),
    /// A caller of the guest of a number has a process of the host's kernel perform an operation,
    /// with its memory in hand.
    Host(u32, Caller, Pid, Op, Mem),
    /// It is asked whether the world is still.
    GiveUp,
    /// The server is to take nothing more.
    Halt,
}

/// What is answered to an event.
#[derive(Debug, Drop)]
pub enum Reply {
    /// What the server answered.
    Server(ServerReply),
    /// What the client answered.
    Client(ClientReply),
    /// The host's kernel performed the operation; the memory comes back with what was written.
    Hosted(Answer, Mem),
    /// The host's kernel isn't ready for the operation; the memory comes back.
    HostWaits(Mem),
    /// The frame was moved on, or the link is broken.
    Moved,
    /// There was no frame to move.
    Nothing,
    /// Nothing moves any more by itself.
    Still,
    /// Something still moves.
    NotStill,
    /// The connection isn't there, or the process of the host's kernel isn't live.
    Closed,
    /// Memory was refused, and nothing changed.
    NoMemory,
}
