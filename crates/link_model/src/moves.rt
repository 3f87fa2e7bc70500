use sp_base::ReqNo;

/// What happens on a link between a client and a server. A frame is in the queue of one side, and is
/// never under way.
#[derive(Clone, Copy, Debug, PartialEq, Eq)]
pub enum Move {
    /// The client's oldest frame goes to the server.
    ToServer,
    /// The server's oldest frame goes to the client.
    ToClient,
    /// The server works the call of a number, with memory for it.
    Work(ReqNo),
}
