use crate::operation::{Ins, Op};
use crate::outcome::Outcome;
use sp_base::{ConnNo, Pid, ReqNo};

/// For whom an entry was made. No two entries of one journal have the same.
#[derive(Clone, Copy, Debug, PartialEq, Eq)]
pub enum Who {
    /// A request of a connection.
    Request(ConnNo, ReqNo),
    /// The end of a connection.
    End(ConnNo),
    /// A fork cookie, by its number, that was given back unused.
    Cancelled(u64),
    /// A guest of the host kernel, and the count of its entries there, from 1.
    Host(u32, u64),
}

/// One operation that the kernel performed. Its index in the journal is its place.
#[derive(Debug, Drop)]
pub struct Entry {
    pub pid: Pid,
    pub who: Who,
    pub op: Op,
    pub ins: Ins,
    pub outcome: Outcome,
}
