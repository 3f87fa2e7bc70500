use sp_base::{ConnNo, Place};

/// What was done to hand a process to a connection, or to take such an offer back.
#[derive(Clone, Copy, Debug, PartialEq, Eq)]
pub enum Handover {
    /// A connection speaks for the process that the attach at this place made.
    Attached(ConnNo, Place),
    /// A fork cookie of this number was made, for the child of the fork at this place.
    Forked(u64, Place),
    /// An exec cookie of this number was made by a connection, for the process that it speaks for.
    Readied(u64, ConnNo),
    /// A connection speaks for the child that the fork cookie of this number handed over.
    Joined(ConnNo, u64),
    /// A connection speaks for the process that the exec cookie of this number handed over.
    Imaged(ConnNo, u64),
    /// The unused cookie of this number was taken back.
    Cancelled(u64),
}
