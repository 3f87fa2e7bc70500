use kern_model::{Ins, Op};
use sp_base::Place;

/// What became of an operation.
#[derive(Clone, Copy, Debug, PartialEq, Eq)]
pub enum Acted {
    /// It was performed, and its entry stands at this place of the journal.
    Done(Place),
    /// It waits, and nothing changed.
    NotReady,
    /// Memory was refused, and nothing changed.
    NoMemory,
}

/// What became of an operation, which is handed back where it wasn't performed: what was gathered for it can't be asked for again.
#[derive(Debug, Drop)]
pub enum Tried {
    /// It was performed, and its entry stands at this place of the journal.
    Done(Place),
    /// It waits, and nothing changed.
    NotReady(Op, Ins),
    /// Memory was refused, and nothing changed.
    NoMemory(Op, Ins),
}
