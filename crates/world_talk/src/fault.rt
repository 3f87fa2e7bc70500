//! Why a step isn't done.

use sp_base::NoMemory;

/// Why words give no step, or a step no answer.
#[derive(Clone, Copy, Debug, PartialEq, Eq)]
pub enum Fault {
    /// They are no step's.
    NotUnderstood,
    /// What came isn't what the world promises, in these words.
    Wrong(&'static str),
    NoMemory,
}

impl From<NoMemory> for Fault {
    fn from(_e: NoMemory) -> Fault {
        Fault::NoMemory
    }
}
