//! Why a step isn't done.

use sp_base::NoMemory;

/// Why words give no step.
#[derive(Clone, Copy, Debug, PartialEq, Eq)]
pub enum Fault {
    /// They are no step's.
    NotUnderstood,
    NoMemory,
}

impl From<NoMemory> for Fault {
    fn from(_e: NoMemory) -> Fault {
        Fault::NoMemory
    }
}
