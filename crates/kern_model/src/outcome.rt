ghost use Rattle.std.specs.Prelude.{◌≡◌};
ghost use Rattle.kern_model.specs.Outcome.{success, failure};

use sp_base::{Errno, Items, Octets};
use std::alloc::Global;

/// Bytes that a call writes into the caller's memory, and their address there.
#[derive(Debug, Drop)]
pub struct OutPiece {
    pub addr: u64,
    pub bytes: Octets,
}

/// All that a call writes, in order.
pub type Outs = Items<OutPiece>;

/// What an operation gives: an error number, or 0, two values, and what it writes.
#[derive(Debug, Drop)]
pub struct Outcome {
    pub err: u32,
    pub ret0: u64,
    pub ret1: u64,
    pub outs: Outs,
}

impl Outcome {
    /// A success with one value, which writes nothing.
    pub fn success(alloc: Global, value: u64) -> Outcome
        ensures { result ≡ success value }
    {
        Outcome {
            err: 0,
            ret0: value,
            ret1: 0,
            outs: Items::none(alloc),
        }
    }

    /// An error, whose values are 0 and which writes nothing.
    pub fn failure(alloc: Global, error: Errno) -> Outcome
        ensures { result ≡ failure error }
    {
        Outcome {
            err: error.number(),
            ret0: 0,
            ret1: 0,
            outs: Items::none(alloc),
        }
    }
}
