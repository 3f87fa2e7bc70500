//! A kernel as one process sees it.
ghost use Rattle.std.specs.Prelude.{◌≡◌, ◌≤◌, ℕ, IfErr, List, Result};
ghost use Rattle.sp_base.specs.declared.call.Call.{Call};
ghost use Rattle.sp_base.specs.declared.names.Answer.{Answer};
ghost use Rattle.sp_copy.specs.declared.part.Part.{Part};
ghost use Rattle.hijack_calls.specs.Sides.{HasRisen};
ghost use Rattle.hijack_calls.specs.declared.side.Cause.{Cause};
ghost use Rattle.hijack_calls.specs.declared.side.SideFault.{SideFault};

use sp_base::{Answer, Call, SpError};
use sp_copy::Mem;
use std::sync::Wait;

/// Why a call has no answer, with its caller's memory.
#[derive(Debug, Drop)]
pub enum SideFault {
    /// The kernel would have it wait.
    Blocked(Mem),
    /// The server refused it, for this.
    Refused(SpError, Mem),
    /// The link to the server broke; whether the call was performed isn't known.
    Lost(Mem),
    /// What the server said is no answer.
    Broken(Mem),
    /// Memory was refused.
    NoMemory(Mem),
}

/// What a side counts: how often each fault came, but for want of memory.
#[derive(Clone, Copy, Debug, PartialEq, Eq)]
pub enum Cause {
    Blocked,
    Refused,
    Lost,
    Broken,
}

/// A kernel that performs calls for one process, and waits for nobody.
pub trait Side {
    /// What it may do: the side before a call, the call, its caller's memory, what it answers, and
    /// the side after it.
    ghost does: { Self → Call → List Part → Result (Answer × List Part) SideFault → Self → Type 0 };

    /// How often each fault came. A count never falls; at 2^64 - 1 it stays.
    ghost faults: { Self → Cause → ℕ };

    /// Performs a call, and gives its caller's memory back. A fault other than want of memory comes
    /// only where its count rose.
    fn call(&mut self, call: &Call, mem: Mem) -> Result<(Answer, Mem), SideFault>
        ensures does { does self.old call.now mem result self.new }
        ensures later { (cause : Cause) → faults self.old cause ≤ faults self.new cause }
        ensures risen { IfErr result (HasRisen (faults self.old) (faults self.new)) };
}

/// A kernel that performs calls for one process, and may wait until it can.
pub trait WaitSide {
    /// What it may do, as a `Side` tells it.
    ghost does: { Self → Call → List Part → Result (Answer × List Part) SideFault → Self → Type 0 };

    /// How often each fault came. A count never falls; at 2^64 - 1 it stays.
    ghost faults: { Self → Cause → ℕ };

    /// Performs a call, and gives its caller's memory back. A fault other than want of memory comes
    /// only where its count rose.
    fn call<W: Wait>(&mut self, rt: &W, call: &Call, mem: Mem) -> Result<(Answer, Mem), SideFault>
        ensures does { does self.old call.now mem result self.new }
        ensures later { (cause : Cause) → faults self.old cause ≤ faults self.new cause }
        ensures risen { IfErr result (HasRisen (faults self.old) (faults self.new)) };
}
