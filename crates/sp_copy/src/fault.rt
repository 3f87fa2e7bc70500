ghost use Rattle.std.specs.Prelude.{◌≡◌};
ghost use Rattle.sp_copy.specs.Gathering.{fault_errno};
ghost use Rattle.sp_copy.specs.declared.fault.CopyFault.TheVariants as fault;

use sp_base::{Errno, NoMemory};
use thiserror::Error;

/// Why a list of parts is no memory. The numbers are those of parts, counted from 0.
#[derive(Clone, Copy, Debug, PartialEq, Eq, Error)]
pub enum MemFault {
    /// The part begins below 4,096.
    #[error("part {0} begins below 4096")]
    TooLow(u32),
    /// The part's end passes 2^63.
    #[error("part {0} ends above 2^63")]
    TooHigh(u32),
    /// The two parts, the earlier one first, share an address.
    #[error("parts {0} and {1} share an address")]
    Overlap(u32, u32),
    /// Memory was refused. A memory that takes its parts over never wants any.
    #[error("out of memory")]
    NoMemory,
}

/// Why something can't be read.
#[derive(Clone, Copy, Debug, PartialEq, Eq, Error)]
pub enum CopyFault {
    /// It doesn't lie in one part that may be read.
    #[error("not in one readable part")]
    Fault,
    /// A text has no zero byte among as many bytes as are looked at.
    #[error("a text without end")]
    NoEnd,
    /// Memory was refused.
    #[error("out of memory")]
    NoMemory,
}

/// A range doesn't lie wholly in one part that may be written.
#[derive(Clone, Copy, Debug, PartialEq, Eq, Error)]
#[error("not in one writable part")]
pub struct NotWritable;

impl From<NoMemory> for CopyFault {
    ghost from_gives = { λ _ made. made ≡ fault.NoMemory };

    fn from(_e: NoMemory) -> CopyFault {
        CopyFault::NoMemory
    }
}

impl CopyFault {
    /// What a call is answered whose need has the fault; none for want of memory.
    pub fn errno(self) -> Option<Errno>
        ensures { result ≡ fault_errno self }
    {
        match self {
            CopyFault::Fault => Some(Errno::Efault),
            CopyFault::NoEnd => Some(Errno::Enametoolong),
            CopyFault::NoMemory => None,
        }
    }
}
