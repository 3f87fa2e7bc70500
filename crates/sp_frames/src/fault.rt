ghost use Rattle.std.specs.Prelude.{◌≡◌};
ghost use Rattle.sp_frames.specs.declared.fault.FrameFault.TheVariants as fault;

use sp_base::NoMemory;
use std::alloc::AllocError;
use thiserror::Error;

/// Why bytes are no frames, in the order in which faults are looked for.
///
/// Each is judged once the 24 bytes of a header are held; only a fault of a payload's content waits
/// for the whole frame.
#[derive(Clone, Copy, Debug, PartialEq, Eq, Error)]
pub enum FrameFault {
    /// The header's length is below 24.
    #[error("a length of {0} is below 24")]
    TooShort(u64),
    /// The header's length is above 131,072.
    #[error("a length of {0} is above 131072")]
    TooLong(u64),
    /// The header's class is above 2.
    #[error("no class {0}")]
    Class(u16),
    /// The header's class has no such type.
    #[error("no type {0} in this class")]
    Kind(u16),
    /// The header's type has no such word.
    #[error("type {kind} has no word {word}")]
    Word { kind: u16, word: u32 },
    /// The payload's length or content is outside its row; `len` is the header's length.
    #[error("a frame of type {kind} with {len} bytes is outside its row")]
    Payload { kind: u16, len: u64 },
    /// Memory was refused. It says nothing of the bytes.
    #[error("out of memory")]
    NoMemory,
}

impl From<NoMemory> for FrameFault {
    ghost from_gives = { λ _ e. e ≡ fault.NoMemory };

    fn from(_e: NoMemory) -> FrameFault {
        FrameFault::NoMemory
    }
}

impl From<AllocError> for FrameFault {
    ghost from_gives = { λ _ e. e ≡ fault.NoMemory };

    fn from(_e: AllocError) -> FrameFault {
        FrameFault::NoMemory
    }
}
