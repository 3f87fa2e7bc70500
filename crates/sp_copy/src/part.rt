ghost use Rattle.std.specs.Prelude.{◌≡◌, IfOk};
ghost use Rattle.sp_copy.specs.Parts.{can_read, can_write, share_address};

use sp_base::{NoMemory, Octets};
use std::alloc::Global;

/// What a call may do with a part of memory.
#[derive(Clone, Copy, Debug, PartialEq, Eq)]
pub enum Right {
    /// It is only read.
    Readable,
    /// It is only written.
    Writable,
    /// It is read and written.
    Both,
}

/// Bytes of a caller, from an address on.
#[derive(Debug, Drop)]
pub struct Part {
    /// The address of the first byte.
    pub base: u64,
    /// What a call may do with the bytes.
    pub right: Right,
    /// The bytes.
    pub bytes: Octets,
}

/// The lowest address at which a part may begin.
pub const LOWEST_BASE: u64 = 4_096;

/// The highest address at which a part may end.
pub const HIGHEST_END: u64 = 1 << 63;

/// Where every memory has the text `/` with its zero byte, which is only read.
pub const ROOT_BASE: u64 = 8;

impl Right {
    /// Whether a call may read the bytes.
    pub fn can_read(self) -> bool
        ensures { result ≡ can_read self }
    {
        match self {
            Right::Readable | Right::Both => true,
            Right::Writable => false,
        }
    }

    /// Whether a call may write the bytes.
    pub fn can_write(self) -> bool
        ensures { result ≡ can_write self }
    {
        match self {
            Right::Writable | Right::Both => true,
            Right::Readable => false,
        }
    }
}

impl Part {
    /// A copy of the part. The only error is want of memory.
    pub fn copy(&self, alloc: Global) -> Result<Part, NoMemory>
        ensures { IfOk result (λ part. part ≡ self.now) }
    {
        let bytes = Octets::of(alloc, self.bytes.slice())?;
        Ok(Part {
            base: self.base,
            right: self.right,
            bytes,
        })
    }

    /// Whether some address is in both parts. A part without bytes has no address.
    pub fn shares(&self, other: &Part) -> bool
        ensures { result ≡ share_address self.now other.now }
    {
        let len = self.bytes.len() as u64;
        let other_len = other.bytes.len() as u64;
        len > 0
            && other_len > 0
            && (self.base < other.base || self.base - other.base < other_len)
            && (other.base < self.base || other.base - self.base < len)
    }
}
