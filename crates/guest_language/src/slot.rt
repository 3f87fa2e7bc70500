//! What a line asks for, and the memory that it brings.
ghost use Rattle.std.specs.Prelude.{◌≡◌};
ghost use Rattle.guest_language.specs.Made.{plain, with_both, with_first};

use sp_base::{Call, Octets};

/// What lies at one of a line's addresses.
#[derive(Debug, Drop)]
pub enum Slot {
    /// Nothing: the line names no bytes there, or an address in no part.
    Nothing,
    /// Bytes that the line gives, and that the call reads.
    Given(Octets),
    /// So many bytes `x`, which the call reads.
    Filled(u64),
    /// So many zero bytes, which the call may write.
    Blank(u64),
    /// Bytes that the line gives, and that the call reads and may write.
    Entries(Octets),
}

/// A call as a line spells it, with what lies at its first and at its second address.
#[derive(Debug, Drop)]
pub struct Made {
    pub call: Call,
    pub first: Slot,
    pub second: Slot,
}

/// The address of a line's first argument that lies in memory.
pub const FIRST: u64 = 0x1000_0000;

/// The address of a line's second argument that lies in memory.
pub const SECOND: u64 = 0x2000_0000;

/// The address that `bad` stands for, which is in no part.
pub const BAD: u64 = 16;

impl Made {
    /// A call with nothing in memory.
    pub fn plain(call: Call) -> Made
        ensures { result ≡ plain call }
    {
        Made {
            call,
            first: Slot::Nothing,
            second: Slot::Nothing,
        }
    }

    /// A call with something at its first address.
    pub fn with_first(call: Call, first: Slot) -> Made
        ensures { result ≡ with_first call first }
    {
        Made {
            call,
            first,
            second: Slot::Nothing,
        }
    }

    /// A call with something at both addresses.
    pub fn with_both(call: Call, first: Slot, second: Slot) -> Made
        ensures { result ≡ with_both call first second }
    {
        Made {
            call,
            first,
            second,
        }
    }
}
