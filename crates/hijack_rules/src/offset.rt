ghost use Rattle.std.specs.Prelude.{◌≡◌, ◌≤◌};
ghost use Rattle.hijack_rules.specs.Offsets.{as_offset, offset_of};

use script_words::numeral;
use std::marker::Model;

/// The lowest offset.
pub const LOWEST_OFFSET: u32 = 32;

/// The highest offset.
pub const HIGHEST_OFFSET: u32 = 4096;

/// The offset of rules that name none.
pub const DEFAULT_OFFSET: u32 = 128;

/// The first number of the rump kernel's descriptors as the guest sees them: 32 to 4,096.
#[derive(Debug, Drop)]
pub struct Offset {
    number: u32,
}

impl Model for Offset {
    ghost use Rattle.std.specs.Prelude.{ℕ, ◌≤◌};

    ghost Value = { ℕ };

    ghost view = { λ o. o.number };

    ghost invariant = { λ o. (32 ≤ o.number) × (o.number ≤ 4096) };
}

impl Offset {
    /// The offset of a number.
    pub fn new(number: u32) -> Offset
        requires low { LOWEST_OFFSET ≤ number }
        requires high { number ≤ HIGHEST_OFFSET }
        ensures { result ≡ number }
    {
        Offset { number }
    }

    /// The number of the offset.
    pub fn number(&self) -> u32
        ensures value { result ≡ self.now }
        ensures low { LOWEST_OFFSET ≤ self.now }
        ensures high { self.now ≤ HIGHEST_OFFSET }
    {
        self.number
    }

    /// The offset of a number; None exactly where it is no offset's. Takes no memory.
    pub fn of_number(number: u64) -> Option<Offset>
        ensures { result ≡ as_offset number }
    {
        if number < u64::from(LOWEST_OFFSET) || number > u64::from(HIGHEST_OFFSET) {
            return None;
        }
        Some(Offset::new(number as u32))
    }

    /// The offset that a text is, in decimal digits; None exactly where it is none. Takes no
    /// memory.
    #[tactic(auto, unfolding(crate::specs::Offsets::offset_of))]
    pub fn of(text: &[u8]) -> Option<Offset>
        ensures { result ≡ offset_of text.now }
    {
        match numeral(10, text) {
            Some(number) => Offset::of_number(number),
            None => None,
        }
    }
}
