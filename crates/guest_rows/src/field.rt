//! Numbers in the bytes that a call writes.
ghost use Rattle.std.specs.Prelude.{◌≡◌, ◌+◌, ◌≤◌, length};
ghost use Rattle.guest_rows.specs.Fields.{u16_in, u32_in, u64_in};

/// The number of two bytes at a place, low byte first.
#[tactic(auto, unfolding(crate::specs::Fields::u16_in))]
pub fn u16_at(bytes: &[u8], at: usize) -> u16
    requires { at + 2 ≤ length bytes.now }
    ensures { result ≡ u16_in at bytes.now }
{
    let (_, rest) = bytes.split_at(at);
    u16::from_le_bytes([rest[0], rest[1]])
}

/// The number of four bytes at a place, low byte first.
#[tactic(auto, unfolding(crate::specs::Fields::u32_in))]
pub fn u32_at(bytes: &[u8], at: usize) -> u32
    requires { at + 4 ≤ length bytes.now }
    ensures { result ≡ u32_in at bytes.now }
{
    let (_, rest) = bytes.split_at(at);
    u32::from_le_bytes([rest[0], rest[1], rest[2], rest[3]])
}

/// The number of eight bytes at a place, low byte first.
#[tactic(auto, unfolding(crate::specs::Fields::u64_in))]
pub fn u64_at(bytes: &[u8], at: usize) -> u64
    requires { at + 8 ≤ length bytes.now }
    ensures { result ≡ u64_in at bytes.now }
{
    let (_, rest) = bytes.split_at(at);
    u64::from_le_bytes([
        rest[0], rest[1], rest[2], rest[3], rest[4], rest[5], rest[6], rest[7],
    ])
}
