//! Numbers as bytes, the lowest byte first.
ghost use Rattle.std.specs.Prelude.{◌≡◌, ◌+◌, ◌≤◌, length, take, drop};
ghost use Rattle.sp_frames.specs.Fields.{of16, of32, of64};

/// The number of the eight bytes at a place.
#[tactic(auto, unfolding(crate::specs::Fields::of64))]
pub fn u64_at(bytes: &[u8], at: usize) -> u64
    requires { at + 8 ≤ length bytes.now }
    ensures { result ≡ of64 (take 8 (drop at bytes.now)) }
{
    let (_, rest) = bytes.split_at(at);
    let (front, _) = rest.split_at(8);
    u64::from_le_bytes([
        front[0], front[1], front[2], front[3], front[4], front[5], front[6], front[7],
    ])
}

/// The number of the four bytes at a place.
#[tactic(auto, unfolding(crate::specs::Fields::of32))]
pub fn u32_at(bytes: &[u8], at: usize) -> u32
    requires { at + 4 ≤ length bytes.now }
    ensures { result ≡ of32 (take 4 (drop at bytes.now)) }
{
    let (_, rest) = bytes.split_at(at);
    let (front, _) = rest.split_at(4);
    u32::from_le_bytes([front[0], front[1], front[2], front[3]])
}

/// The number of the two bytes at a place.
#[tactic(auto, unfolding(crate::specs::Fields::of16))]
pub fn u16_at(bytes: &[u8], at: usize) -> u16
    requires { at + 2 ≤ length bytes.now }
    ensures { result ≡ of16 (take 2 (drop at bytes.now)) }
{
    let (_, rest) = bytes.split_at(at);
    let (front, _) = rest.split_at(2);
    u16::from_le_bytes([front[0], front[1]])
}
