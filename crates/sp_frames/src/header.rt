//! The 24 bytes at the front of each frame.
ghost use Rattle.std.specs.Prelude.{◌≡◌, ◌≤◌, length};
ghost use Rattle.sp_frames.specs.Reading.{header_at};

use crate::fields::{u16_at, u32_at, u64_at};

/// The fields of a frame's header, in the order of their bytes.
#[derive(Clone, Copy, Debug)]
pub struct Header {
    /// The length of the whole frame, header included.
    pub len: u64,
    /// The request's number.
    pub number: u64,
    /// 0 for a request, 1 for a response, 2 for an error.
    pub class: u16,
    /// The type within the class.
    pub kind: u16,
    /// What the type makes of it: a call's number, an index, an error.
    pub word: u32,
}

/// The header at the front of bytes.
#[tactic(auto, unfolding(crate::specs::Reading::header_at))]
pub fn read_header(bytes: &[u8]) -> Header
    requires { 24 ≤ length bytes.now }
    ensures { result ≡ header_at bytes.now }
{
    Header {
        len: u64_at(bytes, 0),
        number: u64_at(bytes, 8),
        class: u16_at(bytes, 16),
        kind: u16_at(bytes, 18),
        word: u32_at(bytes, 20),
    }
}
