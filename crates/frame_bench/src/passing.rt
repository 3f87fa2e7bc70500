//! Bytes fed to a framer piece by piece.
ghost use Rattle.std.specs.Prelude.{◌<◌, ◌≤◌};

use crate::stream::stream;
use sp_base::Octets;
use sp_frames::{FrameFault, Framer};
use std::alloc::Global;

/// What went through a framer.
#[derive(Clone, Copy, Debug, PartialEq, Eq)]
pub struct Passed {
    /// How many frames came out.
    pub frames: u64,
    /// How many bytes went in.
    pub bytes: u64,
}

/// What is done with the bytes of the frames.
#[derive(Clone, Copy, Debug, PartialEq, Eq)]
pub enum Way {
    /// They are fed in pieces of this size; 0 is all at once.
    Feed(usize),
    /// They are copied once.
    Copy,
    /// Nothing.
    Spell,
}

/// The size of a piece, which is not 0.
fn piece_size(piece: usize, bytes: &[u8]) -> usize
    ensures { 0 < result }
{
    if piece == 0 {
        bytes.len().max(1)
    } else {
        piece
    }
}

/// Takes every frame that is ready, and answers how many there were.
fn take_all(framer: &mut Framer) -> u64 {
    let mut count: u64 = 0;
    while let Some(frame) = framer.next() {
        drop(frame);
        count = count.saturating_add(1);
    }
    count
}

/// Feeds bytes in pieces of a size, and answers how many frames came out.
fn feed_all(alloc: Global, bytes: &[u8], size: usize) -> Result<u64, FrameFault>
    requires { 0 < size }
{
    let mut framer = Framer::fresh(alloc);
    let mut count: u64 = 0;
    let mut rest = bytes;
    while !rest.is_empty() {
        let (piece, after) = rest.split_at(size.min(rest.len()));
        framer.feed(piece)?;
        count = count.saturating_add(take_all(&mut framer));
        rest = after;
    }
    Ok(count)
}

/// Does with bytes what the way says, and answers how many frames came out.
fn handle(alloc: Global, way: Way, bytes: &[u8]) -> Result<u64, FrameFault> {
    match way {
        Way::Feed(piece) => feed_all(alloc, bytes, piece_size(piece, bytes)),
        Way::Copy => {
            let _copy = Octets::of(alloc, bytes)?;
            Ok(0)
        }
        Way::Spell => Ok(0),
    }
}

/// Spells frames, and does with the bytes what the way says.
///
/// Each frame has 32 bytes and those that it puts, 131,040 at most. Nothing is claimed of the
/// counts: they show that the work was done, and how a framer answers is said where it is defined.
pub(crate) fn pass(alloc: Global, count: u32, way: Way, put: u32) -> Result<Passed, FrameFault>
    requires { put ≤ 131040 }
{
    let text = stream(alloc, count, put)?;
    let bytes = text.slice();
    let frames = handle(alloc, way, bytes)?;
    Ok(Passed {
        frames,
        bytes: bytes.len() as u64,
    })
}
