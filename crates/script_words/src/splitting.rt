ghost use Rattle.std.specs.Prelude.{◌≡◌, ◌<◌, ◌≤◌, ◌+◌, ◌==◌, [], ◌∷◌, IfNone, IfOk, IfSome, drop, length, map, position, slice_index, take};
ghost use Rattle.script_words.specs.Pieces.{pieces_of};

use sp_base::NoMemory;
use std::alloc::Global;

/// The byte at a place, and 0 past the end.
pub fn byte_at(bytes: &[u8], i: usize) -> u8
    ensures { result ≡ slice_index bytes.now i }
{
    if i < bytes.len() { bytes[i] } else { 0 }
}

/// The first place of a byte.
pub fn first_place(bytes: &[u8], separator: u8) -> Option<usize>
    ensures place { result ≡ position (λ b. b == separator) bytes.now }
    ensures within { IfSome result (λ i. i < length bytes.now) }
{
    bytes.iter().position(|b| *b == separator)
}

/// The end of the first piece, if it isn't the last.
fn first_end(bytes: &[u8], separator: u8) -> Option<usize>
    ensures last { IfNone result (pieces_of separator bytes.now ≡ bytes.now ∷ []) }
    ensures within { IfSome result (λ i. i < length bytes.now) }
    ensures first { IfSome result (λ i.
        pieces_of separator bytes.now
        ≡ take i bytes.now ∷ pieces_of separator (drop (i + 1) bytes.now)) }
{
    match first_place(bytes, separator) {
        Some(i) => Some(i),
        None => None,
    }
}

/// The pieces between the bytes that are the separator. The only error is want of memory.
pub fn pieces(alloc: Global, bytes: &[u8], separator: u8) -> Result<Vec<&[u8]>, NoMemory>
    ensures pieces { IfOk result (λ pieces. map (λ w. w.now) pieces.items ≡ pieces_of separator bytes.now) }
    ensures count { IfOk result (λ pieces. length pieces.items ≤ length bytes.now + 1) }
{
    let mut pieces = Vec::new(alloc);
    let mut rest = bytes;
    while let Some(i) = first_end(rest, separator) {
        let (piece, _) = rest.split_at(i);
        pieces.push(piece)?;
        let (_, left) = rest.split_at(i + 1);
        rest = left;
    }
    pieces.push(rest)?;
    Ok(pieces)
}
