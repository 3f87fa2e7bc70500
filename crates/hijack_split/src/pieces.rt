ghost use Rattle.std.specs.Prelude.{◌≡◌, ◌<◌, ◌+◌, [], ◌∷◌, IfNone, IfSome, drop, length, take};
ghost use Rattle.script_words.specs.Pieces.{pieces_of};

use script_words::first_place;

/// The end of the first piece; None where it is the last one.
fn first_end(bytes: &[u8], separator: u8) -> Option<usize>
    ensures last { IfNone result (pieces_of separator bytes.now ≡ bytes.now ∷ []) }
    ensures within { IfSome result (λ i. i < length bytes.now) }
    ensures first { IfSome result (λ i. pieces_of separator bytes.now
        ≡ take i bytes.now ∷ pieces_of separator (drop (i + 1) bytes.now)) }
    ensures more { IfSome result (λ i.
        0 < length (pieces_of separator (drop (i + 1) bytes.now))) }
{
    match first_place(bytes, separator) {
        Some(i) => Some(i),
        None => None,
    }
}

/// The first piece and what stands behind its separator; None where no separator is left.
pub fn split_first(bytes: &[u8], separator: u8) -> Option<(&[u8], &[u8])>
    ensures last { IfNone result (pieces_of separator bytes.now ≡ bytes.now ∷ []) }
    ensures first { IfSome result (λ parts.
        pieces_of separator bytes.now ≡ parts.0.now ∷ pieces_of separator parts.1.now) }
    ensures more { IfSome result (λ parts. 0 < length (pieces_of separator parts.1.now)) }
    ensures shorter { IfSome result (λ parts. length parts.1.now < length bytes.now) }
{
    match first_end(bytes, separator) {
        Some(end) => {
            let (piece, _) = bytes.split_at(end);
            let (_, rest) = bytes.split_at(end + 1);
            Some((piece, rest))
        }
        None => None,
    }
}
