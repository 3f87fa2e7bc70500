ghost use Rattle.std.specs.Prelude.{◌≡◌, ◌<◌, ◌==◌, Err, IfOk, IfSome, MatchResult, Ok, length, position, take, true};
ghost use Rattle.sp_copy.specs.declared.part.Part.{Part};
ghost use Rattle.sp_base.specs.Needs.{IsPiece};
ghost use Rattle.sp_copy.specs.Reading.{gives, given, read_from, text_in};

use crate::fault::CopyFault;
use crate::part::{Part, Right};
use sp_base::Need;

/// Whether a part, told by its three fields, has all that the need names.
pub fn gives(need: &Need, base: u64, right: Right, bytes: &[u8]) -> bool
    ensures { result ≡ gives need.now (record { base = base; right = right; bytes = bytes.now }) }
{
    let len = bytes.len() as u64;
    match need {
        Need::Bytes(addr, count) => {
            right.can_read()
                && base <= *addr
                && *addr - base <= len
                && *count <= len - (*addr - base)
        }
        Need::Text(addr, _) => right.can_read() && base <= *addr && *addr - base < len,
    }
}

/// The first `most` bytes, or all.
fn window(bytes: &[u8], most: u64) -> &[u8]
    ensures { result.now ≡ take most bytes.now }
{
    if most > bytes.len() as u64 {
        return bytes;
    }
    let (window, _) = bytes.split_at(most as usize);
    window
}

/// The place of the first zero byte.
fn first_zero(bytes: &[u8]) -> Option<usize>
    ensures place { result ≡ position (λ b. b == 0) bytes.now }
    ensures within { IfSome result (λ i. i < length bytes.now) }
{
    bytes.iter().position(|b| *b == 0)
}

/// The bytes before the first zero byte among the first `most`.
fn text_in(bytes: &[u8], most: u64) -> Result<&[u8], CopyFault>
    ensures value { let reads = text_in bytes.now most in
        MatchResult result (λ text. reads ≡ Ok text.now) (λ e. reads ≡ Err e) }
    ensures short { IfOk result (λ text. length text.now < most) }
{
    let Some(i) = first_zero(window(bytes, most)) else {
        if most <= bytes.len() as u64 {
            return Err(CopyFault::NoEnd);
        }
        return Err(CopyFault::Fault);
    };
    let (text, _) = bytes.split_at(i);
    Ok(text)
}

/// What a need reads in a part that has it.
pub fn given<'a>(
    need: &Need,
    base: u64,
    right: Right,
    bytes: &'a [u8],
) -> Result<&'a [u8], CopyFault>
    requires { gives need.now (record { base = base; right = right; bytes = bytes.now }) ≡ true }
    ensures { let part : Part = record { base = base; right = right; bytes = bytes.now } in
        let reads = given need.now part in
        MatchResult result (λ piece. reads ≡ Ok piece.now) (λ e. reads ≡ Err e) }
{
    match need {
        Need::Bytes(addr, len) => {
            let (_, rest) = bytes.split_at((*addr - base) as usize);
            let (piece, _) = rest.split_at(*len as usize);
            Ok(piece)
        }
        Need::Text(addr, most) => {
            let (_, rest) = bytes.split_at((*addr - base) as usize);
            text_in(rest, *most)
        }
    }
}

/// What a need reads in the first part that has it.
pub fn look_in<'a>(parts: &'a [Part], need: &Need) -> Result<&'a [u8], CopyFault>
    ensures { let reads = read_from parts.now need.now in
        MatchResult result (λ piece. reads ≡ Ok piece.now) (λ e. reads ≡ Err e) }
{
    for part in parts {
        let bytes = part.bytes.slice();
        if gives(need, part.base, part.right, bytes) {
            return given(need, part.base, part.right, bytes);
        }
    }
    Err(CopyFault::Fault)
}
