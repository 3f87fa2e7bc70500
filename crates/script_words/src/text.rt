ghost use Rattle.std.specs.Prelude.{◌≡◌, ◌<◌, [], IfOk, IfSome};
ghost use Rattle.script_words.specs.Texts.{escape_len, escaped, hex_byte, text_from, text_of};

use crate::number::digit_in;
use crate::splitting::byte_at;
use sp_base::{NoMemory, Octets};
use std::alloc::Global;

/// The byte of two hexadecimal digits.
fn hex_byte(high: Option<u64>, low: Option<u64>) -> Option<u8>
    requires high { IfSome high (λ d. d < 16) }
    requires low { IfSome low (λ d. d < 16) }
    ensures { result ≡ hex_byte high low }
{
    match (high, low) {
        (Some(h), Some(l)) => Some((16 * h + l) as u8),
        _ => None,
    }
}

/// The byte that is spelled by what stands behind a backslash.
#[tactic(auto, unfolding(crate::specs::Texts::escaped))]
fn escaped(bytes: &[u8]) -> Option<u8>
    ensures { result ≡ escaped bytes.now }
{
    let kind = byte_at(bytes, 0);
    if kind == b'"' {
        return Some(b'"');
    }
    if kind == b'\\' {
        return Some(b'\\');
    }
    if kind == b'n' {
        return Some(b'\n');
    }
    if kind == b'x' {
        return hex_byte(
            digit_in(16, byte_at(bytes, 1)),
            digit_in(16, byte_at(bytes, 2)),
        );
    }
    None
}

/// How many bytes stand for it.
#[tactic(auto, unfolding(crate::specs::Texts::escape_len))]
fn escape_len(bytes: &[u8]) -> usize
    ensures { result ≡ escape_len bytes.now }
{
    if byte_at(bytes, 0) == b'x' { 3 } else { 1 }
}

/// The text that stands before a last quote.
fn text_before(alloc: Global, body: &[u8]) -> Result<Option<Octets>, NoMemory>
    ensures { IfOk result (λ found. found ≡ text_from [] 0 body.now) }
{
    let mut text = Octets::none(alloc);
    let mut skip: usize = 0;
    for (i, b) in body.iter().enumerate() {
        let b = *b;
        if skip > 0 {
            skip -= 1;
            continue;
        }
        let (_, after) = body.split_at(i + 1);
        if b == b'"' {
            if after.is_empty() {
                return Ok(Some(text));
            }
            return Ok(None);
        }
        if b != b'\\' {
            text.push(b)?;
            skip = 0;
            continue;
        }
        let Some(e) = escaped(after) else {
            return Ok(None);
        };
        text.push(e)?;
        skip = escape_len(after);
    }
    Ok(None)
}

/// The bytes that a word in double quotes spells; none where it isn't spelled so. The only error is
/// want of memory.
#[tactic(auto, unfolding(crate::specs::Texts::text_of))]
pub fn text_of(alloc: Global, word: &[u8]) -> Result<Option<Octets>, NoMemory>
    ensures { IfOk result (λ found. found ≡ text_of word.now) }
{
    if byte_at(word, 0) != b'"' {
        return Ok(None);
    }
    let (_, body) = word.split_at(1);
    text_before(alloc, body)
}
