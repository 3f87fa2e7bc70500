//! The names of guests.
ghost use Rattle.std.specs.Prelude.{◌≡◌, ◌<◌, ◌≤◌, IfOk, IfSome, MatchOption, None, Some, length, map};
ghost use Rattle.std.specs.List.{list_all};
ghost use Rattle.guest_language.specs.Names.{guest_name, is_letter, is_name, is_name_byte, names_of, place_of};

use script_words::{byte_at, words_of};
use sp_base::NoMemory;
use std::alloc::Global;

/// Whether a byte is a letter of a name.
fn is_letter(b: u8) -> bool
    ensures { result ≡ is_letter b }
{
    b >= b'a' && b <= b'z'
}

/// Whether a word has bytes of names alone.
fn all_name_bytes(word: &[u8]) -> bool
    ensures { result ≡ list_all is_name_byte word.now }
{
    word.iter().all(|b| is_letter(*b) || (*b >= b'0' && *b <= b'9') || *b == b'_')
}

/// Whether a word is a guest's name.
#[tactic(auto, unfolding(crate::specs::Names::is_name))]
pub fn is_name(word: &[u8]) -> bool
    ensures { result ≡ is_name word.now }
{
    is_letter(byte_at(word, 0)) && word.len() <= 31 && all_name_bytes(word)
}

/// The name in the words of a line `guest NAME`.
fn guest_name<'a>(words: &[&'a [u8]]) -> Option<&'a [u8]>
    ensures { MatchOption result
        (guest_name (map (λ w. w.now) words.now) ≡ None)
        (λ name. guest_name (map (λ w. w.now) words.now) ≡ Some name.now) }
{
    let [verb, name] = words else {
        return None;
    };
    if *verb != b"guest".as_slice() || !is_name(name) {
        return None;
    }
    Some(*name)
}

/// The names of all the lines `guest NAME`, in order. The only error is want of memory.
pub fn names_of<'a>(alloc: Global, lines: &[&'a [u8]]) -> Result<Vec<&'a [u8]>, NoMemory>
    ensures names { IfOk result (λ names. map (λ w. w.now) names.items ≡ names_of (map (λ w. w.now) lines.now)) }
    ensures few { IfOk result (λ names. length names.items ≤ length lines.now) }
{
    let mut names = Vec::new(alloc);
    for line in lines {
        let line: &'a [u8] = *line;
        let words = words_of(alloc, line)?;
        if let Some(name) = guest_name(words.as_slice()) {
            names.push(name)?;
        }
    }
    Ok(names)
}

/// The place of a name.
pub fn place_of(names: &[&[u8]], name: &[u8]) -> Option<usize>
    ensures place { result ≡ place_of (map (λ w. w.now) names.now) name.now }
    ensures within { IfSome result (λ i. i < length names.now) }
{
    for (i, other) in names.iter().enumerate() {
        if *other == name {
            return Some(i);
        }
    }
    None
}
