ghost use Rattle.std.specs.Prelude.{◌≡◌, ◌<◌, ◌≤◌, ◌+◌, ◌∷◌, IfOk, drop, length, map, slice_index, take};
ghost use Rattle.script_words.specs.Words.{first_word, joined, plain_len, quoted_len, word_len, words_of};

use sp_base::{NoMemory, Octets};
use std::alloc::Global;

/// How many bytes stand before the first space.
fn plain_len(bytes: &[u8]) -> usize
    ensures len { result ≡ plain_len bytes.now }
    ensures within { result ≤ length bytes.now }
{
    let mut i: usize = 0;
    while i < bytes.len() && bytes[i] != b' ' {
        i += 1;
    }
    i
}

/// How many bytes of a word stand behind the quote that it begins with.
fn quoted_len(bytes: &[u8]) -> usize
    ensures len { result ≡ quoted_len 0 bytes.now }
    ensures within { result ≤ length bytes.now }
{
    let mut skip: usize = 0;
    for (i, b) in bytes.iter().enumerate() {
        let b = *b;
        if skip > 0 {
            skip -= 1;
            continue;
        }
        if b == b'"' {
            let (_, rest) = bytes.split_at(i + 1);
            return i + 1 + plain_len(rest);
        }
        skip = if b == b'\\' { 1 } else { 0 };
    }
    bytes.len()
}

/// How many bytes of a word stand behind its first one.
#[tactic(auto, unfolding(crate::specs::Words::word_len))]
fn word_len(first: u8, bytes: &[u8]) -> usize
    ensures len { result ≡ word_len first bytes.now }
    ensures within { result ≤ length bytes.now }
{
    if first == b'"' {
        quoted_len(bytes)
    } else {
        plain_len(bytes)
    }
}

/// The word that begins at a place, and its length without its first byte.
fn word_at(line: &[u8], i: usize) -> (&[u8], usize)
    requires { i < length line.now }
    ensures len { result.1 ≡ word_len (slice_index line.now i) (drop (i + 1) line.now) }
    ensures word { let rest = drop (i + 1) line.now in
        let len = word_len (slice_index line.now i) rest in
        result.0.now ≡ slice_index line.now i ∷ take len rest }
{
    let (_, after) = line.split_at(i + 1);
    let len = word_len(line[i], after);
    let (_, rest) = line.split_at(i);
    let (word, _) = rest.split_at(1 + len);
    (word, len)
}

/// The words of a line, which lie in the line. The only error is want of memory.
pub fn words_of(alloc: Global, line: &[u8]) -> Result<Vec<&[u8]>, NoMemory>
    ensures { IfOk result (λ words. map (λ w. w.now) words.items ≡ words_of line.now) }
{
    let mut words = Vec::new(alloc);
    let mut skip: usize = 0;
    for (i, b) in line.iter().enumerate() {
        let b = *b;
        if skip > 0 {
            skip -= 1;
            continue;
        }
        if b == b' ' {
            continue;
        }
        let (word, after) = word_at(line, i);
        words.push(word)?;
        skip = after;
    }
    Ok(words)
}

/// The first word of a line; the empty one where there is none.
pub fn first_word(line: &[u8]) -> &[u8]
    ensures { result.now ≡ first_word (words_of line.now) }
{
    for (i, b) in line.iter().enumerate() {
        let b = *b;
        if b == b' ' {
            continue;
        }
        let (word, _) = word_at(line, i);
        return word;
    }
    b"".as_slice()
}

/// The words with one space between each two. The only error is want of memory.
pub fn joined(alloc: Global, words: &[&[u8]]) -> Result<Octets, NoMemory>
    ensures { IfOk result (λ line. line ≡ joined (map (λ w. w.now) words.now)) }
{
    let mut line = Octets::none(alloc);
    let [first, rest @ ..] = words else {
        return Ok(line);
    };
    line.extend(first)?;
    for word in rest {
        line.push(b' ')?;
        line.extend(word)?;
    }
    Ok(line)
}
