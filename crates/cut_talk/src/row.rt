//! The rows of a conversation.

use crate::wrong::Wrong;
use script_words::{number_of, pieces, text_of, words_of};
use sp_base::{Call, Items, Words};
use sp_copy::{Mem, Part, Right};
use std::alloc::Global;

/// The most parts of a row's memory.
const MOST_PARTS: usize = 2;

/// What a row asks for.
#[derive(Drop)]
pub enum Row {
    /// A call, with its caller's memory.
    Call(Call, Mem),
    /// The process goes on as its next program.
    Exec,
}

/// The call of a number with its words.
fn call_of(number: &[u8], words: &[&[u8]]) -> Result<Call, Wrong> {
    let Some(number) = number_of(number) else {
        return Err(Wrong("no number of a call"));
    };
    let Ok(number) = u32::try_from(number) else {
        return Err(Wrong("a call's number is too high"));
    };
    let mut list = Words::none();
    for word in words {
        let Some(word) = number_of(word) else {
            return Err(Wrong("no word of a call"));
        };
        if list.is_full() {
            return Err(Wrong("a call has too many words"));
        }
        list.push(word);
    }
    match Call::of_words(number, &list) {
        Ok(call) => Ok(call),
        Err(_) => Err(Wrong("no call")),
    }
}

/// The right that a word names.
fn right_of(word: &[u8]) -> Option<Right> {
    if word == b"readable".as_slice() {
        return Some(Right::Readable);
    }
    if word == b"writable".as_slice() {
        return Some(Right::Writable);
    }
    if word == b"both".as_slice() {
        return Some(Right::Both);
    }
    None
}

/// The part of memory that a piece of a row tells: its right, its address and its bytes in quotes.
fn part_of(alloc: Global, piece: &[u8]) -> Result<Part, Wrong> {
    let words = words_of(alloc, piece)?;
    let [right, base, text] = words.as_slice() else {
        return Err(Wrong("a part has three words"));
    };
    let bytes = text_of(alloc, text)?;
    match (right_of(right), number_of(base), bytes) {
        (Some(right), Some(base), Some(bytes)) => Ok(Part { base, right, bytes }),
        _ => Err(Wrong("no part of memory")),
    }
}

/// The memory whose parts the pieces of a row tell.
fn memory_of(alloc: Global, pieces: &[&[u8]]) -> Result<Mem, Wrong> {
    let mut parts = Items::none(alloc);
    for piece in pieces {
        parts.push(part_of(alloc, piece)?)?;
    }
    if parts.slice().len() > MOST_PARTS {
        return Err(Wrong("a memory has too many parts"));
    }
    match Mem::new(alloc, parts) {
        Ok(mem) => Ok(mem),
        Err(_) => Err(Wrong("no memory")),
    }
}

/// The row that a line tells: `exec`, or `call NUMBER WORD..` and behind it the parts of its
/// memory, each `; readable|writable|both ADDRESS "BYTES"`, where a semicolon is spelled `\x3b`.
pub fn row_of(alloc: Global, line: &[u8]) -> Result<Row, Wrong> {
    let pieces = pieces(alloc, line, b';')?;
    let [front, parts @ ..] = pieces.as_slice() else {
        return Err(Wrong("no row"));
    };
    let words = words_of(alloc, front)?;
    match words.as_slice() {
        [kind, number, words @ ..] => {
            if *kind != b"call".as_slice() {
                return Err(Wrong("no row"));
            }
            let call = call_of(number, words)?;
            Ok(Row::Call(call, memory_of(alloc, parts)?))
        }
        [kind] if *kind == b"exec".as_slice() => Ok(Row::Exec),
        _ => Err(Wrong("no row")),
    }
}
