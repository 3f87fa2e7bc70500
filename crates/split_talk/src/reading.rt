//! Texts and memories, as the words of a row.

use script_words::{number_of, text_of, words_of};
use sp_base::{Items, NoMemory};
use sp_copy::{Mem, Part, Right};
use std::alloc::Global;

/// The most parts of a memory.
const MOST_PARTS: usize = 64;

/// The part of memory that an address and a text are: the text with a zero byte behind it.
fn part_of(alloc: Global, words: &[&[u8]]) -> Result<Option<Part>, NoMemory> {
    let [address, text] = words else {
        return Ok(None);
    };
    match (number_of(address), text_of(alloc, text)?) {
        (Some(base), Some(text)) => {
            let mut bytes = text;
            bytes.push(0)?;
            let right = Right::Both;
            Ok(Some(Part { base, right, bytes }))
        }
        _ => Ok(None),
    }
}

/// The memory that the parts of a row are; None where they are none.
pub fn memory_of(alloc: Global, parts: &[&[u8]]) -> Result<Option<Mem>, NoMemory> {
    let mut made = Items::none(alloc);
    for part in parts {
        let words = words_of(alloc, part)?;
        match part_of(alloc, words.as_slice())? {
            Some(part) => made.push(part)?,
            None => return Ok(None),
        }
    }
    if made.slice().len() > MOST_PARTS {
        return Ok(None);
    }
    Ok(Mem::new(alloc, made).ok())
}
