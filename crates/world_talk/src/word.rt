//! What a word of a step spells.

use crate::fault::Fault;
use script_words::number_of;
use sp_base::{Caller, ConnNo, Pid};
use std::str;

/// A word as text; the empty text where it is none.
pub fn text_in(word: &[u8]) -> &str {
    match str::from_utf8(word) {
        Ok(text) => text,
        Err(_) => "",
    }
}

/// The number that a word spells.
pub fn number_in(word: &[u8]) -> Result<u64, Fault> {
    match number_of(word) {
        Some(number) => Ok(number),
        None => Err(Fault::NotUnderstood),
    }
}

/// A number below 2^32.
pub fn small(number: u64) -> Result<u32, Fault> {
    match u32::try_from(number) {
        Ok(number) => Ok(number),
        Err(_) => Err(Fault::NotUnderstood),
    }
}

/// A connection by its number.
pub fn connection_in(word: &[u8]) -> Result<ConnNo, Fault> {
    Ok(ConnNo(small(number_in(word)?)?))
}

/// A caller by its number.
pub fn caller_in(word: &[u8]) -> Result<Caller, Fault> {
    Ok(Caller(small(number_in(word)?)?))
}

/// A process by its number.
pub fn process_in(word: &[u8]) -> Result<Pid, Fault> {
    Ok(Pid(small(number_in(word)?)?))
}
