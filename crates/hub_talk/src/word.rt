//! What a word of a step spells.

use crate::fault::Fault;
use script_words::{number_of, text_of};
use sp_base::{ConnNo, Cookie, Octets, ReqNo};
use std::alloc::Global;
use std::str;

/// A word as text; the empty text where it is none.
pub fn name_in(word: &[u8]) -> &str {
    match str::from_utf8(word) {
        Ok(name) => name,
        Err(_) => "",
    }
}

/// The number that a word spells; `#` is the count.
pub fn number_in(word: &[u8], count: u64) -> Result<u64, Fault> {
    if word == b"#".as_slice() {
        return Ok(count);
    }
    match number_of(word) {
        Some(number) => Ok(number),
        None => Err(Fault::NotUnderstood),
    }
}

/// The same of a number below 2^32.
pub fn small_in(word: &[u8], count: u64) -> Result<u32, Fault> {
    match u32::try_from(number_in(word, count)?) {
        Ok(number) => Ok(number),
        Err(_) => Err(Fault::NotUnderstood),
    }
}

/// A connection by its number.
pub fn connection_in(word: &[u8], count: u64) -> Result<ConnNo, Fault> {
    Ok(ConnNo(small_in(word, count)?))
}

/// A request by its number.
pub fn request_in(word: &[u8], count: u64) -> Result<ReqNo, Fault> {
    Ok(ReqNo(number_in(word, count)?))
}

/// The cookie of a number and a salt.
pub fn cookie_in(number: &[u8], salt: &[u8], count: u64) -> Result<Cookie, Fault> {
    Ok(Cookie {
        number: number_in(number, count)?,
        salt: number_in(salt, count)?,
    })
}

/// The bytes that a word in double quotes spells.
pub fn bytes_in(alloc: Global, word: &[u8]) -> Result<Octets, Fault> {
    match text_of(alloc, word)? {
        Some(bytes) => Ok(bytes),
        None => Err(Fault::NotUnderstood),
    }
}
