//! What a frame says.

use crate::fault::Fault;
use crate::served::served_in;
use crate::word::{bytes_in, cookie_in, name_in, number_in, small_in};
use sp_base::{NoMemory, Octets, Words};
use sp_frames::Body;
use std::alloc::Global;

/// The name of every guest.
const NAME: &[u8] = b"guest";

/// A handshake of a new guest.
pub fn handshake(alloc: Global) -> Result<Body, NoMemory> {
    Ok(Body::Guest {
        name: Octets::of(alloc, NAME)?,
    })
}

/// The words of a call, at most eight.
fn call_words(words: &[&[u8]], count: u64) -> Result<Words, Fault> {
    let mut out = Words::none();
    for word in words {
        let number = number_in(word, count)?;
        if out.is_full() {
            return Err(Fault::NotUnderstood);
        }
        out.push(number);
    }
    Ok(out)
}

/// What is said by a name and cookie.
fn with_cookie(
    alloc: Global,
    name: &str,
    number: &[u8],
    salt: &[u8],
    count: u64,
) -> Result<Body, Fault> {
    let cookie = cookie_in(number, salt, count)?;
    match name {
        "join" => Ok(Body::Join {
            cookie,
            name: Octets::of(alloc, NAME)?,
        }),
        "image" => Ok(Body::Image {
            cookie,
            name: Octets::of(alloc, NAME)?,
        }),
        "cancel" => Ok(Body::Cancel { cookie }),
        _ => Err(Fault::NotUnderstood),
    }
}

/// A copy of what was asked for, whose words are an index, an error number and a text.
fn copy(alloc: Global, name: &str, words: [&[u8]; 3], count: u64) -> Result<Body, Fault> {
    let [index, err, text] = words;
    let index = small_in(index, count)?;
    let err = small_in(err, count)?;
    let bytes = bytes_in(alloc, text)?;
    match name {
        "bytes" => Ok(Body::GotBytes { index, err, bytes }),
        "text" => Ok(Body::GotText { index, err, bytes }),
        _ => Err(Fault::NotUnderstood),
    }
}

/// A text of index 0 that is so long.
fn long_text(alloc: Global, size: u32) -> Result<Body, NoMemory> {
    let mut bytes = Octets::none(alloc);
    for _ in 0..size {
        bytes.push(b'a')?;
    }
    Ok(Body::GotText {
        index: 0,
        err: 0,
        bytes,
    })
}

/// What the words say.
pub fn said_in(alloc: Global, words: &[&[u8]], count: u64) -> Result<Body, Fault> {
    let [name, rest @ ..] = words else {
        return Err(Fault::NotUnderstood);
    };
    match (name_in(name), rest) {
        ("guest", []) => Ok(handshake(alloc)?),
        ("prefork", []) => Ok(Body::Prefork),
        ("preexec", []) => Ok(Body::Preexec),
        ("call", [num, words @ ..]) => Ok(Body::Sys {
            num: small_in(num, count)?,
            words: call_words(words, count)?,
        }),
        ("long-text", [size]) => Ok(long_text(alloc, small_in(size, count)?)?),
        (name, []) => served_in(alloc, name),
        (name, [number, salt]) => with_cookie(alloc, name, number, salt, count),
        (name, [index, err, text]) => copy(alloc, name, [*index, *err, *text], count),
        _ => Err(Fault::NotUnderstood),
    }
}
