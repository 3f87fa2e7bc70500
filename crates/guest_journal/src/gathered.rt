//! What was gathered for a call, in the form of scripts.
ghost use Rattle.std.specs.Prelude.{◌≡◌, ◌++◌, IfOk, MatchOption, None, Some, slice_get};
ghost use Rattle.std.specs.Fmt.{decimal};
ghost use Rattle.guest_journal.specs.Gathered.{address_piece, address_words, asked_entries, bytes_word, is_address_len, own_address, path_word, target_address};

use crate::word::quoted_word;
use guest_rows::{PollPart, entries_text};
use kern_model::Ins;
use script_words::{address_text, put_number};
use sp_base::{ADDRESS, NoMemory, Octets, POLL_ENTRIES};
use std::alloc::Global;

/// A piece by its place.
fn piece_at(pieces: &[Octets], at: usize) -> Option<&[u8]>
    ensures { MatchOption result
        (slice_get pieces.now at ≡ None)
        (λ piece. slice_get pieces.now at ≡ Some piece.now) }
{
    match pieces.get(at) {
        Some(piece) => Some(piece.slice()),
        None => None,
    }
}

/// A path that was gathered; `bad` where something of the call couldn't be read.
pub fn path_word(alloc: Global, ins: &Ins, at: usize) -> Result<Option<Octets>, NoMemory>
    ensures { IfOk result (λ word. word ≡ path_word ins.now at) }
{
    let Ins::Given(pieces) = ins else {
        let word = Octets::of(alloc, b"bad")?;
        return Ok(Some(word));
    };
    let Some(piece) = piece_at(pieces.slice(), at) else {
        return Ok(None);
    };
    let word = quoted_word(alloc, piece)?;
    Ok(Some(word))
}

/// `bad` and a number.
fn bad_number(alloc: Global, front: &[u8], n: u64) -> Result<Octets, NoMemory>
    ensures { IfOk result (λ word. word ≡ front.now ++ decimal n) }
{
    let mut word = Octets::of(alloc, front)?;
    put_number(&mut word, n)?;
    Ok(word)
}

/// Bytes that were gathered of so many.
pub fn bytes_word(alloc: Global, ins: &Ins, len: u64) -> Result<Option<Octets>, NoMemory>
    ensures { IfOk result (λ word. word ≡ bytes_word ins.now len) }
{
    let Ins::Given(pieces) = ins else {
        let word = bad_number(alloc, b"bad ", len)?;
        return Ok(Some(word));
    };
    if len == 0 {
        let word = quoted_word(alloc, b"")?;
        return Ok(Some(word));
    }
    let Some(piece) = piece_at(pieces.slice(), 0) else {
        return Ok(None);
    };
    let word = quoted_word(alloc, piece)?;
    Ok(Some(word))
}

/// An address that was gathered; none where the bytes are no address.
fn address_words(alloc: Global, ins: &Ins, at: usize) -> Result<Option<Octets>, NoMemory>
    ensures { IfOk result (λ words. words ≡ address_words ins.now at) }
{
    let Ins::Given(pieces) = ins else {
        let word = Octets::of(alloc, b"bad")?;
        return Ok(Some(word));
    };
    match piece_at(pieces.slice(), at) {
        Some(piece) => address_text(alloc, piece),
        None => Ok(None),
    }
}

/// Whether an address has such a length.
#[tactic(auto, unfolding(crate::specs::Gathered::is_address_len))]
fn is_address_len(len: u64) -> bool
    ensures { result ≡ is_address_len len }
{
    len > 0 && len <= ADDRESS
}

/// The address of a bind and of a connect.
pub fn own_address(alloc: Global, ins: &Ins, len: u64) -> Result<Option<Octets>, NoMemory>
    ensures { IfOk result (λ words. words ≡ own_address ins.now len) }
{
    if is_address_len(len) {
        address_words(alloc, ins, 0)
    } else {
        Ok(None)
    }
}

/// The piece in which a send of so many bytes has its address.
fn address_piece(count: u64) -> usize
    ensures { result ≡ address_piece count }
{
    if count == 0 { 0 } else { 1 }
}

/// The address of a send of so many bytes, behind a space.
pub fn target_address(
    alloc: Global,
    ins: &Ins,
    count: u64,
    len: u64,
) -> Result<Option<Octets>, NoMemory>
    ensures { IfOk result (λ words. words ≡ target_address ins.now count len) }
{
    if len == 0 {
        return Ok(Some(Octets::none(alloc)));
    }
    if !is_address_len(len) {
        return Ok(None);
    }
    let Some(address) = address_words(alloc, ins, address_piece(count))? else {
        return Ok(None);
    };
    let mut words = Octets::of(alloc, b" ")?;
    words.extend(address.slice())?;
    Ok(Some(words))
}

/// The entries of a poll of so many, each behind a space.
pub fn asked_entries(alloc: Global, ins: &Ins, count: u64) -> Result<Option<Octets>, NoMemory>
    ensures { IfOk result (λ entries. entries ≡ asked_entries ins.now count) }
{
    let Ins::Given(pieces) = ins else {
        let word = bad_number(alloc, b" bad ", count)?;
        return Ok(Some(word));
    };
    if count == 0 {
        return Ok(Some(Octets::none(alloc)));
    }
    if count > POLL_ENTRIES {
        return Ok(None);
    }
    match piece_at(pieces.slice(), 0) {
        Some(piece) => entries_text(alloc, PollPart::Asked, count, piece),
        None => Ok(None),
    }
}
