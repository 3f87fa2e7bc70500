//! The lines of calls that give texts, bytes, addresses or entries.
ghost use Rattle.std.specs.Prelude.{◌≡◌, ◌++◌, ◌∷◌, [], IfOk, map};
ghost use Rattle.guest_language.specs.Made.{bind_line, connect_line, maybe_address, open_line, path_line, poll_line, pwrite_line, sendto_line, sized_write, stat_line, text_slot, two_paths_line, write_line};

use crate::slot::{BAD, FIRST, Made, SECOND, Slot};
use script_words::{address_of, entries_of, flags_of, number_of, signed_of, text_of};
use sp_base::{Call, NoMemory, Octets, POLL_ENTRIES, STAT};
use std::alloc::Global;

/// A text as it lies in memory, with a zero byte behind it.
fn text_slot(mut text: Octets) -> Result<Slot, NoMemory>
    ensures { IfOk result (λ slot. slot ≡ text_slot text) }
{
    text.push(0)?;
    Ok(Slot::Given(text))
}

/// `TEXT`, a path.
pub fn path_line(alloc: Global, call: Call, words: &[&[u8]]) -> Result<Option<Made>, NoMemory>
    ensures { IfOk result (λ found. found ≡ path_line call (map (λ w. w.now) words.now)) }
{
    let [path] = words else {
        return Ok(None);
    };
    let Some(text) = text_of(alloc, path)? else {
        return Ok(None);
    };
    let slot = text_slot(text)?;
    Ok(Some(Made::with_first(call, slot)))
}

/// `TEXT TEXT`, two paths.
pub fn two_paths_line(alloc: Global, call: Call, words: &[&[u8]]) -> Result<Option<Made>, NoMemory>
    ensures { IfOk result (λ found. found ≡ two_paths_line call (map (λ w. w.now) words.now)) }
{
    let [path, other] = words else {
        return Ok(None);
    };
    let Some(text) = text_of(alloc, path)? else {
        return Ok(None);
    };
    let Some(next) = text_of(alloc, other)? else {
        return Ok(None);
    };
    let first = text_slot(text)?;
    let second = text_slot(next)?;
    Ok(Some(Made::with_both(call, first, second)))
}

/// `stat TEXT`.
pub fn stat_line(alloc: Global, words: &[&[u8]]) -> Result<Option<Made>, NoMemory>
    ensures { IfOk result (λ found. found ≡ stat_line (map (λ w. w.now) words.now)) }
{
    let [path] = words else {
        return Ok(None);
    };
    let Some(text) = text_of(alloc, path)? else {
        return Ok(None);
    };
    let slot = text_slot(text)?;
    let call = Call::Stat {
        path: FIRST,
        out: SECOND,
    };
    Ok(Some(Made::with_both(call, slot, Slot::Blank(STAT))))
}

/// `open TEXT FLAGS`.
pub fn open_line(alloc: Global, words: &[&[u8]]) -> Result<Option<Made>, NoMemory>
    ensures { IfOk result (λ found. found ≡ open_line (map (λ w. w.now) words.now)) }
{
    let [path, flags] = words else {
        return Ok(None);
    };
    let Some(text) = text_of(alloc, path)? else {
        return Ok(None);
    };
    let Some(flags) = flags_of(alloc, flags)? else {
        return Ok(None);
    };
    let slot = text_slot(text)?;
    Ok(Some(Made::with_first(Call::Open { path: FIRST, flags }, slot)))
}

/// A write of `fill LEN`, up to 1 MiB, or of `bad LEN`.
#[tactic(auto, unfolding(crate::specs::Made::sized_write))]
fn sized_write(fd: u64, word: &[u8], len: u64) -> Option<Made>
    ensures { result ≡ sized_write fd word.now len }
{
    if word == b"fill".as_slice() {
        if len > 1_048_576 {
            return None;
        }
        let call = Call::Write {
            fd,
            input: FIRST,
            len,
        };
        return Some(Made::with_first(call, Slot::Filled(len)));
    }
    if word == b"bad".as_slice() {
        return Some(Made::plain(Call::Write {
            fd,
            input: BAD,
            len,
        }));
    }
    None
}

/// `write FD TEXT`.
fn text_write(alloc: Global, fd: &[u8], text: &[u8]) -> Result<Option<Made>, NoMemory>
    ensures { IfOk result (λ found. found ≡ write_line (fd.now ∷ text.now ∷ [])) }
{
    let Some(fd) = number_of(fd) else {
        return Ok(None);
    };
    let Some(text) = text_of(alloc, text)? else {
        return Ok(None);
    };
    let call = Call::Write {
        fd,
        input: FIRST,
        len: text.len() as u64,
    };
    Ok(Some(Made::with_first(call, Slot::Given(text))))
}

/// `write FD TEXT`, `write FD fill LEN`, `write FD bad LEN`.
pub fn write_line(alloc: Global, words: &[&[u8]]) -> Result<Option<Made>, NoMemory>
    ensures { IfOk result (λ found. found ≡ write_line (map (λ w. w.now) words.now)) }
{
    match words {
        [fd, text] => text_write(alloc, fd, text),
        [fd, word, len] => {
            let Some(fd) = number_of(fd) else {
                return Ok(None);
            };
            let Some(len) = number_of(len) else {
                return Ok(None);
            };
            Ok(sized_write(fd, word, len))
        }
        _ => Ok(None),
    }
}

/// `pwrite FD TEXT OFF`.
pub fn pwrite_line(alloc: Global, words: &[&[u8]]) -> Result<Option<Made>, NoMemory>
    ensures { IfOk result (λ found. found ≡ pwrite_line (map (λ w. w.now) words.now)) }
{
    let [fd, text, offset] = words else {
        return Ok(None);
    };
    let Some(fd) = number_of(fd) else {
        return Ok(None);
    };
    let Some(text) = text_of(alloc, text)? else {
        return Ok(None);
    };
    let Some(offset) = signed_of(offset) else {
        return Ok(None);
    };
    let call = Call::Pwrite {
        fd,
        input: FIRST,
        len: text.len() as u64,
        offset,
    };
    Ok(Some(Made::with_first(call, Slot::Given(text))))
}

/// An address, or none.
fn maybe_address(alloc: Global, words: &[&[u8]]) -> Result<Option<Octets>, NoMemory>
    ensures { IfOk result (λ found. found ≡ maybe_address (map (λ w. w.now) words.now)) }
{
    if words.is_empty() {
        return Ok(Some(Octets::none(alloc)));
    }
    address_of(alloc, words)
}

/// `sendto FD TEXT [ADDR]`.
pub fn sendto_line(alloc: Global, words: &[&[u8]]) -> Result<Option<Made>, NoMemory>
    ensures { IfOk result (λ found. found ≡ sendto_line (map (λ w. w.now) words.now)) }
{
    let [fd, text, rest @ ..] = words else {
        return Ok(None);
    };
    let Some(fd) = number_of(fd) else {
        return Ok(None);
    };
    let Some(text) = text_of(alloc, text)? else {
        return Ok(None);
    };
    let Some(address) = maybe_address(alloc, rest)? else {
        return Ok(None);
    };
    let call = Call::Sendto {
        fd,
        input: FIRST,
        len: text.len() as u64,
        address: SECOND,
        address_len: address.len() as u64,
    };
    Ok(Some(Made::with_both(call, Slot::Given(text), Slot::Given(address))))
}

/// `bind FD ADDR`.
pub fn bind_line(alloc: Global, words: &[&[u8]]) -> Result<Option<Made>, NoMemory>
    ensures { IfOk result (λ found. found ≡ bind_line (map (λ w. w.now) words.now)) }
{
    let [fd, rest @ ..] = words else {
        return Ok(None);
    };
    let Some(fd) = number_of(fd) else {
        return Ok(None);
    };
    let Some(address) = address_of(alloc, rest)? else {
        return Ok(None);
    };
    let call = Call::Bind {
        fd,
        address: FIRST,
        address_len: address.len() as u64,
    };
    Ok(Some(Made::with_first(call, Slot::Given(address))))
}

/// `connect FD ADDR`.
pub fn connect_line(alloc: Global, words: &[&[u8]]) -> Result<Option<Made>, NoMemory>
    ensures { IfOk result (λ found. found ≡ connect_line (map (λ w. w.now) words.now)) }
{
    let [fd, rest @ ..] = words else {
        return Ok(None);
    };
    let Some(fd) = number_of(fd) else {
        return Ok(None);
    };
    let Some(address) = address_of(alloc, rest)? else {
        return Ok(None);
    };
    let call = Call::Connect {
        fd,
        address: FIRST,
        address_len: address.len() as u64,
    };
    Ok(Some(Made::with_first(call, Slot::Given(address))))
}

/// `poll TIMEOUT FD:EVENTS ..`.
pub fn poll_line(alloc: Global, words: &[&[u8]]) -> Result<Option<Made>, NoMemory>
    ensures { IfOk result (λ found. found ≡ poll_line (map (λ w. w.now) words.now)) }
{
    let [timeout, entries @ ..] = words else {
        return Ok(None);
    };
    let count = entries.len() as u64;
    if count > POLL_ENTRIES {
        return Ok(None);
    }
    let Some(timeout) = signed_of(timeout) else {
        return Ok(None);
    };
    let Some(bytes) = entries_of(alloc, entries)? else {
        return Ok(None);
    };
    let call = Call::Poll {
        entries: FIRST,
        count,
        timeout,
    };
    Ok(Some(Made::with_first(call, Slot::Entries(bytes))))
}
