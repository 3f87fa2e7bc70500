//! The entries of a poll, as it was asked and as it answers.
ghost use Rattle.std.specs.Prelude.{◌≡◌, ◌≤◌, ◌++◌, IfOk, MatchOption, None, OnOk, Some, drop};
ghost use Rattle.guest_rows.specs.Answered.{answered_entry, asked_entry, asked_name, bar, entries_text, entry_text, fd_text, is_revents, revents_bars, revents_text};

use crate::field::{u16_at, u32_at};
use script_words::put_number;
use sp_base::{NoMemory, Octets};
use std::alloc::Global;

/// Which part of a poll's entries is meant.
#[derive(Clone, Copy, Debug, PartialEq, Eq)]
pub enum PollPart {
    /// The events that are asked for, with none answered yet.
    Asked,
    /// The events that are answered.
    Answered,
}

/// Whether a poll answers such bits.
#[tactic(auto, unfolding(crate::specs::Answered::is_revents))]
fn is_revents(bits: u16) -> bool
    ensures { result ≡ is_revents bits }
{
    bits < 64 && (bits / 2) % 2 == 0
}

/// Appends the name of a bit behind `|`, where it is set.
#[tactic(auto, unfolding(crate::specs::Answered::bar))]
pub fn put_bar(out: &mut Octets, bits: u64, bit: u64, name: &[u8]) -> Result<(), NoMemory>
    requires { 1 ≤ bit }
    ensures { OnOk result (out.new ≡ out.old ++ bar bits bit name.now) }
{
    if (bits / bit) % 2 != 1 {
        return Ok(());
    }
    out.push(b'|')?;
    out.extend(name)
}

/// The names of the bits that are set, each behind `|`.
#[tactic(auto, unfolding(crate::specs::Answered::revents_bars))]
fn revents_bars(alloc: Global, bits: u16) -> Result<Octets, NoMemory>
    ensures { IfOk result (λ text. text ≡ revents_bars bits) }
{
    let bits = u64::from(bits);
    let mut out = Octets::none(alloc);
    put_bar(&mut out, bits, 1, b"in")?;
    put_bar(&mut out, bits, 4, b"out")?;
    put_bar(&mut out, bits, 8, b"err")?;
    put_bar(&mut out, bits, 16, b"hup")?;
    put_bar(&mut out, bits, 32, b"nval")?;
    Ok(out)
}

/// Appends the names of the bits that are set, or `none`.
#[tactic(auto, unfolding(crate::specs::Answered::revents_text))]
fn put_revents(alloc: Global, out: &mut Octets, bits: u16) -> Result<(), NoMemory>
    ensures { OnOk result (out.new ≡ out.old ++ revents_text bits) }
{
    let bars = revents_bars(alloc, bits)?;
    if bars.is_empty() {
        return out.extend(b"none");
    }
    let (_, names) = bars.slice().split_at(1);
    out.extend(names)
}

/// Appends a descriptor of 32 bits in two's complement.
#[tactic(auto, unfolding(crate::specs::Answered::fd_text))]
fn put_fd(out: &mut Octets, fd: u32) -> Result<(), NoMemory>
    ensures { OnOk result (out.new ≡ out.old ++ fd_text fd) }
{
    if fd < 0x8000_0000 {
        return put_number(out, u64::from(fd));
    }
    out.push(b'-')?;
    put_number(out, 0x1_0000_0000 - u64::from(fd))
}

/// The text of the entry that bytes begin with, as it is answered; none where they are too few, or
/// its bits are none that a poll answers.
#[tactic(auto, unfolding(crate::specs::Answered::answered_entry))]
fn answered_entry(alloc: Global, bytes: &[u8]) -> Result<Option<Octets>, NoMemory>
    ensures { IfOk result (λ text. text ≡ answered_entry bytes.now) }
{
    if bytes.len() < 8 {
        return Ok(None);
    }
    let bits = u16_at(bytes, 6);
    if !is_revents(bits) {
        return Ok(None);
    }
    let mut out = Octets::none(alloc);
    put_fd(&mut out, u32_at(bytes, 0))?;
    out.push(b':')?;
    put_revents(alloc, &mut out, bits)?;
    Ok(Some(out))
}

/// The events that a script asks for.
#[tactic(auto, unfolding(crate::specs::Answered::asked_name))]
fn asked_name(events: u16) -> Option<&'static [u8]>
    ensures { MatchOption result
        (asked_name events ≡ None)
        (λ name. asked_name events ≡ Some name.now) }
{
    match events {
        0 => Some(b"none".as_slice()),
        1 => Some(b"in".as_slice()),
        4 => Some(b"out".as_slice()),
        5 => Some(b"in|out".as_slice()),
        _ => None,
    }
}

/// The text of the entry that bytes begin with, as a script asks for it; none where they are too
/// few, or no script asks so.
#[tactic(auto, unfolding(crate::specs::Answered::asked_entry))]
fn asked_entry(alloc: Global, bytes: &[u8]) -> Result<Option<Octets>, NoMemory>
    ensures { IfOk result (λ text. text ≡ asked_entry bytes.now) }
{
    if bytes.len() < 8 || u16_at(bytes, 6) != 0 {
        return Ok(None);
    }
    let Some(name) = asked_name(u16_at(bytes, 4)) else {
        return Ok(None);
    };
    let mut out = Octets::none(alloc);
    put_fd(&mut out, u32_at(bytes, 0))?;
    out.push(b':')?;
    out.extend(name)?;
    Ok(Some(out))
}

/// The text of the entry that bytes begin with.
fn entry_text(alloc: Global, part: PollPart, bytes: &[u8]) -> Result<Option<Octets>, NoMemory>
    ensures { IfOk result (λ text. text ≡ entry_text part bytes.now) }
{
    match part {
        PollPart::Asked => asked_entry(alloc, bytes),
        PollPart::Answered => answered_entry(alloc, bytes),
    }
}

/// The bytes behind the first entry.
fn behind(bytes: &[u8]) -> &[u8]
    ensures { result.now ≡ drop 8 bytes.now }
{
    if bytes.len() < 8 {
        return b"".as_slice();
    }
    let (_, rest) = bytes.split_at(8);
    rest
}

/// The texts of so many entries, each behind a space; none where one has no text. The only error is
/// want of memory.
#[tactic(auto, using(crate::proofs::EntryLaws::entries_more), unfolding(crate::specs::Answered::entries_text))]
pub fn entries_text(
    alloc: Global,
    part: PollPart,
    count: u64,
    bytes: &[u8],
) -> Result<Option<Octets>, NoMemory>
    ensures { IfOk result (λ text. text ≡ entries_text part count bytes.now) }
{
    let mut out = Octets::none(alloc);
    let mut rest = bytes;
    let mut left = count;
    while left > 0 {
        let Some(text) = entry_text(alloc, part, rest)? else {
            return Ok(None);
        };
        out.push(b' ')?;
        out.extend(text.slice())?;
        rest = behind(rest);
        left -= 1;
    }
    Ok(Some(out))
}
