ghost use Rattle.std.specs.Prelude.{◌≡◌, ◌++◌, [], IfNone, IfOk, IfSome, None, OnOk, Some, map};
ghost use Rattle.script_words.specs.Events.{entries_from, entries_of, entry_bytes, entry_of, events_of};

use crate::number::small_signed_of;
use crate::splitting::first_place;
use sp_base::{NoMemory, Octets};
use std::alloc::Global;

/// The bits of the events that are asked for.
#[tactic(auto, unfolding(crate::specs::Events::events_of))]
fn events_of(word: &[u8]) -> Option<u16>
    ensures { result ≡ events_of word.now }
{
    if word == b"in".as_slice() {
        return Some(1);
    }
    if word == b"out".as_slice() {
        return Some(4);
    }
    if word == b"in|out".as_slice() {
        return Some(5);
    }
    if word == b"none".as_slice() {
        return Some(0);
    }
    None
}

/// Appends an entry with no events answered.
#[tactic(auto, unfolding(crate::specs::Events::entry_bytes))]
fn put_entry(out: &mut Octets, fd: u32, events: u16) -> Result<(), NoMemory>
    ensures { OnOk result (out.new ≡ out.old ++ entry_bytes fd events) }
{
    out.extend(&fd.to_le_bytes())?;
    out.extend(&events.to_le_bytes())?;
    out.extend(&[0, 0])
}

/// The descriptor and events of an entry.
#[tactic(auto, unfolding(crate::specs::Events::entry_of))]
fn entry_parts(word: &[u8]) -> Option<(u32, u16)>
    ensures some { IfSome result (λ e. entry_of word.now ≡ Some (entry_bytes e.0 e.1)) }
    ensures none { IfNone result (entry_of word.now ≡ None) }
{
    let Some(i) = first_place(word, b':') else {
        return None;
    };
    let (front, _) = word.split_at(i);
    let (_, back) = word.split_at(i + 1);
    let Some(fd) = small_signed_of(front) else {
        return None;
    };
    let Some(events) = events_of(back) else {
        return None;
    };
    Some((fd, events))
}

/// The bytes of the entries that words spell, each `FD:EVENTS`. The only error is want of memory.
pub fn entries_of(alloc: Global, words: &[&[u8]]) -> Result<Option<Octets>, NoMemory>
    ensures { IfOk result (λ found. found ≡ entries_of (map (λ w. w.now) words.now)) }
{
    let mut bytes = Octets::none(alloc);
    for word in words {
        let Some((fd, events)) = entry_parts(word) else {
            return Ok(None);
        };
        put_entry(&mut bytes, fd, events)?;
    }
    Ok(Some(bytes))
}
