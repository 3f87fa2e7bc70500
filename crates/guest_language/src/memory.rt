//! The memory of a line.
ghost use Rattle.std.specs.Prelude.{◌≡◌, ◌++◌, IfOk, OnOk, map, replicate};
ghost use Rattle.guest_language.specs.Memory.{call_words, line_made, memory_of, part_of, slot_part};

use crate::call_line::made_of;
use crate::script::Line;
use crate::slot::{FIRST, Made, SECOND, Slot};
use crate::verb::verb_of;
use script_words::words_of;
use sp_base::{Items, NoMemory, Octets};
use sp_copy::{Mem, Part, Right};
use std::alloc::Global;

/// So many equal bytes.
fn filled(alloc: Global, byte: u8, len: u64) -> Result<Octets, NoMemory>
    ensures { IfOk result (λ bytes. bytes ≡ replicate len byte) }
{
    let mut bytes = Octets::none(alloc);
    for _ in 0..len {
        bytes.push(byte)?;
    }
    Ok(bytes)
}

/// Adds a part, where it has bytes, and no more than lie before the next address.
#[tactic(auto, unfolding(crate::specs::Memory::part_of))]
fn put_part(parts: &mut Items<Part>, base: u64, right: Right, bytes: Octets) -> Result<(), NoMemory>
    ensures { OnOk result (parts.new ≡ parts.old ++ part_of base right bytes) }
{
    if bytes.is_empty() || bytes.len() as u64 > FIRST {
        return Ok(());
    }
    parts.push(Part { base, right, bytes })
}

/// Adds what lies at an address.
fn put_slot(alloc: Global, parts: &mut Items<Part>, base: u64, slot: Slot) -> Result<(), NoMemory>
    ensures { OnOk result (parts.new ≡ parts.old ++ slot_part base slot) }
{
    match slot {
        Slot::Nothing => Ok(()),
        Slot::Given(bytes) => put_part(parts, base, Right::Readable, bytes),
        Slot::Filled(len) => {
            let bytes = filled(alloc, b'x', len)?;
            put_part(parts, base, Right::Readable, bytes)
        }
        Slot::Blank(len) => {
            let bytes = filled(alloc, 0, len)?;
            put_part(parts, base, Right::Writable, bytes)
        }
        Slot::Entries(bytes) => put_part(parts, base, Right::Both, bytes),
    }
}

/// The words of a line's call, without `&`.
pub fn call_words<'a, 'b>(words: &'b [&'a [u8]]) -> &'b [&'a [u8]]
    ensures { map (λ w. w.now) result.now ≡ call_words (map (λ w. w.now) words.now) }
{
    match words {
        [word, rest @ ..] => {
            if *word == b"&".as_slice() {
                return rest;
            }
            words
        }
        [] => words,
    }
}

/// The call that a line spells.
fn line_made(alloc: Global, words: &[&[u8]]) -> Result<Option<Made>, NoMemory>
    ensures { IfOk result (λ found. found ≡ line_made (map (λ w. w.now) words.now)) }
{
    let [word, rest @ ..] = words else {
        return Ok(None);
    };
    let Some(verb) = verb_of(word) else {
        return Ok(None);
    };
    made_of(alloc, verb, rest)
}

/// The parts of a line.
fn parts_of(alloc: Global, text: &[u8]) -> Result<Items<Part>, NoMemory>
    ensures { IfOk result (λ parts. parts ≡ memory_of text.now) }
{
    let words = words_of(alloc, text)?;
    let mut parts = Items::none(alloc);
    if let Some(made) = line_made(alloc, call_words(words.as_slice()))? {
        put_slot(alloc, &mut parts, FIRST, made.first)?;
        put_slot(alloc, &mut parts, SECOND, made.second)?;
    }
    Ok(parts)
}

impl Line {
    /// The memory that the line's call is made in; no parts where the text is no line of a call.
    /// The only error is want of memory.
    #[tactic(auto, using(crate::proofs::MemoryLaws::memory_rises, crate::proofs::MemoryLaws::memory_few))]
    pub fn memory(&self, alloc: Global) -> Result<Mem, NoMemory>
        ensures { IfOk result (λ mem. mem ≡ memory_of self.now.text) }
    {
        let parts = parts_of(alloc, self.text.slice())?;
        match Mem::new(alloc, parts) {
            Ok(mem) => Ok(mem),
            Err(_) => unreachable!(),
        }
    }
}
