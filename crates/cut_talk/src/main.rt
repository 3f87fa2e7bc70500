//! Has a conversation between a client and a server whose frames are cut into two pieces, at every
//! place in turn.
//!
//! `cut_talk` reads rows from standard input, has the conversation once for each place, and prints
//! it once: each row with what came of it, the error, the value and the bytes that stand in the
//! memory then, and at the end how many entries the journal has. Where a cut at a place changes it,
//! the first line that it changes is printed behind, and the status is 1.
#![tactic(auto)]

mod conversation;
mod row;
mod talk;
mod wrong;

use crate::conversation::converse;
use crate::talk::Cut;
use script_words::{pieces, put_number};
use sp_base::{NoMemory, Octets};
use sp_io::{ReadSource, WriteSink, put_all, take_all};
use std::alloc::Global;
use std::process::ExitCode;

/// No frame of a conversation is longer.
const LONGEST: usize = 64;

/// The most bytes of rows that are read.
const MOST_BYTES: u32 = 65_536;

const DIFFERS: u8 = 1;

const FAILED: u8 = 75;

/// What is printed, and the status.
#[derive(Drop)]
struct Told {
    text: Octets,
    status: u8,
}

/// The first line of a text that isn't the same in another; the empty one where it ends before.
fn first_other(alloc: Global, text: &[u8], other: &[u8]) -> Result<Octets, NoMemory> {
    let lines = pieces(alloc, text, b'\n')?;
    let others = pieces(alloc, other, b'\n')?;
    for (line, other) in lines.as_slice().iter().zip(others.as_slice()) {
        if *line != *other {
            return Octets::of(alloc, line);
        }
    }
    Ok(Octets::none(alloc))
}

/// The conversation without a cut, and behind it the place of the first cut that changes it, with
/// the first line that it changes.
fn at_every_place(alloc: Global, rows: &[u8]) -> Result<Told, NoMemory> {
    let longest = LONGEST;
    let mut text = converse(alloc, rows, Cut { place: 0, longest })?;
    for place in 1..=LONGEST {
        let other = converse(alloc, rows, Cut { place, longest })?;
        if other.slice() != text.slice() {
            let line = first_other(alloc, other.slice(), text.slice())?;
            text.extend(b"cut at ")?;
            put_number(&mut text, place as u64)?;
            text.extend(b": ")?;
            text.extend(line.slice())?;
            text.push(b'\n')?;
            return Ok(Told {
                text,
                status: DIFFERS,
            });
        }
    }
    Ok(Told { text, status: 0 })
}

fn main(rt: HostRuntime) -> ExitCode {
    let mut input = ReadSource::over(rt.stdin());
    let mut out = WriteSink::over(rt.stdout());
    let Ok(rows) = take_all(rt.alloc(), &mut input, MOST_BYTES) else {
        return ExitCode::from(FAILED);
    };
    let Ok(told) = at_every_place(rt.alloc(), rows.slice()) else {
        return ExitCode::from(FAILED);
    };
    match put_all(&mut out, told.text.slice()) {
        Ok(()) => ExitCode::from(told.status),
        Err(_) => ExitCode::from(FAILED),
    }
}
