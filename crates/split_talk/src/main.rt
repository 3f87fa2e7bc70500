//! Asks rules, views and the splitter, row by row, and prints what each answers.
//!
//! `split_talk` reads rows from standard input, at most 1 MiB, and prints each with the answer behind
//! ` -> `. An empty row, and one that begins with `# `, is printed as it is. At first the rules are
//! the raw ones, the view is a fresh one, and the memory has no parts. A text stands in double
//! quotes, and has no `;` in it. The rows:
//!
//! - `rules TEXT`: the rules are those of RUMPHIJACK's text from here on, or `rules raw` the raw ones,
//!   and the view is a fresh one; where the text has a fault, it is told, and all stays
//! - `offset`, `family NUMBER`, `path SIDE TEXT`: what the rules say; SIDE, `rump` or `host`, is that
//!   of the working directory
//! - `view TEXT`: the view is that of the text from here on, and is told; `view` tells it; `exec`
//!   tells it behind an exec
//! - `names FD`: what a descriptor names in the view
//! - `memory; ADDRESS TEXT; ..`: the memory has these texts from here on, each with a zero byte
//! - `CALL WORD..; ERROR RET0 RET1; ..`, or `call NUMBER WORD..` for a call without a name: what comes
//!   next for this call of the guest, once its first steps have these answers. That is a step on a
//!   kernel, with its stage, or the reply, as an error and two values, with which the view changes,
//!   or a poll of both kernels
//!
//! The status is 0, and 64 where a row was not understood; the other rows are answered all the same.
//! It is 74 where the input can't be read or is too long, or the output can't be written, and 75
//! where memory is refused; then not all is printed.
#![tactic(auto)]

mod call;
mod names;
mod reading;
mod talk;
mod telling;

use crate::talk::Talk;
use sp_base::NoMemory;
use sp_io::{ReadSource, TakeFault, WriteSink, put_all, take_all};
use std::alloc::Global;
use std::process::ExitCode;

const NOT_UNDERSTOOD: u8 = 64;

const IO: u8 = 74;

const NO_MEMORY: u8 = 75;

/// The most bytes of rows that are read: 1 MiB.
const MOST_BYTES: u32 = 1_048_576;

/// The status of a talk that was printed.
fn status_of(talk: &Talk) -> ExitCode {
    if talk.is_understood() {
        return ExitCode::SUCCESS;
    }
    ExitCode::from(NOT_UNDERSTOOD)
}

/// The talk that the rows are.
fn talk_of(alloc: Global, rows: &[u8]) -> Result<Talk, NoMemory> {
    let mut talk = Talk::begun(alloc);
    talk.rows(rows)?;
    Ok(talk)
}

fn main(rt: HostRuntime) -> ExitCode {
    let mut input = ReadSource::over(rt.stdin());
    let mut out = WriteSink::over(rt.stdout());
    match take_all(rt.alloc(), &mut input, MOST_BYTES) {
        Ok(rows) => match talk_of(rt.alloc(), rows.slice()) {
            Ok(talk) => match put_all(&mut out, talk.out()) {
                Ok(()) => status_of(&talk),
                Err(_) => ExitCode::from(IO),
            },
            Err(_) => ExitCode::from(NO_MEMORY),
        },
        Err(TakeFault::NoMemory) => ExitCode::from(NO_MEMORY),
        Err(_) => ExitCode::from(IO),
    }
}
