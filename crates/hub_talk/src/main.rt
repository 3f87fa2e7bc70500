//! Tells a server's hub what happens, step by step, and prints what the hub answers.
//!
//! `hub_talk` reads rows from standard input, at most 1 MiB, and prints each with the answer behind
//! ` -> `. An empty row, and one that begins with `# `, is printed as it is. A row is a step, or
//! several with `;` between them, whose answers have `;` between them as well. `each A B: STEPS` does
//! the steps once for each number from A to B, for which `#` stands in the steps, and prints the
//! answers of each on a row of its own.
//!
//! C is a connection's number and N a request's. A text stands in double quotes, and has no `;` and
//! no `:` in it. The steps:
//!
//! - `fresh`: there is a new hub, to which nothing happened, as at the beginning
//! - `opened C`, `ended C`, `lost C`, `halt`: the event of that name; `bad C`: the input ends at
//!   bytes that are no frame
//! - `guest C`: a handshake comes under number 1
//! - `frame C N SAID`: a frame comes, whose salt is 1,000 above N. SAID is `guest`, `join COOKIE SALT`,
//!   `image COOKIE SALT`, `call CALL WORD..`, `prefork`, `cancel COOKIE SALT`, `preexec`,
//!   `bytes INDEX ERROR TEXT`, `text INDEX ERROR TEXT`, `long-text COUNT` for a text of so many bytes,
//!   or what only a server says: `ask-bytes`, `ask-text`, `put`, `hello`, `joined`, `imaged`,
//!   `answered`, `forked`, `cancelled`, `exec-ready`, `refused`
//! - `work C N`: an open call is worked
//! - `take C`: the oldest queued frame is handed out; `spell C`: the same, as bytes in hexadecimal
//! - `lowest C N`: which is the lowest open call of the connection above N
//! - `journal`: how many entries the journal has, and each on a row of its own; `last`: how many, and
//!   the last one
//!
//! The status is 0, and 64 where a step was not understood, which is its answer then; the other
//! steps are done all the same. It is 74 where the input can't be read or is too long, or the output
//! can't be written, and 75 where memory is refused; then not all is printed.
#![tactic(auto)]

mod fault;
mod said;
mod served;
mod step;
mod talk;
mod word;

use crate::talk::Talk;
use sp_base::NoMemory;
use sp_io::{ReadSource, TakeFault, WriteSink, put_all, take_all};
use std::alloc::Global;
use std::process::ExitCode;

const NOT_UNDERSTOOD: u8 = 64;

const IO: u8 = 74;

const NO_MEMORY: u8 = 75;

/// The most bytes of rows that are read: 1 MiB.
const MOST_BYTES: u32 = 1_048_576;

/// The whole talk that the rows are.
fn talk_of(alloc: Global, rows: &[u8]) -> Result<Talk, NoMemory> {
    let mut talk = Talk::fresh(alloc)?;
    talk.rows(rows)?;
    Ok(talk)
}

fn main(rt: HostRuntime) -> ExitCode {
    let alloc = rt.alloc();
    let mut input = ReadSource::over(rt.stdin());
    let mut out = WriteSink::over(rt.stdout());
    let rows = match take_all(alloc, &mut input, MOST_BYTES) {
        Ok(rows) => rows,
        Err(TakeFault::NoMemory) => return ExitCode::from(NO_MEMORY),
        Err(_) => return ExitCode::from(IO),
    };
    let Ok(talk) = talk_of(alloc, rows.slice()) else {
        return ExitCode::from(NO_MEMORY);
    };
    if put_all(&mut out, talk.out()).is_err() {
        return ExitCode::from(IO);
    }
    if talk.is_understood() {
        ExitCode::SUCCESS
    } else {
        ExitCode::from(NOT_UNDERSTOOD)
    }
}
