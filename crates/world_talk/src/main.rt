//! Has events happen in a world of guests, and prints what the world answers.
//!
//! `world_talk` reads rows from standard input, at most 1 MiB, and prints each with the answer
//! behind ` -> `. An empty row, and one that begins with `# `, is printed as it is. A row is a
//! step, or several with `;` between them, whose answers have `;` between them as well.
//!
//! C is a connection's number and N a request's; CALL is a call with its words, as a script's line
//! spells it, made in the memory that the script's line brings. An answered call is told as
//! `Got at PLACE: ERROR VALUE` and the bytes that stand then where the call may write. The steps:
//!
//! - `fresh`: there is a new world, in which nothing happened, as at the beginning
//! - `connect C`, `join C COOKIE SALT`, `image C COOKIE SALT`: a guest connects, as itself, as a
//!   cookie's child, or as the next program of a cookie's process
//! - `start C CALLER CALL`, `prefork C CALLER`, `cancel C CALLER COOKIE SALT`, `preexec C CALLER`,
//!   `collect C N`: a caller asks, or asks for the answer
//! - `from-client C`, `to-server C SALT`, `from-server C`, `to-client C`: a frame moves on
//! - `work C N`: the server works an open call
//! - `cut C`, `ends C`: the connection's link breaks, or the guest closes it
//! - `host GUEST CALLER PID OPERATION`: the host's kernel performs an operation, which is `attach`,
//!   `fork`, `exec`, `exit` or a CALL
//! - `give-up`, `halt`: the event of that name
//! - `through C`: frames move on and calls are worked till nothing moves; `turns C C2 STEP`: the
//!   same of two connections, a step of the first and then a step of the second, but the other way
//!   round at the step of that number. Told is how many events did something.
//! - `call C CALLER CALL`: a call from its start to its answer, with all that moves between
//! - `rump`, `host`: a kernel's journal; `log`: all that happened; `refused`: how much of it was
//!   work that was refused for want of memory; `faults C`: how often a link broke; `still`,
//!   `busy C`, `answered C N`: what the world tells of itself
//!
//! A row `cuts: CALL; CALL; ..` has a conversation of its own: a guest connects, makes the calls
//! one after another, and ends. It is had once for each number of events that do something, after
//! which the link breaks, and each time it is checked that each answered call has exactly one entry
//! in the rump kernel's journal, which performed that call for that request and stands at the
//! answer's place; that each lost call has one at the most; and that no other entries stand there
//! but those of handshake and end.
//!
//! The status is 0, and 1 where a step was not understood or a check didn't hold, which is told as
//! its answer then; the other steps are done all the same. It is 74 where the input can't be read
//! or is too long, or the output can't be written, and 75 where memory is refused; then not all is
//! printed.
#![tactic(auto)]

mod call;
mod cuts;
mod event;
mod fault;
mod once;
mod player;
mod reply;
mod talk;
mod word;

use crate::talk::Talk;
use sp_base::NoMemory;
use sp_io::{ReadSource, TakeFault, WriteSink, put_all, take_all};
use std::alloc::Global;
use std::process::ExitCode;

const NOT_DONE: u8 = 1;

const IO: u8 = 74;

const NO_MEMORY: u8 = 75;

/// The most bytes of rows that are read: 1 MiB.
const MOST_BYTES: u32 = 1_048_576;

/// The whole talk that the rows are.
fn talk_of(alloc: Global, rows: &[u8]) -> Result<Talk, NoMemory> {
    let mut talk = Talk::fresh(alloc)?;
    talk.rows(rows)?;
    Ok(talk)
}

fn main(rt: HostRuntime) -> ExitCode {
    let alloc = rt.alloc();
    let mut input = ReadSource::over(rt.stdin());
    let mut out = WriteSink::over(rt.stdout());
    let rows = match take_all(alloc, &mut input, MOST_BYTES) {
        Ok(rows) => rows,
        Err(TakeFault::NoMemory) => return ExitCode::from(NO_MEMORY),
        Err(_) => return ExitCode::from(IO),
    };
    let Ok(talk) = talk_of(alloc, rows.slice()) else {
        return ExitCode::from(NO_MEMORY);
    };
    if put_all(&mut out, talk.out()).is_err() {
        return ExitCode::from(IO);
    }
    if talk.is_done() {
        ExitCode::SUCCESS
    } else {
        ExitCode::from(NOT_DONE)
    }
}
