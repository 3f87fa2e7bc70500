//! The command `bench`: a script is read and run, and its rows are written.
ghost use Rattle.std.specs.Prelude.{◌≡◌, ◌≢◌, ◌⊎◌, Option, true, false, Contains};
ghost use Rattle.std.specs.Io.KnownBytes.{Keeps};
ghost use Rattle.sp_io.specs.Causes.{Rose};
ghost use Rattle.rump_sp.specs.declared.failure.Failure.{Failure};
ghost use Rattle.rump_sp.specs.Failure.{statuses, exit_status, told_of, Tells};
ghost use Rattle.rump_sp.specs.Top.{Prints, PrintsFront, TellsFault};

use crate::failure::{Failure, fail};
use crate::shown::show;
use guest_language::{ScriptFault, ScriptKind};
use guest_run::RunEnd;
use sp_io::{Failed, Salt, Sink, Source, TakeFault, put_all, take_all};
use std::alloc::Global;

/// The most bytes of a script that are read: 16 MiB.
const MOST_BYTES: u32 = 16_777_216;

/// What a text that is too long to be read whole fails by.
const TOO_LONG: Failure = Failure::Script(ScriptFault {
    line: 0,
    kind: ScriptKind::TooLong,
});

/// Reads a script from `input`, runs it, and writes the rows of its lines to `out`, and behind them
/// the journals of the kernels where they are asked for; gives the exit status.
///
/// Where the server refuses a call for want of memory, the rows up to that call's are written and
/// no journals, and the status is that of want of memory. A salt is drawn for each exec; where none
/// can be, the rows before it are written and no journals, and the status says so. What keeps it
/// from its end is told in one line on `err`, whose own faults are passed over. The first cause
/// decides, and nothing is written before the input was read to its end and the run is over.
pub fn bench_main<S: Salt, I: Source, O: Sink, E: Sink>(
    alloc: Global,
    journals: bool,
    salt: &mut S,
    input: &mut I,
    out: &mut O,
    err: &mut E,
) -> u8
    requires input { I.is_done input.old ≡ false }
    requires out { O.is_done out.old ≡ false }
    requires err { E.is_done err.old ≡ false }

    // Which status comes, when, and what is told. Want of memory is the one free cause.
    ensures status { Contains statuses result }
    ensures usage { result ≢ 64 }
    ensures no_salt { result ≡ 71 → Rose (S.faults salt.old) (S.faults salt.new) }
    ensures script { result ≡ 65
        → TellsFault (I.left input.old)
        (Tells (E.faults err.old) (E.faults err.new) (E.held err.old) (E.held err.new)) }
    ensures io { result ≡ 74
        → Rose (I.faults input.old) (I.faults input.new)
        ⊎ Rose (O.faults out.old) (O.faults out.new) }
    ensures told { (failure : Option Failure) × (result ≡ exit_status failure)
        × Tells (E.faults err.old) (E.faults err.new) (E.held err.old) (E.held err.new)
        (told_of failure) }

    // What was read and written then.
    ensures read { result ≡ 0 → I.ended input.new ≡ true }
    ensures rows { result ≡ 0
        → Prints journals (I.left input.old) (O.held out.old) (O.held out.new) }
    ensures other { result ≢ 0
        → PrintsFront journals (I.left input.old) (O.held out.old) (O.held out.new) }
    ensures early { I.ended input.new ≡ false → Keeps (O.held out.old) (O.held out.new) }

    // What stays.
    ensures input_open { I.is_done input.new ≡ false }
    ensures out_open { O.is_done out.new ≡ false }
    ensures err_open { E.is_done err.new ≡ false }
{
    let text = match take_all(alloc, input, MOST_BYTES) {
        Ok(text) => text,
        Err(TakeFault::Failed) => return fail(err, Failure::Input),
        Err(TakeFault::NoMemory) => return fail(err, Failure::NoMemory),
        Err(TakeFault::TooLong) => return fail(err, TOO_LONG),
    };
    let shown = match show(alloc, text.slice(), journals, salt) {
        Ok(shown) => shown,
        Err(failure) => return fail(err, failure),
    };
    match put_all(out, shown.text.slice()) {
        Err(Failed) => fail(err, Failure::Output),
        Ok(()) => match shown.end {
            RunEnd::Whole => 0,
            RunEnd::Refused => fail(err, Failure::NoMemory),
            RunEnd::NoSalt => fail(err, Failure::Salt),
        },
    }
}
