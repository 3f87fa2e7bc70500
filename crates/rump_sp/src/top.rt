//! The program over a source and two sinks.
ghost use Rattle.std.specs.Prelude.{◌≡◌, ◌≢◌, ◌⊎◌, Bool, Option, true, false, None, map, Contains};
ghost use Rattle.std.specs.Io.KnownBytes.{Keeps};
ghost use Rattle.sp_io.specs.Causes.{Rose};
ghost use Rattle.sp_server.specs.Stdio.{IsServed};
ghost use Rattle.sp_server.specs.declared.stdio.StdioEnd.{StdioEnd};
ghost use Rattle.rump_sp.specs.declared.failure.Failure.{Failure};
ghost use Rattle.rump_sp.specs.Failure.{statuses, exit_status, told_of, Tells};
ghost use Rattle.rump_sp.specs.Stdio.{end_status, end_message, HasEndCause};
ghost use Rattle.rump_sp.specs.Top.{Prints, PrintsFront, TellsFault, AsksFor};
ghost use Rattle.rump_sp.specs.Words.{asked_of};

use crate::bench::bench_main;
use crate::failure::{Failure, fail};
use crate::stdio::stdio_main;
use crate::words::{Asked, read_words};
use sp_base::NoMemory;
use sp_io::{Salt, Sink, Source};
use std::alloc::Global;
use std::convert::AsStr;

/// The program: it does what the words of the command line behind its name ask for, and gives the
/// exit status.
///
/// `bench -r` reads a script from `input`, runs it, and writes the rows of its lines to `out`, and
/// with `-j` the journals behind them; it draws a salt for each exec. `stdio` serves one connection
/// over `input` and `out`. What keeps it from its end is told in one line on `err`, whose own
/// faults are passed over. The first cause decides.
pub fn rump_main<W: AsStr, S: Salt, I: Source, O: Sink, E: Sink>(
    alloc: Global,
    words: &[W],
    salt: &mut S,
    input: &mut I,
    out: &mut O,
    err: &mut E,
) -> u8
    requires input { I.is_done input.old ≡ false }
    requires out { O.is_done out.old ≡ false }
    requires err { E.is_done err.old ≡ false }

    // Which status comes, when, and what is told. Want of memory is the one free cause.
    ensures status { Contains statuses result }
    ensures usage { result ≡ 64 → asked_of (map W.text words.now) ≡ None }
    ensures no_salt { result ≡ 71 → Rose (S.faults salt.old) (S.faults salt.new) }
    ensures io { result ≡ 74
        → Rose (I.faults input.old) (I.faults input.new)
        ⊎ Rose (O.faults out.old) (O.faults out.new) }
    ensures read { result ≡ 0 → I.ended input.new ≡ true }
    ensures told { (failure : Option Failure) × (result ≡ exit_status failure)
        × Tells (E.faults err.old) (E.faults err.new) (E.held err.old) (E.held err.new)
        (told_of failure) }

    // What a script's guests do, and what is written of it.
    ensures script { (journals : Bool)
        → AsksFor (map W.text words.now) (Asked.Bench journals) → result ≡ 65
        → TellsFault (I.left input.old)
        (Tells (E.faults err.old) (E.faults err.new) (E.held err.old) (E.held err.new)) }
    ensures rows { (journals : Bool)
        → AsksFor (map W.text words.now) (Asked.Bench journals) → result ≡ 0
        → Prints journals (I.left input.old) (O.held out.old) (O.held out.new) }
    ensures other { (journals : Bool)
        → AsksFor (map W.text words.now) (Asked.Bench journals) → result ≢ 0
        → PrintsFront journals (I.left input.old) (O.held out.old) (O.held out.new) }
    ensures early { (journals : Bool)
        → AsksFor (map W.text words.now) (Asked.Bench journals) → I.ended input.new ≡ false
        → Keeps (O.held out.old) (O.held out.new) }

    // How one connection is served.
    ensures stdio { AsksFor (map W.text words.now) Asked.Stdio → (end : StdioEnd)
        × (result ≡ end_status end)
        × IsServed
        (record {
          left = I.left input.old;
          passed = I.passed input.old;
          held = O.held out.old;
          drawn = S.drawn salt.old;
        })
        (record {
          left = I.left input.new;
          passed = I.passed input.new;
          held = O.held out.new;
          drawn = S.drawn salt.new;
        }) end
        × HasEndCause end (I.ended input.new) (I.faults input.old) (I.faults input.new)
        (O.faults out.old) (O.faults out.new) (S.faults salt.old) (S.faults salt.new)
        × Tells (E.faults err.old) (E.faults err.new) (E.held err.old) (E.held err.new)
        (end_message end) }

    // Where the words are wrong, nothing is drawn, read or written.
    ensures wrong { asked_of (map W.text words.now) ≡ None → ((result ≡ 64) ⊎ (result ≡ 75))
        × (input.new ≡ input.old) × (out.new ≡ out.old) × (salt.new ≡ salt.old) }

    // What stays.
    ensures input_open { I.is_done input.new ≡ false }
    ensures out_open { O.is_done out.new ≡ false }
    ensures err_open { E.is_done err.new ≡ false }
{
    match read_words(alloc, words) {
        Ok(Some(Asked::Stdio)) => stdio_main(alloc, input, salt, out, err),
        Ok(Some(Asked::Bench { journals })) => bench_main(alloc, journals, salt, input, out, err),
        Ok(None) => fail(err, Failure::Usage),
        Err(NoMemory) => fail(err, Failure::NoMemory),
    }
}
