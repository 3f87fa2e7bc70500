//! The command `stdio`: one connection over standard input and output.
ghost use Rattle.std.specs.Prelude.{◌≡◌, ◌≢◌, ◌⊎◌, true, false, Contains};
ghost use Rattle.sp_io.specs.Causes.{Rose};
ghost use Rattle.sp_server.specs.Stdio.{IsServed};
ghost use Rattle.sp_server.specs.declared.stdio.StdioEnd.{StdioEnd};
ghost use Rattle.rump_sp.specs.Failure.{statuses, Tells};
ghost use Rattle.rump_sp.specs.Stdio.{end_failure, end_status, end_message, HasEndCause};

use crate::failure::{Failure, fail};
use sp_io::{Salt, Sink, Source};
use sp_server::{StdioEnd, serve_stdio};
use std::alloc::Global;

/// The failure that an end is; None where all went well.
fn failure_in(end: StdioEnd) -> Option<Failure>
    ensures { result ≡ end_failure end }
{
    match end {
        StdioEnd::Clean => None,
        StdioEnd::BadAt(offset) => Some(Failure::BadFrame(offset)),
        StdioEnd::InsideAt(offset) => Some(Failure::Inside(offset)),
        StdioEnd::TooMuch => Some(Failure::TooMuch),
        StdioEnd::InputFault => Some(Failure::Input),
        StdioEnd::OutputFault => Some(Failure::Output),
        StdioEnd::SaltFault => Some(Failure::Salt),
        StdioEnd::NoMemory => Some(Failure::NoMemory),
    }
}

/// Serves one connection whose frames come from `input` and whose answers go to `out`; gives the
/// exit status.
///
/// What keeps it from a clean end is told in one line on `err`, whose own faults are passed over.
pub fn stdio_main<I: Source, S: Salt, O: Sink, E: Sink>(
    alloc: Global,
    input: &mut I,
    salt: &mut S,
    out: &mut O,
    err: &mut E,
) -> u8
    requires input { I.is_done input.old ≡ false }
    requires out { O.is_done out.old ≡ false }
    requires err { E.is_done err.old ≡ false }

    // How the service ended, what was read, written and drawn until then, and what is told of it.
    ensures serves { (end : StdioEnd) × (result ≡ end_status end)
        × IsServed
        (record {
          left = I.left input.old;
          passed = I.passed input.old;
          held = O.held out.old;
          drawn = S.drawn salt.old;
        })
        (record {
          left = I.left input.new;
          passed = I.passed input.new;
          held = O.held out.new;
          drawn = S.drawn salt.new;
        }) end
        × HasEndCause end (I.ended input.new) (I.faults input.old) (I.faults input.new)
        (O.faults out.old) (O.faults out.new) (S.faults salt.old) (S.faults salt.new)
        × Tells (E.faults err.old) (E.faults err.new) (E.held err.old) (E.held err.new)
        (end_message end) }

    // Which status comes, and when.
    ensures status { Contains statuses result }
    ensures usage { result ≢ 64 }
    ensures no_salt { result ≡ 71 → Rose (S.faults salt.old) (S.faults salt.new) }
    ensures io { result ≡ 74
        → Rose (I.faults input.old) (I.faults input.new)
        ⊎ Rose (O.faults out.old) (O.faults out.new) }
    ensures read { result ≡ 0 → I.ended input.new ≡ true }

    // What stays.
    ensures input_open { I.is_done input.new ≡ false }
    ensures out_open { O.is_done out.new ≡ false }
    ensures err_open { E.is_done err.new ≡ false }
{
    let end = serve_stdio(alloc, input, out, salt);
    match failure_in(end) {
        None => 0,
        Some(failure) => fail(err, failure),
    }
}
