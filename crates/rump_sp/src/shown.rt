//! What a script shows: the rows of its guest's lines, and the journals.
ghost use Rattle.std.specs.Prelude.{◌≡◌, None, IfErr, IfOk};
ghost use Rattle.guest_language.specs.Facts.{IsSoundSection};
ghost use Rattle.guest_run.specs.Outside.{first_outside};
ghost use Rattle.guest_run.specs.Run.{HasSaltCause};
ghost use Rattle.rump_sp.specs.Top.{IsScriptFailure, Shows, ShowsRun, failure_of, is_whole};
ghost use Rattle.rump_sp.specs.Top.{journals_text};

use crate::failure::Failure;
use guest_journal::journal_text;
use guest_language::{Script, ScriptFault, ScriptKind, Section, sections_are_sound};
use guest_rows::SideName;
use guest_run::{Ran, RunEnd, outside_line, run};
use kern_model::Entry;
use sp_base::{NoMemory, Octets};
use sp_io::Salt;
use std::alloc::Global;

/// What a script shows.
#[derive(Drop)]
pub struct Shown {
    /// The rows, and behind them the journals where they are asked for.
    pub text: Octets,
    /// How the run ended. Where the server refused a call for want of memory, the rows end with that
    /// call's; where no salt was drawn for an exec, with those before it. No journals follow then.
    pub end: RunEnd,
}

/// The failure that a script's fault is.
fn failure_of(fault: ScriptFault) -> Failure
    ensures { result ≡ failure_of fault }
{
    match fault.kind {
        ScriptKind::NoMemory => Failure::NoMemory,
        _ => Failure::Script(fault),
    }
}

/// The journals of both kernels, where they are asked for; no call goes to the host's by now.
fn journals_text(alloc: Global, asked: bool, journal: &[Entry]) -> Result<Octets, NoMemory>
    ensures { IfOk result (λ text. text ≡ journals_text asked journal.now) }
{
    if !asked {
        return Ok(Octets::none(alloc));
    }
    let mut text = journal_text(alloc, SideName::Rump, journal)?;
    let host = journal_text(alloc, SideName::Host, &[])?;
    text.extend(host.slice())?;
    Ok(text)
}

/// Whether a run went to its end.
fn is_whole(end: RunEnd) -> bool
    ensures { result ≡ is_whole end }
{
    matches!(end, RunEnd::Whole)
}

/// What a run of a section shows. The only error is want of memory.
fn show_run<S: Salt>(
    alloc: Global,
    section: &Section,
    journals: bool,
    salt: &mut S,
) -> Result<Shown, NoMemory>
    requires sound { IsSoundSection section.now }
    requires inside { first_outside section.now.lines ≡ None }
    ensures shows { IfOk result (λ shown.
        ShowsRun section.now journals (is_whole shown.end) shown.text) }
    ensures salt { IfOk result (λ shown.
        HasSaltCause (S.faults salt.old) (S.faults salt.new) shown.end) }
{
    let Ran { rows, end, hub } = run(alloc, section, salt)?;
    let journals = journals_text(alloc, journals && is_whole(end), hub.journal())?;
    let mut text = rows;
    text.extend(journals.slice())?;
    Ok(Shown { text, end })
}

/// What the script that a text is shows, with its journals or without. A salt is drawn for each
/// exec that runs.
///
/// An error is the text's first fault, a line that doesn't run yet among them, or want of memory.
pub fn show<S: Salt>(
    alloc: Global,
    text: &[u8],
    journals: bool,
    salt: &mut S,
) -> Result<Shown, Failure>
    ensures shows { IfOk result (λ shown.
        Shows text.now journals (is_whole shown.end) shown.text) }
    ensures salt { IfOk result (λ shown.
        HasSaltCause (S.faults salt.old) (S.faults salt.new) shown.end) }
    ensures fault { IfErr result (IsScriptFailure text.now) }
{
    let script = match Script::read(alloc, text) {
        Ok(script) => script,
        Err(fault) => return Err(failure_of(fault)),
    };
    if let Some(line) = outside_line(script.sections()) {
        return Err(Failure::Outside(line));
    }
    sections_are_sound();
    match script.sections() {
        [] => Ok(Shown {
            text: journals_text(alloc, journals, &[])?,
            end: RunEnd::Whole,
        }),
        [section] => Ok(show_run(alloc, section, journals, salt)?),
        _ => unreachable!(),
    }
}
