//! The run of one guest over a server of its own.
ghost use Rattle.std.specs.Prelude.{◌≡◌, ◌++◌, [], List, ℕ, IfOk, None, OnOk, true};
ghost use Rattle.sp_base.specs.declared.call.Call.{Call};
ghost use Rattle.sp_base.specs.declared.names.Pid.{Pid};
ghost use Rattle.sp_frames.specs.Grammar.{IsName};
ghost use Rattle.guest_language.specs.Facts.{HasProperCall, IsSoundSection};
ghost use Rattle.guest_language.specs.declared.script.What.TheVariants.{Exec, Run};
ghost use Rattle.guest_run.specs.Guest.{IsAtRest};
ghost use Rattle.guest_run.specs.Outside.{first_outside, is_inside};
ghost use Rattle.guest_run.specs.Run.{HasSaltCause, IsEnded, IsRun};
ghost use Rattle.guest_run.specs.UnderWay.{HasTold, IsAnsweredAs, IsToldTo};

use crate::calling::Called;
use crate::joined::Joined;
use crate::rows::{answered_row, refused_row};
use guest_language::{Line, Section, What};
use sp_base::{Answer, Call, NoMemory, Octets};
use sp_copy::Mem;
use sp_hub::Hub;
use sp_io::Salt;
use std::alloc::Global;

/// How a guest's run ended.
#[derive(Clone, Copy, Debug, PartialEq, Eq)]
pub enum RunEnd {
    /// Every line was answered.
    Whole,
    /// The server refused the last line for want of memory, and no line behind it was begun.
    Refused,
    /// No salt could be drawn for an exec, and neither it nor a line behind it was begun.
    NoSalt,
}

/// How a guest's run went.
#[derive(Drop)]
pub struct Ran {
    /// The rows of its lines.
    pub rows: Octets,
    /// How it ended.
    pub end: RunEnd,
    /// The server afterwards, with its journal.
    pub hub: Hub,
}

/// Calls what a line of a guest calls, puts its row behind others, and tells how it ended. The only
/// error is want of memory.
fn tell_call(
    alloc: Global,
    joined: &mut Joined,
    guest: &[u8],
    number: u32,
    line: &Line,
    call: &Call,
    rows: &mut Octets,
) -> Result<RunEnd, NoMemory>
    requires runs { line.now.what ≡ Run call.now }
    requires proper { HasProperCall line.now }
    requires inside { is_inside line.now ≡ true }
    requires rest { (pid : Pid) × IsAtRest joined.old pid number }
    ensures { IfOk result (λ end. (row : List ℕ) × (rows.new ≡ rows.old ++ row)
        × ((pid : Pid) → IsAtRest joined.old pid number
        → HasTold guest.now pid number joined.old line.now row end joined.new)) }
{
    let mem = line.memory(alloc)?;
    match joined.call(call.copy(), mem)? {
        Called::Answered(answer, mem) => {
            let row = answered_row(alloc, guest, number, line, answer, &mem)?;
            rows.extend(row.slice())?;
            Ok(RunEnd::Whole)
        }
        Called::Refused => {
            let row = refused_row(alloc, guest, number, line)?;
            rows.extend(row.slice())?;
            Ok(RunEnd::Refused)
        }
    }
}

/// Has a guest's process go on as its next program, by a cookie with a salt, and puts the line's row
/// behind others. The only error is want of memory.
fn tell_exec(
    alloc: Global,
    joined: &mut Joined,
    guest: &[u8],
    number: u32,
    line: &Line,
    salt: u64,
    rows: &mut Octets,
) -> Result<(), NoMemory>
    requires name { IsName guest.now }
    requires runs { line.now.what ≡ Exec }
    requires rest { (pid : Pid) × IsAtRest joined.old pid number }
    ensures { OnOk result ((row : List ℕ) × (rows.new ≡ rows.old ++ row)
        × ((pid : Pid) → IsAtRest joined.old pid number
        → IsAnsweredAs guest.now pid number joined.old line.now row joined.new)) }
{
    let place = joined.exec(alloc, Octets::of(alloc, guest)?, salt)?;
    let answer = Answer {
        err: 0,
        ret0: 0,
        ret1: 0,
        place,
    };
    let row = answered_row(alloc, guest, number, line, answer, &Mem::none(alloc))?;
    rows.extend(row.slice())?;
    Ok(())
}

/// Does what a line of a guest asks for, puts its row behind others, and tells how it ended. A salt
/// is drawn for an exec. The only error is want of memory.
fn tell<S: Salt>(
    alloc: Global,
    joined: &mut Joined,
    guest: &[u8],
    number: u32,
    line: &Line,
    salt: &mut S,
    rows: &mut Octets,
) -> Result<RunEnd, NoMemory>
    requires name { IsName guest.now }
    requires proper { HasProperCall line.now }
    requires inside { is_inside line.now ≡ true }
    requires rest { (pid : Pid) × IsAtRest joined.old pid number }
    ensures told { IfOk result (λ end. (row : List ℕ) × (rows.new ≡ rows.old ++ row)
        × ((pid : Pid) → IsAtRest joined.old pid number
        → HasTold guest.now pid number joined.old line.now row end joined.new)) }
    ensures salt { IfOk result (HasSaltCause (S.faults salt.old) (S.faults salt.new)) }
{
    match &line.what {
        What::Run(call) => tell_call(alloc, joined, guest, number, line, call, rows),
        What::Exec => {
            let Ok(salt) = salt.next() else {
                return Ok(RunEnd::NoSalt);
            };
            tell_exec(alloc, joined, guest, number, line, salt, rows)?;
            Ok(RunEnd::Whole)
        }
        What::Fork(_) | What::Join => unreachable!(),
    }
}

/// Does what the lines of a section ask for, one after another, puts their rows behind none, and
/// tells how they ended. The only error is want of memory.
fn tell_all<S: Salt>(
    alloc: Global,
    joined: &mut Joined,
    section: &Section,
    salt: &mut S,
    rows: &mut Octets,
) -> Result<RunEnd, NoMemory>
    requires name { IsName section.now.name }
    requires sound { IsSoundSection section.now }
    requires inside { first_outside section.now.lines ≡ None }
    requires rest { (pid : Pid) × IsAtRest joined.old pid 1 }
    requires none { rows.old ≡ [] }
    ensures told { IfOk result (λ end. (pid : Pid) → IsAtRest joined.old pid 1
        → IsToldTo section.now joined.old joined.new rows.new end pid) }
    ensures rest { IfOk result (λ end. end ≡ RunEnd.Whole → (pid : Pid)
        → IsAtRest joined.old pid 1 → (bound : ℕ) × IsAtRest joined.new pid bound) }
    ensures salt { IfOk result (HasSaltCause (S.faults salt.old) (S.faults salt.new)) }
{
    for (i, line) in section.lines.slice().iter().enumerate() {
        let number = i as u32 + 1;
        let name = section.name.slice();
        match tell(alloc, joined, name, number, line, salt, rows)? {
            RunEnd::Whole => {}
            end => return Ok(end),
        }
    }
    Ok(RunEnd::Whole)
}

/// Where all lines were answered, the guest's connection ends, and its process exits. Takes no
/// memory.
fn finish(joined: &mut Joined, end: RunEnd)
    ensures { (pid : Pid)
        → (end ≡ RunEnd.Whole → (bound : ℕ) × IsAtRest joined.old pid bound)
        → IsEnded end joined.old.conn pid joined.old.hub.journal joined.new.hub.journal }
{
    match end {
        RunEnd::Whole => joined.end(),
        _ => {}
    }
}

/// Runs a section over a server of its own: its process is made, what its lines ask for is done one
/// after another, and its process exits. A salt is drawn for each exec. The only error is want of
/// memory.
pub fn run<S: Salt>(alloc: Global, section: &Section, salt: &mut S) -> Result<Ran, NoMemory>
    requires sound { IsSoundSection section.now }
    requires inside { first_outside section.now.lines ≡ None }
    ensures run { IfOk result (IsRun section.now) }
    ensures salt { IfOk result (λ ran.
        HasSaltCause (S.faults salt.old) (S.faults salt.new) ran.end) }
{
    let name = Octets::of(alloc, section.name.slice())?;
    let mut joined = Joined::greeted(alloc, name)?;
    let mut rows = Octets::none(alloc);
    let end = tell_all(alloc, &mut joined, section, salt, &mut rows)?;
    finish(&mut joined, end);
    Ok(Ran {
        rows,
        end,
        hub: joined.hub,
    })
}
