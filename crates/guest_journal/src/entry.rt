//! The lines of a journal.
ghost use Rattle.std.specs.Prelude.{◌≡◌, ◌++◌, IfOk, OnErr, OnOk};
ghost use Rattle.guest_journal.specs.Entries.{answer_of, call_addition, entries_text, entry_text, head_text, journal_text, op_addition, op_text, outcome_text, who_text};

use crate::call::call_text;
use guest_rows::{Addition, SideName, put_answer};
use kern_model::{Entry, Ins, Op, Outcome, Who};
use script_words::put_number;
use sp_base::{Answer, Call, NoMemory, Octets, Place};
use std::alloc::Global;

/// Appends for whom an entry was made.
#[tactic(auto, unfolding(crate::specs::Entries::who_text))]
fn put_who(out: &mut Octets, who: &Who) -> Result<(), NoMemory>
    ensures { OnOk result (out.new ≡ out.old ++ who_text who.now) }
{
    match who {
        Who::Request(conn, number) => {
            put_number(out, u64::from(conn.0))?;
            out.push(b'/')?;
            put_number(out, number.0)
        }
        Who::End(conn) => {
            out.extend(b"end/")?;
            put_number(out, u64::from(conn.0))
        }
        Who::Cancelled(cookie) => {
            out.extend(b"cancel/")?;
            put_number(out, *cookie)
        }
        Who::Host(guest, count) => {
            out.extend(b"host/")?;
            put_number(out, u64::from(*guest))?;
            out.push(b'/')?;
            put_number(out, *count)
        }
    }
}

/// Appends an operation with what was gathered for it.
fn put_op(alloc: Global, out: &mut Octets, op: &Op, ins: &Ins) -> Result<(), NoMemory>
    ensures { OnOk result (out.new ≡ out.old ++ op_text op.now ins.now) }
{
    match op {
        Op::Sys(call) => {
            let text = call_text(alloc, call, ins)?;
            out.extend(text.slice())
        }
        Op::Attach => out.extend(b"attach"),
        Op::Fork => out.extend(b"fork"),
        Op::Exec => out.extend(b"exec"),
        Op::Exit => out.extend(b"exit"),
    }
}

/// What the result of a call adds to its value.
fn call_addition(call: &Call) -> Addition
    ensures { result ≡ call_addition call.now }
{
    match call {
        Call::Read { .. } | Call::Pread { .. } => Addition::Bytes,
        Call::Recvfrom { .. } => Addition::Received,
        Call::Pipe | Call::Socketpair { .. } => Addition::SecondValue,
        Call::Fstat { .. } | Call::Stat { .. } => Addition::Stat,
        Call::Getsockname { .. } | Call::Getpeername { .. } => Addition::Address,
        Call::Poll { count, .. } => Addition::Entries(*count),
        _ => Addition::Nothing,
    }
}

/// What the result of an operation adds to its value.
fn op_addition(op: &Op) -> Addition
    ensures { result ≡ op_addition op.now }
{
    match op {
        Op::Sys(call) => call_addition(call),
        Op::Attach | Op::Fork | Op::Exec | Op::Exit => Addition::Nothing,
    }
}

/// What an outcome answers, at its place in the journal.
fn answer_of(place: u64, outcome: &Outcome) -> Answer
    ensures { result ≡ answer_of place outcome.now }
{
    Answer {
        err: outcome.err,
        ret0: outcome.ret0,
        ret1: outcome.ret1,
        place: Place(place),
    }
}

/// Appends the result of an operation: its outcome.
fn put_outcome(
    alloc: Global,
    out: &mut Octets,
    place: u64,
    op: &Op,
    outcome: &Outcome,
) -> Result<(), NoMemory>
    ensures { OnOk result (out.new ≡ out.old ++ outcome_text place op.now outcome.now) }
{
    let answer = answer_of(place, outcome);
    put_answer(alloc, out, op_addition(op), &answer, outcome.outs.slice())
}

/// The line of an entry with its line end.
#[tactic(auto, unfolding(crate::specs::Entries::entry_text))]
fn entry_text(alloc: Global, place: u64, entry: &Entry) -> Result<Octets, NoMemory>
    ensures { IfOk result (λ text. text ≡ entry_text place entry.now) }
{
    let mut line = Octets::none(alloc);
    put_number(&mut line, place)?;
    line.push(b' ')?;
    put_who(&mut line, &entry.who)?;
    line.push(b' ')?;
    put_number(&mut line, u64::from(entry.pid.0))?;
    line.push(b' ')?;
    put_op(alloc, &mut line, &entry.op, &entry.ins)?;
    line.extend(b" = ")?;
    put_outcome(alloc, &mut line, place, &entry.op, &entry.outcome)?;
    line.push(b'\n')?;
    Ok(line)
}

/// Appends the line of an entry, which stands at a place of its journal:
/// `PLACE WHO PID CALL = RESULT` and a line end.
///
/// The result is that of the entry, whatever its caller was told. The only error is want of memory,
/// and leaves the text as it was.
pub fn put_entry(
    alloc: Global,
    out: &mut Octets,
    place: Place,
    entry: &Entry,
) -> Result<(), NoMemory>
    ensures ok { OnOk result (out.new ≡ out.old ++ entry_text place.0 entry.now) }
    ensures err { OnErr result (out.new ≡ out.old) }
{
    let line = entry_text(alloc, place.0, entry)?;
    out.extend(line.slice())
}

/// The line that begins a journal.
fn head_text(name: SideName) -> &'static [u8]
    ensures { result.now ≡ head_text name }
{
    match name {
        SideName::Rump => b"journal rump\n".as_slice(),
        SideName::Host => b"journal host\n".as_slice(),
    }
}

/// The text of a kernel's journal: `journal rump` or `journal host`, and a line for each entry, in
/// order. The only error is want of memory.
pub fn journal_text(alloc: Global, name: SideName, journal: &[Entry]) -> Result<Octets, NoMemory>
    ensures { IfOk result (λ text. text ≡ journal_text name journal.now) }
{
    let mut text = Octets::of(alloc, head_text(name))?;
    for (place, entry) in journal.iter().enumerate() {
        put_entry(alloc, &mut text, Place(place as u64), entry)?;
    }
    Ok(text)
}
