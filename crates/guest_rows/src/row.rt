//! A row: how a line of a guest went.
ghost use Rattle.std.specs.Prelude.{◌≡◌, ◌++◌, IfOk, OnOk, map};
ghost use Rattle.script_words.specs.Words.{words_of};
ghost use Rattle.guest_rows.specs.Rows.{addition_of, answer_text, behind, count_behind, error_text, gave_text, place_text, result_text, row_text, side_text, verb_in, words_addition};

use crate::added::{Addition, added};
use guest_language::{Verb, call_words, verb_of};
use kern_model::{OutPiece, Outs};
use script_words::{put_number, words_of};
use sp_base::{Answer, Errno, NoMemory, Octets, Pid, Place, SpError};
use std::alloc::Global;

/// One of the two kernels.
#[derive(Clone, Copy, Debug, PartialEq, Eq)]
pub enum SideName {
    Rump,
    Host,
}

/// How a line ended.
#[derive(Debug, Drop)]
pub enum RowResult {
    /// It was answered, with the pieces that it wrote.
    Gave(Answer, Outs),
    /// It forked a child, whose process this is.
    Child(Pid),
    /// It waited for what never came.
    Blocked,
    /// Its link was lost.
    Lost,
    /// A server refused a step of it.
    Refused(SpError),
}

/// A line of a guest, where it was performed, and how it went.
#[derive(Debug, Drop)]
pub struct Row {
    /// The guest's name.
    pub guest: Octets,
    /// The line's number in its section, from 1; `guest` and `join` aren't counted.
    pub number: u32,
    /// The kernel that answered it; none where no kernel or both did.
    pub side: Option<SideName>,
    /// Whether both kernels did.
    pub both: bool,
    /// Where the kernel's journal has it.
    pub place: Option<Place>,
    /// The line with single spaces.
    pub line: Octets,
    pub result: RowResult,
}

/// Appends the name of an error, or its number where it has none.
#[tactic(auto, unfolding(crate::specs::Rows::error_text))]
fn put_error(out: &mut Octets, number: u32) -> Result<(), NoMemory>
    ensures { OnOk result (out.new ≡ out.old ++ error_text number) }
{
    match Errno::of_number(number) {
        Some(errno) => out.extend(errno.name().as_bytes()),
        None => put_number(out, u64::from(number)),
    }
}

/// The call of a line's words.
fn verb_in(words: &[&[u8]]) -> Option<Verb>
    ensures { result ≡ verb_in (map (λ w. w.now) words.now) }
{
    match words {
        [word, ..] => verb_of(word),
        [] => None,
    }
}

/// The words behind the first.
fn behind<'a, 'b>(words: &'b [&'a [u8]]) -> &'b [&'a [u8]]
    ensures { map (λ w. w.now) result.now ≡ behind (map (λ w. w.now) words.now) }
{
    match words {
        [_, rest @ ..] => rest,
        [] => words,
    }
}

/// How many words stand behind the first.
fn count_behind(words: &[&[u8]]) -> u64
    ensures { result ≡ count_behind (map (λ w. w.now) words.now) }
{
    behind(words).len() as u64
}

/// What the row of a call adds to its value, by the call and the words behind it.
fn addition_of(verb: Option<Verb>, words: &[&[u8]]) -> Addition
    ensures { result ≡ addition_of verb (map (λ w. w.now) words.now) }
{
    match verb {
        Some(Verb::Read) | Some(Verb::Pread) => Addition::Bytes,
        Some(Verb::Recvfrom) => Addition::Received,
        Some(Verb::Pipe) | Some(Verb::Socketpair) => Addition::SecondValue,
        Some(Verb::Fstat) | Some(Verb::Stat) => Addition::Stat,
        Some(Verb::Getsockname) | Some(Verb::Getpeername) => Addition::Address,
        Some(Verb::Poll) => Addition::Entries(count_behind(words)),
        _ => Addition::Nothing,
    }
}

/// What the row of a call of these words adds.
fn words_addition(words: &[&[u8]]) -> Addition
    ensures { result ≡ words_addition (map (λ w. w.now) words.now) }
{
    addition_of(verb_in(words), behind(words))
}

/// Appends an answer: -1 and the error, or the value and what is added to it. An error may
/// leave a part of it behind the text.
#[tactic(auto, unfolding(crate::specs::Rows::answer_text))]
pub fn put_answer(
    alloc: Global,
    out: &mut Octets,
    addition: Addition,
    answer: &Answer,
    outs: &[OutPiece],
) -> Result<(), NoMemory>
    ensures { OnOk result (out.new ≡ out.old ++ answer_text addition answer.now outs.now) }
{
    if answer.err != 0 {
        out.extend(b"-1 ")?;
        return put_error(out, answer.err);
    }
    let more = added(alloc, addition, answer, outs)?;
    put_number(out, answer.ret0)?;
    out.extend(more.slice())
}

/// Appends the answer of a line's call.
fn put_gave(
    alloc: Global,
    out: &mut Octets,
    line: &[u8],
    answer: &Answer,
    outs: &[OutPiece],
) -> Result<(), NoMemory>
    ensures { OnOk result (out.new ≡ out.old ++ gave_text line.now answer.now outs.now) }
{
    let words = words_of(alloc, line)?;
    let addition = words_addition(call_words(words.as_slice()));
    put_answer(alloc, out, addition, answer, outs)
}

/// Appends how a line ended.
#[tactic(auto, unfolding(crate::specs::Rows::result_text))]
fn put_result(alloc: Global, out: &mut Octets, line: &[u8], end: &RowResult) -> Result<(), NoMemory>
    ensures { OnOk result (out.new ≡ out.old ++ result_text line.now end.now) }
{
    match end {
        RowResult::Gave(answer, outs) => put_gave(alloc, out, line, answer, outs.slice()),
        RowResult::Child(pid) => put_number(out, u64::from(pid.0)),
        RowResult::Blocked => out.extend(b"blocked"),
        RowResult::Lost => out.extend(b"lost"),
        RowResult::Refused(error) => {
            out.extend(b"refused ")?;
            put_number(out, u64::from(error.number()))
        }
    }
}

/// Appends the kernel.
#[tactic(auto, unfolding(crate::specs::Rows::side_text))]
fn put_side(out: &mut Octets, side: Option<SideName>, both: bool) -> Result<(), NoMemory>
    ensures { OnOk result (out.new ≡ out.old ++ side_text side both) }
{
    match side {
        Some(SideName::Rump) => out.extend(b"rump"),
        Some(SideName::Host) => out.extend(b"host"),
        None if both => out.extend(b"both"),
        None => out.extend(b"none"),
    }
}

/// Appends the place, or `-`.
#[tactic(auto, unfolding(crate::specs::Rows::place_text))]
fn put_place(out: &mut Octets, place: Option<Place>) -> Result<(), NoMemory>
    ensures { OnOk result (out.new ≡ out.old ++ place_text place) }
{
    match place {
        Some(place) => put_number(out, place.0),
        None => out.push(b'-'),
    }
}

/// The text of a row with its line end: `GUEST.N SIDE PLACE LINE = RESULT`. The only error is want
/// of memory.
#[tactic(auto, unfolding(crate::specs::Rows::row_text))]
pub fn row_text(alloc: Global, row: &Row) -> Result<Octets, NoMemory>
    ensures { IfOk result (λ text. text ≡ row_text row.now) }
{
    let mut out = Octets::none(alloc);
    out.extend(row.guest.slice())?;
    out.push(b'.')?;
    put_number(&mut out, u64::from(row.number))?;
    out.push(b' ')?;
    put_side(&mut out, row.side, row.both)?;
    out.push(b' ')?;
    put_place(&mut out, row.place)?;
    out.push(b' ')?;
    out.extend(row.line.slice())?;
    out.extend(b" = ")?;
    put_result(alloc, &mut out, row.line.slice(), &row.result)?;
    out.push(b'\n')?;
    Ok(out)
}
