//! What the text of an answer adds to the value of a call that succeeded.
ghost use Rattle.std.specs.Fmt.{decimal};
ghost use Rattle.script_words.specs.Spelling.{quoted};
ghost use Rattle.std.specs.Prelude.{◌≡◌, ◌∷◌, IfOk, MatchOption, None, Some, map};
ghost use Rattle.guest_rows.specs.Added.{added, address_in, data_of, entries_added, first_bytes, name_added, read_added, received, sender_outs, stat_kind, stat_text};

use crate::answered::{PollPart, entries_text};
use crate::field::{u32_at, u64_at};
use kern_model::OutPiece;
use script_words::{address_text, put_number, put_quoted};
use sp_base::{Answer, NoMemory, Octets};
use std::alloc::Global;

/// What the text of a call's answer adds to the value.
#[derive(Clone, Copy, Debug, PartialEq, Eq)]
pub enum Addition {
    Nothing,
    /// The bytes that were read, in quotes.
    Bytes,
    /// The bytes that were received, in quotes, and the sender's address where it told one.
    Received,
    /// The second value.
    SecondValue,
    /// The kind of a node, and its links, its size and its number.
    Stat,
    /// The address of a socket.
    Address,
    /// So many entries of a poll.
    Entries(u64),
}

/// The first so many bytes of the first piece; none where there are fewer.
fn data_of(count: u64, outs: &[OutPiece]) -> Option<&[u8]>
    ensures { MatchOption result (data_of count outs.now ≡ None) (λ bytes. data_of count outs.now ≡ Some bytes.now) }
{
    if count == 0 {
        return Some(b"".as_slice());
    }
    let [out, ..] = outs else {
        return None;
    };
    let bytes = out.bytes.slice();
    if (bytes.len() as u64) < count {
        return None;
    }
    let (data, _) = bytes.split_at(count as usize);
    Some(data)
}

/// Bytes in quotes behind a space.
fn quoted_added(alloc: Global, bytes: &[u8]) -> Result<Octets, NoMemory>
    ensures { IfOk result (λ text. text ≡ 32 ∷ quoted bytes.now) }
{
    let mut out = Octets::none(alloc);
    out.push(b' ')?;
    put_quoted(&mut out, bytes)?;
    Ok(out)
}

/// What a read adds: its bytes in quotes.
fn read_added(alloc: Global, answer: &Answer, outs: &[OutPiece]) -> Result<Octets, NoMemory>
    ensures { IfOk result (λ text. text ≡ read_added answer.now outs.now) }
{
    match data_of(answer.ret0, outs) {
        Some(data) => quoted_added(alloc, data),
        None => Ok(Octets::none(alloc)),
    }
}

/// The pieces behind a recvfrom's bytes, where it gave any.
fn sender_outs(count: u64, outs: &[OutPiece]) -> &[OutPiece]
    ensures { result.now ≡ sender_outs count outs.now }
{
    if count == 0 {
        return outs;
    }
    match outs {
        [_, rest @ ..] => rest,
        [] => outs,
    }
}

/// The text of an address of so many bytes in the first piece.
fn address_in(alloc: Global, len: u64, outs: &[OutPiece]) -> Result<Option<Octets>, NoMemory>
    ensures { IfOk result (λ text. text ≡ address_in len outs.now) }
{
    match data_of(len, outs) {
        Some(bytes) => address_text(alloc, bytes),
        None => Ok(None),
    }
}

/// What the address of a socket adds.
fn name_added(alloc: Global, len: u64, outs: &[OutPiece]) -> Result<Octets, NoMemory>
    ensures { IfOk result (λ text. text ≡ name_added len outs.now) }
{
    let mut out = Octets::none(alloc);
    if let Some(text) = address_in(alloc, len, outs)? {
        out.push(b' ')?;
        out.extend(text.slice())?;
    }
    Ok(out)
}

/// What a recvfrom adds: its bytes in quotes, and the sender's address where it told one.
fn received(alloc: Global, answer: &Answer, outs: &[OutPiece]) -> Result<Octets, NoMemory>
    ensures { IfOk result (λ text. text ≡ received answer.now outs.now) }
{
    let Some(data) = data_of(answer.ret0, outs) else {
        return Ok(Octets::none(alloc));
    };
    let mut out = quoted_added(alloc, data)?;
    if answer.ret1 == 0 {
        return Ok(out);
    }
    let Some(text) = address_in(alloc, answer.ret1, sender_outs(answer.ret0, outs))? else {
        return Ok(Octets::none(alloc));
    };
    out.push(b' ')?;
    out.extend(text.slice())?;
    Ok(out)
}

/// The name of a node's kind.
#[tactic(auto, unfolding(crate::specs::Added::stat_kind))]
fn stat_kind(kind: u32) -> Option<&'static [u8]>
    ensures { MatchOption result (stat_kind kind ≡ None) (λ name. stat_kind kind ≡ Some name.now) }
{
    match kind {
        1 => Some(b"file".as_slice()),
        2 => Some(b"directory".as_slice()),
        3 => Some(b"pipe".as_slice()),
        4 => Some(b"socket".as_slice()),
        _ => None,
    }
}

/// What fstat and stat add: kind, links, size and node.
#[tactic(auto, unfolding(crate::specs::Added::stat_text))]
fn stat_text(alloc: Global, bytes: &[u8]) -> Result<Octets, NoMemory>
    ensures { IfOk result (λ text. text ≡ stat_text bytes.now) }
{
    let mut out = Octets::none(alloc);
    if bytes.len() < 24 {
        return Ok(out);
    }
    let Some(name) = stat_kind(u32_at(bytes, 0)) else {
        return Ok(out);
    };
    out.push(b' ')?;
    out.extend(name)?;
    out.push(b' ')?;
    put_number(&mut out, u64::from(u32_at(bytes, 4)))?;
    out.push(b' ')?;
    put_number(&mut out, u64_at(bytes, 8))?;
    out.push(b' ')?;
    put_number(&mut out, u64_at(bytes, 16))?;
    Ok(out)
}

/// The bytes of the first piece; none where there is no piece.
fn first_bytes(outs: &[OutPiece]) -> &[u8]
    ensures { result.now ≡ first_bytes outs.now }
{
    match outs {
        [out, ..] => out.bytes.slice(),
        [] => b"".as_slice(),
    }
}

/// What a poll of so many entries adds.
fn entries_added(alloc: Global, count: u64, outs: &[OutPiece]) -> Result<Octets, NoMemory>
    ensures { IfOk result (λ text. text ≡ entries_added count outs.now) }
{
    match entries_text(alloc, PollPart::Answered, count, first_bytes(outs))? {
        Some(text) => Ok(text),
        None => Ok(Octets::none(alloc)),
    }
}

/// The second value behind a space.
fn second_added(alloc: Global, answer: &Answer) -> Result<Octets, NoMemory>
    ensures { IfOk result (λ text. text ≡ 32 ∷ decimal answer.now.ret1) }
{
    let mut out = Octets::none(alloc);
    out.push(b' ')?;
    put_number(&mut out, answer.ret1)?;
    Ok(out)
}

/// What an answer's text adds to the value, by the kind of addition.
pub fn added(
    alloc: Global,
    addition: Addition,
    answer: &Answer,
    outs: &[OutPiece],
) -> Result<Octets, NoMemory>
    ensures { IfOk result (λ text. text ≡ added addition answer.now outs.now) }
{
    match addition {
        Addition::Nothing => Ok(Octets::none(alloc)),
        Addition::Bytes => read_added(alloc, answer, outs),
        Addition::Received => received(alloc, answer, outs),
        Addition::SecondValue => second_added(alloc, answer),
        Addition::Stat => stat_text(alloc, first_bytes(outs)),
        Addition::Address => name_added(alloc, answer.ret0, outs),
        Addition::Entries(count) => entries_added(alloc, count, outs),
    }
}
