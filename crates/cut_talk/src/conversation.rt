//! A conversation, and its text.

use crate::row::row_of;
use crate::talk::{Cut, Talk};
use crate::wrong::Wrong;
use script_words::{byte_at, pieces, put_number, put_quoted};
use sp_base::{Answer, NoMemory, Octets};
use sp_copy::Mem;
use std::alloc::Global;

/// Appends an answer and the bytes that stand in the memory then.
fn put_answer(out: &mut Octets, answer: Answer, mem: &Mem) -> Result<(), NoMemory> {
    put_number(out, u64::from(answer.err))?;
    out.push(b' ')?;
    put_number(out, answer.ret0)?;
    for part in mem.parts() {
        out.push(b' ')?;
        put_quoted(out, part.bytes.slice())?;
    }
    Ok(())
}

/// Does what a row asks for, and gives its answer and the memory then.
fn play(alloc: Global, talk: &mut Talk, line: &[u8]) -> Result<(Answer, Mem), Wrong> {
    let row = row_of(alloc, line)?;
    talk.play(row)
}

/// Appends a row with what came of it: an answer, or what went wrong.
fn put_row(alloc: Global, talk: &mut Talk, line: &[u8], out: &mut Octets) -> Result<(), NoMemory> {
    out.extend(line)?;
    out.extend(b" -> ")?;
    match play(alloc, talk, line) {
        Ok((answer, mem)) => put_answer(out, answer, &mem)?,
        Err(Wrong(why)) => out.extend(why.as_bytes())?,
    }
    out.push(b'\n')
}

/// Whether a line is empty or a remark.
fn is_passed_over(line: &[u8]) -> bool {
    line.is_empty() || byte_at(line, 0) == b'#'
}

/// Appends each row with what came of it, a line each.
fn put_rows(alloc: Global, talk: &mut Talk, rows: &[u8], out: &mut Octets) -> Result<(), NoMemory> {
    let lines = pieces(alloc, rows, b'\n')?;
    for line in lines.as_slice() {
        if !is_passed_over(line) {
            put_row(alloc, talk, line, out)?;
        }
    }
    Ok(())
}

/// The text of the conversation of some rows: each row with what came of it, and the number of the
/// journal's entries at the end. The only error is want of memory.
pub fn converse(alloc: Global, rows: &[u8], cut: Cut) -> Result<Octets, NoMemory> {
    let mut out = Octets::none(alloc);
    match Talk::begun(alloc, cut) {
        Ok(talk) => {
            let mut talk = talk;
            put_rows(alloc, &mut talk, rows, &mut out)?;
            out.extend(b"entries ")?;
            put_number(&mut out, talk.entries())?;
        }
        Err(Wrong(why)) => out.extend(why.as_bytes())?,
    }
    out.push(b'\n')?;
    Ok(out)
}
