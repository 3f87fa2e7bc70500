//! The calls of steps.

use crate::fault::Fault;
use crate::word::text_in;
use guest_language::{Line, Made, What, made_of, verb_of};
use kern_model::Op;
use script_words::joined;
use sp_base::{Call, NoMemory};
use sp_copy::Mem;
use std::alloc::Global;

/// The memory that a call is made in, by its words.
fn memory_in(alloc: Global, words: &[&[u8]]) -> Result<Mem, NoMemory> {
    let line = Line {
        text: joined(alloc, words)?,
        at: 0,
        background: false,
        what: What::Join,
    };
    line.memory(alloc)
}

/// The call that the words spell, as a line of a script, and the memory that it is made in.
pub fn call_in(alloc: Global, words: &[&[u8]]) -> Result<(Call, Mem), Fault> {
    let [word, rest @ ..] = words else {
        return Err(Fault::NotUnderstood);
    };
    let Some(verb) = verb_of(word) else {
        return Err(Fault::NotUnderstood);
    };
    let Some(made) = made_of(alloc, verb, rest)? else {
        return Err(Fault::NotUnderstood);
    };
    let Made { call, .. } = made;
    Ok((call, memory_in(alloc, words)?))
}

/// The operation that the words spell, and the memory that it is made in.
pub fn op_in(alloc: Global, words: &[&[u8]]) -> Result<(Op, Mem), Fault> {
    let alone = match words {
        [word] => op_named(word),
        _ => None,
    };
    match alone {
        Some(op) => Ok((op, Mem::none(alloc))),
        None => {
            let (call, mem) = call_in(alloc, words)?;
            Ok((Op::Sys(call), mem))
        }
    }
}

/// The operation of a name that is no call's.
fn op_named(word: &[u8]) -> Option<Op> {
    match text_in(word) {
        "attach" => Some(Op::Attach),
        "fork" => Some(Op::Fork),
        "exec" => Some(Op::Exec),
        "exit" => Some(Op::Exit),
        _ => None,
    }
}
