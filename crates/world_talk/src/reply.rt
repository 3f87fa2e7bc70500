//! The text of answers.

use client_model::Reply as ClientReply;
use script_words::{put_number, put_quoted};
use sp_base::{Answer, NoMemory, Octets};
use sp_copy::Mem;
use sp_world::Reply;
use std::alloc::Global;

/// Appends the bytes that stand where a call may write, each part's behind a space.
fn put_memory(out: &mut Octets, mem: &Mem) -> Result<(), NoMemory> {
    for part in mem.parts() {
        if part.right.can_write() {
            out.push(b' ')?;
            put_quoted(out, part.bytes.slice())?;
        }
    }
    Ok(())
}

/// Appends a name, and the bytes that stand in the memory then.
fn put_named(out: &mut Octets, name: &[u8], mem: &Mem) -> Result<(), NoMemory> {
    out.extend(name)?;
    put_memory(out, mem)
}

/// Appends an answer under a name: its place, its error, its value and the bytes in the memory.
fn put_answer(out: &mut Octets, name: &[u8], answer: &Answer, mem: &Mem) -> Result<(), NoMemory> {
    out.extend(name)?;
    out.extend(b" at ")?;
    put_number(out, answer.place.0)?;
    out.extend(b": ")?;
    put_number(out, u64::from(answer.err))?;
    out.push(b' ')?;
    put_number(out, answer.ret0)?;
    put_memory(out, mem)
}

/// Appends what a client answered.
fn put_client(alloc: Global, out: &mut Octets, reply: &ClientReply) -> Result<(), NoMemory> {
    match reply {
        ClientReply::Got(answer, mem) => put_answer(out, b"Got", answer, mem),
        ClientReply::Lost(mem) => put_named(out, b"Lost", mem),
        ClientReply::NotYet(mem) => put_named(out, b"NotYet", mem),
        ClientReply::Busy(mem) => put_named(out, b"Busy", mem),
        ClientReply::Broken(mem) => put_named(out, b"Broken", mem),
        ClientReply::Refused(why, mem) => {
            let text = format!(in alloc; "Refused({why:?})")?;
            put_named(out, text.as_bytes(), mem)
        }
        reply => {
            let text = format!(in alloc; "{reply:?}")?;
            out.extend(text.as_bytes())
        }
    }
}

/// Appends what was answered to an event.
pub fn put_reply(alloc: Global, out: &mut Octets, reply: &Reply) -> Result<(), NoMemory> {
    match reply {
        Reply::Client(reply) => put_client(alloc, out, reply),
        Reply::Hosted(answer, mem) => put_answer(out, b"Hosted", answer, mem),
        Reply::HostWaits(mem) => put_named(out, b"HostWaits", mem),
        Reply::Server(reply) => {
            let text = format!(in alloc; "{reply:?}")?;
            out.extend(text.as_bytes())
        }
        reply => {
            let text = format!(in alloc; "{reply:?}")?;
            out.extend(text.as_bytes())
        }
    }
}
