//! What rules and the splitter answer, as text.

use crate::names::{call_name, side_name, stage_name};
use hijack_rules::{Routed, RuleFault, SideName};
use hijack_split::{Named, Plan, Stage};
use script_words::{put_number, put_quoted};
use sp_base::{Answer, Call, NoMemory, Octets};

/// Appends a word and a number.
fn put_counted(out: &mut Octets, word: &str, number: u64) -> Result<(), NoMemory> {
    out.extend(word.as_bytes())?;
    out.push(b' ')?;
    put_number(out, number)
}

/// Appends what is wrong with an item, and the item.
fn put_item(out: &mut Octets, what: &str, item: &Octets) -> Result<(), NoMemory> {
    out.extend(what.as_bytes())?;
    out.push(b' ')?;
    put_quoted(out, item.slice())
}

/// Appends why a text is no rules; want of memory is answered as such.
pub fn put_fault(out: &mut Octets, fault: &RuleFault) -> Result<(), NoMemory> {
    match fault {
        RuleFault::Unknown(item) => put_item(out, "unknown item", item),
        RuleFault::Path(item) => put_item(out, "bad path", item),
        RuleFault::Family(item) => put_item(out, "bad family", item),
        RuleFault::Offset(item) => put_item(out, "bad offset", item),
        RuleFault::Twice(item) => put_item(out, "item twice", item),
        RuleFault::NoMemory => Err(NoMemory),
    }
}

/// Appends where a path goes.
pub fn put_routed(out: &mut Octets, routed: Routed) -> Result<(), NoMemory> {
    match routed {
        Routed::Rump(cut) => put_counted(out, "rump, cut", u64::from(cut)),
        Routed::RumpRoot => out.extend(b"rump, root"),
        Routed::Host => out.extend(b"host"),
    }
}

/// Appends what a descriptor names.
pub fn put_named(out: &mut Octets, named: Named) -> Result<(), NoMemory> {
    match named {
        Named::Rump(number) => put_counted(out, "rump", number),
        Named::Host(number) => put_counted(out, "host", number),
        Named::Nothing => out.extend(b"nothing"),
    }
}

/// Appends a call's name and words.
fn put_call(out: &mut Octets, call: &Call) -> Result<(), NoMemory> {
    match call_name(call.num()) {
        Some(name) => out.extend(name.as_bytes())?,
        None => put_counted(out, "call", u64::from(call.num()))?,
    }
    for word in call.words().slice() {
        out.push(b' ')?;
        put_number(out, *word)?;
    }
    Ok(())
}

/// Appends a call on a kernel, and why it is made.
fn put_step(out: &mut Octets, side: SideName, call: &Call, stage: Stage) -> Result<(), NoMemory> {
    out.extend(side_name(side).as_bytes())?;
    out.push(b' ')?;
    put_call(out, call)?;
    out.extend(b" (")?;
    out.extend(stage_name(stage).as_bytes())?;
    out.push(b')')
}

/// Appends a reply: the error or 0, and the two values.
fn put_reply(out: &mut Octets, answer: Answer) -> Result<(), NoMemory> {
    put_counted(out, "reply", u64::from(answer.err))?;
    out.push(b' ')?;
    put_number(out, answer.ret0)?;
    out.push(b' ')?;
    put_number(out, answer.ret1)
}

/// Appends what comes next for a call.
pub fn put_plan(out: &mut Octets, plan: &Plan) -> Result<(), NoMemory> {
    match plan {
        Plan::Reply(answer) => put_reply(out, *answer),
        Plan::Step(side, call, stage) => put_step(out, *side, call, *stage),
        Plan::Poll => out.extend(b"poll of both"),
    }
}
