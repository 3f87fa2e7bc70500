//! The events of steps.
ghost use Rattle.std.specs.Prelude.{IfOk};
ghost use Rattle.sp_frames.specs.Grammar.{IsName};
ghost use Rattle.sp_world.specs.Happens.{IsNamed};

use crate::call::{call_in, op_in};
use crate::fault::Fault;
use crate::word::{caller_in, connection_in, number_in, process_in, small, text_in};
use client_model::{Hello, Want};
use sp_base::{Caller, ConnNo, Cookie, NoMemory, Octets, ReqNo};
use sp_world::Event;
use std::alloc::Global;

/// The name of every guest.
pub fn guest_name(alloc: Global) -> Result<Octets, NoMemory>
    ensures { IfOk result IsName }
{
    Octets::of(alloc, b"guest")
}

/// The event of a name that stands alone.
fn alone(name: &str) -> Result<Event, Fault>
    ensures { IfOk result IsNamed }
{
    match name {
        "give-up" => Ok(Event::GiveUp),
        "halt" => Ok(Event::Halt),
        _ => Err(Fault::NotUnderstood),
    }
}

/// The event of a name with a connection.
fn of_connection(alloc: Global, name: &str, no: ConnNo) -> Result<Event, Fault>
    ensures { IfOk result IsNamed }
{
    match name {
        "connect" => Ok(Event::Connect(no, Hello::Guest(guest_name(alloc)?))),
        "from-client" => Ok(Event::FromClient(no)),
        "from-server" => Ok(Event::FromServer(no)),
        "to-client" => Ok(Event::ToClient(no)),
        "cut" => Ok(Event::Cut(no)),
        "ends" => Ok(Event::Ends(no)),
        _ => Err(Fault::NotUnderstood),
    }
}

/// The event of a name with a connection and a number.
fn of_number(name: &str, no: ConnNo, number: u64) -> Result<Event, Fault>
    ensures { IfOk result IsNamed }
{
    match name {
        "to-server" => Ok(Event::ToServer(no, number)),
        "work" => Ok(Event::Work(no, ReqNo(number))),
        "collect" => Ok(Event::Collect(no, ReqNo(number))),
        "prefork" => Ok(Event::Prefork(no, Caller(small(number)?), Want::Make)),
        "preexec" => Ok(Event::Preexec(no, Caller(small(number)?))),
        _ => Err(Fault::NotUnderstood),
    }
}

/// The event of a name with a connection and a cookie, of a number and a salt.
fn of_cookie(alloc: Global, name: &str, no: ConnNo, cookie: Cookie) -> Result<Event, Fault>
    ensures { IfOk result IsNamed }
{
    match name {
        "join" => Ok(Event::Connect(no, Hello::Join(cookie, guest_name(alloc)?))),
        "image" => Ok(Event::Connect(no, Hello::Image(cookie, guest_name(alloc)?))),
        _ => Err(Fault::NotUnderstood),
    }
}

/// The event of a caller's call over a connection.
fn start(alloc: Global, no: ConnNo, caller: Caller, words: &[&[u8]]) -> Result<Event, Fault>
    ensures { IfOk result IsNamed }
{
    let (call, mem) = call_in(alloc, words)?;
    Ok(Event::Start(no, caller, call, mem))
}

/// The event of an operation of the host's kernel, whose words are the guest, its caller, the
/// process and the operation.
fn host(alloc: Global, words: &[&[u8]]) -> Result<Event, Fault>
    ensures { IfOk result IsNamed }
{
    let [guest, caller, pid, op @ ..] = words else {
        return Err(Fault::NotUnderstood);
    };
    let guest = small(number_in(guest)?)?;
    let caller = caller_in(caller)?;
    let pid = process_in(pid)?;
    let (op, mem) = op_in(alloc, op)?;
    Ok(Event::Host(guest, caller, pid, op, mem))
}

/// The event that the words are.
pub fn event_in(alloc: Global, words: &[&[u8]]) -> Result<Event, Fault>
    ensures { IfOk result IsNamed }
{
    let [name, rest @ ..] = words else {
        return Err(Fault::NotUnderstood);
    };
    match (text_in(name), rest) {
        ("host", rest) => host(alloc, rest),
        ("start", [no, caller, call @ ..]) => {
            start(alloc, connection_in(no)?, caller_in(caller)?, call)
        }
        ("cancel", [no, caller, number, salt]) => {
            let no = connection_in(no)?;
            let caller = caller_in(caller)?;
            let want = Want::Cancel(cookie_in(number, salt)?);
            Ok(Event::Prefork(no, caller, want))
        }
        (name, []) => alone(name),
        (name, [no]) => of_connection(alloc, name, connection_in(no)?),
        (name, [no, number]) => of_number(name, connection_in(no)?, number_in(number)?),
        (name, [no, number, salt]) => {
            let no = connection_in(no)?;
            of_cookie(alloc, name, no, cookie_in(number, salt)?)
        }
        _ => Err(Fault::NotUnderstood),
    }
}

/// The cookie of a number and a salt.
fn cookie_in(number: &[u8], salt: &[u8]) -> Result<Cookie, Fault> {
    let number = number_in(number)?;
    let salt = number_in(salt)?;
    Ok(Cookie { number, salt })
}
