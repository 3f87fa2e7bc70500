//! The steps of rows.

use crate::fault::Fault;
use crate::said::{handshake, said_in};
use crate::word::{connection_in, name_in, request_in};
use sp_base::{ConnNo, ReqNo};
use sp_frames::{Body, Frame, FrameFault};
use sp_hub::{Event, Finish};
use std::alloc::Global;

/// How far a frame's salt is above its number.
const SALT: u64 = 1_000;

/// What is to be done.
#[derive(Debug, Drop)]
pub enum Step {
    /// The talk goes on with a hub to which nothing happened.
    Fresh,
    /// Something happens to the hub.
    Event(Event),
    /// The oldest queued frame of a connection is handed out, and told as bytes.
    Spell(ConnNo),
    /// The lowest open call of a connection above a number is told.
    Lowest(ConnNo, ReqNo),
    /// The journal is told.
    Journal,
    /// The journal's length and last entry are told.
    Last,
}

/// A frame comes over a connection.
fn frame(no: ConnNo, number: ReqNo, body: Body) -> Step {
    let salt = number.0.wrapping_add(SALT);
    Step::Event(Event::Frame(no, Frame { number, body }, salt))
}

/// The step of a name that stands alone.
fn alone(name: &str) -> Result<Step, Fault> {
    match name {
        "fresh" => Ok(Step::Fresh),
        "halt" => Ok(Step::Event(Event::Halt)),
        "journal" => Ok(Step::Journal),
        "last" => Ok(Step::Last),
        _ => Err(Fault::NotUnderstood),
    }
}

/// The step of a name with a connection.
fn of_connection(alloc: Global, name: &str, no: ConnNo) -> Result<Step, Fault> {
    match name {
        "opened" => Ok(Step::Event(Event::Opened(no))),
        "guest" => Ok(frame(no, ReqNo(1), handshake(alloc)?)),
        "take" => Ok(Step::Event(Event::Take(no))),
        "spell" => Ok(Step::Spell(no)),
        "ended" => Ok(Step::Event(Event::Ended(no, Finish::Clean))),
        "bad" => {
            let finish = Finish::Bad(FrameFault::Class(9));
            Ok(Step::Event(Event::Ended(no, finish)))
        }
        "lost" => Ok(Step::Event(Event::Lost(no))),
        _ => Err(Fault::NotUnderstood),
    }
}

/// The step of a name with a connection and a request.
fn of_request(name: &str, no: ConnNo, number: ReqNo) -> Result<Step, Fault> {
    match name {
        "work" => Ok(Step::Event(Event::Work(no, number))),
        "lowest" => Ok(Step::Lowest(no, number)),
        _ => Err(Fault::NotUnderstood),
    }
}

/// The step that the words are, where `#` is the count.
pub fn step_in(alloc: Global, words: &[&[u8]], count: u64) -> Result<Step, Fault> {
    let [name, rest @ ..] = words else {
        return Err(Fault::NotUnderstood);
    };
    match (name_in(name), rest) {
        ("frame", [no, number, said @ ..]) => {
            let no = connection_in(no, count)?;
            let number = request_in(number, count)?;
            Ok(frame(no, number, said_in(alloc, said, count)?))
        }
        (name, []) => alone(name),
        (name, [no]) => of_connection(alloc, name, connection_in(no, count)?),
        (name, [no, number]) => {
            let no = connection_in(no, count)?;
            of_request(name, no, request_in(number, count)?)
        }
        _ => Err(Fault::NotUnderstood),
    }
}
