//! What only a server says.

use crate::fault::Fault;
use sp_base::{Answer, Cookie, Octets, Pid, Place, SpError};
use sp_frames::Body;
use std::alloc::Global;

const COOKIE: Cookie = Cookie { number: 0, salt: 0 };

const PLACE: Place = Place(0);

const PID: Pid = Pid(2);

/// What a server asks for or writes.
fn asked(alloc: Global, name: &str) -> Result<Body, Fault> {
    match name {
        "ask-bytes" => Ok(Body::AskBytes {
            index: 0,
            addr: 0,
            len: 1,
        }),
        "ask-text" => Ok(Body::AskText {
            index: 0,
            addr: 0,
            max: 1,
        }),
        "put" => Ok(Body::Put {
            index: 0,
            addr: 0,
            bytes: Octets::of(alloc, b"put")?,
        }),
        _ => Err(Fault::NotUnderstood),
    }
}

/// What a server says by a name.
pub fn served_in(alloc: Global, name: &str) -> Result<Body, Fault> {
    match name {
        "hello" => Ok(Body::Hello { pid: PID }),
        "joined" => Ok(Body::Joined { pid: PID }),
        "imaged" => Ok(Body::Imaged {
            pid: PID,
            place: PLACE,
        }),
        "answered" => Ok(Body::Answered(Answer {
            err: 0,
            ret0: 0,
            ret1: 0,
            place: PLACE,
        })),
        "forked" => Ok(Body::Forked {
            cookie: COOKIE,
            place: PLACE,
            pid: PID,
        }),
        "cancelled" => Ok(Body::Cancelled),
        "exec-ready" => Ok(Body::ExecReady { cookie: COOKIE }),
        "refused" => Ok(Body::Refused {
            kind: 1,
            why: SpError::TryAgain,
        }),
        _ => asked(alloc, name),
    }
}
