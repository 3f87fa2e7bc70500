ghost use Rattle.std.specs.Prelude.{◌≡◌, ◌<◌, ◌≤◌, length, true, IfSome};
ghost use Rattle.sp_base.specs.declared.limits.TheConstants.{TRANSFER};
ghost use Rattle.sp_frames.specs.Fields.{IsBytes};
ghost use Rattle.sp_frames.specs.Grammar.{Fits, may_be_refused};
ghost use Rattle.sp_frames.specs.declared.frame.Body.TheVariants as body;
ghost use Rattle.sp_frames.specs.declared.frame.TheConstants.{INDEX_LIMIT};
ghost use Rattle.hub_model.specs.Frames.{answer_at, answered_kind, ask, cancelled, exec_ready};
ghost use Rattle.hub_model.specs.Frames.{forked, hello, imaged, joined, last_error, refusal};

use kern_model::Outcome;
use sp_base::{Answer, Cookie, Need, Octets, Pid, Place, ReqNo, SpError};
use sp_frames::{Body, Frame};

/// The response of a guest's handshake.
pub(crate) fn hello(number: ReqNo, pid: Pid) -> Frame
    ensures frame { result ≡ hello number pid.0 }
    ensures fits { Fits result }
{
    Frame {
        number,
        body: Body::Hello { pid },
    }
}

/// The response of a child's handshake.
pub(crate) fn joined(number: ReqNo, pid: Pid) -> Frame
    ensures frame { result ≡ joined number pid }
    ensures fits { Fits result }
{
    Frame {
        number,
        body: Body::Joined { pid },
    }
}

/// The response of the handshake of a process's next program, with the place of its exec.
pub(crate) fn imaged(number: ReqNo, pid: Pid, place: Place) -> Frame
    ensures frame { result ≡ imaged number pid place.0 }
    ensures fits { Fits result }
{
    Frame {
        number,
        body: Body::Imaged { pid, place },
    }
}

/// The response of a fork.
pub(crate) fn forked(number: ReqNo, cookie: Cookie, place: Place, child: Pid) -> Frame
    ensures frame { result ≡ forked number cookie place.0 child }
    ensures fits { Fits result }
{
    Frame {
        number,
        body: Body::Forked {
            cookie,
            place,
            pid: child,
        },
    }
}

/// The response of what takes a cookie back.
pub(crate) fn cancelled(number: ReqNo) -> Frame
    ensures frame { result ≡ cancelled number }
    ensures fits { Fits result }
{
    Frame {
        number,
        body: Body::Cancelled,
    }
}

/// The response of a process that is to go on as its next program.
pub(crate) fn exec_ready(number: ReqNo, cookie: Cookie) -> Frame
    ensures frame { result ≡ exec_ready number cookie }
    ensures fits { Fits result }
{
    Frame {
        number,
        body: Body::ExecReady { cookie },
    }
}

/// An ask for what a call reads, by its index.
pub(crate) fn ask(number: ReqNo, index: u32, need: Need) -> Frame
    requires { index < INDEX_LIMIT }
    ensures frame { result ≡ ask number index need }
    ensures fits { Fits result }
{
    let body = match need {
        Need::Bytes(addr, len) => Body::AskBytes { index, addr, len },
        Need::Text(addr, limit) => Body::AskText {
            index,
            addr,
            max: limit,
        },
    };
    Frame { number, body }
}

/// The type of a request that an error frame may answer; None for every other frame.
pub(crate) fn answered_kind(body: &Body) -> Option<u16>
    ensures kind { result ≡ answered_kind body.now }
    ensures fits { IfSome result (λ kind. may_be_refused kind ≡ true) }
{
    match body {
        Body::Guest { .. } | Body::Join { .. } | Body::Image { .. } => Some(0),
        Body::Sys { .. } => Some(1),
        Body::Prefork | Body::Cancel { .. } => Some(5),
        Body::Preexec => Some(6),
        _ => None,
    }
}

/// An error frame.
pub(crate) fn refusal(number: ReqNo, kind: u16, why: SpError) -> Frame
    requires { may_be_refused kind ≡ true }
    ensures frame { result ≡ refusal number kind why }
    ensures fits { Fits result }
{
    Frame {
        number,
        body: Body::Refused { kind, why },
    }
}

/// The last error of a connection: it answers the request that is malformed, or nothing by name.
pub(crate) fn last_error(number: ReqNo, kind: Option<u16>) -> Frame
    requires { IfSome kind (λ kind. may_be_refused kind ≡ true) }
    ensures frame { result ≡ last_error number kind }
    ensures fits { Fits result }
{
    match kind {
        Some(kind) => refusal(number, kind, SpError::Malformed),
        None => refusal(ReqNo(0), 0, SpError::Malformed),
    }
}

/// The bytes of a piece to write, by the piece's index.
pub(crate) fn put(number: ReqNo, index: u32, addr: u64, bytes: Octets) -> Frame
    requires index { index < INDEX_LIMIT }
    requires some { 0 < length bytes }
    requires few { length bytes ≤ TRANSFER }
    requires bytes { IsBytes bytes }
    ensures frame { result ≡ record { number = number; body = body.Put index addr bytes } }
    ensures fits { Fits result }
{
    Frame {
        number,
        body: Body::Put { index, addr, bytes },
    }
}

/// What a call answered, with its place in the journal.
fn answer_of(outcome: &Outcome, place: Place) -> Answer
    ensures { result ≡ answer_at outcome.now place.0 }
{
    Answer {
        err: outcome.err,
        ret0: outcome.ret0,
        ret1: outcome.ret1,
        place,
    }
}

/// The response of a call.
fn response(number: ReqNo, answer: Answer) -> Frame
    ensures frame { result ≡ record { number = number; body = body.Answered answer } }
    ensures fits { Fits result }
{
    Frame {
        number,
        body: Body::Answered(answer),
    }
}

/// The response of a call, with its place in the journal.
pub(crate) fn answered(number: ReqNo, outcome: &Outcome, place: Place) -> Frame
    ensures frame { result
        ≡ record { number = number; body = body.Answered (answer_at outcome.now place.0) } }
    ensures fits { Fits result }
{
    response(number, answer_of(outcome, place))
}
