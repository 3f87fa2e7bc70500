//! What a payload says, by its row.
ghost use Rattle.std.specs.Prelude.{◌≡◌, ◌*◌, ◌≤◌, true, false, [], ◌∷◌, length, IfOk};
ghost use Rattle.sp_frames.specs.Fields.{n64};
ghost use Rattle.sp_frames.specs.Grammar.{is_answer, is_text_answer};
ghost use Rattle.sp_frames.specs.Reading.{has_size, front_at, words_at, name_of, cookie_from, has_tail, body_at};

use crate::fields::{u32_at, u64_at};
use crate::frame::Body;
use crate::header::Header;
use crate::rows::Row;
use sp_base::{Answer, Cookie, NoMemory, Octets, Pid, Place, SpError, Words};
use std::alloc::Global;

fn words(count: usize, payload: &[u8]) -> Words
    requires few { count ≤ 8 }
    requires room { 8 * count ≤ length payload.now }
    ensures { result ≡ words_at count payload.now }
{
    let mut words = Words::none();
    for i in 0..count {
        words.push(u64_at(payload, 8 * i));
    }
    words
}

fn name(alloc: Global, bytes: &[u8]) -> Result<Option<Octets>, NoMemory>
    ensures { IfOk result (λ found. found ≡ name_of bytes.now) }
{
    if bytes.contains(&0) {
        return Ok(None);
    }
    let name = Octets::of(alloc, bytes)?;
    Ok(Some(name))
}

fn cookie(payload: &[u8]) -> Cookie
    requires { 16 ≤ length payload.now }
    ensures { result ≡ cookie_from (front_at 0 (n64 0 ∷ n64 0 ∷ []) payload.now) }
{
    Cookie {
        number: u64_at(payload, 0),
        salt: u64_at(payload, 8),
    }
}

fn may_answer(err: u32, bytes: &[u8]) -> bool
    ensures { result ≡ is_answer err bytes.now }
{
    err == 0 || (err == 14 && bytes.len() == 0)
}

fn may_answer_text(err: u32, bytes: &[u8]) -> bool
    ensures { result ≡ is_text_answer err bytes.now }
{
    (err == 0 || ((err == 14 || err == 63) && bytes.len() == 0)) && !bytes.contains(&0)
}

fn forked(h: &Header, payload: &[u8]) -> Option<Body>
    requires { length payload.now ≡ 32 }
    ensures { result ≡ body_at Row.Forked h.now.kind h.now.word payload.now }
{
    let pid = u64_at(payload, 24);
    if pid >= 4_294_967_296 {
        return None;
    }
    Some(Body::Forked {
        cookie: cookie(payload),
        place: Place(u64_at(payload, 16)),
        pid: Pid(pid as u32),
    })
}

/// The body of a row whose payload is numbers alone.
fn numbers_body(row: Row, h: &Header, payload: &[u8]) -> Option<Body>
    requires size { has_size row (length payload.now) ≡ true }
    requires numbers { has_tail row ≡ false }
    ensures { result ≡ body_at row h.now.kind h.now.word payload.now }
{
    match row {
        Row::AskBytes => Some(Body::AskBytes {
            index: h.word,
            addr: u64_at(payload, 0),
            len: u64_at(payload, 8),
        }),
        Row::AskText => Some(Body::AskText {
            index: h.word,
            addr: u64_at(payload, 0),
            max: u64_at(payload, 8),
        }),
        Row::Prefork => Some(Body::Prefork),
        Row::Cancel => Some(Body::Cancel {
            cookie: cookie(payload),
        }),
        Row::Preexec => Some(Body::Preexec),
        Row::Hello => Some(Body::Hello {
            pid: Pid(u32_at(payload, 0)),
        }),
        Row::Joined => Some(Body::Joined {
            pid: Pid(u32_at(payload, 0)),
        }),
        Row::Imaged => Some(Body::Imaged {
            pid: Pid(u32_at(payload, 0)),
            place: Place(u64_at(payload, 4)),
        }),
        Row::Answered => Some(Body::Answered(Answer {
            err: h.word,
            ret0: u64_at(payload, 0),
            ret1: u64_at(payload, 8),
            place: Place(u64_at(payload, 16)),
        })),
        Row::Forked => forked(h, payload),
        Row::Cancelled => Some(Body::Cancelled),
        Row::ExecReady => Some(Body::ExecReady {
            cookie: cookie(payload),
        }),
        Row::Refused => {
            SpError::of_number(h.word).map(|why| Body::Refused { kind: h.kind, why })
        }
        _ => None,
    }
}

fn put_body(alloc: Global, h: &Header, payload: &[u8]) -> Result<Option<Body>, NoMemory>
    requires { 8 ≤ length payload.now }
    ensures { IfOk result (λ found. found ≡ body_at Row.Put h.now.kind h.now.word payload.now) }
{
    let (_, bytes) = payload.split_at(8);
    let bytes = Octets::of(alloc, bytes)?;
    Ok(Some(Body::Put {
        index: h.word,
        addr: u64_at(payload, 0),
        bytes,
    }))
}

fn got_bytes(alloc: Global, h: &Header, payload: &[u8]) -> Result<Option<Body>, NoMemory>
    requires { 4 ≤ length payload.now }
    ensures { IfOk result (λ found.
        found ≡ body_at Row.GotBytes h.now.kind h.now.word payload.now) }
{
    let err = u32_at(payload, 0);
    let (_, bytes) = payload.split_at(4);
    if !may_answer(err, bytes) {
        return Ok(None);
    }
    let bytes = Octets::of(alloc, bytes)?;
    Ok(Some(Body::GotBytes {
        index: h.word,
        err,
        bytes,
    }))
}

fn got_text(alloc: Global, h: &Header, payload: &[u8]) -> Result<Option<Body>, NoMemory>
    requires { 4 ≤ length payload.now }
    ensures { IfOk result (λ found. found ≡ body_at Row.GotText h.now.kind h.now.word payload.now) }
{
    let err = u32_at(payload, 0);
    let (_, bytes) = payload.split_at(4);
    if !may_answer_text(err, bytes) {
        return Ok(None);
    }
    let bytes = Octets::of(alloc, bytes)?;
    Ok(Some(Body::GotText {
        index: h.word,
        err,
        bytes,
    }))
}

/// What a payload says; None where its content is outside the row.
pub fn body(alloc: Global, row: Row, h: &Header, payload: &[u8]) -> Result<Option<Body>, NoMemory>
    requires { has_size row (length payload.now) ≡ true }
    ensures { IfOk result (λ found. found ≡ body_at row h.now.kind h.now.word payload.now) }
{
    match row {
        Row::Guest => Ok(name(alloc, payload)?.map(|name| Body::Guest { name })),
        Row::Join => {
            let cookie = cookie(payload);
            let (_, bytes) = payload.split_at(16);
            Ok(name(alloc, bytes)?.map(|name| Body::Join { cookie, name }))
        }
        Row::Image => {
            let cookie = cookie(payload);
            let (_, bytes) = payload.split_at(16);
            Ok(name(alloc, bytes)?.map(|name| Body::Image { cookie, name }))
        }
        Row::Sys => {
            let words = words(payload.len() / 8, payload);
            Ok(Some(Body::Sys { num: h.word, words }))
        }
        Row::Put => put_body(alloc, h, payload),
        Row::GotBytes => got_bytes(alloc, h, payload),
        Row::GotText => got_text(alloc, h, payload),
        _ => Ok(numbers_body(row, h, payload)),
    }
}
