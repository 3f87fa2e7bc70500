//! A frame's spelling.
ghost use Rattle.std.specs.Prelude.{◌≡◌, ◌≤◌, ◌*◌, ◌++◌, OnOk, OnErr, length, take};
ghost use Rattle.std.specs.List.{flat_map};
ghost use Rattle.sp_frames.specs.Fields.{le32, le64};
ghost use Rattle.sp_frames.specs.Grammar.{parts_of, payload_of, header_of, spelling, Fits};
ghost use Rattle.sp_frames.specs.Writing.{field_of, numbers_of};

use crate::frame::{Body, Frame};
use crate::front::Front;
use crate::header::Header;
use sp_base::{Cookie, NoMemory, Octets};
use std::alloc::Global;
use std::mem;

/// Numbers that are words, as bytes.
fn of_words(words: &[u64]) -> Front
    requires { length words.now ≤ 8 }
    ensures bytes { result ≡ flat_map le64 words.now }
    ensures count { length result ≡ 8 * length words.now }
{
    let mut front = Front::none();
    front.put_words(words);
    front
}

/// A number of four bytes, as bytes.
fn of_u32(n: u32) -> Front
    ensures bytes { result ≡ le32 n }
    ensures count { length result ≡ 4 }
{
    let mut front = Front::none();
    front.put_u32(n);
    front
}

/// A cookie's number and salt, as bytes.
fn of_cookie(cookie: &Cookie) -> Front
    ensures bytes { result ≡ le64 cookie.now.number ++ le64 cookie.now.salt }
    ensures count { length result ≡ 16 }
{
    of_words(&[cookie.number, cookie.salt])
}

/// The numbers of a body, as bytes.
fn numbers(body: &Body) -> Front
    ensures bytes { result ≡ numbers_of body.now }
    ensures few { length result ≤ 64 }
{
    match body {
        Body::Guest { .. } | Body::Prefork | Body::Preexec => Front::none(),
        Body::Cancelled | Body::Refused { .. } => Front::none(),
        Body::Sys { words, .. } => of_words(words.slice()),
        Body::AskBytes { addr, len, .. } => of_words(&[*addr, *len]),
        Body::AskText { addr, max, .. } => of_words(&[*addr, *max]),
        Body::Put { addr, .. } => of_words(&[*addr]),
        Body::Join { cookie, .. } | Body::Image { cookie, .. } => of_cookie(cookie),
        Body::Cancel { cookie } | Body::ExecReady { cookie } => of_cookie(cookie),
        Body::Hello { pid } | Body::Joined { pid } => of_u32(pid.0),
        Body::Imaged { pid, place } => {
            let mut front = of_u32(pid.0);
            front.put_u64(place.0);
            front
        }
        Body::Answered(answer) => of_words(&[answer.ret0, answer.ret1, answer.place.0]),
        Body::GotBytes { err, .. } | Body::GotText { err, .. } => of_u32(*err),
        Body::Forked { cookie, place, pid } => {
            of_words(&[cookie.number, cookie.salt, place.0, u64::from(pid.0)])
        }
    }
}

/// The bytes that a body has behind its numbers.
fn field(body: &Body) -> &[u8]
    ensures { result.now ≡ field_of body.now }
{
    match body {
        Body::Guest { name } | Body::Join { name, .. } | Body::Image { name, .. } => name.slice(),
        Body::Put { bytes, .. } => bytes.slice(),
        Body::GotBytes { bytes, .. } | Body::GotText { bytes, .. } => bytes.slice(),
        _ => &[],
    }
}

/// The class, the type and the word of a body, a row for each.
fn labels(body: &Body) -> (u16, u16, u32)
    ensures class { result.0 ≡ (parts_of body.now).class }
    ensures kind { result.1 ≡ (parts_of body.now).kind }
    ensures word { result.2 ≡ (parts_of body.now).word }
{
    match body {
        Body::Guest { .. } => (0, 0, 0),
        Body::Join { .. } => (0, 0, 1),
        Body::Image { .. } => (0, 0, 2),
        Body::Sys { num, .. } => (0, 1, *num),
        Body::AskBytes { index, .. } => (0, 2, *index),
        Body::AskText { index, .. } => (0, 3, *index),
        Body::Put { index, .. } => (0, 4, *index),
        Body::Prefork => (0, 5, 0),
        Body::Cancel { .. } => (0, 5, 1),
        Body::Preexec => (0, 6, 0),
        Body::Hello { .. } => (1, 0, 0),
        Body::Joined { .. } => (1, 0, 1),
        Body::Imaged { .. } => (1, 0, 2),
        Body::Answered(answer) => (1, 1, answer.err),
        Body::GotBytes { index, .. } => (1, 2, *index),
        Body::GotText { index, .. } => (1, 3, *index),
        Body::Forked { .. } => (1, 5, 0),
        Body::Cancelled => (1, 5, 1),
        Body::ExecReady { .. } => (1, 6, 0),
        Body::Refused { kind, why } => (2, *kind, why.number()),
    }
}

/// The header of a frame whose payload has so many bytes.
fn header(frame: &Frame, payload_len: usize) -> Header
    requires fits { Fits frame.now }
    requires payload { payload_len ≡ length (payload_of frame.now.body) }
    ensures { result ≡ header_of frame.now }
{
    let (class, kind, word) = labels(&frame.body);
    Header {
        len: 24 + payload_len as u64,
        number: frame.number.0,
        class,
        kind,
        word,
    }
}

/// A frame's spelling but for the field behind its numbers.
#[tactic(auto, using(crate::proofs::WritingLaws::payload_is))]
fn front(frame: &Frame) -> Front
    requires { Fits frame.now }
    ensures { result ++ field_of frame.now.body ≡ spelling frame.now }
{
    let numbers = numbers(&frame.body);
    let field = field(&frame.body);
    let header = header(frame, numbers.slice().len() + field.len());
    let mut front = Front::none();
    front.put_header(&header);
    front.put(numbers.slice());
    front
}

/// Takes away all bytes behind the first of them.
fn cut(alloc: Global, out: &mut Octets, count: usize)
    ensures { out.new ≡ take count out.old }
{
    let mut items = mem::replace(out, Octets::none(alloc)).into_vec();
    items.truncate(count);
    *out = Octets::from_vec(items);
}

/// Appends bytes and a field behind them. On an error nothing was appended.
fn append(alloc: Global, out: &mut Octets, front: &[u8], field: &[u8]) -> Result<(), NoMemory>
    ensures ok { OnOk result (out.new ≡ (out.old ++ front.now) ++ field.now) }
    ensures err { OnErr result (out.new ≡ out.old) }
{
    let count = out.len();
    out.extend(front)?;
    if field.is_empty() || out.extend(field).is_ok() {
        return Ok(());
    }
    cut(alloc, out, count);
    Err(NoMemory)
}

/// Appends the frame's one spelling, with one copy of its bytes.
///
/// The frame is within its row. On an error, which is want of memory, nothing was appended.
#[tactic(auto, using(crate::proofs::WritingLaws::joined_again))]
pub fn encode(alloc: Global, frame: &Frame, out: &mut Octets) -> Result<(), NoMemory>
    requires { Fits frame.now }
    ensures ok { OnOk result (out.new ≡ out.old ++ spelling frame.now) }
    ensures err { OnErr result (out.new ≡ out.old) }
{
    let front = front(frame);
    append(alloc, out, front.slice(), field(&frame.body))
}
