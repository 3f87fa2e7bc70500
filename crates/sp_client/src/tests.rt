// Conversations, step by step, with each frame as the protocol has it.
mod cookies;
mod hostile;

use crate::ClientCore;
use client_model::{Event, Hello, Reply, Want};
use sp_base::{Answer, Call, Caller, Cookie, Items, Octets, Pid, Place, ReqNo, SpError, Words};
use sp_copy::{Mem, Part, Right};
use sp_frames::{Body, Frame};
use std::alloc::Global;
use std::process::Abort;
use std::test::Fail;

/// The address of the one part of a caller's memory.
pub const BASE: u64 = 4096;

/// The cookie of every conversation.
pub const COOKIE: Cookie = Cookie { number: 7, salt: 8 };

/// A call, at the part's address.
#[derive(Clone, Copy)]
pub enum Asked {
    Getpid,
    /// Of a path.
    Chdir,
    /// Of four bytes.
    Write,
    /// Of eight bytes.
    Read,
    /// Of four bytes, and an address of four bytes behind them.
    Receive,
}

/// What a server sends.
#[derive(Clone, Copy)]
pub enum Sent {
    Hello,
    Joined,
    Imaged,
    Forked,
    Cancelled,
    ExecReady,
    Answered,
    Refused(u16),
    Ask(u32, u64, u64),
    AskText(u64),
    Put(u64, &'static str),
    Copy,
    Sys,
    Prefork,
}

/// What happens to a client.
#[derive(Clone, Copy)]
pub enum Step {
    /// With a memory of this text.
    Start(Asked, &'static str),
    /// With a memory of this text 1,024 times.
    StartLong(Asked, &'static str),
    Prefork,
    Cancel,
    Preexec,
    Frame(u64, Sent),
    Collect(u64),
    Take,
    Gone,
}

fn call(asked: Asked) -> Call {
    match asked {
        Asked::Getpid => Call::Getpid,
        Asked::Chdir => Call::Chdir { path: BASE },
        Asked::Write => Call::Write {
            fd: 3,
            input: BASE,
            len: 4,
        },
        Asked::Read => Call::Read {
            fd: 3,
            out: BASE,
            len: 8,
        },
        Asked::Receive => Call::Recvfrom {
            fd: 3,
            out: BASE,
            len: 4,
            address: BASE + 4,
            address_max: 4,
        },
    }
}

/// A memory of one part, with a text so many times.
fn memory(alloc: Global, times: u32, text: &str) -> Result<Mem, Fail> {
    let mut bytes = Octets::none(alloc);
    for _ in 0..times {
        bytes.extend(text.as_bytes())?;
    }
    let mut parts = Items::none(alloc);
    parts.push(Part {
        base: BASE,
        right: Right::Both,
        bytes,
    })?;
    Ok(Mem::new(alloc, parts)?)
}

fn answered() -> Body {
    Body::Answered(Answer {
        err: 0,
        ret0: 4,
        ret1: 1,
        place: Place(9),
    })
}

fn imaged() -> Body {
    Body::Imaged {
        pid: Pid(2),
        place: Place(9),
    }
}

fn forked() -> Body {
    Body::Forked {
        cookie: COOKIE,
        place: Place(9),
        pid: Pid(3),
    }
}

fn body(alloc: Global, sent: Sent) -> Result<Body, Fail> {
    Ok(match sent {
        Sent::Hello => Body::Hello { pid: Pid(2) },
        Sent::Joined => Body::Joined { pid: Pid(3) },
        Sent::Imaged => imaged(),
        Sent::Forked => forked(),
        Sent::Cancelled => Body::Cancelled,
        Sent::ExecReady => Body::ExecReady { cookie: COOKIE },
        Sent::Answered => answered(),
        Sent::Refused(kind) => Body::Refused {
            kind,
            why: SpError::Memory,
        },
        Sent::Ask(index, addr, len) => Body::AskBytes { index, addr, len },
        Sent::AskText(max) => Body::AskText {
            index: 0,
            addr: BASE,
            max,
        },
        Sent::Put(addr, text) => Body::Put {
            index: 0,
            addr,
            bytes: Octets::of(alloc, text.as_bytes())?,
        },
        Sent::Copy => Body::GotBytes {
            index: 0,
            err: 14,
            bytes: Octets::none(alloc),
        },
        Sent::Sys => Body::Sys {
            num: 1,
            words: Words::none(),
        },
        Sent::Prefork => Body::Prefork,
    })
}

fn event(alloc: Global, step: Step) -> Result<Event, Fail> {
    Ok(match step {
        Step::Start(asked, text) => Event::Start(Caller(1), call(asked), memory(alloc, 1, text)?),
        Step::StartLong(asked, text) => {
            Event::Start(Caller(1), call(asked), memory(alloc, 1024, text)?)
        }
        Step::Prefork => Event::Prefork(Caller(1), Want::Make),
        Step::Cancel => Event::Prefork(Caller(1), Want::Cancel(COOKIE)),
        Step::Preexec => Event::Preexec(Caller(1)),
        Step::Frame(number, sent) => Event::Frame(Frame {
            number: ReqNo(number),
            body: body(alloc, sent)?,
        }),
        Step::Collect(number) => Event::Collect(ReqNo(number)),
        Step::Take => Event::Take,
        Step::Gone => Event::Gone,
    })
}

/// The bytes of a memory.
fn bytes(alloc: Global, mem: &Mem) -> Result<String, Fail> {
    let mut text = String::new(alloc);
    for part in mem.parts() {
        for byte in part.bytes.slice() {
            text.push(char::from(*byte))?;
        }
    }
    Ok(text)
}

/// A word, and the memory that comes back.
fn with_memory(alloc: Global, word: &str, mem: Mem) -> Result<String, Fail> {
    let text = bytes(alloc, &mem)?;
    Ok(format!(in alloc; "{word} {text}")?)
}

/// An answer, and the memory that comes back.
fn got(alloc: Global, answer: Answer, mem: Mem) -> Result<String, Fail> {
    let text = bytes(alloc, &mem)?;
    let place = answer.place.0;
    Ok(format!(in alloc;
        "Got {} {} {} {place} {text}",
        answer.err, answer.ret0, answer.ret1
    )?)
}

/// A word, and a cookie.
fn with_cookie(alloc: Global, word: &str, cookie: Cookie) -> Result<String, Fail> {
    Ok(format!(in alloc; "{word} {} {}", cookie.number, cookie.salt)?)
}

/// A reply as text.
fn said(alloc: Global, reply: Reply) -> Result<String, Fail> {
    match reply {
        Reply::Out(frame) => Ok(format!(in alloc; "{:?} {:?}", frame.number, frame.body)?),
        Reply::Started(number) => Ok(format!(in alloc; "Started {}", number.0)?),
        Reply::Joined { pid, place } => Ok(format!(in alloc; "Joined {} {place:?}", pid.0)?),
        Reply::Forked { cookie, place, pid } => {
            let text = with_cookie(alloc, "Forked", cookie)?;
            Ok(format!(in alloc; "{text} {} {}", place.0, pid.0)?)
        }
        Reply::Cancelled => with_memory(alloc, "Cancelled", Mem::none(alloc)),
        Reply::ExecReady(cookie) => with_cookie(alloc, "ExecReady", cookie),
        Reply::Got(answer, mem) => got(alloc, answer, mem),
        Reply::Busy(mem) => with_memory(alloc, "Busy", mem),
        Reply::Refused(_why, mem) => with_memory(alloc, "Refused", mem),
        Reply::Lost(mem) => with_memory(alloc, "Lost", mem),
        Reply::Broken(mem) => with_memory(alloc, "Broken", mem),
        Reply::NotYet(mem) => with_memory(alloc, "NotYet", mem),
        Reply::NoMemory(mem) => with_memory(alloc, "NoMemory", mem),
        Reply::Nothing => with_memory(alloc, "Nothing", Mem::none(alloc)),
        Reply::BadServer(_frame) => with_memory(alloc, "BadServer", Mem::none(alloc)),
        Reply::Unknown => with_memory(alloc, "Unknown", Mem::none(alloc)),
    }
}

/// A client whose handshake is queued.
pub fn guest(alloc: Global) -> Result<ClientCore, Fail> {
    let name = Octets::of(alloc, b"vi")?;
    Ok(ClientCore::fresh(alloc, Hello::Guest(name))?)
}

/// A client answers each step as the table says.
pub fn answers(
    rt: &impl Abort,
    alloc: Global,
    core: &mut ClientCore,
    steps: &[(Step, &str)],
) -> Result<(), Fail> {
    for (step, want) in steps {
        let reply = core.play(event(alloc, *step)?);
        let text = said(alloc, reply)?;
        assert_eq!(rt; text.as_str(), *want);
    }
    Ok(())
}

const HELLO: &str = "ReqNo(1) Guest { name: Octets { items: [118, 105] } }";

pub const HANDSHAKE: [(Step, &str); 7] = [
    (Step::Start(Asked::Getpid, "mine"), "NotYet mine"),
    (Step::Collect(1), "NotYet "),
    (Step::Take, HELLO),
    (Step::Take, "Nothing "),
    (Step::Frame(1, Sent::Hello), "Nothing "),
    (Step::Collect(1), "Joined 2 None"),
    (Step::Collect(1), "Unknown "),
];

#[test]
fn a_handshake(rt: HostRuntime) -> Result<(), Fail> {
    let mut core = guest(rt.alloc())?;
    assert!(rt; !core.is_still(), "the handshake is queued");
    answers(&rt, rt.alloc(), &mut core, &HANDSHAKE)?;
    assert!(rt; core.is_still(), "all is sent and collected");
    Ok(())
}

/// Calls of a client that speaks for a process, each under the next number.
const CALLS: [(Step, &str); 27] = [
    (Step::Start(Asked::Getpid, ""), "Started 2"),
    (
        Step::Take,
        "ReqNo(2) Sys { num: 1, words: Words { items: [] } }",
    ),
    (Step::Collect(2), "NotYet "),
    (Step::Frame(2, Sent::Answered), "Nothing "),
    (Step::Collect(2), "Got 0 4 1 9 "),
    (Step::Start(Asked::Write, "abcd"), "Started 3"),
    (
        Step::Take,
        "ReqNo(3) Sys { num: 5, words: Words { items: [3, 4096, 4] } }",
    ),
    (Step::Frame(3, Sent::Ask(0, BASE, 4)), "Nothing "),
    (
        Step::Take,
        "ReqNo(3) GotBytes { index: 0, err: 0, bytes: Octets { items: [97, 98, 99, 100] } }",
    ),
    (Step::Start(Asked::Write, "abc"), "Started 4"),
    (Step::Frame(4, Sent::Ask(0, BASE, 4)), "Nothing "),
    (
        Step::Take,
        "ReqNo(4) Sys { num: 5, words: Words { items: [3, 4096, 4] } }",
    ),
    (
        Step::Take,
        "ReqNo(4) GotBytes { index: 0, err: 14, bytes: Octets { items: [] } }",
    ),
    (Step::Start(Asked::Read, "........"), "Started 5"),
    (Step::Frame(5, Sent::Put(BASE + 6, "gh")), "Nothing "),
    (Step::Frame(5, Sent::Put(BASE, "ab")), "Nothing "),
    (Step::Frame(5, Sent::Answered), "Nothing "),
    (Step::Collect(5), "Got 0 4 1 9 ab....gh"),
    (Step::Start(Asked::Read, "...."), "Started 6"),
    (Step::Frame(6, Sent::Put(BASE + 3, "de")), "Nothing "),
    (Step::Frame(6, Sent::Put(BASE, "a")), "Nothing "),
    (Step::Frame(6, Sent::Answered), "Nothing "),
    (Step::Collect(6), "Got 14 0 0 9 a..."),
    (Step::Start(Asked::Getpid, "mine"), "Started 7"),
    (Step::Frame(7, Sent::Refused(1)), "Nothing "),
    (Step::Collect(7), "Refused mine"),
    (
        Step::Take,
        "ReqNo(5) Sys { num: 4, words: Words { items: [3, 4096, 8] } }",
    ),
];

#[test]
fn calls(rt: HostRuntime) -> Result<(), Fail> {
    let mut core = guest(rt.alloc())?;
    answers(&rt, rt.alloc(), &mut core, &HANDSHAKE)?;
    answers(&rt, rt.alloc(), &mut core, &CALLS)
}

/// Calls with a path, and what answers the ask for it.
const PATHS: [(Step, &str); 3] = [
    (
        Step::Start(Asked::Chdir, "/d\0"),
        "ReqNo(2) GotText { index: 0, err: 0, bytes: Octets { items: [47, 100] } }",
    ),
    (
        Step::Start(Asked::Chdir, "/d"),
        "ReqNo(2) GotText { index: 0, err: 14, bytes: Octets { items: [] } }",
    ),
    (
        Step::StartLong(Asked::Chdir, "/d"),
        "ReqNo(2) GotText { index: 0, err: 63, bytes: Octets { items: [] } }",
    ),
];

#[test]
fn paths(rt: HostRuntime) -> Result<(), Fail> {
    for (start, copy) in PATHS {
        let mut core = guest(rt.alloc())?;
        answers(&rt, rt.alloc(), &mut core, &HANDSHAKE)?;
        let steps = [
            (start, "Started 2"),
            (
                Step::Take,
                "ReqNo(2) Sys { num: 17, words: Words { items: [4096] } }",
            ),
            (Step::Frame(2, Sent::AskText(1024)), "Nothing "),
            (Step::Take, copy),
        ];
        answers(&rt, rt.alloc(), &mut core, &steps)?;
    }
    Ok(())
}

/// The link is lost under way, after one answer.
const LOST: [(Step, &str); 12] = [
    (Step::Start(Asked::Read, "........"), "Started 2"),
    (Step::Start(Asked::Getpid, "mine"), "Started 3"),
    (Step::Frame(2, Sent::Put(BASE, "ab")), "Nothing "),
    (Step::Frame(3, Sent::Answered), "Nothing "),
    (Step::Gone, "Nothing "),
    (Step::Frame(7, Sent::Prefork), "Nothing "),
    (Step::Collect(2), "Lost ab......"),
    (Step::Collect(3), "Got 0 4 1 9 mine"),
    (Step::Start(Asked::Getpid, "mine"), "Lost mine"),
    (Step::Prefork, "Lost "),
    (Step::Preexec, "Lost "),
    (
        Step::Take,
        "ReqNo(2) Sys { num: 4, words: Words { items: [3, 4096, 8] } }",
    ),
];

#[test]
fn a_lost_link(rt: HostRuntime) -> Result<(), Fail> {
    let mut core = guest(rt.alloc())?;
    answers(&rt, rt.alloc(), &mut core, &HANDSHAKE)?;
    answers(&rt, rt.alloc(), &mut core, &LOST)
}

#[test]
fn as_many_requests_as_can_be(rt: HostRuntime) -> Result<(), Fail> {
    let mut core = guest(rt.alloc())?;
    answers(&rt, rt.alloc(), &mut core, &HANDSHAKE)?;
    for started in 0..64 {
        assert!(rt; !core.is_busy(), "{started} calls are open");
        core.play(event(rt.alloc(), Step::Start(Asked::Getpid, ""))?);
    }
    assert!(rt; core.is_busy());
    let busy = [
        (Step::Start(Asked::Getpid, "mine"), "Busy mine"),
        (Step::Prefork, "Busy "),
        (Step::Cancel, "Busy "),
        (Step::Preexec, "Busy "),
    ];
    answers(&rt, rt.alloc(), &mut core, &busy)
}
