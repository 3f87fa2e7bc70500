// Forks, execs, and the handshakes that use their cookies.
use crate::ClientCore;
use crate::tests::{Asked, BASE, COOKIE, HANDSHAKE, Sent, Step, answers, guest};
use client_model::Hello;
use sp_base::Octets;
use std::alloc::Global;
use std::test::Fail;

/// A child is made and its cookie is taken back; the next child is refused.
const FORK: [(Step, &str); 12] = [
    (Step::Prefork, "Started 2"),
    (Step::Take, "ReqNo(2) Prefork"),
    (Step::Collect(2), "NotYet "),
    (Step::Frame(2, Sent::Forked), "Nothing "),
    (Step::Collect(2), "Forked 7 8 9 3"),
    (Step::Cancel, "Started 3"),
    (
        Step::Take,
        "ReqNo(3) Cancel { cookie: Cookie { number: 7, salt: 8 } }",
    ),
    (Step::Frame(3, Sent::Cancelled), "Nothing "),
    (Step::Collect(3), "Cancelled "),
    (Step::Prefork, "Started 4"),
    (Step::Frame(4, Sent::Refused(5)), "Nothing "),
    (Step::Collect(4), "Refused "),
];

#[test]
fn a_fork(rt: HostRuntime) -> Result<(), Fail> {
    let mut core = guest(rt.alloc())?;
    answers(&rt, rt.alloc(), &mut core, &[(Step::Prefork, "NotYet ")])?;
    answers(&rt, rt.alloc(), &mut core, &HANDSHAKE)?;
    answers(&rt, rt.alloc(), &mut core, &FORK)
}

/// A process can go on as its next program; its client starts calls as before.
const EXEC: [(Step, &str); 9] = [
    (Step::Preexec, "Started 2"),
    (Step::Take, "ReqNo(2) Preexec"),
    (Step::Preexec, "Started 3"),
    (Step::Frame(2, Sent::ExecReady), "Nothing "),
    (Step::Frame(3, Sent::Refused(6)), "Nothing "),
    (Step::Collect(2), "ExecReady 7 8"),
    (Step::Collect(3), "Refused "),
    (Step::Start(Asked::Getpid, "mine"), "Started 4"),
    (Step::Collect(4), "NotYet "),
];

#[test]
fn an_exec(rt: HostRuntime) -> Result<(), Fail> {
    let mut core = guest(rt.alloc())?;
    answers(&rt, rt.alloc(), &mut core, &[(Step::Preexec, "NotYet ")])?;
    answers(&rt, rt.alloc(), &mut core, &HANDSHAKE)?;
    answers(&rt, rt.alloc(), &mut core, &EXEC)
}

/// How a client begins.
#[derive(Clone, Copy)]
enum Begins {
    Guest,
    Join,
    Image,
}

/// A client whose handshake is queued.
fn client(alloc: Global, begins: Begins) -> Result<ClientCore, Fail> {
    let name = Octets::of(alloc, b"vi")?;
    let hello = match begins {
        Begins::Guest => Hello::Guest(name),
        Begins::Join => Hello::Join(COOKIE, name),
        Begins::Image => Hello::Image(COOKIE, name),
    };
    Ok(ClientCore::fresh(alloc, hello)?)
}

const JOIN: &str = "ReqNo(1) Join { cookie: Cookie { number: 7, salt: 8 }, \
    name: Octets { items: [118, 105] } }";

const IMAGE: &str = "ReqNo(1) Image { cookie: Cookie { number: 7, salt: 8 }, \
    name: Octets { items: [118, 105] } }";

/// The handshakes that use a cookie: what they send, what comes, and what is collected.
const HANDSHAKES: [(Begins, &str, Sent, &str); 2] = [
    (Begins::Join, JOIN, Sent::Joined, "Joined 3 None"),
    (
        Begins::Image,
        IMAGE,
        Sent::Imaged,
        "Joined 2 Some(Place(9))",
    ),
];

#[test]
fn handshakes_with_a_cookie(rt: HostRuntime) -> Result<(), Fail> {
    for (begins, frame, sent, joined) in HANDSHAKES {
        let mut core = client(rt.alloc(), begins)?;
        let steps = [
            (Step::Prefork, "NotYet "),
            (Step::Take, frame),
            (Step::Frame(1, sent), "Nothing "),
            (Step::Start(Asked::Getpid, ""), "Started 2"),
            (Step::Collect(1), joined),
        ];
        answers(&rt, rt.alloc(), &mut core, &steps)?;
    }
    Ok(())
}

/// Frames that no server may send for a handshake.
const BAD_WELCOMES: [(Begins, Sent); 13] = [
    (Begins::Guest, Sent::Joined),
    (Begins::Guest, Sent::Imaged),
    (Begins::Guest, Sent::Forked),
    (Begins::Join, Sent::Hello),
    (Begins::Join, Sent::Imaged),
    (Begins::Join, Sent::Forked),
    (Begins::Join, Sent::Answered),
    (Begins::Join, Sent::Refused(5)),
    (Begins::Image, Sent::Hello),
    (Begins::Image, Sent::Joined),
    (Begins::Image, Sent::ExecReady),
    (Begins::Image, Sent::Refused(6)),
    (Begins::Image, Sent::Ask(0, BASE, 4)),
];

#[test]
fn handshakes_that_no_server_may_answer_so(rt: HostRuntime) -> Result<(), Fail> {
    for (begins, sent) in BAD_WELCOMES {
        let steps = [
            (Step::Frame(1, sent), "BadServer "),
            (Step::Collect(1), "Broken "),
            (Step::Prefork, "Broken "),
        ];
        answers(&rt, rt.alloc(), &mut client(rt.alloc(), begins)?, &steps)?;
    }
    Ok(())
}

/// Frames that no server may send for what was asked.
const BAD_FRAMES: [(Step, Sent); 22] = [
    (Step::Prefork, Sent::ExecReady),
    (Step::Prefork, Sent::Cancelled),
    (Step::Prefork, Sent::Answered),
    (Step::Prefork, Sent::Joined),
    (Step::Prefork, Sent::Refused(1)),
    (Step::Prefork, Sent::Refused(6)),
    (Step::Prefork, Sent::Ask(0, BASE, 4)),
    (Step::Prefork, Sent::Put(BASE, "a")),
    (Step::Prefork, Sent::Prefork),
    (Step::Cancel, Sent::Forked),
    (Step::Cancel, Sent::ExecReady),
    (Step::Cancel, Sent::Answered),
    (Step::Cancel, Sent::Refused(0)),
    (Step::Cancel, Sent::Refused(6)),
    (Step::Preexec, Sent::Forked),
    (Step::Preexec, Sent::Cancelled),
    (Step::Preexec, Sent::Imaged),
    (Step::Preexec, Sent::Hello),
    (Step::Preexec, Sent::Refused(5)),
    (Step::Start(Asked::Getpid, ""), Sent::Forked),
    (Step::Start(Asked::Getpid, ""), Sent::ExecReady),
    (Step::Start(Asked::Getpid, ""), Sent::Refused(5)),
];

#[test]
fn frames_that_no_server_may_send(rt: HostRuntime) -> Result<(), Fail> {
    for (asks, sent) in BAD_FRAMES {
        let mut core = guest(rt.alloc())?;
        answers(&rt, rt.alloc(), &mut core, &HANDSHAKE)?;
        let steps = [
            (asks, "Started 2"),
            (Step::Frame(2, sent), "BadServer "),
            (Step::Collect(2), "Broken "),
            (Step::Preexec, "Broken "),
        ];
        answers(&rt, rt.alloc(), &mut core, &steps)?;
    }
    Ok(())
}
