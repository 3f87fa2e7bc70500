// The frames that no server may send for a call or a guest's handshake, or not again.
use crate::tests::{Asked, BASE, HANDSHAKE, Sent, Step, answers, guest};
use std::test::Fail;

/// Frames that no server may send for the call that is open.
const BAD_FRAMES: [(Asked, u64, Sent); 26] = [
    (Asked::Getpid, 3, Sent::Answered),
    (Asked::Getpid, 1, Sent::Answered),
    (Asked::Getpid, 0, Sent::Refused(0)),
    (Asked::Getpid, 2, Sent::Hello),
    (Asked::Getpid, 2, Sent::Copy),
    (Asked::Getpid, 2, Sent::Sys),
    (Asked::Getpid, 2, Sent::Prefork),
    (Asked::Getpid, 2, Sent::Refused(0)),
    (Asked::Getpid, 2, Sent::Ask(0, BASE, 4)),
    (Asked::Getpid, 2, Sent::Put(BASE, "a")),
    (Asked::Write, 2, Sent::Ask(0, BASE + 1, 4)),
    (Asked::Write, 2, Sent::Ask(0, BASE, 5)),
    (Asked::Write, 2, Sent::Ask(0, BASE, 3)),
    (Asked::Write, 2, Sent::Ask(1, BASE, 4)),
    (Asked::Write, 2, Sent::Ask(7, BASE, 4)),
    (Asked::Write, 2, Sent::AskText(4)),
    (Asked::Write, 2, Sent::Put(BASE, "a")),
    (Asked::Chdir, 2, Sent::AskText(1023)),
    (Asked::Chdir, 2, Sent::Ask(0, BASE, 1024)),
    (Asked::Receive, 2, Sent::Put(BASE - 1, "a")),
    (Asked::Receive, 2, Sent::Put(BASE + 8, "a")),
    (Asked::Receive, 2, Sent::Put(BASE - 1, "ab")),
    (Asked::Receive, 2, Sent::Put(BASE + 3, "ab")),
    (Asked::Receive, 2, Sent::Put(BASE, "abcdefgh")),
    (Asked::Receive, 2, Sent::Put(u64::MAX, "ab")),
    (Asked::Receive, 2, Sent::Ask(0, BASE, 4)),
];

#[test]
fn frames_that_no_server_may_send(rt: HostRuntime) -> Result<(), Fail> {
    for (asked, number, sent) in BAD_FRAMES {
        let mut core = guest(rt.alloc())?;
        answers(&rt, rt.alloc(), &mut core, &HANDSHAKE)?;
        let steps = [
            (Step::Start(asked, "mine"), "Started 2"),
            (Step::Frame(number, sent), "BadServer "),
            (Step::Gone, "Nothing "),
            (Step::Collect(2), "Broken mine"),
        ];
        answers(&rt, rt.alloc(), &mut core, &steps)?;
    }
    Ok(())
}

/// Frames that may come once alone.
const TWICE: [(Step, Sent); 7] = [
    (Step::Start(Asked::Write, "mine"), Sent::Ask(0, BASE, 4)),
    (Step::Start(Asked::Chdir, "mine"), Sent::AskText(1024)),
    (Step::Start(Asked::Getpid, "mine"), Sent::Answered),
    (Step::Prefork, Sent::Forked),
    (Step::Cancel, Sent::Cancelled),
    (Step::Preexec, Sent::ExecReady),
    (Step::Preexec, Sent::Refused(6)),
];

#[test]
fn frames_that_may_come_once(rt: HostRuntime) -> Result<(), Fail> {
    for (asks, sent) in TWICE {
        let mut core = guest(rt.alloc())?;
        answers(&rt, rt.alloc(), &mut core, &HANDSHAKE)?;
        let steps = [
            (asks, "Started 2"),
            (Step::Frame(2, sent), "Nothing "),
            (Step::Frame(2, sent), "BadServer "),
        ];
        answers(&rt, rt.alloc(), &mut core, &steps)?;
    }
    Ok(())
}

#[test]
fn a_handshake_that_is_refused(rt: HostRuntime) -> Result<(), Fail> {
    let steps = [
        (Step::Frame(1, Sent::Refused(0)), "Nothing "),
        (Step::Collect(1), "Refused "),
        (Step::Start(Asked::Getpid, "mine"), "NotYet mine"),
    ];
    answers(&rt, rt.alloc(), &mut guest(rt.alloc())?, &steps)?;
    let bad = [(Step::Frame(1, Sent::Answered), "BadServer ")];
    answers(&rt, rt.alloc(), &mut guest(rt.alloc())?, &bad)?;
    let other = [(Step::Frame(1, Sent::Refused(1)), "BadServer ")];
    answers(&rt, rt.alloc(), &mut guest(rt.alloc())?, &other)
}
