// What calls on sockets answer, worked out by hand.
use crate::Socks;
use socket_model::{Address, Family, How, Ruling, SockFault, SockKind, SockNo};
use sp_base::{Errno, Octets};
use std::alloc::Global;
use std::test::Fail;

/// Which of two connected sockets.
#[derive(Clone, Copy)]
enum Side {
    Left,
    Right,
}

/// A call on one of two connected sockets, with what it answers; None stands for a wait.
#[derive(Clone, Copy)]
enum Step {
    Say(Side, &'static str, Result<u32, SockFault>),
    Hear(Side, u32, Option<&'static str>),
    Shut(Side, How, Result<(), SockFault>),
    Close(Side),
}

const BROKEN: Result<u32, SockFault> = Err(SockFault::Errno(Errno::Epipe));

const NOBODY: Result<u32, SockFault> = Err(SockFault::Errno(Errno::Econnrefused));

const UNFIT: Result<(), SockFault> = Err(SockFault::Errno(Errno::Eopnotsupp));

const FULL: Result<(), SockFault> = Err(SockFault::Errno(Errno::Econnrefused));

const UNBOUND: Result<(), SockFault> = Err(SockFault::Errno(Errno::Edestaddrreq));

/// Makes a call, and tells whether it answered so.
fn answers(
    alloc: Global,
    socks: &mut Socks,
    pair: (SockNo, SockNo),
    step: Step,
) -> Result<bool, Fail> {
    let (Step::Say(side, ..) | Step::Hear(side, ..) | Step::Shut(side, ..) | Step::Close(side)) =
        step;
    let s = match side {
        Side::Left => pair.0,
        Side::Right => pair.1,
    };
    if !socks.is_live(s) {
        return Err(Fail::from("the socket is gone"));
    }
    match step {
        Step::Say(_, text, answer) => {
            Ok(socks.send(alloc, s, text.as_bytes(), None, false) == answer)
        }
        Step::Hear(_, max, None) => Ok(socks.receive_waits(s, max)),
        Step::Hear(_, max, Some(text)) => match socks.receive(alloc, s, max) {
            Ok(letter) => Ok(letter.bytes.slice() == text.as_bytes()),
            Err(_) => Ok(false),
        },
        Step::Shut(_, how, answer) => Ok(socks.shutdown(s, how) == answer),
        Step::Close(_) => {
            socks.close(s);
            Ok(!socks.is_live(s))
        }
    }
}

const STREAMS: [Step; 14] = [
    Step::Hear(Side::Right, 9, None),
    Step::Say(Side::Left, "hello", Ok(5)),
    Step::Hear(Side::Right, 2, Some("he")),
    Step::Say(Side::Left, "!", Ok(1)),
    Step::Hear(Side::Right, 9, Some("llo!")),
    Step::Hear(Side::Right, 0, Some("")),
    Step::Say(Side::Right, "bye", Ok(3)),
    Step::Shut(Side::Right, How::Writing, Ok(())),
    Step::Say(Side::Right, "", BROKEN),
    Step::Hear(Side::Left, 9, Some("bye")),
    Step::Hear(Side::Left, 9, Some("")),
    Step::Say(Side::Left, "yes", Ok(3)),
    Step::Close(Side::Right),
    Step::Say(Side::Left, "", BROKEN),
];

const LETTERS: [Step; 8] = [
    Step::Hear(Side::Right, 9, None),
    Step::Say(Side::Left, "hello", Ok(5)),
    Step::Say(Side::Left, "you", Ok(3)),
    Step::Hear(Side::Right, 2, Some("he")),
    Step::Hear(Side::Right, 9, Some("you")),
    Step::Shut(Side::Right, How::Both, UNFIT),
    Step::Close(Side::Right),
    Step::Say(Side::Left, "", NOBODY),
];

#[test]
fn pairs_talk(rt: HostRuntime) -> Result<(), Fail> {
    let mut socks = Socks::fresh(rt.alloc());
    let pair = socks.pair(rt.alloc(), SockKind::Stream)?;
    for step in STREAMS {
        assert!(rt; answers(rt.alloc(), &mut socks, pair, step)?);
    }
    let pair = socks.pair(rt.alloc(), SockKind::Datagram)?;
    assert_eq!(rt; pair, (SockNo(2), SockNo(3)));
    for step in LETTERS {
        assert!(rt; answers(rt.alloc(), &mut socks, pair, step)?);
    }
    Ok(())
}

#[test]
fn a_full_backlog_refuses(rt: HostRuntime) -> Result<(), Fail> {
    let mut socks = Socks::fresh(rt.alloc());
    let there = socks.make(rt.alloc(), Family::Local, SockKind::Stream)?;
    assert!(rt; socks.is_live(there));
    assert_eq!(rt; socks.listen(there, 2), UNBOUND);
    assert!(rt; socks.is_live(there));
    socks.set_address(there, Address::Path(Octets::of(rt.alloc(), b"/s")?));
    assert!(rt; socks.is_live(there));
    assert_eq!(rt; socks.listen(there, 2), Ok(()));
    assert!(rt; socks.is_live(there));
    assert!(rt; socks.accept_waits(there));
    assert_eq!(rt; socks.listen_ruling(there), Ruling::Goes(0));
    assert_eq!(rt;
        socks.shutdown_ruling(there),
        Ruling::Refused(Errno::Enotconn)
    );
    assert!(rt; !socks.send_waits(there, 5, None, true));
    for answer in [Ok(()), Ok(()), FULL] {
        let s = socks.make(rt.alloc(), Family::Local, SockKind::Stream)?;
        assert!(rt; socks.is_live(s) && socks.is_live(there));
        assert_eq!(rt; socks.connect(rt.alloc(), s, there), answer);
    }
    assert!(rt; socks.is_live(there));
    assert_eq!(rt; socks.accept(there), Ok(SockNo(2)));
    assert!(rt; socks.is_live(there) && socks.is_live(SockNo(2)));
    assert!(rt; matches!(socks.peer(SockNo(2)), Some(Address::Unnamed)));
    assert!(rt; matches!(socks.address(SockNo(2)), Address::Path(_)));
    socks.close(there);
    assert!(rt; socks.is_live(SockNo(2)) && !socks.is_live(SockNo(4)));
    assert!(rt; answers(rt.alloc(), &mut socks, (SockNo(1), SockNo(2)), STREAMS[1])?);
    assert!(rt; answers(rt.alloc(), &mut socks, (SockNo(3), SockNo(2)), STREAMS[13])?);
    Ok(())
}
