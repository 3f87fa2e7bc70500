use crate::{CookieFault, CookieKind, Cookies, UNUSED_COOKIES, Unused};
use sp_base::{ConnNo, Cookie, Pid};
use std::test::Fail;

/// Something that is done to cookies.
#[derive(Clone, Copy, Debug)]
enum Step {
    /// A cookie is made of a process, a maker, a salt and a kind.
    Make(u32, u32, u64, CookieKind),
    /// A cookie is redeemed, by its number, salt and kind.
    Redeem(u64, u64, CookieKind),
    /// A cookie is cancelled, by its number, salt and maker.
    Cancel(u64, u64, u32),
    /// The first cookie of a maker is asked for.
    First(u32),
    /// The cookie that was made last is taken out again.
    Unmake,
}

/// What is answered to a step.
#[derive(Clone, Copy, Debug, PartialEq)]
enum Told {
    /// A cookie, by its number and salt.
    Cookie(u64, u64),
    /// Why no cookie was made.
    Fault(CookieFault),
    /// A process and the connection that made its cookie.
    Redeemed(u32, u32),
    /// A process and its cookie's kind.
    Cancelled(u32, CookieKind),
    /// There is no such cookie.
    Unknown,
    /// It was done.
    Done,
}

fn cookie(number: u64, salt: u64) -> Cookie {
    Cookie { number, salt }
}

fn play(cookies: &mut Cookies, step: Step) -> Told {
    match step {
        Step::Make(pid, maker, salt, kind) => {
            match cookies.make(Pid(pid), ConnNo(maker), salt, kind) {
                Ok(made) => Told::Cookie(made.number, made.salt),
                Err(fault) => Told::Fault(fault),
            }
        }
        Step::Redeem(number, salt, kind) => match cookies.redeem(cookie(number, salt), kind) {
            Ok((pid, maker)) => Told::Redeemed(pid.0, maker.0),
            Err(_) => Told::Unknown,
        },
        Step::Cancel(number, salt, maker) => {
            match cookies.cancel(cookie(number, salt), ConnNo(maker)) {
                Ok((pid, kind)) => Told::Cancelled(pid.0, kind),
                Err(_) => Told::Unknown,
            }
        }
        Step::First(maker) => match cookies.first_of(ConnNo(maker)) {
            Some(first) => Told::Cookie(first.number, first.salt),
            None => Told::Unknown,
        },
        Step::Unmake => {
            cookies.unmake();
            Told::Done
        }
    }
}

/// Each step of a table gets its answer, and leaves as many cookies as it says.
#[test]
fn answers_each_step(rt: HostRuntime) -> Result<(), Fail> {
    use CookieKind::{Exec, Fork};
    let mut cookies = Cookies::fresh(rt.alloc());
    let steps = [
        (Step::First(1), Told::Unknown, 0),
        (Step::Redeem(1, 0, Fork), Told::Unknown, 0),
        (Step::Make(3, 1, 90, Fork), Told::Cookie(1, 90), 1),
        (Step::Make(4, 2, 80, Exec), Told::Cookie(2, 80), 2),
        (Step::Make(5, 1, 70, Fork), Told::Cookie(3, 70), 3),
        (Step::First(1), Told::Cookie(1, 90), 3),
        (Step::First(2), Told::Cookie(2, 80), 3),
        (Step::First(3), Told::Unknown, 3),
        (Step::Redeem(1, 91, Fork), Told::Unknown, 3),
        (Step::Redeem(1, 90, Exec), Told::Unknown, 3),
        (Step::Redeem(1, 90, Fork), Told::Redeemed(3, 1), 2),
        (Step::Redeem(1, 90, Fork), Told::Unknown, 2),
        (Step::Cancel(1, 90, 1), Told::Unknown, 2),
        (Step::First(1), Told::Cookie(3, 70), 2),
        (Step::Cancel(2, 80, 1), Told::Unknown, 2),
        (Step::Cancel(2, 81, 2), Told::Unknown, 2),
        (Step::Cancel(2, 80, 2), Told::Cancelled(4, Exec), 1),
        (Step::Redeem(2, 80, Exec), Told::Unknown, 1),
        (Step::Cancel(2, 80, 2), Told::Unknown, 1),
        (Step::Cancel(3, 70, 1), Told::Cancelled(5, Fork), 0),
        (Step::First(1), Told::Unknown, 0),
        (Step::Make(6, 1, 60, Exec), Told::Cookie(4, 60), 1),
        (Step::Redeem(4, 60, Exec), Told::Redeemed(6, 1), 0),
        (Step::Make(7, 1, 50, Fork), Told::Cookie(5, 50), 1),
        (Step::Unmake, Told::Done, 0),
        (Step::Redeem(5, 50, Fork), Told::Unknown, 0),
        (Step::Make(7, 1, 55, Fork), Told::Cookie(5, 55), 1),
    ];
    for (step, told, unused) in steps {
        assert_eq!(rt; play(&mut cookies, step), told, "{step:?}");
        assert_eq!(rt; cookies.unused(), unused, "{step:?}");
    }
    Ok(())
}

/// A cookie is shown to whom it is of use, and stays unused.
#[test]
fn shows_a_cookie(rt: HostRuntime) -> Result<(), Fail> {
    use CookieKind::{Exec, Fork};
    let mut cookies = Cookies::fresh(rt.alloc());
    let made = cookies.make(Pid(3), ConnNo(1), 90, Fork);
    assert_eq!(rt; made, Ok(cookie(1, 90)));
    let unused = Some(Unused {
        pid: Pid(3),
        maker: ConnNo(1),
        salt: 90,
        kind: Fork,
    });
    assert_eq!(rt; cookies.redeemable(cookie(1, 90), Fork), unused);
    assert_eq!(rt; cookies.redeemable(cookie(1, 90), Exec), None);
    assert_eq!(rt; cookies.redeemable(cookie(1, 91), Fork), None);
    assert_eq!(rt; cookies.cancellable(cookie(1, 90), ConnNo(1)), unused);
    assert_eq!(rt; cookies.cancellable(cookie(1, 90), ConnNo(2)), None);
    assert_eq!(rt; cookies.unused(), 1);
    Ok(())
}

/// No cookie is made while 64 are unused; the one after them has the next number.
#[test]
fn is_full_at_64(rt: HostRuntime) -> Result<(), Fail> {
    let mut cookies = Cookies::fresh(rt.alloc());
    let more = Step::Make(2, 1, 5, CookieKind::Fork);
    for number in 1..=UNUSED_COOKIES {
        assert!(rt; !cookies.full());
        assert_eq!(rt; play(&mut cookies, more), Told::Cookie(number, 5));
    }
    assert!(rt; cookies.full());
    assert_eq!(rt; play(&mut cookies, more), Told::Fault(CookieFault::Full));
    assert_eq!(rt; cookies.unused(), 64);
    let cancelled = play(&mut cookies, Step::Cancel(7, 5, 1));
    assert_eq!(rt; cancelled, Told::Cancelled(2, CookieKind::Fork));
    assert_eq!(rt; play(&mut cookies, more), Told::Cookie(65, 5));
    assert!(rt; cookies.full());
    Ok(())
}
