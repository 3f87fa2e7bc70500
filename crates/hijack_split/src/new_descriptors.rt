//! What becomes of the descriptors that a call makes.
ghost use Rattle.std.specs.Prelude.{◌≡◌, ℕ, [], ◌∷◌};
ghost use Rattle.hijack_split.specs.NewDescriptors.{gives_up, closes, moved, replaces, resumed};
ghost use Rattle.hijack_split.specs.NewDescriptors.{settles, settles_one, settles_second};
ghost use Rattle.hijack_split.specs.NewDescriptors.{settles_two, succeeds};
ghost use Rattle.hijack_split.specs.Steps.{Steps, next, raised, refuses};

use crate::change::Change;
use crate::commands::{F_DUPFD, F_SETFD, FD_CLOEXEC};
use crate::turn::{Made, Stage, Turn};
use crate::view::View;
use hijack_rules::SideName;
use sp_base::{Answer, Call, Errno, Place};

/// How far a new host descriptor has come.
#[derive(Drop)]
pub enum Settled<'a> {
    /// This comes next, and it isn't settled yet, or not to be had.
    Asks(Turn),
    /// The guest has it under this number; the answers that are left.
    Kept(u64, &'a [Answer]),
}

/// An error of the splitter's own.
pub fn refusal(error: Errno) -> Turn
    ensures { result ≡ next (refuses error) [] }
{
    let answer = Answer {
        err: error.number(),
        ret0: 0,
        ret1: 0,
        place: Place(0),
    };
    Turn::Reply(None, answer, Change::Stays)
}

/// A new host descriptor is closed.
fn close(d: u64) -> Turn
    ensures { result ≡ Turn.Ask SideName.Host (Call.Close d) Stage.Shed }
{
    Turn::Ask(SideName::Host, Call::Close { fd: d }, Stage::Shed)
}

/// What was made is closed, one after another, and EMFILE is answered.
fn give_up(made: &[u64], answers: &[Answer]) -> Turn
    ensures { result ≡ next (gives_up made.now) answers.now }
{
    let [d, later @ ..] = made else {
        return refusal(Errno::Emfile);
    };
    match answers {
        [] => close(*d),
        [_, rest @ ..] => give_up(later, rest),
    }
}

/// A duplicate is closed, and then what was made.
fn give_up_with(e: u64, made: &[u64], answers: &[Answer]) -> Turn
    ensures { result ≡ next (gives_up (e ∷ made.now)) answers.now }
{
    match answers {
        [] => close(e),
        [_, rest @ ..] => give_up(made, rest),
    }
}

/// `d` is closed, and the guest has `e` in its place.
fn put_in_place(d: u64, e: u64, answers: &[Answer]) -> Settled
    ensures { (keep : ℕ → Steps) → next (closes d (keep e)) answers.now ≡ resumed keep result }
{
    match answers {
        [] => Settled::Asks(close(d)),
        [_, rest @ ..] => Settled::Kept(e, rest),
    }
}

/// The duplicate `e` gets close-on-exec where it is to have it, and takes the place of `d`.
fn replace(flag: bool, d: u64, e: u64, answers: &[Answer]) -> Settled
    ensures { (keep : ℕ → Steps) →
        next (replaces flag d e keep) answers.now ≡ resumed keep result }
{
    if !flag {
        return put_in_place(d, e, answers);
    }
    match answers {
        [] => {
            let mark = Call::Fcntl {
                fd: e,
                command: F_SETFD,
                argument: FD_CLOEXEC,
            };
            Settled::Asks(Turn::Ask(SideName::Host, mark, Stage::Flag))
        }
        [_, rest @ ..] => put_in_place(d, e, rest),
    }
}

/// A duplicate of `d` was asked for, with this answer.
fn move_away<'a>(
    view: &View,
    flag: bool,
    d: u64,
    made: &[u64],
    answer: Answer,
    answers: &'a [Answer],
) -> Settled<'a>
    ensures { (keep : ℕ → Steps) →
        next (moved view.now flag d made.now keep answer) answers.now ≡ resumed keep result }
{
    if answer.err != 0 {
        return Settled::Asks(give_up(made, answers));
    }
    if answer.ret0 >= view.offset() {
        return Settled::Asks(give_up_with(answer.ret0, made, answers));
    }
    replace(flag, d, answer.ret0, answers)
}

/// A new host descriptor below the offset; `made` is what is closed where the guest can't have it.
fn settle<'a>(view: &View, flag: bool, d: u64, made: &[u64], answers: &'a [Answer]) -> Settled<'a>
    ensures { (keep : ℕ → Steps) →
        next (settles view.now flag d made.now keep) answers.now ≡ resumed keep result }
{
    if view.alias(d).is_none() {
        return Settled::Kept(d, answers);
    }
    match answers {
        [] => {
            let duplicate = Call::Fcntl {
                fd: d,
                command: F_DUPFD,
                argument: view.above_all(),
            };
            Settled::Asks(Turn::Ask(SideName::Host, duplicate, Stage::Raise))
        }
        [answer, rest @ ..] => move_away(view, flag, d, made, *answer, rest),
    }
}

/// One new host descriptor.
fn settle_one(view: &View, flag: bool, answer: Answer, answers: &[Answer]) -> Turn
    ensures { result ≡ next (settles_one view.now flag answer) answers.now }
{
    if answer.ret0 >= view.offset() {
        return give_up(&[answer.ret0], answers);
    }
    match settle(view, flag, answer.ret0, &[answer.ret0], answers) {
        Settled::Asks(turn) => turn,
        Settled::Kept(d, _) => Turn::Reply(
            Some(SideName::Host),
            Answer { ret0: d, ..answer },
            Change::Stays,
        ),
    }
}

/// The second of two new host descriptors, where the guest has the first as `d`.
fn settle_second(view: &View, answer: Answer, d: u64, answers: &[Answer]) -> Turn
    ensures { result ≡ next (settles_second view.now answer d) answers.now }
{
    match settle(view, false, answer.ret1, &[d, answer.ret1], answers) {
        Settled::Asks(turn) => turn,
        Settled::Kept(e, _) => Turn::Reply(
            Some(SideName::Host),
            Answer {
                ret0: d,
                ret1: e,
                ..answer
            },
            Change::Stays,
        ),
    }
}

/// Two new host descriptors.
fn settle_two(view: &View, answer: Answer, answers: &[Answer]) -> Turn
    ensures { result ≡ next (settles_two view.now answer) answers.now }
{
    let made = [answer.ret0, answer.ret1];
    if answer.ret0 >= view.offset() {
        return give_up(&made, answers);
    }
    if answer.ret1 >= view.offset() {
        return give_up(&made, answers);
    }
    match settle(view, false, answer.ret0, &made, answers) {
        Settled::Asks(turn) => turn,
        Settled::Kept(d, rest) => settle_second(view, answer, d, rest),
    }
}

/// The number at which the guest sees a rump descriptor.
pub fn raised(view: &View, r: u64) -> u64
    ensures { result ≡ raised view.now r }
{
    r.wrapping_add(view.offset())
}

/// What a success of the guest's call on a kernel gives.
pub fn succeed(
    view: &View,
    side: SideName,
    made: Made,
    flag: bool,
    change: Change,
    answer: Answer,
    answers: &[Answer],
) -> Turn
    ensures { result ≡ next (succeeds view.now side made flag change answer) answers.now }
{
    match (side, made) {
        (_, Made::Nothing) => Turn::Reply(Some(side), answer, change),
        (SideName::Rump, Made::One) => Turn::Reply(
            Some(SideName::Rump),
            Answer {
                ret0: raised(view, answer.ret0),
                ..answer
            },
            Change::Stays,
        ),
        (SideName::Rump, Made::Two) => Turn::Reply(
            Some(SideName::Rump),
            Answer {
                ret0: raised(view, answer.ret0),
                ret1: raised(view, answer.ret1),
                ..answer
            },
            Change::Stays,
        ),
        (SideName::Host, Made::One) => settle_one(view, flag, answer, answers),
        (SideName::Host, Made::Two) => settle_two(view, answer, answers),
    }
}
