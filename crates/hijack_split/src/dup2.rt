//! The table of dup2.
ghost use Rattle.std.specs.Prelude.{◌≡◌, ◌≤◌, Some};
ghost use Rattle.sp_base.specs.Table.{at};
ghost use Rattle.hijack_split.specs.Dup2.{closes_old, dup2_steps, host_dup2, onto_alias};
ghost use Rattle.hijack_split.specs.Dup2.{onto_itself, onto_rump, other_dup2, rump_dup2};
ghost use Rattle.hijack_split.specs.Dup2.{same_dup2};
ghost use Rattle.hijack_split.specs.Steps.{Gives, next};

use crate::change::{Alias, Change, Named};
use crate::commands::F_GETFD;
use crate::new_descriptors::{raised, refusal};
use crate::turn::{Stage, Turn};
use crate::view::View;
use hijack_rules::SideName;
use sp_base::{Answer, Call, Errno};

/// What `n` named before is closed, and then comes the reply.
fn close_old(
    n: u64,
    alias: Option<Alias>,
    by: SideName,
    reply: Answer,
    change: Change,
    answers: &[Answer],
) -> Turn
    ensures { result ≡ next (closes_old n alias (Gives (Some by) reply change)) answers.now }
{
    match (answers, alias) {
        ([], Some(alias)) => Turn::Ask(
            SideName::Rump,
            Call::Close { fd: alias.rump },
            Stage::ShedOld,
        ),
        ([], None) => Turn::Ask(SideName::Host, Call::Close { fd: n }, Stage::ShedOld),
        ([_, ..], _) => Turn::Reply(Some(by), reply, change),
    }
}

/// A host descriptor onto `n`.
fn host_dup2(view: &View, h: u64, n: u64, answers: &[Answer]) -> Turn
    ensures { result ≡ next (host_dup2 view.now h n (at view.now.aliases n)) answers.now }
{
    let alias = view.alias(n);
    if alias.is_none() && n >= view.offset() {
        return refusal(Errno::Eopnotsupp);
    }
    match answers {
        [] => Turn::Ask(SideName::Host, Call::Dup2 { fd: h, new_fd: n }, Stage::Main),
        [answer, rest @ ..] => {
            if answer.err != 0 {
                return Turn::Reply(Some(SideName::Host), *answer, Change::Stays);
            }
            if alias.is_none() {
                return Turn::Reply(Some(SideName::Host), *answer, Change::Stays);
            }
            close_old(n, alias, SideName::Host, *answer, Change::Drops(n), rest)
        }
    }
}

/// A rump descriptor onto `n`, which lies at or above the offset.
fn onto_rump(view: &View, r: u64, n: u64, answers: &[Answer]) -> Turn
    requires { view.now.offset ≤ n }
    ensures { result ≡ next (onto_rump view.now r n) answers.now }
{
    let onto = n - view.offset();
    if view.holds(onto) {
        return refusal(Errno::Ebadf);
    }
    match answers {
        [] => Turn::Ask(
            SideName::Rump,
            Call::Dup2 {
                fd: r,
                new_fd: onto,
            },
            Stage::Main,
        ),
        [answer, ..] => {
            if answer.err != 0 {
                return Turn::Reply(Some(SideName::Rump), *answer, Change::Stays);
            }
            let reply = Answer {
                ret0: raised(view, answer.ret0),
                ..*answer
            };
            Turn::Reply(Some(SideName::Rump), reply, Change::Stays)
        }
    }
}

/// A rump descriptor onto `n`, which lies below 32 and becomes an alias.
fn onto_alias(view: &View, r: u64, n: u64, answers: &[Answer]) -> Turn
    ensures { result ≡ next (onto_alias view.now r n) answers.now }
{
    match answers {
        [] => Turn::Ask(SideName::Rump, Call::Dup { fd: r }, Stage::Main),
        [answer, rest @ ..] => {
            if answer.err != 0 {
                return Turn::Reply(Some(SideName::Rump), *answer, Change::Stays);
            }
            let reply = Answer { ret0: n, ..*answer };
            let change = Change::Sets(n, answer.ret0);
            close_old(n, view.alias(n), SideName::Rump, reply, change, rest)
        }
    }
}

/// A rump descriptor onto `n`.
fn rump_dup2(view: &View, r: u64, n: u64, answers: &[Answer]) -> Turn
    ensures { result ≡ next (rump_dup2 view.now r n) answers.now }
{
    if n >= view.offset() {
        return onto_rump(view, r, n, answers);
    }
    if n >= 32 {
        return refusal(Errno::Eopnotsupp);
    }
    onto_alias(view, r, n, answers)
}

/// A descriptor onto itself.
fn onto_itself(side: SideName, number: u64, n: u64, answers: &[Answer]) -> Turn
    ensures { result ≡ next (onto_itself side number n) answers.now }
{
    match answers {
        [] => {
            let flag = Call::Fcntl {
                fd: number,
                command: F_GETFD,
                argument: 0,
            };
            Turn::Ask(side, flag, Stage::Main)
        }
        [answer, ..] => {
            if answer.err != 0 {
                return Turn::Reply(Some(side), *answer, Change::Stays);
            }
            Turn::Reply(Some(side), Answer { ret0: n, ..*answer }, Change::Stays)
        }
    }
}

/// dup2 onto the same number.
fn same_dup2(n: u64, named: Named, answers: &[Answer]) -> Turn
    ensures { result ≡ next (same_dup2 n named) answers.now }
{
    match named {
        Named::Rump(r) => onto_itself(SideName::Rump, r, n, answers),
        Named::Host(h) => onto_itself(SideName::Host, h, n, answers),
        Named::Nothing => refusal(Errno::Ebadf),
    }
}

/// dup2 onto another number.
fn other_dup2(view: &View, n: u64, named: Named, answers: &[Answer]) -> Turn
    ensures { result ≡ next (other_dup2 view.now n named) answers.now }
{
    match named {
        Named::Rump(r) => rump_dup2(view, r, n, answers),
        Named::Host(h) => host_dup2(view, h, n, answers),
        Named::Nothing => refusal(Errno::Ebadf),
    }
}

/// dup2 of `o` onto `n`.
pub fn dup2(view: &View, o: u64, n: u64, answers: &[Answer]) -> Turn
    ensures { result ≡ next (dup2_steps view.now o n) answers.now }
{
    let named = view.named(o);
    if o == n {
        return same_dup2(n, named, answers);
    }
    other_dup2(view, n, named, answers)
}
