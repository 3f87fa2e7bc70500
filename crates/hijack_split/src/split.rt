//! The steps of a guest's call.
ghost use Rattle.std.specs.Prelude.{◌≡◌, []};
ghost use Rattle.hijack_split.specs.Split.{next_step, on_descriptor, on_path, on_paths, on_side};
ghost use Rattle.hijack_split.specs.Split.{same_side, steps_by, view_after};
ghost use Rattle.hijack_split.specs.Steps.{next, plan_of};

use crate::answers::Answers;
use crate::calls::{below_offset, change_by, made_by, sets_flag, with_first, with_paths};
use crate::change::{Change, Named};
use crate::dup2::dup2;
use crate::new_descriptors::{refusal, succeed};
use crate::turn::{Plan, Route, Stage, Turn};
use crate::view::View;
use hijack_rules::{Rules, SideName};
use sp_base::{Answer, Call, Errno};
use sp_copy::Mem;

/// The guest's call on one kernel, with that kernel's names.
#[tactic(auto, unfolding(crate::specs::Split::on_side))]
fn on_side(view: &View, call: &Call, side: SideName, renamed: Call, answers: &[Answer]) -> Turn
    ensures { result ≡ next (on_side view.now call.now side renamed) answers.now }
{
    match answers {
        [] => Turn::Ask(side, renamed, Stage::Main),
        [answer, rest @ ..] => {
            if answer.err != 0 {
                return Turn::Reply(Some(side), *answer, Change::Stays);
            }
            let made = made_by(call);
            let change = change_by(side, call);
            succeed(view, side, made, sets_flag(call), change, *answer, rest)
        }
    }
}

/// A call with one descriptor.
fn on_descriptor(view: &View, call: &Call, named: Named, answers: &[Answer]) -> Turn
    ensures { result ≡ next (on_descriptor view.now call.now named) answers.now }
{
    match named {
        Named::Rump(r) => {
            let renamed = below_offset(view.offset(), with_first(call, r));
            on_side(view, call, SideName::Rump, renamed, answers)
        }
        Named::Host(h) => on_side(view, call, SideName::Host, with_first(call, h), answers),
        Named::Nothing => refusal(Errno::Ebadf),
    }
}

/// A call with one path.
#[tactic(auto, unfolding(crate::specs::Split::on_path))]
fn on_path(view: &View, call: &Call, to: (SideName, u64), answers: &[Answer]) -> Turn
    ensures { result ≡ next (on_path view.now call.now to) answers.now }
{
    on_side(view, call, to.0, with_first(call, to.1), answers)
}

/// Whether two sides are one.
fn same_side(side: SideName, other: SideName) -> bool
    ensures { result ≡ same_side side other }
{
    match (side, other) {
        (SideName::Rump, SideName::Rump) => true,
        (SideName::Rump, SideName::Host) => false,
        (SideName::Host, SideName::Rump) => false,
        (SideName::Host, SideName::Host) => true,
    }
}

/// A call with two paths.
#[tactic(auto, unfolding(crate::specs::Split::on_paths))]
fn on_paths(
    view: &View,
    call: &Call,
    to: (SideName, u64),
    new_to: (SideName, u64),
    answers: &[Answer],
) -> Turn
    ensures { result ≡ next (on_paths view.now call.now to new_to) answers.now }
{
    if !same_side(to.0, new_to.0) {
        return refusal(Errno::Exdev);
    }
    on_side(view, call, to.0, with_paths(call, to.1, new_to.1), answers)
}

/// What the caller is told of a turn.
fn plan_of(turn: Turn) -> Plan
    ensures { result ≡ plan_of turn }
{
    match turn {
        Turn::Ask(side, call, stage) => Plan::Step(side, call, stage),
        Turn::Reply(_, answer, _) => Plan::Reply(answer),
        Turn::Poll => Plan::Poll,
    }
}

impl View {
    /// What comes next for a guest's call that goes this way, once its first steps have these
    /// answers, with all that its reply brings. Takes no memory.
    pub fn turn(&self, call: &Call, route: Route, answers: &[Answer]) -> Turn
        ensures { result ≡ next (steps_by self.now call.now route) answers.now }
    {
        match route {
            Route::Raw => match answers {
                [] => Turn::Ask(SideName::Rump, call.copy(), Stage::Main),
                [answer, ..] => Turn::Reply(Some(SideName::Rump), *answer, Change::Stays),
            },
            Route::Whole(side) => on_side(self, call, side, call.copy(), answers),
            Route::Descriptor(named) => on_descriptor(self, call, named, answers),
            Route::Path(to) => on_path(self, call, to, answers),
            Route::Paths(to, new_to) => on_paths(self, call, to, new_to, answers),
            Route::Dup2(fd, new_fd) => dup2(self, fd, new_fd, answers),
            Route::Divided => Turn::Poll,
        }
    }

    /// The first step of a guest's call, or its reply. Takes no memory.
    pub fn plan(&self, rules: &Rules, call: &Call, mem: &Mem) -> Plan
        ensures { result ≡ next_step rules.now self.now call.now mem.now [] }
    {
        plan_of(self.turn(call, self.route(rules, call, mem), &[]))
    }

    /// The next step of a guest's call, or its reply, once its first steps have these answers; with
    /// the reply the view changes. The memory is that before the first step. Takes no memory.
    pub fn after(&mut self, rules: &Rules, call: &Call, mem: &Mem, answers: &Answers) -> Plan
        ensures plan { result ≡ next_step rules.now self.old call.now mem.now answers.now }
        ensures view { self.new ≡ view_after rules.now self.old call.now mem.now answers.now }
    {
        match self.turn(call, self.route(rules, call, mem), answers.slice()) {
            Turn::Ask(side, call, stage) => Plan::Step(side, call, stage),
            Turn::Reply(_, answer, change) => {
                self.change(change);
                Plan::Reply(answer)
            }
            Turn::Poll => Plan::Poll,
        }
    }
}
