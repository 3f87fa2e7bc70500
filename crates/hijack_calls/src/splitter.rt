//! A guest's calls over two sides.
ghost use Rattle.std.specs.Prelude.{◌≡◌, ◌≢◌, ◌≤◌, ◌⊎◌, [], IfErr};
ghost use Rattle.hijack_split.specs.Split.{next_step, steps_by, steps_of};
ghost use Rattle.hijack_split.specs.declared.turn.Plan.TheVariants as plan;
ghost use Rattle.hijack_calls.specs.Runs.{Asked, Runs, Splits};
ghost use Rattle.hijack_calls.specs.Sides.{HasRisen};
ghost use Rattle.hijack_calls.specs.Turns.{IsWhole};
ghost use Rattle.hijack_calls.specs.declared.side.Cause.{Cause};

use crate::side::{Side, SideFault};
use hijack_rules::{Rules, SideName};
use hijack_split::{Answers, Change, Route, Turn, View};
use sp_base::{Answer, Call};
use sp_copy::Mem;

/// What a guest is told of its call.
#[derive(Debug, Drop)]
pub struct Replied {
    /// The answer, with the guest's numbers in it.
    pub answer: Answer,
    /// Whose answer it is; None where it is the splitter's own.
    pub by: Option<SideName>,
    /// The guest's memory.
    pub mem: Mem,
}

/// What a call came to: what the guest is told, and how its view changes.
#[derive(Debug, Drop)]
pub struct Done {
    pub replied: Replied,
    pub change: Change,
}

/// A call on one of the sides.
fn ask<R: Side, H: Side>(
    side: SideName,
    call: &Call,
    rump: &mut R,
    host: &mut H,
    mem: Mem,
) -> Result<(Answer, Mem), SideFault>
    ensures asked { Asked R.does H.does side call.now mem result
        rump.old host.old rump.new host.new }
    ensures rump { (cause : Cause) → R.faults rump.old cause ≤ R.faults rump.new cause }
    ensures host { (cause : Cause) → H.faults host.old cause ≤ H.faults host.new cause }
    ensures risen { IfErr result (λ fault.
        HasRisen (R.faults rump.old) (R.faults rump.new) fault
        ⊎ HasRisen (H.faults host.old) (H.faults host.new) fault) }
{
    match side {
        SideName::Rump => rump.call(call, mem),
        SideName::Host => host.call(call, mem),
    }
}

/// Does the steps of a call that goes this way, each on its side.
fn run<R: Side, H: Side>(
    view: &View,
    call: &Call,
    route: Route,
    rump: &mut R,
    host: &mut H,
    mem: Mem,
) -> Result<Done, SideFault>
    requires { IsWhole route }
    ensures runs { Runs R.does H.does (steps_by view.now call.now route) rump.old host.old mem
        result rump.new host.new }
    ensures rump { (cause : Cause) → R.faults rump.old cause ≤ R.faults rump.new cause }
    ensures host { (cause : Cause) → H.faults host.old cause ≤ H.faults host.new cause }
    ensures risen { IfErr result (λ fault.
        HasRisen (R.faults rump.old) (R.faults rump.new) fault
        ⊎ HasRisen (H.faults host.old) (H.faults host.new) fault) }
{
    let mut mem = mem;
    let mut answers = Answers::none();
    for i in 0..9u32 {
        match view.turn(call, route, answers.slice()) {
            Turn::Ask(side, step, _) => match ask(side, &step, rump, host, mem) {
                Ok((answer, back)) => {
                    mem = back;
                    answers.push(answer);
                }
                Err(fault) => return Err(fault),
            },
            Turn::Reply(by, answer, change) => {
                let replied = Replied { answer, by, mem };
                return Ok(Done { replied, change });
            }
            Turn::Poll => unreachable!(),
        }
    }
    unreachable!()
}

/// A guest's view, and the two sides between which its calls are split.
#[derive(Drop)]
pub struct Splitter<R, H> {
    pub rules: Rules,
    pub view: View,
    pub rump: R,
    pub host: H,
}

impl<R: Side, H: Side> Splitter<R, H> {
    /// The splitter of a guest with this view, by these rules, over these sides.
    pub fn new(rules: Rules, view: View, rump: R, host: H) -> Splitter<R, H>
        ensures rules { result.rules ≡ rules }
        ensures view { result.view ≡ view }
        ensures rump { result.rump ≡ rump }
        ensures host { result.host ≡ host }
    {
        Splitter {
            rules,
            view,
            rump,
            host,
        }
    }

    /// Performs a guest's call that is no poll of both kernels: its steps, each on its side, in order,
    /// with the memory that the ones before it left.
    ///
    /// An error is the fault of the step that had it. The steps before that one stay performed, and
    /// the view is as it was before the call.
    pub fn call(&mut self, call: &Call, mem: Mem) -> Result<Replied, SideFault>
        requires whole { next_step self.old.rules self.old.view call.now mem [] ≢ plan.Poll }

        // what is done, and what the guest is told
        ensures splits { Splits R.does H.does
            (steps_of self.old.rules self.old.view mem call.now)
            self.old.rump self.old.host mem self.old.view
            result self.new.rump self.new.host self.new.view }

        // when a fault comes
        ensures risen { IfErr result (λ fault.
            HasRisen (R.faults self.old.rump) (R.faults self.new.rump) fault
            ⊎ HasRisen (H.faults self.old.host) (H.faults self.new.host) fault) }

        // what stays
        ensures rules { self.new.rules ≡ self.old.rules }
        ensures rump { (cause : Cause)
            → R.faults self.old.rump cause ≤ R.faults self.new.rump cause }
        ensures host { (cause : Cause)
            → H.faults self.old.host cause ≤ H.faults self.new.host cause }
    {
        let route = self.view.route(&self.rules, call, &mem);
        match run(&self.view, call, route, &mut self.rump, &mut self.host, mem) {
            Ok(done) => {
                self.view.change(done.change);
                Ok(done.replied)
            }
            Err(fault) => Err(fault),
        }
    }
}
