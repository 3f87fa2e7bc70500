ghost use Rattle.std.specs.Prelude.{◌≡◌, ◌≤◌, ◌+◌, ◌↔◌, Some, IsSome, IsTrue, IfOk, OnOk, OnErr};
ghost use Rattle.std.specs.List.{AllByRecursion};
ghost use Rattle.sp_base.specs.declared.call.Call.{Call};
ghost use Rattle.sp_frames.specs.Grammar.{Fits};
ghost use Rattle.kern_model.specs.declared.operation.Ins.{Ins};
ghost use Rattle.kern_model.specs.declared.operation.Op.TheVariants as op;
ghost use Rattle.sp_hub.specs.AtOnce.{asked_at_once};
ghost use Rattle.sp_hub.specs.Room.{HasExitRoom};
ghost use Rattle.sp_hub.specs.Work.{waiting, HasAll, IsGathered, outs, next_of, FitsEnd, Appends, Tells};

use crate::telling::Telling;
use hub_model::OpenCall;
use kern_calls::{Acted, Kernel};
use kern_model::{Ins, Op, Who};
use sp_base::{
    Call, ConnNo, FIRST_PROCESS, Items, KeptQueue, NoMemory, PROCESSES, Pid, Place, Ranges, ReqNo,
};
use sp_frames::Frame;
use std::alloc::Global;

/// Room for the exit of each process that there can be. Keeping it costs nothing while it is there.
const EXITS: u32 = (FIRST_PROCESS + PROCESSES) as u32;

/// A call that has all that it reads, for the process of its connection.
#[derive(Drop)]
pub(crate) struct Gathered {
    pid: Pid,
    no: ConnNo,
    number: ReqNo,
    op: Op,
    ins: Ins,
}

/// Where an operation may write.
fn outs(op: &Op) -> Ranges
    ensures { result ≡ outs op.now }
{
    match op {
        Op::Sys(call) => call.outs_allowed(),
        _ => Ranges::of(None, None),
    }
}

impl Gathered {
    /// An open call, of which nothing is copied.
    pub(crate) fn of(task: OpenCall, pid: Pid, no: ConnNo, number: ReqNo) -> Gathered
        requires { HasAll task }
        ensures { IsGathered task pid no number result }
    {
        let (call, ins) = match task {
            OpenCall::Gathers { call, got, .. } => (call, Ins::Given(got)),
            OpenCall::Fails { call, error } => (call, Ins::Fault(error)),
            OpenCall::Answers => unreachable!(),
        };
        Gathered {
            pid,
            no,
            number,
            op: Op::Sys(call),
            ins,
        }
    }

    /// A call that reads nothing, before it is open; takes no memory.
    pub(crate) fn of_call(
        alloc: Global,
        call: Call,
        pid: Pid,
        no: ConnNo,
        number: ReqNo,
    ) -> Gathered
        ensures { result ≡ asked_at_once call pid no number }
    {
        Gathered {
            pid,
            no,
            number,
            op: Op::Sys(call),
            ins: Ins::Given(Items::none(alloc)),
        }
    }

    /// The open call again.
    pub(crate) fn into_task(self) -> OpenCall
        requires { (call : Call) × (self.op ≡ op.Sys call) }
        ensures { (call : Call) → self.op ≡ op.Sys call → result ≡ waiting call self.ins }
    {
        match (self.op, self.ins) {
            (Op::Sys(call), Ins::Given(got)) => OpenCall::Gathers {
                call,
                got,
                asked: false,
            },
            (Op::Sys(call), Ins::Fault(error)) => OpenCall::Fails { call, error },
            _ => unreachable!(),
        }
    }

    /// Whether the kernel performs it now, where memory doesn't end; takes no memory.
    #[tactic(auto, using(crate::proofs::Works::ready))]
    pub(crate) fn is_ready(&self, kernel: &Kernel) -> bool
        requires { FitsEnd kernel.now.items self.now }
        ensures { IsTrue result ↔ IsSome (next_of kernel.now.items self.now) }
    {
        kernel.ready(self.pid, &self.op, &self.ins)
    }

    /// Performs it, and keeps room for each process's exit. An error leaves the journal as it was.
    pub(crate) fn act(self, kernel: &mut Kernel) -> Result<Place, NoMemory>
        requires fits { FitsEnd kernel.old.items self }
        requires ready { IsSome (next_of kernel.old.items self) }
        requires room { HasExitRoom kernel.old }
        ensures ok { IfOk result (λ place. Appends kernel.old.items
            (next_of kernel.old.items self) place.0 kernel.new.items) }
        ensures err { OnErr result (kernel.new.items ≡ kernel.old.items) }
        ensures room { HasExitRoom kernel.new }
    {
        kernel.reserve(EXITS + 1)?;
        let who = Who::Request(self.no, self.number);
        match kernel.act(self.pid, who, self.op, self.ins) {
            Acted::Done(place) => Ok(place),
            Acted::NotReady => unreachable!(),
            Acted::NoMemory => Err(NoMemory),
        }
    }

    /// Performs it, and queues what tells its outcome: the response in a place that was kept, and the bytes to write in room that
    /// is taken first. An error leaves the journal and the queue as they were.
    pub(crate) fn perform(
        self,
        kernel: &mut Kernel,
        queue: &mut KeptQueue<Frame>,
    ) -> Result<(), NoMemory>
        requires fits { FitsEnd kernel.old.items self }
        requires ready { IsSome (next_of kernel.old.items self) }
        requires room { HasExitRoom kernel.old }
        requires place { 1 ≤ queue.old.spare }
        ensures ok { OnOk result (Tells kernel.old.items queue.old.items self.number
            (next_of kernel.old.items self)
            kernel.new.items queue.new.items) }
        ensures spare { OnOk result (queue.new.spare + 1 ≡ queue.old.spare) }
        ensures fits { AllByRecursion Fits queue.old.items
            → AllByRecursion Fits queue.new.items }
        ensures journal { OnErr result (kernel.new.items ≡ kernel.old.items) }
        ensures queue { OnErr result (queue.new ≡ queue.old) }
        ensures room { HasExitRoom kernel.new }
    {
        let number = self.number;
        let ranges = outs(&self.op);
        let telling = Telling::room(kernel.alloc(), queue, ranges.slice())?;
        let place = match self.act(kernel) {
            Ok(place) => place,
            Err(NoMemory) => {
                telling.give_back(queue);
                return Err(NoMemory);
            }
        };
        match kernel.journal().last() {
            Some(entry) => telling.tell(queue, number, place, &entry.outcome),
            None => unreachable!(),
        }
        Ok(())
    }
}
