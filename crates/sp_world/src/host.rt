// Operations of the host's kernel, which are performed at once, with the caller's memory in hand.
ghost use Rattle.std.specs.Prelude.{◌≡◌, ◌<◌, ◌≤◌, ◌^◌, ◌+◌, ◌∷◌, ◌++◌, [], ℕ, List, length};
ghost use Rattle.std.specs.Prelude.{vec_len, vec_capacity, IfOk, IfSome, IsSome, IsTrue, Some};
ghost use Rattle.std.specs.FinMap.{FinMap, get, insert};
ghost use Rattle.std.specs.Ordering.{nat_cmp};
ghost use Rattle.sp_world.specs.Happens.{Happens, IsWithin};
ghost use Rattle.sp_world.specs.Hosting.{Performs, Sees, Waits};
ghost use Rattle.kern_model.specs.Act.{act};
ghost use Rattle.kern_model.specs.Journal.{next_entry, state_after};
ghost use Rattle.kern_model.specs.Needs.{FitsIns};
ghost use Rattle.kern_model.specs.declared.journal.Entry.{Entry};
ghost use Rattle.kern_model.specs.declared.operation.Op.TheVariants as op;
ghost use Rattle.link_model.specs.Direct.{reads};
ghost use Rattle.world_model.specs.Host.{count_in, is_call_of, may_ask, next_host, performer};
ghost use Rattle.world_model.specs.Host.{read_for, same_op, seen_at, without_call};

use crate::parts::Parts;
use kern_calls::Tried;
use kern_model::{Entry, Ins, Op, Who};
use sp_base::{Answer, Call, Caller, Items, NoMemory, Pid, Place};
use sp_copy::{Delivery, Mem, gather};
use std::alloc::Global;
use world_model::{Event, HostCall, Reply};

/// What a call reads of its caller's memory. The only error is want of memory.
fn read_for_call(alloc: Global, call: &Call, mem: &Mem) -> Result<Ins, NoMemory>
    ensures value { IfOk result (λ ins. ins ≡ reads call.now mem.now) }
    ensures fits { IfOk result (λ ins. FitsIns (op.Sys call.now) ins) }
{
    match gather(alloc, call, mem) {
        Ok(pieces) => Ok(Ins::Given(pieces)),
        Err(fault) => match fault.errno() {
            Some(error) => Ok(Ins::Fault(error)),
            None => Err(NoMemory),
        },
    }
}

/// What an operation reads of its caller's memory. The only error is want of memory.
fn read_for(alloc: Global, op: &Op, mem: &Mem) -> Result<Ins, NoMemory>
    ensures value { IfOk result (λ ins. ins ≡ read_for op.now mem.now) }
    ensures fits { IfOk result (λ ins. FitsIns op.now ins) }
{
    match op {
        Op::Sys(call) => read_for_call(alloc, call, mem),
        _ => Ok(Ins::Given(Items::none(alloc))),
    }
}

/// What is seen of an entry at a place: its outcome as the answer, and the memory with what it
/// writes; takes no memory.
fn seen_at(place: Place, entry: &Entry, mem: Mem) -> (Answer, Mem)
    ensures { result ≡ seen_at place.0 entry.now mem }
{
    let mut delivery = Delivery::into(mem);
    let outs = entry.outcome.outs.slice();
    for out in outs {
        delivery.put(out.addr, out.bytes.slice());
    }
    let answer = Answer {
        err: entry.outcome.err,
        ret0: entry.outcome.ret0,
        ret1: entry.outcome.ret1,
        place,
    };
    (delivery.answer(answer), delivery.mem)
}

/// Whether two calls are the same.
#[tactic(auto, using(crate::proofs::HostLaws::words_same))]
fn same_call(call: &Call, other: &Call) -> bool
    ensures { result ≡ same_op (op.Sys call.now) (op.Sys other.now) }
{
    let words = call.words();
    let other_words = other.words();
    call.num() == other.num() && words.slice() == other_words.slice()
}

/// Whether two operations are the same.
fn same_op(op: &Op, other: &Op) -> bool
    ensures { result ≡ same_op op.now other.now }
{
    match (op, other) {
        (Op::Sys(call), Op::Sys(other)) => same_call(call, other),
        (Op::Attach, Op::Attach)
        | (Op::Fork, Op::Fork)
        | (Op::Exec, Op::Exec)
        | (Op::Exit, Op::Exit) => true,
        _ => false,
    }
}

/// Whether a call is that of a guest's caller.
fn is_call_of(guest: u32, caller: Caller, op: &Op, call: &HostCall) -> bool
    ensures { result ≡ is_call_of guest caller op.now call.now }
{
    call.guest == guest && call.caller.0 == caller.0 && same_op(&call.op, op)
}

/// Takes the call of a guest's caller off those that wait; takes no memory.
fn drop_call(waiting: &mut Vec<HostCall>, guest: u32, caller: Caller, op: &Op)
    ensures calls { waiting.new.items ≡ without_call waiting.old.items guest caller op.now }
    ensures len { vec_len waiting.new ≤ vec_len waiting.old }
    ensures capacity { vec_capacity waiting.new ≡ vec_capacity waiting.old }
{
    waiting.retain(|call| !is_call_of(guest, caller, op, call));
}

/// The count of a guest's next entry, by that of its last one.
fn next_count(most: u64, last: Option<u64>) -> u64
    requires within { IfSome last (λ count. count ≤ most) }
    requires room { most + 1 < 2 ^ 64 }
    ensures { result ≡ count_in last + 1 }
{
    match last {
        Some(count) => count + 1,
        None => 1,
    }
}

impl Parts {
    /// Whether a process of the host's kernel may ask for an operation.
    pub(crate) fn may_ask(&self, pid: Pid, op: &Op) -> bool
        ensures { result ≡ may_ask self.now pid op.now }
    {
        match op {
            Op::Attach => true,
            _ => self.host.is_live(pid),
        }
    }

    /// An operation for which the host's kernel isn't ready waits, in the place of one that waits
    /// already. After NoMemory all is as it was.
    fn wait(&mut self, call: HostCall, mem: Mem) -> Reply
        ensures { Waits self.old call mem result self.new }
    {
        if self.waiting.reserve(1).is_err() {
            return Reply::NoMemory;
        }
        drop_call(&mut self.waiting, call.guest, call.caller, &call.op);
        self.waiting.push_reserved(call);
        Reply::HostWaits(mem)
    }

    /// Gives a guest the count that it had before; takes no memory.
    fn restore_count(&mut self, guest: u32, before: Option<u64>)
        requires { IsSome (get self.old.counts guest) }
        ensures { (counts : FinMap nat_cmp ℕ) (count : ℕ) → get counts guest ≡ before
            → self.old.counts ≡ insert counts guest count
            → self.new ≡ record self.old { counts = counts } }
    {
        match before {
            Some(count) => {
                let mut count = count;
                self.counts.swap(guest as u64, &mut count);
            }
            None => {
                self.counts.remove(guest as u64);
            }
        }
    }

    /// What a guest's caller sees of the last entry of the host's journal, for which it waits no
    /// more; takes no memory.
    fn see_last(&mut self, guest: u32, caller: Caller, place: Place, mem: Mem) -> Reply
        requires { 0 < length self.old.host }
        ensures { (entries : List Entry) (e : Entry) → self.old.host ≡ entries ++ e ∷ []
            → Sees self.old guest caller place.0 e mem result self.new }
    {
        match self.host.journal().last() {
            Some(entry) => {
                drop_call(&mut self.waiting, guest, caller, &entry.op);
                let (answer, mem) = seen_at(place, entry, mem);
                Reply::Hosted(answer, mem)
            }
            None => unreachable!(),
        }
    }

    /// The host's kernel performs an operation for which it is ready. After NoMemory all is as it
    /// was.
    fn perform(&mut self, most: u64, call: HostCall, mem: Mem) -> Reply
        requires asks { IsTrue (may_ask self.old call.pid call.op) }
        requires fits { FitsIns call.op call.ins }
        requires ready { let process = performer call.pid call.op in
            IsSome (act (state_after self.old.host) process.0 call.op call.ins) }
        requires within { IsWithin most self.old }
        requires room { most + 1 < 2 ^ 64 }
        ensures { (e : Entry) → next_entry self.old.host (performer call.pid call.op)
            (next_host self.old call.guest) call.op call.ins ≡ Some e
            → Performs self.old call e mem result self.new }
    {
        let HostCall {
            guest,
            caller,
            pid,
            op,
            ins,
        } = call;
        let before = self.counts.get(guest as u64).copied();
        let count = next_count(most, before);
        if self.counts.insert(guest as u64, count).is_err() {
            return Reply::NoMemory;
        }
        match self.host.try_act(pid, Who::Host(guest, count), op, ins) {
            Tried::Done(place) => self.see_last(guest, caller, place, mem),
            Tried::NotReady(_, _) => unreachable!(),
            Tried::NoMemory(_, _) => {
                self.restore_count(guest, before);
                Reply::NoMemory
            }
        }
    }

    /// A caller of a guest has a process of the host's kernel perform an operation, with its memory
    /// in hand: Hosted with what it sees, or HostWaits where the kernel isn't ready.
    ///
    /// Closed comes where the process isn't live, unless a process is to be made; then, and after
    /// NoMemory, all is as it was.
    pub(crate) fn host(
        &mut self,
        most: u64,
        guest: u32,
        caller: Caller,
        pid: Pid,
        op: Op,
        mem: Mem,
    ) -> Reply
        requires within { IsWithin most self.old }
        requires room { most + 1 < 2 ^ 64 }
        ensures { Happens self.old (Event.Host guest caller pid op mem) result self.new }
    {
        if !self.may_ask(pid, &op) {
            return Reply::Closed;
        }
        let Ok(ins) = read_for(self.alloc, &op, &mem) else {
            return Reply::NoMemory;
        };
        let is_ready = self.host.ready(pid, &op, &ins);
        let call = HostCall {
            guest,
            caller,
            pid,
            op,
            ins,
        };
        if is_ready {
            self.perform(most, call, mem)
        } else {
            self.wait(call, mem)
        }
    }
}
