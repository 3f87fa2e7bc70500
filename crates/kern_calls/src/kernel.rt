ghost use Rattle.std.specs.Prelude.{false, ◌≡◌, ◌≢◌, ◌≤◌, ◌<◌, ◌↔◌, ◌-◌, ℕ, [], None, IfOk, OnOk, OnErr, IsTrue, IsSome, max, is_some, count_by};
ghost use Rattle.sp_base.specs.Table.{at, lowest_unused};
ghost use Rattle.sp_base.specs.declared.limits.TheConstants.{FIRST_PROCESS};
ghost use Rattle.sp_base.specs.declared.names.Place.{Place};
ghost use Rattle.kern_model.specs.declared.operation.Op.{Op};
ghost use Rattle.kern_model.specs.declared.operation.Ins.{Ins};
ghost use Rattle.kern_model.specs.Act.{act};
ghost use Rattle.kern_model.specs.Journal.{FitsPid, IsLegal, state_after};
ghost use Rattle.kern_model.specs.Needs.{FitsIns};
ghost use Rattle.kern_model.specs.Sound.{IsSound};
ghost use Rattle.kern_calls.specs.Kernel.{Appends, Performs, HandsBack, is_built, is_steady, is_steady_call, process_of, spare_after};

use crate::acted::{Acted, Tried};
use crate::parts::Parts;
use kern_model::{Entry, Ins, Op, Who};
use sp_base::{Call, Kept, NoMemory, Pid, Place};
use std::alloc::Global;
use std::marker::Model;

/// The kernel: the journal of all that it performed, with room for entries to come, and the state that the journal leaves.
#[derive(Drop)]
pub struct Kernel {
    alloc: Global,
    journal: Kept<Entry>,
    parts: Parts,
}

impl Model for Kernel {
    ghost use Rattle.std.specs.Prelude.{◌≡◌};
    ghost use Rattle.sp_base.specs.Kept.{Room};
    ghost use Rattle.kern_model.specs.declared.journal.Entry.{Entry};
    ghost use Rattle.kern_model.specs.Journal.{IsLegal, state_after};

    ghost Value = { Room Entry };

    ghost view = { λ k. k.journal };

    ghost invariant = { λ k. IsLegal k.journal.items × (state_after k.journal.items ≡ k.parts) };
}

/// Whether a call needs no memory but for its entry.
fn is_steady_call(call: &Call) -> bool
    ensures { result ≡ is_steady_call call.now }
{
    match call {
        Call::Close { .. } | Call::Lseek { .. } => true,
        Call::Fcntl { command, .. } => *command != 0,
        _ => false,
    }
}

/// Whether an operation needs no memory but for its entry.
fn is_steady(op: &Op) -> bool
    ensures { result ≡ is_steady op.now }
{
    match op {
        Op::Sys(call) => is_steady_call(call),
        Op::Attach | Op::Fork => false,
        Op::Exec | Op::Exit => true,
    }
}

/// Whether an operation never waits.
fn is_built(op: &Op) -> bool
    ensures { result ≡ is_built op.now }
{
    match op {
        Op::Sys(Call::Unknown { .. }) => true,
        Op::Sys(call) => call.num() < 21,
        _ => true,
    }
}

/// Whether an operation needs no memory, with so much room that is kept.
fn is_provided(op: &Op, spare: usize) -> bool
    ensures steady { IsTrue result → IsTrue (is_steady op.now) }
    ensures room { IsTrue result → 0 < spare }
    ensures all { IsTrue (is_steady op.now) → 0 < spare → IsTrue result }
    ensures other { result ≡ false → spare_after op.now spare ≡ spare }
{
    is_steady(op) && spare > 0
}

/// The process that an operation is performed for.
fn process_of(op: &Op, pid: Pid) -> Pid
    ensures { result ≡ process_of op.now pid }
{
    match op {
        Op::Attach => Pid(0),
        _ => pid,
    }
}

/// Performs an operation that takes no memory, as one entry more in room that was kept.
fn perform_steady(
    journal: &mut Kept<Entry>,
    parts: &mut Parts,
    pid: Pid,
    who: Who,
    op: Op,
    ins: Ins,
) -> Place
    requires process { FitsPid parts.old pid.0 op }
    requires sound { IsSound parts.old }
    requires steady { IsTrue (is_steady op) }
    requires room { 0 < journal.old.spare }
    ensures { Appends parts.old journal.old pid who op ins result.0 parts.new
        journal.new (journal.old.spare - 1) }
{
    let place = Place(journal.len() as u64);
    let outcome = parts.act_steady(pid, &op, &ins);
    journal.put_kept(Entry {
        pid,
        who,
        op,
        ins,
        outcome,
    });
    place
}

/// Performs an operation as one entry more, for which room is taken first, so that nothing can fail afterwards.
fn perform(
    journal: &mut Kept<Entry>,
    parts: &mut Parts,
    pid: Pid,
    who: Who,
    op: Op,
    ins: Ins,
) -> Tried
    requires process { FitsPid parts.old pid.0 op }
    requires sound { IsSound parts.old }
    requires ins { FitsIns op ins }
    ensures done { (place : Place) → result ≡ Tried.Done place
        → Appends parts.old journal.old pid who op ins place.0 parts.new
        journal.new journal.old.spare }
    ensures waits { (o : Op) (i : Ins) → result ≡ Tried.NotReady o i
        → (act parts.old pid.0 op ins ≡ None) × (parts.new ≡ parts.old)
        × HandsBack journal.old op ins o i journal.new }
    ensures no_memory { (o : Op) (i : Ins) → result ≡ Tried.NoMemory o i
        → (parts.new ≡ parts.old) × HandsBack journal.old op ins o i journal.new }
{
    let place = Place(journal.len() as u64);
    if journal.keep_one().is_err() {
        return Tried::NoMemory(op, ins);
    }
    match parts.act(pid, &op, &ins) {
        Ok(Some(outcome)) => {
            journal.put_kept(Entry {
                pid,
                who,
                op,
                ins,
                outcome,
            });
            Tried::Done(place)
        }
        Ok(None) => {
            journal.free_one();
            Tried::NotReady(op, ins)
        }
        Err(NoMemory) => {
            journal.free_one();
            Tried::NoMemory(op, ins)
        }
    }
}

impl Kernel {
    /// A kernel without processes, with the root directory and an empty journal, for which no room is kept.
    pub fn fresh(alloc: Global) -> Result<Kernel, NoMemory>
        ensures { IfOk result (λ kernel. kernel ≡ record { items = []; spare = 0 }) }
    {
        Ok(Kernel {
            alloc,
            journal: Kept::none(alloc),
            parts: Parts::fresh(alloc)?,
        })
    }

    /// The allocator that it takes memory from, the only one.
    pub fn alloc(&self) -> Global
        ensures { (other : Global) → result ≡ other }
    {
        self.alloc
    }

    /// All that was performed, in order; an entry's index is its place.
    pub fn journal(&self) -> &[Entry]
        ensures journal { result.now ≡ self.now.items }
        ensures legal { IsLegal self.now.items }
    {
        self.journal.slice()
    }

    /// For how many entries to come room is kept.
    pub fn spare(&self) -> usize
        ensures { result ≡ self.now.spare }
    {
        self.journal.spare()
    }

    /// Keeps room for at least so many entries. An error leaves all as it was.
    pub fn reserve(&mut self, count: u32) -> Result<(), NoMemory>
        ensures ok { OnOk result (self.new ≡ record self.old { spare = max self.old.spare count }) }
        ensures err { OnErr result (self.new ≡ self.old) }
    {
        self.journal.reserve(count as usize)
    }

    /// Whether the process is live.
    pub fn is_live(&self, pid: Pid) -> bool
        ensures { IsTrue result ↔ IsSome (at (state_after self.now.items).processes pid.0) }
    {
        self.parts.is_live(pid)
    }

    /// Whether every number of a process is used.
    pub fn is_full(&self) -> bool
        ensures { IsTrue result
            ↔ (lowest_unused (state_after self.now.items).processes FIRST_PROCESS ≡ None) }
    {
        self.parts.is_full()
    }

    /// How many processes are live.
    pub fn processes(&self) -> u32
        ensures { result ≡ count_by is_some (state_after self.now.items).processes }
    {
        self.parts.processes()
    }

    /// Whether `act` performs an operation now, where memory doesn't end: false exactly where it answers NotReady. Takes no memory.
    pub fn ready(&self, pid: Pid, op: &Op, ins: &Ins) -> bool
        ensures { IsTrue result
            ↔ IsSome (act (state_after self.now.items) (process_of op.now pid).0 op.now ins.now) }
    {
        match ins {
            Ins::Fault(_) => true,
            Ins::Given(_) => is_built(op),
        }
    }

    /// Performs an operation as one entry more, at the place that Done tells; an attach has no process, whatever number is given.
    ///
    /// NotReady comes exactly where the definition has the operation wait. Where it wasn't performed, nothing changed, and the
    /// operation is handed back with what was gathered for it. An exec, an exit, a close, an lseek and an fcntl other than F_DUPFD
    /// never want memory where room is kept for an entry, and use that room; any other operation leaves the room that is kept.
    pub fn try_act(&mut self, pid: Pid, who: Who, op: Op, ins: Ins) -> Tried
        requires process { FitsPid (state_after self.old.items) (process_of op pid).0 op }
        requires ins { FitsIns op ins }
        ensures done { (place : Place) → result ≡ Tried.Done place
            → Performs self.old pid who op ins place.0 self.new }
        ensures waits { (o : Op) (i : Ins) → result ≡ Tried.NotReady o i
            → act (state_after self.old.items) (process_of op pid).0 op ins ≡ None }
        ensures back_waiting { (o : Op) (i : Ins) → result ≡ Tried.NotReady o i
            → HandsBack self.old op ins o i self.new }
        ensures back_refused { (o : Op) (i : Ins) → result ≡ Tried.NoMemory o i
            → HandsBack self.old op ins o i self.new }
        ensures steady { (o : Op) (i : Ins) → IsTrue (is_steady op) → 0 < self.old.spare
            → result ≢ Tried.NoMemory o i }
    {
        let pid = process_of(&op, pid);
        if is_provided(&op, self.journal.spare()) {
            return Tried::Done(perform_steady(
                &mut self.journal,
                &mut self.parts,
                pid,
                who,
                op,
                ins,
            ));
        }
        perform(&mut self.journal, &mut self.parts, pid, who, op, ins)
    }

    /// As `try_act`, but an operation that wasn't performed is dropped.
    pub fn act(&mut self, pid: Pid, who: Who, op: Op, ins: Ins) -> Acted
        requires process { FitsPid (state_after self.old.items) (process_of op pid).0 op }
        requires ins { FitsIns op ins }
        ensures done { (place : Place) → result ≡ Acted.Done place
            → Performs self.old pid who op ins place.0 self.new }
        ensures waits { result ≡ Acted.NotReady
            → act (state_after self.old.items) (process_of op pid).0 op ins ≡ None }
        ensures stays_waiting { result ≡ Acted.NotReady → self.new ≡ self.old }
        ensures stays_refused { result ≡ Acted.NoMemory → self.new ≡ self.old }
        ensures steady { IsTrue (is_steady op) → 0 < self.old.spare → result ≢ Acted.NoMemory }
    {
        match self.try_act(pid, who, op, ins) {
            Tried::Done(place) => Acted::Done(place),
            Tried::NotReady(_, _) => Acted::NotReady,
            Tried::NoMemory(_, _) => Acted::NoMemory,
        }
    }
}
