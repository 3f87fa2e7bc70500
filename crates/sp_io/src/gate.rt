//! Gates, which threads ask before they try again what they found not ready.
ghost use Rattle.std.specs.Prelude.{◌≡◌, ◌-◌, ℕ, nat_lt, IfOk};
ghost use Rattle.sp_io.specs.Causes.{with_fault_of};
ghost use Rattle.sp_io.specs.Gates.{HasAnswerCause, GateState, fresh_gate, asked, noted, ended, is_unasked, is_met};

use crate::calls::Faults;
use sp_base::NoMemory;
use std::alloc::Global;
use std::marker::Model;
use std::sync::{Arc, Condvar, Mutex, Wait};
use std::thread;

/// What a thread asks before it tries again, and notes what it changed at.
///
/// Each thread has a gate of its own.
pub trait Gate: Sized {
    /// How often it answered no. It never falls; at 2^64 - 1 it stays.
    ghost faults: { Self → ℕ };

    /// Another gate of the same kind, for a thread of its own, which was asked nothing.
    fn another(&self) -> Result<Self, NoMemory>
        ensures { IfOk result (λ other. faults other ≡ 0) };

    /// Takes back one that `another` gave: where that one answered no, this counts as one fault here.
    fn back(&mut self, other: Self)
        ensures { faults self.new ≡ with_fault_of (faults other) (faults self.old) };

    /// Whether to try again. It may wait before it answers, and answers no only where the count of
    /// faults rose.
    fn again<R: Wait>(&mut self, rt: &R) -> bool
        ensures { HasAnswerCause (faults self.old) (faults self.new) result };

    /// Tells the other gates that the thread changed something.
    fn note<R: Wait>(&mut self, rt: &R)
        ensures { faults self.new ≡ faults self.old };
}

/// What gates that park share: how often one of them noted, modulo 2^64.
#[derive(Drop)]
struct Notes {
    count: Mutex<u64>,
    changed: Condvar,
}

/// Sleeps until a gate that shares its notes notes, and never answers no.
///
/// It sleeps only while the count of notes is the one that it last saw.
#[derive(Drop)]
pub struct ParkGate {
    notes: Arc<Notes, Global>,
    seen: u64,
    faults: Faults,
}

impl ParkGate {
    /// The first of the gates that share their notes. It has seen none.
    pub fn new(alloc: Global) -> Result<ParkGate, NoMemory>
        ensures { IfOk result (λ gate. gate.faults ≡ 0) }
    {
        let notes = Notes {
            count: Mutex::new(0),
            changed: Condvar::new(),
        };
        Ok(ParkGate {
            notes: Arc::new(alloc, notes)?,
            seen: 0,
            faults: Faults::none(),
        })
    }
}

impl Gate for ParkGate {
    ghost use Rattle.std.specs.Prelude.{true};

    ghost faults = { λ g. g.faults };

    /// A gate that has seen as many notes as this one.
    fn another(&self) -> Result<ParkGate, NoMemory>
        ensures faults { IfOk result (λ other. other.faults ≡ 0) }
        ensures seen { IfOk result (λ other. other.seen ≡ self.now.seen) }
    {
        Ok(ParkGate {
            notes: Arc::try_clone(&self.notes)?,
            seen: self.seen,
            faults: Faults::none(),
        })
    }

    fn back(&mut self, other: ParkGate) {
        self.faults.raise_for(&other.faults);
    }

    fn again<R: Wait>(&mut self, rt: &R) -> bool
        ensures yes { result ≡ true }
        ensures faults { self.new.faults ≡ self.old.faults }
    {
        let seen = self.seen;
        let notes = &self.notes;
        let count = notes
            .changed
            .wait_while(rt, notes.count.lock(rt), |count| *count == seen);
        let now = *count;
        drop(count);
        self.seen = now;
        true
    }

    fn note<R: Wait>(&mut self, rt: &R) {
        let mut count = self.notes.count.lock(rt);
        *count = count.wrapping_add(1);
        drop(count);
        self.notes.changed.notify_all();
    }
}

/// Answers no once it was asked so many questions of its own. Contracts see it as how many those are
/// and how many are left, with its faults.
#[derive(Drop)]
pub struct CountGate {
    most: u64,
    left: u64,
    faults: Faults,
}

impl Model for CountGate {
    ghost use Rattle.sp_io.specs.Gates.{GateState};

    ghost Value = { GateState };

    ghost view = { λ g. record { most = g.most; left = g.left; faults = g.faults } };
}

impl CountGate {
    /// A gate that answers so many questions by yes.
    pub fn new(most: u64) -> CountGate
        ensures { result ≡ fresh_gate most }
    {
        CountGate {
            most,
            left: most,
            faults: Faults::none(),
        }
    }
}

impl Gate for CountGate {
    ghost faults = { λ g. g.faults };

    fn another(&self) -> Result<CountGate, NoMemory>
        ensures { IfOk result (λ other. other ≡ fresh_gate self.now.most) }
    {
        Ok(CountGate::new(self.most))
    }

    fn back(&mut self, other: CountGate)
        ensures { self.new ≡ record self.old { faults = with_fault_of other.faults self.old.faults } }
    {
        self.faults.raise_for(&other.faults);
    }

    fn again<R: Wait>(&mut self, _rt: &R) -> bool
        ensures answer { result ≡ nat_lt 0 self.old.left }
        ensures left { self.new.left ≡ self.old.left - 1 }
        ensures most { self.new.most ≡ self.old.most }
        ensures cause { HasAnswerCause self.old.faults self.new.faults result }
    {
        if self.left == 0 {
            self.faults.raise();
            return false;
        }
        self.left -= 1;
        true
    }

    fn note<R: Wait>(&mut self, _rt: &R)
        ensures { self.new ≡ self.old }
    {}
}

/// How the first question fares that any of some gates was asked.
#[derive(Drop)]
enum Meeting {
    /// It was not asked yet.
    Unasked,
    /// It waits for another of the gates.
    Waiting,
    /// Another of the gates was asked or noted while it waited.
    Met,
    /// It waited in vain.
    Missed,
}

impl Meeting {
    /// A gate is asked. Answers whether its question is the first.
    fn ask(&mut self) -> bool
        ensures first { result ≡ is_unasked self.old }
        ensures after { self.new ≡ asked self.old }
    {
        match self {
            Meeting::Unasked => {
                *self = Meeting::Waiting;
                true
            }
            Meeting::Waiting => {
                *self = Meeting::Met;
                false
            }
            Meeting::Met | Meeting::Missed => false,
        }
    }

    /// A gate notes.
    fn note(&mut self)
        ensures { self.new ≡ noted self.old }
    {
        if let Meeting::Waiting = self {
            *self = Meeting::Met;
        }
    }

    /// The first question waits no longer.
    fn end(&mut self)
        ensures { self.new ≡ ended self.old }
    {
        if let Meeting::Waiting = self {
            *self = Meeting::Missed;
        }
    }

    /// Whether another of the gates ended the first question.
    fn is_met(&self) -> bool
        ensures { result ≡ is_met self.now }
    {
        matches!(self, Meeting::Met)
    }
}

/// How many questions a gate that meets answers by yes.
const MEET_QUESTIONS: u64 = 1_000_000;

/// Makes the first question wait for another gate, so that a test sees two threads at work at once.
///
/// It is a `CountGate` of 1,000,000, save for the first question that any of the gates made from one
/// is asked. That one waits until another of them was asked or noted; after so many turns it answers
/// no.
#[derive(Drop)]
pub struct MeetGate {
    meeting: Arc<Mutex<Meeting>, Global>,
    turns: u64,
    count: CountGate,
}

impl MeetGate {
    /// The first of the gates that meet.
    pub fn new(alloc: Global, turns: u64) -> Result<MeetGate, NoMemory>
        ensures { IfOk result (λ gate. gate.count.faults ≡ 0) }
    {
        Ok(MeetGate {
            meeting: Arc::new(alloc, Mutex::new(Meeting::Unasked))?,
            turns,
            count: CountGate::new(MEET_QUESTIONS),
        })
    }

    /// Whether the first question that any of the gates was asked was ended by another of them.
    pub fn met<R: Wait>(&self, rt: &R) -> bool {
        self.meeting.lock(rt).is_met()
    }

    /// Waits for another gate. Answers whether one came.
    fn meets<R: Wait>(&self, rt: &R) -> bool {
        for _ in 0..self.turns {
            if self.met(rt) {
                return true;
            }
            thread::yield_now();
        }
        let mut meeting = self.meeting.lock(rt);
        meeting.end();
        meeting.is_met()
    }
}

impl Gate for MeetGate {
    ghost faults = { λ g. g.count.faults };

    fn another(&self) -> Result<MeetGate, NoMemory> {
        Ok(MeetGate {
            meeting: Arc::try_clone(&self.meeting)?,
            turns: self.turns,
            count: self.count.another()?,
        })
    }

    fn back(&mut self, other: MeetGate) {
        self.count.back(other.count);
    }

    fn again<R: Wait>(&mut self, rt: &R) -> bool {
        if !self.meeting.lock(rt).ask() {
            return self.count.again(rt);
        }
        if self.meets(rt) {
            return true;
        }
        self.count.faults.raise();
        false
    }

    fn note<R: Wait>(&mut self, rt: &R) {
        self.meeting.lock(rt).note();
    }
}
