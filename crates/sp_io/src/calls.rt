//! The calls of an object of the outside: how many failed, and in memory which are to fail.
ghost use Rattle.std.specs.Prelude.{◌≡◌, ◌≤◌, ◌↔◌, ℕ, Contains, IfOk, IsTrue};
ghost use Rattle.sp_io.specs.Causes.{raised, with_fault_of};

use sp_base::NoMemory;
use std::alloc::Global;
use std::marker::Model;

/// How many calls of an object failed. At 2^64 - 1 the count stays.
#[derive(Drop)]
pub struct Faults {
    count: u64,
}

impl Model for Faults {
    ghost Value = { ℕ };

    ghost view = { λ f. f.count };
}

impl Faults {
    /// No call failed yet.
    pub fn none() -> Faults
        ensures { result ≡ 0 }
    {
        Faults { count: 0 }
    }

    /// How many there are.
    pub fn count(&self) -> u64
        ensures { result ≡ self.now }
    {
        self.count
    }

    /// Counts one more.
    pub fn raise(&mut self)
        ensures value { self.new ≡ raised self.old }
        ensures later { self.old ≤ self.new }
    {
        self.count = self.count.saturating_add(1);
    }

    /// Counts one more where another object had any.
    pub fn raise_for(&mut self, other: &Faults)
        ensures { self.new ≡ with_fault_of other.now self.old }
    {
        if other.count > 0 {
            self.raise();
        }
    }
}

/// The calls of an object in memory, counted from 0, and which of them are to fail.
#[derive(Drop)]
pub struct Calls {
    pub fails: Vec<u64>,
    pub made: u64,
}

impl Calls {
    /// No call was made yet, and those of these numbers are to fail.
    pub fn of(alloc: Global, fails: &[u64]) -> Result<Calls, NoMemory>
        ensures fails { IfOk result (λ c. c.fails.items ≡ fails.now) }
        ensures made { IfOk result (λ c. c.made ≡ 0) }
    {
        Ok(Calls {
            fails: Vec::from_slice(alloc, fails)?,
            made: 0,
        })
    }

    /// Whether the call that is made now is to fail.
    pub fn next_fails(&mut self) -> bool
        ensures fails { IsTrue result ↔ Contains self.old.fails.items self.old.made }
        ensures same { self.new.fails.items ≡ self.old.fails.items }
        ensures made { self.new.made ≡ raised self.old.made }
    {
        let call = self.made;
        self.made = call.saturating_add(1);
        self.fails.contains(&call)
    }
}
