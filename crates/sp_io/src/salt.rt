//! Where random numbers come from.
ghost use Rattle.std.specs.Prelude.{◌≡◌, ◌⊎◌, ◌∷◌, ◌++◌, ◌+◌, ◌-◌, ◌%◌, ◌^◌, ◌↔◌, [], List, ℕ, Option, None, Some, Contains, IsErr, IfOk, MatchResult};
ghost use Rattle.std.specs.Io.KnownBytes.{Keeps, Appends};
ghost use Rattle.std.specs.Option.{option_map};
ghost use Rattle.sp_io.specs.Causes.{HasCause, raised, with_fault_of};

use crate::calls::{Calls, Faults};
use crate::fault::Failed;
use sp_base::NoMemory;
use std::alloc::Global;
use std::marker::Model;
use std::random::RandomSource;

/// Where the random numbers in cookies come from.
///
/// A salt in memory tells what was drawn of it; one over the system tells none.
pub trait Salt: Sized {
    /// How often a call failed. It never falls; at 2^64 - 1 it stays.
    ghost faults: { Self → ℕ };

    /// The numbers that `next` answered so far, in order, where it tells them.
    ghost drawn: { Self → Option (List ℕ) };

    /// Another salt of the same kind, for a connection of its own: no call of it failed, nothing
    /// was drawn of it, and it tells what is drawn exactly where this one does.
    fn another(&self, alloc: Global) -> Result<Self, NoMemory>
        ensures faults { IfOk result (λ other. faults other ≡ 0) }
        ensures drawn { IfOk result (λ other. drawn other ≡ option_map (λ _. []) (drawn self.now)) };

    /// Takes back one that `another` gave: where a call of that one failed, this counts as one fault
    /// here.
    fn back(&mut self, other: Self)
        ensures faults { faults self.new ≡ with_fault_of (faults other) (faults self.old) }
        ensures drawn { drawn self.new ≡ drawn self.old };

    /// The next number.
    ///
    /// Failed comes only where the count of faults rose, and draws nothing.
    fn next(&mut self) -> Result<u64, Failed>
        ensures drawn { MatchResult result
            (λ number. Appends (drawn self.old) (drawn self.new) (number ∷ []))
            (λ _. Keeps (drawn self.old) (drawn self.new)) }
        ensures cause { HasCause (faults self.old) (faults self.new) result };
}

/// A salt that counts up from a first number, some of whose calls fail. It tells its numbers.
///
/// Past 2^64 - 1 the numbers go on at 0. Once it gave 2^64 - 1 numbers, every call fails. Contracts
/// see it as its first number and how many it gave, with its calls.
#[derive(Drop)]
pub struct MemSalt {
    first: u64,
    given: u64,
    calls: Calls,
    faults: Faults,
}

impl Model for MemSalt {
    ghost use Rattle.sp_io.specs.Memory.{SaltState};

    ghost Value = { SaltState };

    ghost view = { λ s. record { first = s.first; given = s.given; fails = s.calls.fails.items; calls = s.calls.made; faults = s.faults } };
}

impl MemSalt {
    ghost use Rattle.sp_io.specs.Memory.{fresh_salt};

    /// A salt that counts up from this number. The calls of `next` whose numbers, from 0, are in
    /// `fails` answer Failed.
    pub fn of(alloc: Global, first: u64, fails: &[u64]) -> Result<MemSalt, NoMemory>
        ensures { IfOk result (λ salt. salt ≡ fresh_salt first fails.now) }
    {
        Ok(MemSalt {
            first,
            given: 0,
            calls: Calls::of(alloc, fails)?,
            faults: Faults::none(),
        })
    }
}

impl Salt for MemSalt {
    ghost use Rattle.sp_io.specs.Memory.{fresh_salt, drawn_of};

    ghost faults = { λ s. s.faults };

    ghost drawn = { λ s. Some (drawn_of s) };

    /// A salt that counts up from the same number, and whose same calls are to fail.
    fn another(&self, alloc: Global) -> Result<MemSalt, NoMemory>
        ensures { IfOk result (λ other. other ≡ fresh_salt self.now.first self.now.fails) }
    {
        MemSalt::of(alloc, self.first, &self.calls.fails)
    }

    fn back(&mut self, other: MemSalt)
        ensures { self.new ≡ record self.old { faults = with_fault_of other.faults self.old.faults } }
    {
        self.faults.raise_for(&other.faults);
    }

    /// The next number. The calls that are told to fail do, and no others before 2^64 - 1 numbers
    /// were given.
    fn next(&mut self) -> Result<u64, Failed>
        // which calls fail, and what the others give
        ensures fails { IsErr result
            ↔ (Contains self.old.fails self.old.calls ⊎ (self.old.given ≡ 2 ^ 64 - 1)) }
        ensures number { IfOk result (λ number. number ≡ (self.old.first + self.old.given) % 2 ^ 64) }
        ensures drawn { MatchResult result
            (λ number. drawn_of self.new ≡ drawn_of self.old ++ number ∷ [])
            (λ _. drawn_of self.new ≡ drawn_of self.old) }
        ensures given { MatchResult result (λ _. self.new.given ≡ self.old.given + 1)
            (λ _. self.new.given ≡ self.old.given) }

        // what stays, and how its calls are counted
        ensures first { self.new.first ≡ self.old.first }
        ensures calls { self.new.calls ≡ raised self.old.calls }
        ensures told { self.new.fails ≡ self.old.fails }
        ensures faults { MatchResult result (λ _. self.new.faults ≡ self.old.faults)
            (λ _. self.new.faults ≡ raised self.old.faults) }
        ensures cause { HasCause self.old.faults self.new.faults result }
    {
        if self.calls.next_fails() || self.given == u64::MAX {
            self.faults.raise();
            return Err(Failed);
        }
        let number = self.first.wrapping_add(self.given);
        self.given += 1;
        Ok(number)
    }
}

/// A salt over the system's random source, eight bytes of it a number. It tells no numbers.
#[derive(Drop)]
pub struct RandomSalt<R> {
    rt: R,
    faults: Faults,
}

impl<R: RandomSource + Copy> RandomSalt<R> {
    /// A salt that draws from this source, as `HostRuntime` is one.
    pub fn over(rt: R) -> RandomSalt<R>
        ensures faults { ⟦<RandomSalt<R> as Salt>⟧.faults result ≡ 0 }
        ensures drawn { ⟦<RandomSalt<R> as Salt>⟧.drawn result ≡ None }
    {
        RandomSalt {
            rt,
            faults: Faults::none(),
        }
    }
}

impl<R: RandomSource + Copy> Salt for RandomSalt<R> {
    ghost faults = { λ s. s.faults };

    ghost drawn = { λ _. None };

    fn another(&self, _alloc: Global) -> Result<RandomSalt<R>, NoMemory> {
        Ok(RandomSalt::over(self.rt))
    }

    fn back(&mut self, other: RandomSalt<R>) {
        self.faults.raise_for(&other.faults);
    }

    fn next(&mut self) -> Result<u64, Failed> {
        let mut bytes = [0u8; 8];
        if self.rt.fill_bytes(&mut bytes).is_err() {
            self.faults.raise();
            return Err(Failed);
        }
        Ok(u64::from_le_bytes(bytes))
    }
}
