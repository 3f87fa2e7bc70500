ghost use Rattle.std.specs.Prelude.{◌≡◌, ℕ, ◌+◌, ◌-◌, ◌<◌, ◌^◌, [], ◌∷◌, ◌++◌, length, max, slice_set, option_copied, OnOk, OnErr, IsSome, None, Some};
ghost use Rattle.sp_base.specs.Table.{at};

use sp_base::NoMemory;
use std::alloc::Global;
use std::collections::HashMap;
use std::marker::Model;

/// Values by their numbers, 0, 1 and so on in the order in which they came. A number never comes
/// again. What was removed takes no memory.
#[derive(Drop)]
pub(crate) struct Ledger<T> {
    entries: HashMap<u64, T>,
    next: u64,
    room: u64,
}

impl<T> Model for Ledger<T> {
    ghost use Rattle.kern_local.specs.Listed.{Listed, listed_code};

    ghost Value = { Listed T };

    ghost coded = { listed_code T.code };

    ghost use Rattle.kern_local.specs.Listed.{listed, IsListed};

    ghost view = { λ l. record { items = listed l.entries l.next; room = l.room } };

    ghost invariant = { λ l. IsListed l.entries l.next l.room };
}

impl<T> Ledger<T> {
    ghost use Rattle.std.specs.Borrow.{sem};
    ghost use Rattle.kern_local.specs.LedgerLends.{lends_value};

    /// No value; takes no memory.
    pub(crate) fn new(alloc: Global) -> Self
        ensures { result ≡ record { items = []; room = 0 } }
    {
        Ledger {
            entries: HashMap::new(alloc),
            next: 0,
            room: 0,
        }
    }

    /// The value of a number; None where it was removed, or never came.
    pub(crate) fn get(&self, number: u64) -> Option<&T>
        ensures { option_copied result ≡ at self.now.items number }
    {
        self.entries.get(&number)
    }

    /// Keeps room for so many more values, which `add` then takes without more memory. An error leaves
    /// all as it was: want of memory, or of numbers, which end at 2^64 - 1.
    pub(crate) fn reserve(&mut self, more: u64) -> Result<(), NoMemory>
        ensures ok { OnOk result (self.new ≡ record self.old { room = max self.old.room more }) }
        ensures err { OnErr result (self.new ≡ self.old) }
        ensures fits { length self.new.items + self.new.room < 2 ^ 64 }
    {
        if more <= self.room {
            return Ok(());
        }
        if self.next > u64::MAX - more {
            return Err(NoMemory);
        }
        if self.entries.reserve(more as usize).is_err() {
            return Err(NoMemory);
        }
        self.room = more;
        Ok(())
    }

    /// Keeps a value, in the room that was reserved, and gives its number.
    pub(crate) fn add(&mut self, value: T) -> u64
    where
        T: Drop,
        requires { 0 < self.old.room }
        ensures number { result ≡ length self.old.items }
        ensures added { self.new ≡ record {
          items = self.old.items ++ Some value ∷ [];
          room = self.old.room - 1;
        } }
    {
        let number = self.next;
        match self.entries.insert(number, value) {
            Ok(_) => {}
            Err(_) => unreachable!(),
        }
        self.next = number + 1;
        self.room -= 1;
        number
    }

    /// The value of a number, for writing.
    pub(crate) fn value_mut(&mut self, number: u64) -> &mut T
        requires { IsSome (at self.old.items number) }
        ensures* writes_back { sem 𝓛 (lends_value T.row self.entry number result) }
        ensures value { at self.old.items number ≡ Some result.now }
    {
        match self.entries.get_mut(&number) {
            Some(value) => value,
            None => unreachable!(),
        }
    }

    /// Takes the value of a number away; None where there is none. The number stays used.
    pub(crate) fn take(&mut self, number: u64) -> Option<T>
        ensures value { result ≡ at self.old.items number }
        ensures taken { self.new ≡ record self.old {
          items = slice_set self.old.items number None;
        } }
    {
        self.entries.remove(&number)
    }
}
