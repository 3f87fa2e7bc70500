//! Values that are numbered in the order in which they came, and are found by the keys of a slab.
#![tactic(auto)]

ghost use Rattle.std.specs.Prelude.{◌≡◌, ℕ, ◌+◌, ◌^◌, ◌<◌, ◌≤◌, [], length, max, OnOk, IfOk, OnErr, IsSome, Some, None, slice_set, option_copied};
ghost use Rattle.numbered.specs.Book.{Book, IsBook, Adds, number_at, item_at};

use slab::Slab;
use sp_base::NoMemory;
use std::alloc::Global;
use std::marker::Model;

/// A value with its number.
#[derive(Drop)]
struct Item<T> {
    number: u64,
    value: T,
}

/// Values by their numbers, 0, 1 and so on in the order in which they came. A number never comes
/// again. A value is found at once by its key, which comes again once its value was removed.
#[derive(Drop)]
pub struct Numbered<T> {
    slots: Slab<Item<T>>,
    next: u64,
    room: u64,
}

impl<T> Model for Numbered<T> {
    ghost use Rattle.std.specs.Prelude.{map};
    ghost use Rattle.numbered.specs.Book.{Book, book_code};

    ghost Value = { Book T };

    ghost coded = { book_code T.code };

    ghost use Rattle.numbered.specs.Items.{items_of, number_of, IsNumbered};

    ghost view = { λ n. record {
      items = items_of n.slots.slots n.next;
      numbers = map number_of n.slots.slots;
      room = n.room;
    } };

    ghost invariant = { λ n. IsNumbered n.slots n.next n.room };
}

impl<T> Numbered<T> {
    ghost use Rattle.std.specs.Borrow.{sem};
    ghost use Rattle.numbered.specs.Lends.{lends_value};

    /// No value; takes no memory.
    pub fn new(alloc: Global) -> Self
        ensures { result ≡ record { items = []; numbers = []; room = 0 } }
    {
        Numbered {
            slots: Slab::new(alloc),
            next: 0,
            room: 0,
        }
    }

    /// The value under a key.
    pub fn get(&self, key: u64) -> Option<&T>
        ensures value { option_copied result ≡ item_at self.now.items (number_at self.now key) }
        ensures sound { IsBook self.now }
    {
        match self.slots.get(key as usize) {
            Some(item) => Some(&item.value),
            None => None,
        }
    }

    /// The number of what a key holds.
    pub fn number(&self, key: u64) -> Option<u64>
        ensures { result ≡ number_at self.now key }
    {
        match self.slots.get(key as usize) {
            Some(item) => Some(item.number),
            None => None,
        }
    }

    /// Keeps room for so many more values, which `insert_reserved` then takes without more memory. An
    /// error leaves all as it was: want of memory, or of numbers, which end at 2^64 - 1.
    #[tactic(auto, using(crate::proofs::BookLemmas::length_items))]
    pub fn reserve(&mut self, more: u64) -> Result<(), NoMemory>
        ensures ok { OnOk result (self.new ≡ record self.old { room = max self.old.room more }) }
        ensures err { OnErr result (self.new ≡ self.old) }
        ensures fits { length self.new.items + self.new.room < 2 ^ 64 }
    {
        if more <= self.room {
            return Ok(());
        }
        if self.next > u64::MAX - more || self.slots.reserve(more as usize).is_err() {
            return Err(NoMemory);
        }
        self.room = more;
        Ok(())
    }

    /// Keeps a value under the next number, in the room that was reserved, and gives its key.
    pub fn insert_reserved(&mut self, value: T) -> u64
    where
        T: Drop,
        requires { 0 < self.old.room }
        ensures adds { Adds self.old self.new result value }
        ensures room { self.new.room + 1 ≡ self.old.room }
        ensures sound { IsBook self.new }
    {
        let number = self.next;
        let key = self.slots.insert_reserved(Item { number, value });
        self.next = number + 1;
        self.room -= 1;
        key as u64
    }

    /// Keeps a value under the next number, and gives its key. An error leaves all as it was: want
    /// of memory, or of numbers, which end at 2^64 - 1.
    pub fn insert(&mut self, value: T) -> Result<u64, NoMemory>
    where
        T: Drop,
        ensures ok { IfOk result (λ key. Adds self.old self.new key value) }
        ensures room { OnOk result (self.new.room + 1 ≡ max self.old.room 1) }
        ensures sound { OnOk result (IsBook self.new) }
        ensures err { OnErr result (self.new ≡ self.old) }
    {
        if self.reserve(1).is_err() {
            return Err(NoMemory);
        }
        Ok(self.insert_reserved(value))
    }

    /// Puts another value in the place of what a key holds.
    pub fn set(&mut self, key: u64, value: T)
    where
        T: Drop,
        requires { IsSome (number_at self.old key) }
        ensures { (n : ℕ) → number_at self.old key ≡ Some n →
            self.new ≡ record self.old { items = slice_set self.old.items n (Some value) } }
    {
        *self.value_mut(key) = value;
    }

    /// Takes what a key holds away. Its number stays used.
    pub fn remove(&mut self, key: u64) -> T
        requires { IsSome (number_at self.old key) }
        ensures value { Some result ≡ item_at self.old.items (number_at self.old key) }
        ensures after { (n : ℕ) → number_at self.old key ≡ Some n → self.new ≡ record self.old {
          items = slice_set self.old.items n None;
          numbers = slice_set self.old.numbers key None;
        } }
    {
        self.slots.remove(key as usize).value
    }

    /// What a key holds, for writing.
    pub fn value_mut(&mut self, key: u64) -> &mut T
        requires { IsSome (number_at self.old key) }
        ensures* writes_back { sem 𝓛 (lends_value T.row self.entry key result) }
        ensures value { item_at self.old.items (number_at self.old key) ≡ Some result.now }
    {
        &mut self.slots[key as usize].value
    }
}

#[cfg(test)]
mod tests {
    use super::*;
    use std::test::Fail;

    #[test]
    fn numbers_never_come_again(rt: HostRuntime) -> Result<(), Fail> {
        let mut words = Numbered::new(rt.alloc());
        let a = words.insert(b'a')?;
        let b = words.insert(b'b')?;
        assert_eq!(rt; (words.number(a), words.number(b)), (Some(0), Some(1)));
        assert!(rt; words.number(a).is_some());
        assert_eq!(rt; words.remove(a), b'a');
        assert_eq!(rt; words.number(a), None);
        let c = words.insert(b'c')?;
        assert_eq!(rt; (words.number(b), words.number(c)), (Some(1), Some(2)));
        Ok(())
    }

    #[test]
    fn reserved_room_takes_values(rt: HostRuntime) -> Result<(), Fail> {
        let mut words = Numbered::new(rt.alloc());
        words.reserve(2)?;
        let a = words.insert_reserved(b'a');
        let b = words.insert_reserved(b'b');
        assert!(rt; words.number(a).is_some());
        words.set(a, b'A');
        assert_eq!(rt; words.get(a).copied(), Some(b'A'));
        assert_eq!(rt; words.get(b).copied(), Some(b'b'));
        Ok(())
    }
}
