ghost use Rattle.std.specs.Prelude.{◌≡◌, ℕ, Some, IsSome, IsTrue, ◌↔◌, OnOk, OnErr};
ghost use Rattle.std.specs.Map.Iter.{ShowsInOrder, deref};
ghost use Rattle.std.specs.Option.{option_copied};
ghost use Rattle.std.specs.Ordering.{nat_cmp};
ghost use Rattle.std.specs.FinMap as map;

use sp_base::NoMemory;
use std::alloc::Global;
use std::collections::BTreeMap;
use std::collections::btree_map::{Keys, Values};
use std::marker::Model;
use std::mem;

/// A finite map from numbers. It keeps the allocator that it was made with.
#[derive(Drop)]
pub struct Table<V> {
    items: BTreeMap<u64, V>,
}

impl<V> Model for Table<V> {
    ghost use Rattle.std.specs.Ordering.{nat_cmp};
    ghost use Rattle.std.specs.FinMap as map;
    ghost use Rattle.std.specs.Coded.{coded_ℕ};

    ghost Value = { map.FinMap nat_cmp V };

    ghost coded = { map.code coded_ℕ V.code };

    ghost view = { λ t. map.from_entries t.items.entries };
}

impl<V> Table<V> {
    /// The empty map; takes no memory.
    pub fn new(alloc: Global) -> Table<V>
        ensures { result ≡ map.empty }
    {
        Table {
            items: BTreeMap::new(alloc),
        }
    }

    /// How many keys there are.
    pub fn len(&self) -> usize
        ensures { result ≡ map.len self.now }
    {
        self.items.len()
    }

    /// The value of a key; None where the key isn't there.
    pub fn get(&self, key: u64) -> Option<&V>
        ensures { option_copied result ≡ map.get self.now key }
    {
        self.items.get(&key)
    }

    /// The keys, in rising order.
    pub fn keys(&self) -> Keys<'_, u64, V>
        ensures keys { result ≡ map.keys self.now }
        ensures runs { ShowsInOrder (deref {X = ℕ}) }
    {
        self.items.keys()
    }

    /// The values, in the order of their keys.
    pub fn values(&self) -> Values<'_, u64, V>
        ensures values { result ≡ map.values self.now }
        ensures runs { ShowsInOrder (deref {X = V}) }
    {
        self.items.values()
    }

    /// Exchanges the value of a key that is there; takes no memory.
    pub fn swap(&mut self, key: u64, value: &mut V)
        requires { IsSome (map.get self.old key) }
        ensures table { self.new ≡ map.insert self.old key value.old }
        ensures value { Some value.new ≡ map.get self.old key }
        ensures there { IsSome (map.get self.new key) }
        ensures back { (w : V) → map.get self.old key ≡ Some w → map.insert self.new key w ≡ self.old }
        ensures again { (w : V) → map.insert self.new key w ≡ map.insert self.old key w }
    {
        match self.items.get_mut(&key) {
            Some(place) => mem::swap(place, value),
            None => unreachable!(),
        }
    }
}

impl<V: Drop> Table<V> {
    /// Gives a key a value, in place of the one that it had. An error leaves all as it was.
    pub fn insert(&mut self, key: u64, value: V) -> Result<(), NoMemory>
        ensures ok { OnOk result (self.new ≡ map.insert self.old key value) }
        ensures err { OnErr result (self.new ≡ self.old) }
        ensures there { OnOk result (map.get self.new key ≡ Some value) }
        ensures again { OnOk result ((w : V) → map.insert self.new key w ≡ map.insert self.old key w) }
    {
        self.items.insert(key, value)?;
        Ok(())
    }

    /// Takes a key and its value away; None where the key isn't there.
    pub fn remove(&mut self, key: u64) -> Option<V>
        ensures value { result ≡ map.get self.old key }
        ensures table { self.new ≡ map.remove self.old key }
    {
        self.items.remove(&key)
    }
}
