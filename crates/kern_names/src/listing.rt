ghost use Rattle.std.specs.Prelude.{◌≡◌, ◌↔◌, List, ℕ, None, IsSome, IsTrue, OnOk, OnErr};
ghost use Rattle.std.specs.FinMap.{get, insert, remove, empty};

use sp_base::NoMemory;
use std::alloc::Global;
use std::collections::BTreeMap;
use std::marker::Model;

/// The names that stand in one directory, each with its node.
#[derive(Drop)]
pub struct Listing {
    entries: BTreeMap<Vec<u8>, u64>,
}

impl Model for Listing {
    ghost use Rattle.kern_names.specs.Listing.{Listed, listed, listed_code};

    ghost Value = { Listed };

    ghost coded = { listed_code };

    ghost view = { λ l. listed (λ name. name.items) l.entries.entries };
}

impl Listing {
    /// No names; takes no memory.
    pub fn none(alloc: Global) -> Listing
        ensures { result ≡ empty }
    {
        Listing {
            entries: BTreeMap::new(alloc),
        }
    }

    /// The node of a name.
    pub fn get(&self, name: &[u8]) -> Option<u64>
        ensures { result ≡ get self.now name.now }
    {
        self.entries.get(name).copied()
    }

    /// Whether there is no name.
    pub fn is_empty(&self) -> bool
        ensures { IsTrue result ↔ ((name : List ℕ) → get self.now name ≡ None) }
    {
        self.entries.is_empty()
    }

    /// Gives a name a node, also one that has another. Want of memory leaves the names as they were.
    pub fn insert(&mut self, name: Vec<u8>, node: u64) -> Result<(), NoMemory>
        ensures ok { OnOk result (self.new ≡ insert self.old name.items node) }
        ensures err { OnErr result (self.new ≡ self.old) }
    {
        self.entries.insert(name, node)?;
        Ok(())
    }

    /// Gives a name that is there another node. Takes no memory.
    pub fn replace(&mut self, name: &[u8], node: u64)
        requires { IsSome (get self.old name.now) }
        ensures { self.new ≡ insert self.old name.now node }
    {
        match self.entries.get_mut(name) {
            Some(place) => *place = node,
            None => unreachable!(),
        }
    }

    /// Takes a name away, if it is there.
    pub fn remove(&mut self, name: &[u8])
        ensures { self.new ≡ remove self.old name.now }
    {
        self.entries.remove(name);
    }
}
