ghost use Rattle.std.specs.Prelude.{◌≡◌, ◌≤◌, ◌+◌, [], ◌∷◌, ◌++◌, length, IsTrue, ◌↔◌, OnOk, OnErr, MatchOption};

use crate::memory::NoMemory;
use std::alloc::Global;
use std::collections::VecDeque;
use std::marker::Model;

/// A queue, from which the oldest item is taken first, with room kept for items to come.
///
/// Who must not fail later keeps the room while failing does no harm, and puts the item into it when the time comes.
#[derive(Drop)]
pub struct KeptQueue<T> {
    items: VecDeque<T>,
    spare: usize,
}

impl<T> Model for KeptQueue<T> {
    ghost use Rattle.std.specs.Prelude.{◌≤◌, ◌+◌};
    ghost use Rattle.std.specs.VecDeque.{deque_len, deque_capacity};
    ghost use Rattle.sp_base.specs.Kept.{Room, room_code};

    ghost Value = { Room T };

    ghost coded = { room_code T.code };

    ghost view = { λ k. record { items = k.items.items; spare = k.spare } };

    ghost invariant = { λ k. deque_len k.items + k.spare ≤ deque_capacity k.items };
}

impl<T> KeptQueue<T> {
    /// The empty queue, with no room; takes no memory.
    pub fn none(alloc: Global) -> KeptQueue<T>
        ensures { result ≡ record { items = []; spare = 0 } }
    {
        KeptQueue {
            items: VecDeque::new(alloc),
            spare: 0,
        }
    }

    /// How many items there are.
    pub fn len(&self) -> usize
        ensures { result ≡ length self.now.items }
    {
        self.items.len()
    }

    /// Whether there is no item.
    pub fn is_empty(&self) -> bool
        ensures { IsTrue result ↔ (self.now.items ≡ []) }
    {
        self.items.is_empty()
    }

    /// For how many items to come room is kept.
    pub fn spare(&self) -> usize
        ensures { result ≡ self.now.spare }
    {
        self.spare
    }
}

impl<T: Drop> KeptQueue<T> {
    /// Keeps room for so many items more. An error leaves all as it was.
    pub fn keep(&mut self, more: usize) -> Result<(), NoMemory>
        ensures ok { OnOk result (self.new ≡ record self.old { spare = self.old.spare + more }) }
        ensures err { OnErr result (self.new ≡ self.old) }
    {
        let Some(count) = self.spare.checked_add(more) else {
            return Err(NoMemory);
        };
        if self.items.reserve(count).is_err() {
            return Err(NoMemory);
        }
        self.spare = count;
        Ok(())
    }

    /// Puts an item behind the others into room that was kept, which can't fail.
    pub fn put_kept(&mut self, item: T)
        requires { 1 ≤ self.old.spare }
        ensures items { self.new.items ≡ self.old.items ++ item ∷ [] }
        ensures spare { self.new.spare + 1 ≡ self.old.spare }
    {
        self.spare -= 1;
        self.items.push_back_reserved(item);
    }

    /// Gives up the room for so many items.
    pub fn free(&mut self, count: usize)
        requires { count ≤ self.old.spare }
        ensures items { self.new.items ≡ self.old.items }
        ensures spare { self.new.spare + count ≡ self.old.spare }
    {
        self.spare -= count;
    }

    /// Takes the oldest item away; None where there is none. The room that is kept stays.
    pub fn take(&mut self) -> Option<T>
        ensures items { MatchOption result ((self.old.items ≡ []) × (self.new.items ≡ []))
            (λ first. self.old.items ≡ first ∷ self.new.items) }
        ensures spare { self.new.spare ≡ self.old.spare }
    {
        self.items.pop_front()
    }

    /// Drops every item. The room that is kept stays.
    pub fn clear(&mut self)
        ensures { self.new ≡ record self.old { items = [] } }
    {
        self.items.clear();
    }
}
