ghost use Rattle.std.specs.Prelude.{◌≡◌, ◌≤◌, ◌<◌, ◌+◌, ◌-◌, [], ◌∷◌, ◌++◌, length, max, OnOk, OnErr, MatchOption};

use crate::memory::NoMemory;
use std::alloc::Global;
use std::marker::Model;

/// A list that only grows, with room kept for items to come.
///
/// Who must not fail later keeps the room while failing does no harm, and puts the item into it when the time comes.
#[derive(Drop)]
pub struct Kept<T> {
    items: Vec<T>,
    spare: usize,
}

impl<T> Model for Kept<T> {
    ghost use Rattle.std.specs.Prelude.{◌≤◌, ◌+◌, vec_len, vec_capacity};
    ghost use Rattle.sp_base.specs.Kept.{Room, room_code};

    ghost Value = { Room T };

    ghost coded = { room_code T.code };

    ghost view = { λ k. record { items = k.items.items; spare = k.spare } };

    ghost invariant = { λ k. vec_len k.items + k.spare ≤ vec_capacity k.items };
}

impl<T> Kept<T> {
    /// The empty list, with no room; takes no memory.
    pub fn none(alloc: Global) -> Kept<T>
        ensures { result ≡ record { items = []; spare = 0 } }
    {
        Kept {
            items: Vec::new(alloc),
            spare: 0,
        }
    }

    /// The items, in order.
    pub fn slice(&self) -> &[T]
        ensures { result.now ≡ self.now.items }
    {
        self.items.as_slice()
    }

    /// How many items there are.
    pub fn len(&self) -> usize
        ensures { result ≡ length self.now.items }
    {
        self.items.len()
    }

    /// For how many items to come room is kept.
    pub fn spare(&self) -> usize
        ensures { result ≡ self.now.spare }
    {
        self.spare
    }
}

impl<T: Drop> Kept<T> {
    /// Keeps room for at least so many items. An error leaves all as it was.
    pub fn reserve(&mut self, count: usize) -> Result<(), NoMemory>
        ensures ok { OnOk result (self.new ≡ record self.old { spare = max self.old.spare count }) }
        ensures err { OnErr result (self.new ≡ self.old) }
    {
        if count <= self.spare {
            return Ok(());
        }
        if self.items.reserve(count).is_err() {
            return Err(NoMemory);
        }
        self.spare = count;
        Ok(())
    }

    /// Keeps room for one item more. An error leaves all as it was.
    pub fn keep_one(&mut self) -> Result<(), NoMemory>
        ensures ok { OnOk result (self.new ≡ record self.old { spare = self.old.spare + 1 }) }
        ensures err { OnErr result (self.new ≡ self.old) }
    {
        let Some(count) = self.spare.checked_add(1) else {
            return Err(NoMemory);
        };
        self.reserve(count)
    }

    /// Puts an item behind the others into room that was kept, which can't fail.
    pub fn put_kept(&mut self, item: T)
        requires { 0 < self.old.spare }
        ensures items { self.new.items ≡ self.old.items ++ item ∷ [] }
        ensures spare { self.new.spare + 1 ≡ self.old.spare }
    {
        self.spare -= 1;
        self.items.push_reserved(item);
    }

    /// Gives up the room for one item.
    pub fn free_one(&mut self)
        requires { 0 < self.old.spare }
        ensures items { self.new.items ≡ self.old.items }
        ensures spare { self.new.spare + 1 ≡ self.old.spare }
    {
        self.spare -= 1;
    }
}
