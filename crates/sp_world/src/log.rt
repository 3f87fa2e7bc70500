// The log of what happened in a world.
ghost use Rattle.std.specs.Prelude.{◌≡◌, ◌+◌, ◌<◌, ◌^◌, ◌++◌, ◌∷◌, [], length, IfOk, OnOk, if◌then◌else◌};

use crate::copies::copy_of_event;
use sp_base::{Kept, NoMemory};
use std::alloc::Global;
use world_model::Event;

/// The events that happened, the oldest first, and the indexes of those that were refused for want
/// of memory, rising.
#[derive(Drop)]
pub(crate) struct Log {
    alloc: Global,
    pub(crate) events: Kept<Event>,
    pub(crate) refused: Kept<u64>,
}

impl Log {
    /// The log where nothing happened yet; takes no memory.
    pub(crate) fn none(alloc: Global) -> Log
        ensures events { result.events.items ≡ [] }
        ensures refused { result.refused.items ≡ [] }
    {
        Log {
            alloc,
            events: Kept::none(alloc),
            refused: Kept::none(alloc),
        }
    }

    /// A copy of an event, with room for it and for its index. The only error is want of memory.
    pub(crate) fn keep_room(&mut self, event: &Event) -> Result<Event, NoMemory>
        ensures events { self.new.events.items ≡ self.old.events.items }
        ensures refused { self.new.refused.items ≡ self.old.refused.items }
        ensures copy { IfOk result (λ copy. copy ≡ event.now) }
        ensures room { OnOk result (0 < self.new.events.spare) }
        ensures index_room { OnOk result (0 < self.new.refused.spare) }
        ensures fits { OnOk result (length self.new.events.items + 1 < 2 ^ 64) }
    {
        if self.events.len() == usize::MAX {
            return Err(NoMemory);
        }
        self.events.reserve(1)?;
        self.refused.reserve(1)?;
        copy_of_event(self.alloc, event)
    }

    /// Puts an event behind the others, and its index behind the others where it was refused, into
    /// room that was kept, which can't fail.
    pub(crate) fn note(&mut self, event: Event, is_refused: bool)
        requires room { 0 < self.old.events.spare }
        requires index_room { 0 < self.old.refused.spare }
        ensures events { self.new.events.items ≡ self.old.events.items ++ event ∷ [] }
        ensures refused { self.new.refused.items ≡ self.old.refused.items
            ++ (if is_refused then length self.old.events.items ∷ [] else []) }
    {
        if is_refused {
            self.refused.put_kept(self.events.len() as u64);
        }
        self.events.put_kept(event);
    }
}
