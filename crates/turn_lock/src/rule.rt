//! The rule that the lock's table keeps, and what each kind of step tells.
ghost use Rattle.std.specs.Prelude.{◌≡◌};
ghost use Rattle.turn_lock.specs.Passes.{beginner, counted, child, joining};
ghost use Rattle.turn_lock.specs.Rule.{Kept, Tried, Committed, Freed, idle, spent};

use crate::view::{Slot, View};
use atomic_table::{Join, Play, Split, TableRule};
use sp_base::Object;
use std::marker::PhantomData;
use std::snapshot::Snapshot;

/// What holds between any two steps, of a lock that was made with this object.
pub struct LockRule<O> {
    of: PhantomData<O>,
}

impl<O: Object> TableRule<Slot<O, O::Event, O::Reply>, View<O, O::Event, O::Reply>, Snapshot<O>>
    for LockRule<O> {
    ghost holds = { λ opening. Kept O.step opening.value };

    ghost first = { λ opening. idle (beginner opening.value) };
}

/// Tries the lock, and takes the slot where it wins.
pub struct Try;

impl<O: Object> Play<Slot<O, O::Event, O::Reply>, View<O, O::Event, O::Reply>> for Try {
    ghost then = { Tried O.step };
}

/// Counts the call whose object lies in the slot. At this step the history grows.
pub struct Commit;

impl<O, E, R> Play<Slot<O, E, R>, View<O, E, R>> for Commit {
    ghost then = { Committed };
}

/// Frees the lock, and gives the slot back.
pub struct Free;

impl<O, E, R> Play<Slot<O, E, R>, View<O, E, R>> for Free {
    ghost then = { Freed };
}

/// Splits a pass off another.
pub struct SplitOff;

impl<O, E, R> Split<View<O, E, R>> for SplitOff {
    ghost left = { λ v. idle (counted v.known) };

    ghost right = { λ v. idle (child v.known) };
}

/// Joins a pass into another.
pub struct JoinInto;

impl<O, E, R> Join<View<O, E, R>> for JoinInto {
    ghost both = { λ v w. idle (joining v.known w.known) };

    ghost spent = { spent };
}
