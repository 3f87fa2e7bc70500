//! The lock and its passes.
ghost use Rattle.std.specs.Prelude.{◌≡◌, ◌++◌, ◌∷◌, [], IfOk};
ghost use Rattle.turn_lock.specs.declared.view.Stage.TheVariants.{Idle};
ghost use Rattle.turn_lock.specs.History.{IsLegal, BeginsAndEnds, entry, calls_by};
ghost use Rattle.turn_lock.specs.Passes.{beginner, with_call, counted, child, joining, IsWhole, Closes};
ghost use Rattle.turn_lock.specs.Rule.{Played, Took, Carries, IsOneSlot, Tells, home};

use crate::rule::{Commit, Free, JoinInto, LockRule, SplitOff, Try};
use crate::view::{Slot, View};
use atomic_table::{Seat, Table};
use crossbeam_utils::Backoff;
use sp_base::{NoMemory, Object};
use std::alloc::Global;
use std::marker::Model;
use std::snapshot::Snapshot;
use std::sync::Wait;
use std::sync::atomic::AtomicU64;
use std::sync::atomic::Ordering::SeqCst;

/// The lock word: 0 is free, 1 is taken.
const LOCK: usize = 0;

/// The word that counts the history's entries, modulo 2^64.
const COUNT: usize = 1;

/// What one player has seen of a lock's history, and by what name its calls stand in it.
///
/// It has no bytes. Contracts see it as the lock that it is of, and what it knows.
#[derive(Drop)]
pub struct Pass<O: Object> {
    seat: Seat<Slot<O, O::Event, O::Reply>, View<O, O::Event, O::Reply>>,
}

impl<O: Object> Model for Pass<O> {
    ghost use Rattle.std.specs.Prelude.{◌≡◌, []};
    ghost use Rattle.turn_lock.specs.declared.view.Stage.TheVariants.{Idle};
    ghost use Rattle.turn_lock.specs.Passes.{PassState};

    ghost Value = { PassState O O.Event O.Reply };

    ghost view = { λ p. record { turn = p.seat.table_id; known = p.seat.me.0.known } };

    ghost invariant = { λ p. (p.seat.me.1 ≡ []) × (p.seat.me.0.stage ≡ Idle) };
}

/// A lock round one object, on which many threads play, one call at a time.
///
/// All calls stand in one history, in the order in which they counted, and a pass tells what its
/// holder knows of it. Contracts see the lock as a name of its own, by which its passes are told
/// from those of other locks.
#[derive(Drop)]
pub struct Turn<O: Object> {
    table: Table<
        Slot<O, O::Event, O::Reply>,
        View<O, O::Event, O::Reply>,
        Snapshot<O>,
        LockRule<O>,
        Global,
    >,
    /// How many threads sleep on the lock word or are about to, so that no sleeper is looked for in
    /// vain.
    sleepers: AtomicU64,
}

impl<O: Object> Model for Turn<O> {
    ghost use Rattle.std.specs.Prelude.{◌≡◌};
    ghost use Rattle.atomic_table.specs.Seated.{TableId, table_id_coded};

    ghost Value = { TableId };

    ghost coded = { table_id_coded };

    ghost view = { λ t. t.table.shared.table_id };

    ghost invariant = { λ t. (t.table.shared.table_id.words ≡ 2)
        × (t.table.shared.table_id.slots ≡ 1) };
}

/// The table's one slot, with the object.
fn one_slot<O: Object>(
    alloc: Global,
    object: O,
) -> Result<Vec<Slot<O, O::Event, O::Reply>>, NoMemory>
    ensures { IfOk result (λ slots. slots.items ≡ home object ∷ []) }
{
    let mut slots = Vec::with_capacity(alloc, 1)?;
    slots.push_reserved(Slot {
        object: Some(object),
        event: None,
        reply: None,
    });
    Ok(slots)
}

impl<O: Object> Turn<O> {
    /// A lock round the object, and its first pass, which has seen nothing.
    pub fn new(alloc: Global, object: O) -> Result<(Turn<O>, Pass<O>), NoMemory>
        ensures first { IfOk result
            (λ new. new.1 ≡ record { turn = new.0; known = beginner object }) }
    {
        let opening = Snapshot::of(&object);
        let slots = one_slot(alloc, object)?;
        match Table::new(alloc, &[0, 0], slots, &opening) {
            Ok((table, seat)) => {
                let sleepers = AtomicU64::new(0);
                Ok((Turn { table, sleepers }, Pass { seat }))
            }
            Err(_) => Err(NoMemory),
        }
    }

    /// Waits for its turn, plays the event on the object once, and answers the object's reply.
    ///
    /// The pass is of this lock. It may wait forever, and who waits may be passed by others.
    pub fn play<R: Wait>(&self, rt: &R, pass: &mut Pass<O>, event: O::Event) -> O::Reply
        requires of { pass.old.turn ≡ self.now }
        requires may { O.may_play event }

        // it then has seen a legal history, which begins with all seen before and ends with this call
        ensures legal { IsLegal O.step pass.new.known.opening pass.new.known.seen }
        ensures seen { BeginsAndEnds pass.old.known.seen
            (entry pass.old.known.own.name event result) pass.new.known.seen }

        // its calls are its former ones and this one, each once in that history
        ensures own { pass.new.known.own ≡ with_call pass.old.known.own event result }
        ensures once { calls_by pass.new.known.own.name pass.new.known.seen
            ≡ pass.new.known.own.calls }

        // what stays
        ensures joined { pass.new.known.joined ≡ pass.old.known.joined }
        ensures opening { pass.new.known.opening ≡ pass.old.known.opening }
        ensures of { pass.new.turn ≡ pass.old.turn }
    {
        self.play_at(rt, &mut pass.seat, event)
    }

    /// Splits a pass off, for another player: it has a name of its own, has seen the same history,
    /// and made no call.
    pub fn split(&self, pass: &mut Pass<O>) -> Pass<O>
        requires of { pass.old.turn ≡ self.now }
        ensures child { result ≡ record { turn = pass.old.turn; known = child pass.old.known } }
        ensures parent { pass.new
            ≡ record { turn = pass.old.turn; known = counted pass.old.known } }
    {
        let seat = self.table.shared.split_seat::<SplitOff>(&mut pass.seat);
        Pass { seat }
    }

    /// Joins another pass of this lock into the pass, which then has seen what either saw.
    pub fn join(&self, pass: &mut Pass<O>, other: Pass<O>)
        requires of { pass.old.turn ≡ self.now }
        requires other { other.turn ≡ self.now }
        ensures both { pass.new
            ≡ record { turn = pass.old.turn; known = joining pass.old.known other.known } }
    {
        let Pass { seat } = other;
        self.table
            .shared
            .join_seat::<JoinInto>(&mut pass.seat, seat);
    }

    /// Waits for its turn, and takes the object for good: no call waits for a turn ever again.
    ///
    /// The first pass of the lock is this one or was joined into it, and so was each pass that was
    /// split off one of them.
    pub fn close<R: Wait>(&self, rt: &R, pass: Pass<O>) -> O
        requires of { pass.turn ≡ self.now }
        requires whole { IsWhole pass.known }
        ensures { Closes O.step pass.known result }
    {
        let Pass { mut seat } = pass;
        self.take_turn(rt, &mut seat);
        self.take_object(&mut seat)
    }

    /// The five steps of a call: the lock, the object out of the slot and back into it, the count,
    /// and the lock again.
    fn play_at<R: Wait>(
        &self,
        rt: &R,
        seat: &mut Seat<Slot<O, O::Event, O::Reply>, View<O, O::Event, O::Reply>>,
        event: O::Event,
    ) -> O::Reply
        requires of { seat.old.table_id ≡ self.now }
        requires idle { (seat.old.me.1 ≡ []) × (seat.old.me.0.stage ≡ Idle) }
        requires may { O.may_play event }
        ensures of { seat.new.table_id ≡ seat.old.table_id }
        ensures idle { (seat.new.me.1 ≡ []) × (seat.new.me.0.stage ≡ Idle) }
        ensures played { Played O.step seat.old.me.0.known event result seat.new.me.0.known }
    {
        self.take_turn(rt, seat);
        let mut object = self.take_object(seat);
        let told = Snapshot::of(&event);
        let reply = object.play(event);
        self.put_object(seat, object, told, &reply);
        let shared = &self.table.shared;
        shared.fetch_add::<Commit>(seat, COUNT, 1);
        shared.store::<Free>(seat, LOCK, 0);
        self.wake_sleeper();
        reply
    }

    /// Takes the lock: backs off some rounds while it is taken, then sleeps until it is freed.
    fn take_turn<R: Wait>(
        &self,
        rt: &R,
        seat: &mut Seat<Slot<O, O::Event, O::Reply>, View<O, O::Event, O::Reply>>,
    )
        requires of { seat.old.table_id ≡ self.now }
        requires idle { (seat.old.me.1 ≡ []) × (seat.old.me.0.stage ≡ Idle) }
        ensures of { seat.new.table_id ≡ seat.old.table_id }
        ensures took { Took O.step seat.old.me seat.new.me }
    {
        let shared = &self.table.shared;
        let backoff = Backoff::new();
        for _ in rt.forever() {
            if shared.compare_exchange::<Try>(seat, LOCK, 0, 1) == 0 {
                return;
            }
            if backoff.is_completed() {
                self.sleep(rt);
            } else {
                backoff.snooze();
            }
        }
        unreachable!()
    }

    /// Sleeps while the lock is taken. It may wake for no reason.
    fn sleep<R: Wait>(&self, rt: &R) {
        self.sleepers.fetch_add(1, SeqCst);
        self.table.shared.park(rt, LOCK, 1);
        self.sleepers.fetch_sub(1, SeqCst);
    }

    /// Wakes a thread that sleeps, where there is one.
    ///
    /// One that begins to sleep after the count was read finds the lock free, and does not sleep.
    fn wake_sleeper(&self) {
        if self.sleepers.load(SeqCst) > 0 {
            self.table.shared.wake_one(LOCK);
        }
    }

    /// Takes the object out of the slot.
    fn take_object(
        &self,
        seat: &mut Seat<Slot<O, O::Event, O::Reply>, View<O, O::Event, O::Reply>>,
    ) -> O
        requires of { seat.old.table_id ≡ self.now }
        requires object { (now : _) × Carries seat.old.me.1 now }
        ensures of { seat.new.table_id ≡ seat.old.table_id }
        ensures view { seat.new.me.0 ≡ seat.old.me.0 }
        ensures slot { IsOneSlot seat.new.me.1 }
        ensures object { Carries seat.old.me.1 result }
    {
        let empty = Slot {
            object: None,
            event: None,
            reply: None,
        };
        let Slot {
            object,
            event: _,
            reply: _,
        } = self.table.shared.exchange(seat, 0, empty);
        object.unwrap()
    }

    /// Puts the object back, with the call that led to it.
    fn put_object(
        &self,
        seat: &mut Seat<Slot<O, O::Event, O::Reply>, View<O, O::Event, O::Reply>>,
        object: O,
        event: Snapshot<O::Event>,
        reply: &O::Reply,
    )
        requires of { seat.old.table_id ≡ self.now }
        requires slot { IsOneSlot seat.old.me.1 }
        ensures of { seat.new.table_id ≡ seat.old.table_id }
        ensures view { seat.new.me.0 ≡ seat.old.me.0 }
        ensures told { Tells seat.new.me.1 object event.value reply.now }
    {
        let slot = Slot {
            object: Some(object),
            event: Some(event),
            reply: Some(Snapshot::of(reply)),
        };
        self.table.shared.exchange(seat, 0, slot);
    }
}
