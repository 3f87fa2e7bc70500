//! What passes know. These are for contracts: a lock makes no value of them, but its one slot.
use std::collections::LinkedList;
use std::snapshot::Snapshot;

/// One call of the object: the name of the pass that made it, the event and the reply.
pub struct Entry<E, R> {
    pub name: LinkedList<u64>,
    pub event: E,
    pub reply: R,
}

/// What a pass is known by: its name, how many passes were split off it, and its calls, in order.
pub struct Player<E, R> {
    pub name: LinkedList<u64>,
    pub splits: u64,
    pub calls: LinkedList<Entry<E, R>>,
}

/// What a pass knows.
pub struct Known<O, E, R> {
    /// The object as the lock was made with it.
    pub opening: Option<O>,
    /// The history that the pass has seen.
    pub seen: LinkedList<Entry<E, R>>,
    /// The pass itself.
    pub own: Player<E, R>,
    /// The passes that were joined into it.
    pub joined: LinkedList<Player<E, R>>,
}

/// Where a pass stands.
pub enum Stage<O> {
    /// It does not have the turn.
    Idle,
    /// It has the turn, and the history leads to this object.
    Holding(O),
    /// It was joined into another.
    Spent,
}

/// What the lock's table has of a pass.
pub struct View<O, E, R> {
    pub stage: Stage<O>,
    pub known: Known<O, E, R>,
}

/// The place of the object, with the call that led to it. That call is for proofs alone and has no
/// bytes.
#[derive(Drop)]
pub struct Slot<O, E, R> {
    pub object: Option<O>,
    pub event: Option<Snapshot<E>>,
    pub reply: Option<Snapshot<R>>,
}
