ghost use Rattle.std.specs.Prelude.{◌≡◌, IfOk};
ghost use Rattle.std.specs.FinMap.{get};
ghost use Rattle.std.specs.List.{AllByRecursion};
ghost use Rattle.hub_law.specs.Serves.{Agrees};
ghost use Rattle.kern_model.specs.Journal.{IsLegal};
ghost use Rattle.sp_world.specs.Happens.{IsNamed, is_work, refuses_by};
ghost use Rattle.sp_world.specs.Told.{Tells, history_of, is_answered_in, is_busy_in, is_wanting, moves_of, nothing_told};
ghost use Rattle.world_model.specs.After.{HappensAfter, HostedAfter};
ghost use Rattle.world_model.specs.Once.{HappensOnce};
ghost use Rattle.world_model.specs.Run.{IsFit};
ghost use Rattle.world_model.specs.State.{faults_of};
ghost use Rattle.world_model.specs.Still.{is_still};

use crate::log::Log;
use crate::parts::Parts;
use hub_model::Reply as ServerReply;
use kern_model::Entry;
use sp_base::{ConnNo, NoMemory, ReqNo, SpError};
use std::alloc::Global;
use std::marker::Model;
use world_model::{Event, Reply, world_law};

/// A server with its rump kernel, its clients, the links between them and the host's kernel, and
/// all that happened to them.
#[derive(Drop)]
pub struct World {
    parts: Parts,
    log: Log,
}

impl Model for World {
    ghost use Rattle.sp_world.specs.Code.{told_code};
    ghost use Rattle.sp_world.specs.Told.{IsRun, Told};

    ghost Value = { Told };

    ghost coded = { told_code };

    ghost view = { λ w. record {
      world = w.parts;
      events = w.log.events.items;
      refused = w.log.refused.items;
    } };

    ghost invariant = { λ w. IsRun (record {
      world = w.parts;
      events = w.log.events.items;
      refused = w.log.refused.items;
    }) };
}

/// Whether an event is work.
fn is_work(event: &Event) -> bool
    ensures { result ≡ is_work event.now }
{
    matches!(event, Event::Work(_, _))
}

/// Whether the answer tells that memory was refused.
fn is_wanting(reply: &Reply) -> bool
    ensures { result ≡ is_wanting reply.now }
{
    matches!(reply, Reply::NoMemory)
}

/// Whether the answer tells that there was no memory for what work would have performed.
fn refuses_memory(is_work: bool, reply: &Reply) -> bool
    ensures { result ≡ refuses_by is_work reply.now }
{
    is_work && matches!(reply, Reply::Server(ServerReply::Refused(SpError::Memory)))
}

impl World {
    /// A world in which nothing happened yet. The only error is want of memory.
    pub fn fresh(alloc: Global) -> Result<World, NoMemory>
        ensures { IfOk result (λ world. world ≡ nothing_told) }
    {
        Ok(World {
            parts: Parts::fresh(alloc)?,
            log: Log::none(alloc),
        })
    }

    /// All that happened, the oldest first.
    pub fn log(&self) -> &[Event]
        ensures { result.now ≡ self.now.events }
    {
        self.log.events.slice()
    }

    /// The indexes in the log of the work that was refused for want of memory, rising.
    pub fn refused(&self) -> &[u64]
        ensures { result.now ≡ self.now.refused }
    {
        self.log.refused.slice()
    }

    /// The journal of the rump kernel.
    pub fn rump(&self) -> &[Entry]
        ensures journal { result.now ≡ self.now.world.rump.journal }
        ensures legal { IsLegal self.now.world.rump.journal }
    {
        self.parts.hub.journal()
    }

    /// The journal of the host's kernel.
    pub fn host(&self) -> &[Entry]
        ensures journal { result.now ≡ self.now.world.host }
        ensures legal { IsLegal self.now.world.host }
    {
        self.parts.host.journal()
    }

    /// How often the link of a connection broke; 0 where none of the number ever opened.
    pub fn link_faults(&self, no: ConnNo) -> u64
        ensures { result ≡ faults_of (get self.now.world.links no.0) }
    {
        match self.parts.links.get(no.0 as u64) {
            Some(link) => link.faults(),
            None => 0,
        }
    }

    /// Whether nothing moves any more by itself: no frame is under way or queued, no call that
    /// waits at the server could go on, no answer is to be collected, and no operation that waits
    /// for the host's kernel could go on. Takes no memory.
    pub fn is_still(&self) -> bool
        ensures { result ≡ is_still self.now.world }
    {
        self.parts.is_still()
    }

    /// Whether the request of a number is open and has its answer; false where the connection isn't
    /// there. Takes no memory.
    pub fn is_answered(&self, no: ConnNo, number: ReqNo) -> bool
        ensures { result ≡ is_answered_in (get self.now.world.clients no.0) number }
    {
        match self.parts.clients.get(no.0 as u64) {
            Some(client) => client.is_answered(number),
            None => false,
        }
    }

    /// Whether a request that starts now would be answered Busy, unless the talk with the server is
    /// over or its handshake isn't answered; false where the connection isn't there. Takes no
    /// memory.
    pub fn is_busy(&self, no: ConnNo) -> bool
        ensures { result ≡ is_busy_in (get self.now.world.clients no.0) }
    {
        match self.parts.clients.get(no.0 as u64) {
            Some(client) => client.is_busy(),
            None => false,
        }
    }

    /// An event happens, and is logged, whatever is answered. Closed comes where the connection
    /// isn't there with its client, or the process of the host's kernel isn't live; then the world
    /// stays as it was.
    ///
    /// NoMemory comes where memory is refused for the event, or for its place in the log; then
    /// nothing changes and nothing is logged, and memory that was lent is dropped.
    pub fn play(&mut self, event: Event) -> Reply
        requires name { IsNamed event }
        ensures { Tells self.old event result self.new }
    {
        let Ok(copy) = self.log.keep_room(&event) else {
            return Reply::NoMemory;
        };
        let is_work = is_work(&event);
        let index = self.log.events.len() as u64;
        let reply = self.parts.play(index, event);
        if is_wanting(&reply) {
            return reply;
        }
        self.log.note(copy, refuses_memory(is_work, &reply));
        reply
    }

    /// The law of the world, of all that happened in this one: each call that was answered stands
    /// exactly once in its kernel's journal, and each lost one at most once, as long as the guests
    /// asked for calls that the server takes.
    pub fn obeys_law(&self)
        ensures once { AllByRecursion IsFit (moves_of self.now)
            → HappensOnce (history_of self.now) }
        ensures after { AllByRecursion IsFit (moves_of self.now)
            → HappensAfter (history_of self.now) }
        ensures after_host { AllByRecursion IsFit (moves_of self.now)
            → HostedAfter (history_of self.now) }
        ensures serves { AllByRecursion IsFit (moves_of self.now)
            → let history = history_of self.now in
            Agrees history.exchanges self.now.world.rump.journal }
        ensures world { self.now.world ≡ (history_of self.now).world }
    {
        let _ = &self.parts;
        world_law();
    }
}
