ghost use Rattle.std.specs.Prelude.{◌≡◌, ◌<◌, ◌++◌, ◌∷◌, [], length, IfOk, Some, None, MatchOption};
ghost use Rattle.socket_model.specs.Socket.{new_socket};
ghost use Rattle.socket_model.specs.Calls.{backlog_of};
ghost use Rattle.socket_model.specs.declared.address.Address.TheVariants as address;
ghost use Rattle.socket_model.specs.declared.address.Family.TheVariants as family;
ghost use Rattle.socket_model.specs.declared.address.SockKind.TheVariants as kind;
ghost use Rattle.socket_model.specs.Socket.{accepted_address};
ghost use Rattle.kern_local.specs.Queues.{IsQueueable};

use circular_buffer::HeapCircularBuffer;
use socket_model::{Address, BACKLOG, Family, SockKind};
use sp_base::NoMemory;
use std::alloc::Global;
use std::marker::Model;

/// A socket, with the numbers of its channels and of the connections that wait.
#[derive(Drop)]
pub(crate) struct Sock {
    pub(crate) family: Family,
    pub(crate) kind: SockKind,
    pub(crate) address: Address,
    pub(crate) peer: Option<Address>,
    pub(crate) backlog: Option<u64>,
    pub(crate) queue: HeapCircularBuffer<u64>,
    pub(crate) reads: Option<u64>,
    pub(crate) writes: Option<u64>,
}

impl Model for Sock {
    ghost use Rattle.socket_model.specs.Socket.{Socket};

    ghost Value = { Socket };

    ghost view = { λ s. record {
      family = s.family;
      kind = s.kind;
      address = s.address;
      peer = s.peer;
      backlog = s.backlog;
      queue = s.queue.items;
      reads = s.reads;
      writes = s.writes;
    } };

    ghost use Rattle.kern_local.specs.Queues.{FitsQueue};

    ghost invariant = { λ s. FitsQueue s.backlog s.queue.capacity };
}

impl Sock {
    /// A socket that is neither bound, connected nor listening. The only error is want of memory.
    pub(crate) fn new(alloc: Global, family: Family, kind: SockKind) -> Result<Sock, NoMemory>
        ensures { IfOk result (λ sock. sock ≡ new_socket family kind) }
    {
        Ok(Sock {
            family,
            kind,
            address: Address::Unnamed,
            peer: None,
            backlog: None,
            queue: HeapCircularBuffer::with_capacity(alloc, BACKLOG as usize)?,
            reads: None,
            writes: None,
        })
    }

    /// A local socket that is connected to an unnamed one, and has no channel yet. The only error is
    /// want of memory.
    pub(crate) fn paired(alloc: Global, kind: SockKind) -> Result<Sock, NoMemory>
        ensures { IfOk result (λ sock.
            sock ≡ record (new_socket family.Local kind) { peer = Some address.Unnamed }) }
    {
        let mut sock = Sock::new(alloc, Family::Local, kind)?;
        sock.join(Address::Unnamed);
        Ok(sock)
    }

    /// The socket that a connection to this one waits as, which has no channel yet. The only error is
    /// want of memory.
    pub(crate) fn accepted(&self, alloc: Global, from: &Sock) -> Result<Sock, NoMemory>
        ensures { IfOk result (λ sock. sock ≡ record (new_socket self.now.family kind.Stream) {
          address = accepted_address self.now.address;
          peer = Some from.now.address;
        }) }
    {
        let mut sock = Sock::new(alloc, self.family, SockKind::Stream)?;
        sock.address = seen(alloc, &self.address)?;
        sock.join(from.address.copy(alloc)?);
        Ok(sock)
    }

    /// Connects it.
    pub(crate) fn join(&mut self, peer: Address)
        ensures { self.new ≡ record self.old { peer = Some peer } }
    {
        self.peer = Some(peer);
    }

    /// Gives it the channels that it reads from and writes to.
    pub(crate) fn set_ends(&mut self, reads: Option<u64>, writes: Option<u64>)
        ensures { self.new ≡ record self.old { reads = reads; writes = writes } }
    {
        self.reads = reads;
        self.writes = writes;
    }

    /// Connects it, through these channels.
    pub(crate) fn open(&mut self, peer: Address, reads: Option<u64>, writes: Option<u64>)
        ensures { self.new ≡ record self.old { peer = Some peer; reads = reads; writes = writes } }
    {
        self.join(peer);
        self.set_ends(reads, writes);
    }

    /// Connects it to where it sends from now on.
    pub(crate) fn send_to(&mut self, peer: Address, writes: Option<u64>)
        ensures { self.new ≡ record self.old { peer = Some peer; writes = writes } }
    {
        self.join(peer);
        self.writes = writes;
    }

    /// Binds it.
    pub(crate) fn bind(&mut self, address: Address)
        ensures { self.new ≡ record self.old { address = address } }
    {
        self.address = address;
    }

    /// Lets it listen.
    pub(crate) fn listen(&mut self, asked: u64)
        ensures { self.new ≡ record self.old { backlog = Some (backlog_of asked) } }
    {
        self.backlog = Some(asked.min(BACKLOG).max(1));
    }

    /// Puts a connection behind those that wait.
    pub(crate) fn queue_up(&mut self, waiting: u64)
        requires { IsQueueable self.old.backlog (length self.old.queue) }
        ensures { self.new ≡ record self.old { queue = self.old.queue ++ waiting ∷ [] } }
    {
        match self.backlog {
            None => unreachable!(),
            Some(_) => match self.queue.try_push_back(waiting) {
                Ok(()) => {}
                Err(_) => unreachable!(),
            },
        }
    }

    /// Takes the oldest connection that waits; None, and all stays as it was, where none does.
    pub(crate) fn take_waiting(&mut self) -> Option<u64>
        ensures first { MatchOption result ((self.old.queue ≡ []) × (self.new ≡ self.old))
            (λ first. self.old ≡ record self.new { queue = first ∷ self.new.queue }) }
        ensures others { self.new ≡ record self.old { queue = self.new.queue } }
    {
        self.queue.pop_front()
    }

    /// Gives up the channel that it reads from, and answers which.
    pub(crate) fn stop_reading(&mut self) -> Option<u64>
        ensures link { result ≡ self.old.reads }
        ensures stopped { self.new ≡ record self.old { reads = None } }
    {
        let link = self.reads;
        self.reads = None;
        link
    }

    /// Gives up the channel that it writes to, and answers which.
    pub(crate) fn stop_writing(&mut self) -> Option<u64>
        ensures link { result ≡ self.old.writes }
        ensures stopped { self.new ≡ record self.old { writes = None } }
    {
        let link = self.writes;
        self.writes = None;
        link
    }
}

/// An address as an accepted socket has it. The only error is want of memory.
fn seen(alloc: Global, address: &Address) -> Result<Address, NoMemory>
    ensures { IfOk result (λ seen. seen ≡ accepted_address address.now) }
{
    match address {
        Address::Inet(_, port) => Ok(Address::Inet([127, 0, 0, 1], *port)),
        _ => address.copy(alloc),
    }
}
