ghost use Rattle.std.specs.Prelude.{◌≡◌, length, take, min, IfOk, OnErr};
ghost use Rattle.socket_model.specs.Channel.{fresh_track, held, room, with_put, with_taken, with_shut};

use crate::ends::Ends;
use circular_buffer::HeapCircularBuffer;
use history::Log;
use socket_model::{How, STREAM_BYTES};
use sp_base::{NoMemory, Octets};
use std::alloc::Global;
use std::marker::Model;

/// A channel of bytes: the ring holds what wasn't taken yet.
#[derive(Drop)]
pub(crate) struct Stream {
    ring: HeapCircularBuffer<u8>,
    past: Log<u8>,
    ends: Ends,
}

impl Model for Stream {
    ghost use Rattle.std.specs.Prelude.{ℕ, ◌≡◌};
    ghost use Rattle.socket_model.specs.declared.limits.TheConstants.{STREAM_BYTES};
    ghost use Rattle.socket_model.specs.Channel.{Track};

    ghost Value = { Track ℕ };

    ghost use Rattle.kern_local.specs.Rings.{track_of, IsHeld};

    ghost view = { λ s. track_of s.past.items s.ring.items s.ends };

    ghost invariant = { λ s. IsHeld s.past.items s.ring.items × (s.ring.capacity ≡ STREAM_BYTES) };
}

#[tactic(auto, using(crate::proofs::TrackLemmas::track_rules))]
impl Stream {
    /// A channel to which nothing was put yet. The only error is want of memory.
    pub(crate) fn fresh(alloc: Global) -> Result<Stream, NoMemory>
        ensures { IfOk result (λ stream. stream ≡ fresh_track) }
    {
        Ok(Stream {
            ring: HeapCircularBuffer::with_capacity(alloc, STREAM_BYTES as usize)?,
            past: Log::new(),
            ends: Ends::open(),
        })
    }

    /// How many bytes are held.
    pub(crate) fn held(&self) -> u32
        ensures { result ≡ length (held self.now) }
    {
        self.ring.len() as u32
    }

    /// How many bytes fit.
    pub(crate) fn fits(&self) -> u32
        ensures { result ≡ room self.now }
    {
        (STREAM_BYTES as usize - self.ring.len()) as u32
    }

    /// Appends the first bytes that fit, and answers how many.
    pub(crate) fn put(&mut self, bytes: &[u8]) -> u32
        ensures count { result ≡ min (length bytes.now) (room self.old) }
        ensures put { self.new ≡ with_put self.old (take result bytes.now) }
    {
        let count = self.ring.fill_from_slice(bytes);
        self.past = self.past.and_all(&bytes[..count]);
        count as u32
    }

    /// Takes the oldest bytes, at most so many. The only error is want of memory, and leaves all as it
    /// was.
    pub(crate) fn take(&mut self, alloc: Global, max: u32) -> Result<Octets, NoMemory>
        ensures ok { IfOk result (λ bytes. (bytes ≡ take max (held self.old))
            × (self.new ≡ with_taken self.old (length bytes))) }
        ensures err { OnErr result (self.new ≡ self.old) }
    {
        let count = self.ring.len().min(max as usize);
        let mut bytes = vec![in alloc; 0u8; count]?;
        self.ring.read_into(&mut bytes);
        Ok(Octets::from_vec(bytes))
    }

    /// Shuts an end, or both.
    pub(crate) fn shut(&mut self, how: How)
        ensures { self.new ≡ with_shut self.old how }
    {
        self.ends.shut(how);
    }

    /// Whether the reading end is shut, and whether the writing end is.
    pub(crate) fn ends(&self) -> (bool, bool)
        ensures { result ≡ (self.now.reading_shut, self.now.writing_shut) }
    {
        (self.ends.reading_shut, self.ends.writing_shut)
    }
}
