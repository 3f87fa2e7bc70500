ghost use Rattle.std.specs.Prelude.{◌≡◌, ◌<◌, ◌≤◌, [], ◌∷◌, length, take, IfOk, IfSome, IfNone};
ghost use Rattle.socket_model.specs.declared.limits.TheConstants.{LETTERS as MOST};
ghost use Rattle.socket_model.specs.Channel.{fresh_track, held, with_put, with_taken, with_shut};

use crate::ends::Ends;
use circular_buffer::HeapCircularBuffer;
use history::Log;
use socket_model::{How, LETTERS, Letter};
use sp_base::NoMemory;
use std::alloc::Global;
use std::marker::Model;

/// A channel of letters: the ring holds those that weren't taken yet.
#[derive(Drop)]
pub(crate) struct Post {
    ring: HeapCircularBuffer<Letter>,
    past: Log<Letter>,
    ends: Ends,
}

impl Model for Post {
    ghost use Rattle.std.specs.Prelude.{◌≡◌};
    ghost use Rattle.socket_model.specs.declared.limits.TheConstants.{LETTERS};
    ghost use Rattle.socket_model.specs.declared.letter.Letter.{Letter};
    ghost use Rattle.socket_model.specs.Channel.{Track};

    ghost Value = { Track Letter };

    ghost use Rattle.kern_local.specs.Rings.{track_of, IsHeld};

    ghost view = { λ p. track_of p.past.items p.ring.items p.ends };

    ghost invariant = { λ p. IsHeld p.past.items p.ring.items × (p.ring.capacity ≡ LETTERS) };
}

#[tactic(auto, using(crate::proofs::TrackLemmas::track_rules))]
impl Post {
    /// A channel to which nothing was put yet. The only error is want of memory.
    pub(crate) fn fresh(alloc: Global) -> Result<Post, NoMemory>
        ensures { IfOk result (λ post. post ≡ fresh_track) }
    {
        Ok(Post {
            ring: HeapCircularBuffer::with_capacity(alloc, LETTERS as usize)?,
            past: Log::new(),
            ends: Ends::open(),
        })
    }

    /// How many letters are held.
    pub(crate) fn held(&self) -> u32
        ensures { result ≡ length (held self.now) }
    {
        self.ring.len() as u32
    }

    /// Appends a letter, or gives it back exactly where 64 are held.
    pub(crate) fn post(&mut self, letter: Letter) -> Option<Letter>
        ensures full { IfSome result (λ back. (back ≡ letter) × (MOST ≤ length (held self.old))
            × (self.new ≡ self.old)) }
        ensures put { IfNone result ((length (held self.old) < MOST)
            × (self.new ≡ with_put self.old (letter ∷ []))) }
    {
        if self.ring.len() >= LETTERS as usize {
            return Some(letter);
        }
        self.past = self.past.and(&letter);
        match self.ring.try_push_back(letter) {
            Ok(()) => None,
            Err(_) => unreachable!(),
        }
    }

    /// Takes the oldest letter; None exactly where none is held.
    pub(crate) fn fetch(&mut self) -> Option<Letter>
        ensures some { IfSome result (λ letter. (take 1 (held self.old) ≡ letter ∷ [])
            × (self.new ≡ with_taken self.old 1)) }
        ensures none { IfNone result ((held self.old ≡ []) × (self.new ≡ self.old)) }
    {
        if self.ring.len() == 0 {
            return None;
        }
        self.ring.pop_front()
    }

    /// Shuts an end, or both.
    pub(crate) fn shut(&mut self, how: How)
        ensures { self.new ≡ with_shut self.old how }
    {
        self.ends.shut(how);
    }

    /// Whether the reading end is shut, and whether the writing end is.
    pub(crate) fn ends(&self) -> (bool, bool)
        ensures { result ≡ (self.now.reading_shut, self.now.writing_shut) }
    {
        (self.ends.reading_shut, self.ends.writing_shut)
    }
}
