ghost use Rattle.std.specs.Prelude.{◌≡◌, ◌<◌, ◌≤◌, ◌↔◌, [], ◌∷◌, length, take, min, IfOk, OnErr, IfSome, IfNone, IsTrue, IsFalse, Some};
ghost use Rattle.socket_model.specs.declared.limits.TheConstants.{LETTERS};
ghost use Rattle.socket_model.specs.Channel.{Bytes, Letters, held, room, with_put, with_taken, bytes_in, letters_in, IsBytes, IsLetters, fresh_track, count_held, shut_channel, ends_of};
ghost use Rattle.socket_model.specs.Calls.{new_channel};

use crate::post::Post;
use crate::stream::Stream;
use socket_model::{How, Letter, SockKind};
use sp_base::{NoMemory, Octets};
use std::alloc::Global;
use std::marker::Model;

#[derive(Drop)]
pub(crate) enum Kind {
    Bytes(Stream),
    Letters(Post),
}

/// A channel.
#[derive(Drop)]
pub(crate) struct Chan {
    of: Kind,
}

impl Model for Chan {
    ghost use Rattle.socket_model.specs.Channel.{Channel};

    ghost Value = { Channel };

    ghost use Rattle.kern_local.specs.Kinds.{channel_of};

    ghost view = { λ c. channel_of c.of };
}

impl Chan {
    /// A new channel of bytes. The only error is want of memory.
    pub(crate) fn bytes(alloc: Global) -> Result<Chan, NoMemory>
        ensures { IfOk result (λ chan. chan ≡ Bytes fresh_track) }
    {
        Ok(Chan {
            of: Kind::Bytes(Stream::fresh(alloc)?),
        })
    }

    /// A new channel of letters. The only error is want of memory.
    pub(crate) fn letters(alloc: Global) -> Result<Chan, NoMemory>
        ensures { IfOk result (λ chan. chan ≡ Letters fresh_track) }
    {
        Ok(Chan {
            of: Kind::Letters(Post::fresh(alloc)?),
        })
    }

    /// A new channel for sockets of a kind. The only error is want of memory.
    pub(crate) fn new(alloc: Global, kind: SockKind) -> Result<Chan, NoMemory>
        ensures { IfOk result (λ chan. chan ≡ new_channel kind) }
    {
        match kind {
            SockKind::Stream => Chan::bytes(alloc),
            SockKind::Datagram => Chan::letters(alloc),
        }
    }

    /// Whether it is a channel of bytes; else it is one of letters.
    pub(crate) fn is_bytes(&self) -> bool
        ensures bytes { IsTrue result ↔ IsBytes (Some self.now) }
        ensures letters { IsFalse result ↔ IsLetters (Some self.now) }
    {
        match &self.of {
            Kind::Bytes(_) => true,
            Kind::Letters(_) => false,
        }
    }

    /// How many bytes or letters are held.
    pub(crate) fn held(&self) -> u32
        ensures { result ≡ count_held (Some self.now) }
    {
        match &self.of {
            Kind::Bytes(stream) => stream.held(),
            Kind::Letters(post) => post.held(),
        }
    }

    /// How many bytes fit.
    pub(crate) fn fits(&self) -> u32
        requires { IsBytes (Some self.now) }
        ensures { result ≡ room (bytes_in (Some self.now)) }
    {
        match &self.of {
            Kind::Bytes(stream) => stream.fits(),
            Kind::Letters(_) => unreachable!(),
        }
    }

    /// Appends the first bytes that fit, and answers how many.
    pub(crate) fn put(&mut self, bytes: &[u8]) -> u32
        requires { IsBytes (Some self.old) }
        ensures count { result ≡ min (length bytes.now) (room (bytes_in (Some self.old))) }
        ensures put { self.new ≡ Bytes (with_put (bytes_in (Some self.old)) (take result bytes.now)) }
    {
        match &mut self.of {
            Kind::Bytes(stream) => stream.put(bytes),
            Kind::Letters(_) => unreachable!(),
        }
    }

    /// Takes the oldest bytes, at most so many. The only error is want of memory, and leaves all as it
    /// was.
    pub(crate) fn take(&mut self, alloc: Global, max: u32) -> Result<Octets, NoMemory>
        requires { IsBytes (Some self.old) }
        ensures ok { IfOk result (λ bytes. (bytes ≡ take max (held (bytes_in (Some self.old))))
            × (self.new ≡ Bytes (with_taken (bytes_in (Some self.old)) (length bytes)))) }
        ensures err { OnErr result (self.new ≡ self.old) }
    {
        match &mut self.of {
            Kind::Bytes(stream) => stream.take(alloc, max),
            Kind::Letters(_) => unreachable!(),
        }
    }

    /// Appends a letter, or gives it back exactly where 64 are held.
    pub(crate) fn post(&mut self, letter: Letter) -> Option<Letter>
        requires { IsLetters (Some self.old) }
        ensures full { IfSome result (λ back. (back ≡ letter)
            × (LETTERS ≤ length (held (letters_in (Some self.old)))) × (self.new ≡ self.old)) }
        ensures put { IfNone result ((length (held (letters_in (Some self.old))) < LETTERS)
            × (self.new ≡ Letters (with_put (letters_in (Some self.old)) (letter ∷ [])))) }
    {
        match &mut self.of {
            Kind::Letters(post) => post.post(letter),
            Kind::Bytes(_) => unreachable!(),
        }
    }

    /// Takes the oldest letter; None exactly where none is held.
    pub(crate) fn fetch(&mut self) -> Option<Letter>
        requires { IsLetters (Some self.old) }
        ensures some { IfSome result (λ letter.
            (take 1 (held (letters_in (Some self.old))) ≡ letter ∷ [])
            × (self.new ≡ Letters (with_taken (letters_in (Some self.old)) 1))) }
        ensures none { IfNone result
            ((held (letters_in (Some self.old)) ≡ []) × (self.new ≡ self.old)) }
    {
        match &mut self.of {
            Kind::Letters(post) => post.fetch(),
            Kind::Bytes(_) => unreachable!(),
        }
    }

    /// Shuts an end, or both.
    pub(crate) fn shut(&mut self, how: How)
        ensures { Some self.new ≡ shut_channel (Some self.old) how }
    {
        match &mut self.of {
            Kind::Bytes(stream) => stream.shut(how),
            Kind::Letters(post) => post.shut(how),
        }
    }

    /// Whether the reading end is shut, and whether the writing end is.
    pub(crate) fn ends(&self) -> (bool, bool)
        ensures { result ≡ ends_of (Some self.now) }
    {
        match &self.of {
            Kind::Bytes(stream) => stream.ends(),
            Kind::Letters(post) => post.ends(),
        }
    }
}
