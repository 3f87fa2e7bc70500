ghost use Rattle.std.specs.Prelude.{◌≡◌, ◌+◌, ◌<◌, ◌≤◌, ◌↔◌, [], ◌∷◌, length, take, min, IfOk, OnErr, IfSome, IfNone, IsSome, IsTrue, Some};
ghost use Rattle.sp_base.specs.Table.{at};
ghost use Rattle.socket_model.specs.declared.limits.TheConstants.{LETTERS};
ghost use Rattle.socket_model.specs.Channel.{held, room, with_put, with_taken, bytes_in, letters_in, IsBytes, IsLetters, count_held, ends_of, shut_end, set_bytes, set_letters, with_bytes, with_letters};
ghost use Rattle.socket_model.specs.Calls.{two_channels};

use crate::chan::Chan;
use crate::ledger::Ledger;
use socket_model::{ChanNo, How, Letter, SockKind};
use sp_base::{NoMemory, Octets};
use std::alloc::Global;
use std::marker::Model;

/// Channels by number, each with all that it holds. A new one has as its number how many were made
/// before, so that no number comes again. A channel is there until both its ends are shut. Only making
/// a channel and taking bytes from one take memory; a channel's memory is taken as it is made.
#[derive(Drop)]
pub struct Chans {
    slots: Ledger<Chan>,
}

impl Model for Chans {
    ghost use Rattle.std.specs.Prelude.{List, Option};
    ghost use Rattle.socket_model.specs.Channel.{Channel};

    ghost Value = { List (Option Channel) };

    ghost view = { λ c. c.slots.items };
}

impl Chans {
    /// No channel; takes no memory.
    pub fn fresh(alloc: Global) -> Chans
        ensures { result ≡ [] }
    {
        Chans {
            slots: Ledger::new(alloc),
        }
    }

    /// A new channel of bytes. An error leaves all as it was: want of memory, or of numbers, which end
    /// at 2^64 - 1.
    pub fn stream(&mut self, alloc: Global) -> Result<ChanNo, NoMemory>
        ensures number { IfOk result (λ c. c.0 ≡ length self.old) }
        ensures made { IfOk result (λ _. self.new ≡ with_bytes self.old) }
        ensures err { OnErr result (self.new ≡ self.old) }
    {
        let chan = Chan::bytes(alloc)?;
        self.slots.reserve(1)?;
        Ok(ChanNo(self.slots.add(chan)))
    }

    /// Two new channels for sockets of a kind. An error leaves all as it was: want of memory, or of
    /// numbers, which end at 2^64 - 1.
    pub(crate) fn pair(
        &mut self,
        alloc: Global,
        kind: SockKind,
    ) -> Result<(ChanNo, ChanNo), NoMemory>
        ensures numbers { IfOk result (λ pair. (pair.0.0 ≡ length self.old)
            × (pair.1.0 ≡ length self.old + 1)) }
        ensures made { IfOk result (λ _. self.new ≡ two_channels kind self.old) }
        ensures err { OnErr result (self.new ≡ self.old) }
    {
        let first = Chan::new(alloc, kind)?;
        let second = Chan::new(alloc, kind)?;
        self.slots.reserve(2)?;
        let first = self.slots.add(first);
        let second = self.slots.add(second);
        Ok((ChanNo(first), ChanNo(second)))
    }

    /// A new channel of letters. An error leaves all as it was: want of memory, or of numbers, which
    /// end at 2^64 - 1.
    pub fn letters(&mut self, alloc: Global) -> Result<ChanNo, NoMemory>
        ensures number { IfOk result (λ c. c.0 ≡ length self.old) }
        ensures made { IfOk result (λ _. self.new ≡ with_letters self.old) }
        ensures err { OnErr result (self.new ≡ self.old) }
    {
        let chan = Chan::letters(alloc)?;
        self.slots.reserve(1)?;
        Ok(ChanNo(self.slots.add(chan)))
    }

    /// Whether there is a channel of bytes with this number.
    pub fn holds_bytes(&self, c: ChanNo) -> bool
        ensures { IsTrue result ↔ IsBytes (at self.now c.0) }
    {
        match self.slots.get(c.0) {
            Some(chan) => chan.is_bytes(),
            None => false,
        }
    }

    /// Whether there is a channel of letters with this number.
    pub fn holds_letters(&self, c: ChanNo) -> bool
        ensures { IsTrue result ↔ IsLetters (at self.now c.0) }
    {
        match self.slots.get(c.0) {
            Some(chan) => !chan.is_bytes(),
            None => false,
        }
    }

    /// A channel that is there.
    fn chan(&self, c: ChanNo) -> &Chan
        requires { IsSome (at self.now c.0) }
        ensures { at self.now c.0 ≡ Some result.now }
    {
        match self.slots.get(c.0) {
            Some(chan) => chan,
            None => unreachable!(),
        }
    }

    /// How many bytes or letters are held.
    pub fn held(&self, c: ChanNo) -> u32
        requires { IsSome (at self.now c.0) }
        ensures { result ≡ count_held (at self.now c.0) }
    {
        self.chan(c).held()
    }

    /// How many bytes fit.
    pub fn fits(&self, c: ChanNo) -> u32
        requires { IsBytes (at self.now c.0) }
        ensures { result ≡ room (bytes_in (at self.now c.0)) }
    {
        self.chan(c).fits()
    }

    /// Whether the end that is read from is shut, and whether the one that is written to is.
    pub fn shut_ends(&self, c: ChanNo) -> (bool, bool)
        requires { IsSome (at self.now c.0) }
        ensures { result ≡ ends_of (at self.now c.0) }
    {
        self.chan(c).ends()
    }

    /// Appends the first bytes that fit, and answers how many.
    pub fn put(&mut self, c: ChanNo, bytes: &[u8]) -> u32
        requires { IsBytes (at self.old c.0) }
        ensures count { result ≡ min (length bytes.now) (room (bytes_in (at self.old c.0))) }
        ensures put { self.new ≡ set_bytes self.old c.0
            (with_put (bytes_in (at self.old c.0)) (take result bytes.now)) }
    {
        self.slots.value_mut(c.0).put(bytes)
    }

    /// Takes the oldest bytes, at most so many. The only error is want of memory, and leaves all as it
    /// was.
    pub fn take(&mut self, alloc: Global, c: ChanNo, max: u32) -> Result<Octets, NoMemory>
        requires { IsBytes (at self.old c.0) }
        ensures bytes { IfOk result (λ bytes. bytes ≡ take max (held (bytes_in (at self.old c.0)))) }
        ensures taken { IfOk result (λ bytes. self.new ≡ set_bytes self.old c.0
            (with_taken (bytes_in (at self.old c.0)) (length bytes))) }
        ensures err { OnErr result (self.new ≡ self.old) }
    {
        self.slots.value_mut(c.0).take(alloc, max)
    }

    /// Appends a letter; gives it back, and leaves all as it was, exactly where 64 are held.
    pub fn post(&mut self, c: ChanNo, letter: Letter) -> Option<Letter>
        requires { IsLetters (at self.old c.0) }
        ensures full { IfSome result (λ _. LETTERS ≤ length (held (letters_in (at self.old c.0)))) }
        ensures back { IfSome result (λ back. (back ≡ letter) × (self.new ≡ self.old)) }
        ensures fits { IfNone result (length (held (letters_in (at self.old c.0))) < LETTERS) }
        ensures put { IfNone result (self.new ≡ set_letters self.old c.0
            (with_put (letters_in (at self.old c.0)) (letter ∷ []))) }
    {
        self.slots.value_mut(c.0).post(letter)
    }

    /// Takes the oldest letter; None, and all stays as it was, exactly where none is held.
    pub fn fetch(&mut self, c: ChanNo) -> Option<Letter>
        requires { IsLetters (at self.old c.0) }
        ensures letter { IfSome result (λ letter.
            take 1 (held (letters_in (at self.old c.0))) ≡ letter ∷ []) }
        ensures taken { IfSome result (λ _. self.new ≡ set_letters self.old c.0
            (with_taken (letters_in (at self.old c.0)) 1)) }
        ensures none { IfNone result ((held (letters_in (at self.old c.0)) ≡ [])
            × (self.new ≡ self.old)) }
    {
        self.slots.value_mut(c.0).fetch()
    }

    /// Shuts an end of a channel, or both. With its second end a channel is gone; where there is no
    /// channel, all stays as it was.
    #[tactic(auto, using(crate::proofs::TableLemmas::set_again, crate::proofs::TableLemmas::set_none))]
    pub fn shut(&mut self, c: ChanNo, how: How)
        ensures { self.new ≡ shut_end self.old c.0 how }
    {
        if self.slots.get(c.0).is_none() {
            return;
        }
        let chan = self.slots.value_mut(c.0);
        chan.shut(how);
        let (reading, writing) = chan.ends();
        if reading && writing {
            let _ = self.slots.take(c.0);
        }
    }
}
