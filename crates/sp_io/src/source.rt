//! Where bytes come from.
ghost use Rattle.std.specs.Prelude.{◌≡◌, ◌⊎◌, ◌≤◌, ◌<◌, ◌↔◌, ◌++◌, [], None, Some, List, ℕ, Bool, true, false, length, take, drop, Option, Contains, OnOk, OnErr, IfOk, IsOkAnd, MatchResult};
ghost use Rattle.std.specs.Io.KnownBytes.{Keeps, Appends, Consumes, IsAtEnd};
ghost use Rattle.sp_io.specs.Causes.{HasReadCause, raised};
ghost use Rattle.sp_io.specs.declared.fault.IoFault.TheVariants as fault;

use crate::MOST_MOVED;
use crate::calls::{Calls, Faults};
use crate::fault::IoFault;
use sp_base::{NoMemory, Octets};
use std::alloc::Global;
use std::io::Read;
use std::marker::Model;
use std::mem;

/// Takes out what a piece holds, with its memory, and leaves it empty.
fn taken_out(alloc: Global, piece: &mut Octets) -> Vec<u8>
    ensures result { result.items ≡ piece.old }
    ensures piece { piece.new ≡ [] }
{
    mem::replace(piece, Octets::none(alloc)).into_vec()
}

/// Where bytes come from.
///
/// A source in memory tells its bytes, and contracts speak of them; one over the world tells none.
pub trait Source {
    /// How often a call failed. It never falls; at 2^64 - 1 it stays.
    ghost faults: { Self → ℕ };

    /// The bytes that it has left, where it tells them.
    ghost left: { Self → Option (List ℕ) };

    /// The bytes that it gave, where it tells them.
    ghost passed: { Self → Option (List ℕ) };

    /// Whether its end was met: it answered an empty piece.
    ghost ended: { Self → Bool };

    /// Whether it is done with. Only `done` changes that.
    ghost is_done: { Self → Bool };

    /// Puts the next bytes in the place of what the piece holds, at least one and at most `max`; an empty piece is the end.
    ///
    /// The piece's memory is used again. An error takes nothing off the source, and leaves the piece
    /// empty. Failed comes only where the count of faults rose.
    fn take(&mut self, alloc: Global, piece: &mut Octets, max: u32) -> Result<(), IoFault>
        requires some { 0 < max }
        requires open { is_done self.old ≡ false }
        ensures most { OnOk result (length piece.new ≤ max) }
        ensures none { OnErr result (piece.new ≡ []) }
        ensures left { MatchResult result
            (λ _. Consumes (left self.old) (left self.new) piece.new)
            (λ _. Keeps (left self.old) (left self.new)) }
        ensures passed { MatchResult result
            (λ _. Appends (passed self.old) (passed self.new) piece.new)
            (λ _. Keeps (passed self.old) (passed self.new)) }
        ensures end { OnOk result (piece.new ≡ [] → IsAtEnd (left self.old)) }
        ensures ended { OnOk result (piece.new ≡ [] → ended self.new ≡ true) }
        ensures stays { ended self.old ≡ true → ended self.new ≡ true }
        ensures only_then { ended self.new ≡ true
            → (ended self.old ≡ true) ⊎ IsOkAnd result (λ _. piece.new ≡ []) }
        ensures open { is_done self.new ≡ false }
        ensures cause { HasReadCause (faults self.old) (faults self.new) result };

    /// Closes what is behind it. No byte is taken from it afterwards.
    fn done(&mut self)
        ensures done { is_done self.new ≡ true }
        ensures faults { faults self.new ≡ faults self.old }
        ensures left { left self.new ≡ left self.old }
        ensures passed { passed self.new ≡ passed self.old }
        ensures ended { ended self.new ≡ ended self.old };
}

/// A source over bytes in memory, some of whose calls fail. It tells its bytes.
///
/// Contracts see it as the bytes that it gave and those that it has left, with its calls.
#[derive(Drop)]
pub struct MemSource {
    bytes: Octets,
    at: usize,
    ended: bool,
    calls: Calls,
    faults: Faults,
    done: bool,
}

impl Model for MemSource {
    ghost use Rattle.std.specs.Prelude.{◌≤◌, length, take, drop};
    ghost use Rattle.sp_io.specs.Memory.{SourceState};

    ghost Value = { SourceState };

    ghost view = { λ s. record { passed = take s.at s.bytes; left = drop s.at s.bytes; ended = s.ended; fails = s.calls.fails.items; calls = s.calls.made; faults = s.faults; is_done = s.done } };

    ghost invariant = { λ s. s.at ≤ length s.bytes };
}

impl MemSource {
    ghost use Rattle.sp_io.specs.Memory.{fresh_source};

    /// A source of these bytes. The calls of `take` whose numbers, from 0, are in `fails` answer
    /// Failed.
    pub fn of(alloc: Global, bytes: &[u8], fails: &[u64]) -> Result<MemSource, NoMemory>
        ensures { IfOk result (λ source. source ≡ fresh_source bytes.now fails.now) }
    {
        Ok(MemSource {
            bytes: Octets::of(alloc, bytes)?,
            at: 0,
            ended: false,
            calls: Calls::of(alloc, fails)?,
            faults: Faults::none(),
            done: false,
        })
    }
}

impl Source for MemSource {
    ghost faults = { λ s. s.faults };

    ghost left = { λ s. Some s.left };

    ghost passed = { λ s. Some s.passed };

    ghost ended = { λ s. s.ended };

    ghost is_done = { λ s. s.is_done };

    /// As every source, and beside that: the calls that are told to fail do, and no others; a call
    /// that has memory gives as many bytes as it may.
    fn take(&mut self, alloc: Global, piece: &mut Octets, max: u32) -> Result<(), IoFault>
        requires some { 0 < max }
        requires open { self.old.is_done ≡ false }

        // which calls fail, and what the others give
        ensures fails { (result ≡ Err fault.Failed) ↔ Contains self.old.fails self.old.calls }
        ensures piece { OnOk result (piece.new ≡ take max self.old.left) }
        ensures none { OnErr result (piece.new ≡ []) }

        // what is left, and what was passed
        ensures left { MatchResult result (λ _. self.old.left ≡ piece.new ++ self.new.left)
            (λ _. self.new.left ≡ self.old.left) }
        ensures passed { MatchResult result
            (λ _. self.new.passed ≡ self.old.passed ++ piece.new)
            (λ _. self.new.passed ≡ self.old.passed) }
        ensures ended { OnOk result (piece.new ≡ [] → self.new.ended ≡ true) }
        ensures stays { self.old.ended ≡ true → self.new.ended ≡ true }
        ensures only_then { self.new.ended ≡ true
            → (self.old.ended ≡ true) ⊎ IsOkAnd result (λ _. piece.new ≡ []) }
        ensures open { self.new.is_done ≡ false }

        // how its calls are counted
        ensures calls { self.new.calls ≡ raised self.old.calls }
        ensures told { self.new.fails ≡ self.old.fails }
        ensures faults { MatchResult result (λ _. self.new.faults ≡ self.old.faults)
            (λ e. e ≡ fault.Failed → self.new.faults ≡ raised self.old.faults) }
        ensures cause { HasReadCause self.old.faults self.new.faults result }
    {
        let mut given = taken_out(alloc, piece);
        given.clear();
        if self.calls.next_fails() {
            self.faults.raise();
            return Err(IoFault::Failed);
        }
        let (_, rest) = self.bytes.slice().split_at(self.at);
        let count = rest.len().min(max as usize);
        let (first, _) = rest.split_at(count);
        let mut given = Octets::from_vec(given);
        given.extend(first)?;
        *piece = given;
        self.at += count;
        self.ended = self.ended || count == 0;
        Ok(())
    }

    fn done(&mut self)
        ensures { self.new ≡ record self.old { is_done = true } }
    {
        self.done = true;
    }
}

/// A source over any reader, as standard input. It tells no bytes.
///
/// A read that was interrupted is a fault as any other: nothing is read again by itself.
#[derive(Drop)]
pub struct ReadSource<R> {
    pub(crate) inner: R,
    pub(crate) faults: Faults,
    pub(crate) ended: bool,
    pub(crate) done: bool,
}

impl<R: Read> ReadSource<R> {
    ghost use Rattle.sp_io.specs.World.{read_faults, has_ended, reading_is_done};

    /// A source of what the reader gives from now on.
    pub fn over(inner: R) -> ReadSource<R>
        ensures faults { read_faults result ≡ 0 }
        ensures ended { has_ended result ≡ false }
        ensures open { reading_is_done result ≡ false }
    {
        ReadSource {
            inner,
            faults: Faults::none(),
            ended: false,
            done: false,
        }
    }
}

impl<R: Read> Source for ReadSource<R> {
    ghost use Rattle.sp_io.specs.World.{reader_of, read_faults, has_ended, reading_is_done};

    ghost faults = { read_faults };

    ghost left = { λ _. None };

    ghost passed = { λ _. None };

    ghost ended = { has_ended };

    ghost is_done = { reading_is_done };

    /// As every source, and beside that: what it answers was read, and nothing else was.
    fn take(&mut self, alloc: Global, piece: &mut Octets, max: u32) -> Result<(), IoFault>
        requires some { 0 < max }
        requires open { reading_is_done self.old ≡ false }
        ensures most { OnOk result (length piece.new ≤ max) }
        ensures none { OnErr result (piece.new ≡ []) }
        ensures read { let before = R.remaining (reader_of self.old) in
            let after = R.remaining (reader_of self.new) in
            MatchResult result (λ _. Consumes before after piece.new) (λ _. Keeps before after) }
        ensures end { OnOk result (piece.new ≡ [] → IsAtEnd (R.remaining (reader_of self.new))) }
        ensures ended { OnOk result (piece.new ≡ [] → has_ended self.new ≡ true) }
        ensures stays { has_ended self.old ≡ true → has_ended self.new ≡ true }
        ensures only_then { has_ended self.new ≡ true
            → (has_ended self.old ≡ true) ⊎ IsOkAnd result (λ _. piece.new ≡ []) }
        ensures open { reading_is_done self.new ≡ false }
        ensures cause { HasReadCause (read_faults self.old) (read_faults self.new) result }
    {
        let size = MOST_MOVED.min(max as usize);
        let mut buf = taken_out(alloc, piece);
        if buf.resize(size, 0).is_err() {
            return Err(IoFault::NoMemory);
        }
        match self.inner.read(&mut buf) {
            Ok(count) => {
                buf.truncate(count);
                self.ended = self.ended || count == 0;
                *piece = Octets::from_vec(buf);
                Ok(())
            }
            Err(_) => {
                self.faults.raise();
                Err(IoFault::Failed)
            }
        }
    }

    fn done(&mut self)
        ensures reader { reader_of self.new ≡ reader_of self.old }
        ensures faults { read_faults self.new ≡ read_faults self.old }
        ensures ended { has_ended self.new ≡ has_ended self.old }
        ensures done { reading_is_done self.new ≡ true }
    {
        self.done = true;
    }
}
