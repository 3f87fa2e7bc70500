//! Where bytes go.
ghost use Rattle.std.specs.Prelude.{◌≡◌, ◌≤◌, ◌++◌, [], List, ℕ, Bool, false, true, length, take, min, Option, None, Some, Contains, IsErr, IfOk, OnErr, MatchResult};
ghost use Rattle.std.specs.Io.KnownBytes.{Keeps, Appends};
ghost use Rattle.sp_io.specs.Causes.{HasCause, raised};
ghost use Rattle.sp_io.specs.Whole.{AppendsFirst};

use crate::MOST_MOVED;
use crate::calls::{Calls, Faults};
use crate::fault::Failed;
use sp_base::{NoMemory, Octets};
use std::alloc::Global;
use std::io::{self, Write};
use std::marker::Model;

/// Where bytes go.
///
/// A sink in memory tells its bytes, and contracts speak of them; one over the world tells none.
pub trait Sink {
    /// How often a call failed. It never falls; at 2^64 - 1 it stays.
    ghost faults: { Self → ℕ };

    /// The bytes that it took, where it tells them.
    ghost held: { Self → Option (List ℕ) };

    /// Whether it is done with. Only `done` changes that.
    ghost is_done: { Self → Bool };

    /// Takes first bytes of the piece, and answers how many: at least one, save of an empty piece.
    ///
    /// An error takes nothing of it, and comes only where the count of faults rose.
    fn put(&mut self, piece: &[u8]) -> Result<u32, Failed>
        requires { is_done self.old ≡ false }
        ensures most { IfOk result (λ count. count ≤ length piece.now) }
        ensures some { IfOk result (λ count. count ≡ 0 → piece.now ≡ []) }
        ensures held { MatchResult result
            (λ count. Appends (held self.old) (held self.new) (take count piece.now))
            (λ _. Keeps (held self.old) (held self.new)) }
        ensures open { is_done self.new ≡ false }
        ensures cause { HasCause (faults self.old) (faults self.new) result };

    /// Closes what is behind it. No byte is put into it afterwards.
    fn done(&mut self)
        ensures done { is_done self.new ≡ true }
        ensures faults { faults self.new ≡ faults self.old }
        ensures held { held self.new ≡ held self.old };
}

/// A sink in memory, some of whose calls fail. It tells its bytes.
///
/// One call takes at most 65,536 bytes. A call that has no memory for them fails. Contracts see the
/// sink as the bytes that it took, with its calls.
#[derive(Drop)]
pub struct MemSink {
    held: Octets,
    calls: Calls,
    faults: Faults,
    done: bool,
}

impl Model for MemSink {
    ghost use Rattle.sp_io.specs.Memory.{SinkState};

    ghost Value = { SinkState };

    ghost view = { λ s. record { held = s.held; fails = s.calls.fails.items; calls = s.calls.made; faults = s.faults; is_done = s.done } };
}

impl MemSink {
    ghost use Rattle.sp_io.specs.Memory.{fresh_sink};

    /// An empty sink. The calls of `put` whose numbers, from 0, are in `fails` answer Failed.
    pub fn of(alloc: Global, fails: &[u64]) -> Result<MemSink, NoMemory>
        ensures { IfOk result (λ sink. sink ≡ fresh_sink fails.now) }
    {
        Ok(MemSink {
            held: Octets::none(alloc),
            calls: Calls::of(alloc, fails)?,
            faults: Faults::none(),
            done: false,
        })
    }

    /// All bytes that it took, in order.
    pub fn bytes(&self) -> &[u8]
        ensures { result.now ≡ self.now.held }
    {
        self.held.slice()
    }
}

impl Sink for MemSink {
    ghost faults = { λ s. s.faults };

    ghost held = { λ s. Some s.held };

    ghost is_done = { λ s. s.is_done };

    /// As every sink, and beside that: the calls that are told to fail do; the others take all bytes
    /// of the piece, up to 65,536, or fail for want of memory.
    fn put(&mut self, piece: &[u8]) -> Result<u32, Failed>
        requires { self.old.is_done ≡ false }

        // which calls fail, and how many bytes the others take
        ensures fails { Contains self.old.fails self.old.calls → IsErr result }
        ensures count { IfOk result (λ count. count ≡ min (length piece.now) 65536) }
        ensures held { MatchResult result
            (λ count. self.new.held ≡ self.old.held ++ take count piece.now)
            (λ _. self.new.held ≡ self.old.held) }
        ensures open { self.new.is_done ≡ false }

        // how its calls are counted
        ensures calls { self.new.calls ≡ raised self.old.calls }
        ensures told { self.new.fails ≡ self.old.fails }
        ensures faults { MatchResult result (λ _. self.new.faults ≡ self.old.faults)
            (λ _. self.new.faults ≡ raised self.old.faults) }
        ensures cause { HasCause self.old.faults self.new.faults result }
    {
        let count = piece.len().min(MOST_MOVED);
        if self.calls.next_fails() || self.held.extend(&piece[..count]).is_err() {
            self.faults.raise();
            return Err(Failed);
        }
        Ok(count as u32)
    }

    fn done(&mut self)
        ensures { self.new ≡ record self.old { is_done = true } }
    {
        self.done = true;
    }
}

/// A sink over any writer, as standard output. It tells no bytes.
///
/// Each put writes once and flushes, so that a peer may await the bytes before it sends more. A write
/// that was interrupted is a fault as any other. Where only the flush fails, the put fails too, and
/// whether the writer took the bytes is not known.
#[derive(Drop)]
pub struct WriteSink<W> {
    pub(crate) inner: W,
    pub(crate) faults: Faults,
    pub(crate) done: bool,
}

impl<W: Write> WriteSink<W> {
    ghost use Rattle.sp_io.specs.World.{write_faults, writing_is_done};

    /// A sink that writes into the writer.
    pub fn over(inner: W) -> WriteSink<W>
        ensures faults { write_faults result ≡ 0 }
        ensures open { writing_is_done result ≡ false }
    {
        WriteSink {
            inner,
            faults: Faults::none(),
            done: false,
        }
    }
}

/// Writes first bytes of the piece and flushes them; answers how many.
fn write_through<W: Write>(writer: &mut W, piece: &[u8]) -> Result<usize, io::Error>
    ensures count { IfOk result (λ count. count ≤ length piece.now) }
    ensures written { IfOk result (λ count.
        Appends (W.contents writer.old) (W.contents writer.new) (take count piece.now)) }
    ensures front { OnErr result
        (AppendsFirst (W.contents writer.old) (W.contents writer.new) piece.now) }
{
    let count = writer.write(piece)?;
    writer.flush()?;
    Ok(count)
}

impl<W: Write> Sink for WriteSink<W> {
    ghost use Rattle.sp_io.specs.World.{writer_of, write_faults, writing_is_done};

    ghost faults = { write_faults };

    ghost held = { λ _. None };

    ghost is_done = { writing_is_done };

    /// As every sink, and beside that: the writer took the bytes that it answers for, and no others;
    /// where it fails the writer took first bytes of the piece, maybe none.
    fn put(&mut self, piece: &[u8]) -> Result<u32, Failed>
        requires { writing_is_done self.old ≡ false }
        ensures most { IfOk result (λ count. count ≤ length piece.now) }
        ensures some { IfOk result (λ count. count ≡ 0 → piece.now ≡ []) }
        ensures written { let before = W.contents (writer_of self.old) in
            let after = W.contents (writer_of self.new) in
            IfOk result (λ count. Appends before after (take count piece.now)) }
        ensures front { let before = W.contents (writer_of self.old) in
            let after = W.contents (writer_of self.new) in
            OnErr result (AppendsFirst before after piece.now) }
        ensures open { writing_is_done self.new ≡ false }
        ensures cause { HasCause (write_faults self.old) (write_faults self.new) result }
    {
        let most = piece.len().min(MOST_MOVED);
        match write_through(&mut self.inner, &piece[..most]) {
            Ok(count) if count > 0 || piece.is_empty() => Ok(count as u32),
            _ => {
                self.faults.raise();
                Err(Failed)
            }
        }
    }

    fn done(&mut self)
        ensures writer { writer_of self.new ≡ writer_of self.old }
        ensures faults { write_faults self.new ≡ write_faults self.old }
        ensures done { writing_is_done self.new ≡ true }
    {
        self.done = true;
    }
}
