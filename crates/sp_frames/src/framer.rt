//! A stream of bytes, cut into frames.
ghost use Rattle.std.specs.Prelude.{List, ℕ, ◌≡◌, ◌≢◌, ◌⊎◌, ◌-◌, ◌≤◌, [], ◌∷◌, ◌++◌, length, take, drop, IfOk, IfErr, IfSome, IfNone, OnOk, OnErr, MatchOption, IsTrue, ◌↔◌, Err, None, Some, vec_len};
ghost use Rattle.sp_frames.specs.declared.fault.FrameFault.{FrameFault};
ghost use Rattle.sp_frames.specs.declared.fault.FrameFault.TheVariants as fault;
ghost use Rattle.sp_frames.specs.declared.frame.Frame.{Frame};
ghost use Rattle.sp_frames.specs.Grammar.{Fits};
ghost use Rattle.sp_frames.specs.Stream.{IsWhole};
ghost use Rattle.sp_frames.specs.Faults.{HasFault, NoFault};
ghost use Rattle.sp_frames.specs.Framing.{Held, bytes_of, Follows, IsFramed};
ghost use Rattle.sp_frames.specs.Feeding.{Joins, Feeds};

use crate::fault::FrameFault;
use crate::frame::Frame;
use crate::reading::{Step, read_step};
use sp_base::NoMemory;
use std::alloc::Global;
use std::collections::VecDeque;
use std::marker::Model;

/// What was taken off the front of bytes, and the fault after it.
#[derive(Clone, Copy, Drop)]
struct Taken {
    used: usize,
    stop: Option<FrameFault>,
}

/// Puts the whole frames at the front of the bytes behind a queue. An error leaves some of them there.
fn split(alloc: Global, ready: &mut VecDeque<Frame>, bytes: &[u8]) -> Result<Taken, NoMemory>
    ensures joins { IfOk result (λ t.
        Joins ready.old.items bytes.now ready.new.items (drop t.used bytes.now) t.stop) }
    ensures inside { IfOk result (λ t. t.used ≤ length bytes.now) }
    ensures front { take (length ready.old.items) ready.new.items ≡ ready.old.items }
{
    let mut used = 0;
    loop {
        let (_, rest) = bytes.split_at(used);
        match read_step(alloc, rest)? {
            Step::Whole(frame, len) => {
                ready.push_back(frame)?;
                used += len;
            }
            Step::Partial => return Ok(Taken { used, stop: None }),
            Step::Fault(fault) => {
                return Ok(Taken {
                    used,
                    stop: Some(fault),
                });
            }
        }
    }
}

/// The same; an error leaves the queue as it was.
fn join(alloc: Global, ready: &mut VecDeque<Frame>, bytes: &[u8]) -> Result<Taken, NoMemory>
    ensures joins { IfOk result (λ t.
        Joins ready.old.items bytes.now ready.new.items (drop t.used bytes.now) t.stop) }
    ensures inside { IfOk result (λ t. t.used ≤ length bytes.now) }
    ensures err { OnErr result (ready.new.items ≡ ready.old.items) }
{
    let waiting = ready.len();
    let taken = split(alloc, ready, bytes);
    if taken.is_err() {
        ready.truncate(waiting);
    }
    taken
}

/// Drops the first bytes. What is left moves, so nothing does where none is dropped.
fn remove_front(bytes: &mut Vec<u8>, count: usize)
    requires { count ≤ vec_len bytes.old }
    ensures { bytes.new.items ≡ drop count bytes.old.items }
{
    if count > 0 {
        let len = bytes.len();
        bytes.as_mut_slice().copy_within(count..len, 0);
        bytes.truncate(len - count);
    }
}

fn add(
    alloc: Global,
    ready: &mut VecDeque<Frame>,
    bytes: &mut Vec<u8>,
    piece: &[u8],
) -> Result<Option<FrameFault>, NoMemory>
    ensures joins { IfOk result (λ stop.
        Joins ready.old.items (bytes.old.items ++ piece.now) ready.new.items bytes.new.items stop) }
    ensures ready { OnErr result (ready.new.items ≡ ready.old.items) }
    ensures bytes { OnErr result (bytes.new.items ≡ bytes.old.items) }
{
    let held = bytes.len();
    bytes.extend_from_slice(piece)?;
    match join(alloc, ready, bytes) {
        Ok(taken) => {
            remove_front(bytes, taken.used);
            Ok(taken.stop)
        }
        Err(error) => {
            bytes.truncate(held);
            Err(error)
        }
    }
}

/// Gives back the frames of a stream of bytes, however the stream is cut into pieces.
///
/// Contracts see it as what it holds: the frames that are ready to be handed out, the bytes after
/// them, and the fault that those bytes begin with, once it was met.
#[derive(Drop)]
pub struct Framer {
    alloc: Global,
    ready: VecDeque<Frame>,
    bytes: Vec<u8>,
    stop: Option<FrameFault>,
}

impl Model for Framer {
    ghost use Rattle.sp_frames.specs.Framing.{Held, IsFramed};

    ghost Value = { Held };

    ghost view = { λ f. record { ready = f.ready.items; rest = f.bytes.items; stop = f.stop } };

    ghost invariant = { λ f. IsFramed (record { ready = f.ready.items; rest = f.bytes.items; stop = f.stop }) };
}

impl Framer {
    /// A framer that holds nothing. It takes no memory.
    pub fn fresh(alloc: Global) -> Framer
        ensures ready { result.ready ≡ [] }
        ensures rest { result.rest ≡ [] }
        ensures stop { result.stop ≡ None }
        ensures follows { Follows [] [] result }
    {
        Framer {
            alloc,
            ready: VecDeque::new(alloc),
            bytes: Vec::new(alloc),
            stop: None,
        }
    }

    /// Adds a piece of the stream, and makes ready the frames that it completes.
    ///
    /// A fault other than NoMemory comes exactly where the bytes after the last whole frame begin
    /// with it. The piece was then added, the frames before the fault are ready, and from then on
    /// every feed answers the same fault and adds nothing. After NoMemory the framer is as it was.
    pub fn feed(&mut self, piece: &[u8]) -> Result<(), FrameFault>
        // A fault that was met once is answered again, and nothing changes.
        ensures stopped { IfSome self.old.stop (λ e. (result ≡ Err e) × (self.new ≡ self.old)) }
        ensures memory { result ≡ Err fault.NoMemory → self.new ≡ self.old }

        // Otherwise the piece is added, and the answer tells the fault that begins the rest.
        ensures added { self.old.stop ≡ None → result ≢ Err fault.NoMemory
            → bytes_of self.new ≡ bytes_of self.old ++ piece.now }
        ensures ok { OnOk result ((self.new.stop ≡ None) × NoFault self.new.rest) }
        ensures fault { IfErr result (λ e. e ≢ fault.NoMemory
            → (self.new.stop ≡ Some e) × HasFault self.new.rest e) }
        ensures exact { self.old.stop ≡ None
            → (frames : List Frame) (rest : List ℕ) (e : FrameFault)
            → IsWhole (bytes_of self.old ++ piece.now) frames rest → HasFault rest e
            → (result ≡ Err e) ⊎ (result ≡ Err fault.NoMemory) }

        // The frames handed out, and then those ready, are the frames of all bytes fed.
        ensures follows { self.old.stop ≡ None → result ≢ Err fault.NoMemory
            → (fed : List ℕ) (handed : List Frame)
            → Follows fed handed self.old → Follows (fed ++ piece.now) handed self.new }
    {
        match self.stop {
            Some(fault) => Err(fault),
            None => self.add_piece(piece),
        }
    }

    fn add_piece(&mut self, piece: &[u8]) -> Result<(), FrameFault>
        requires { self.old.stop ≡ None }
        ensures feeds { Feeds None self.old piece.now result self.new }
        ensures framed { IsFramed self.new }
    {
        self.stop = add(self.alloc, &mut self.ready, &mut self.bytes, piece)?;
        match self.stop {
            None => Ok(()),
            Some(met) => Err(met),
        }
    }

    /// The oldest frame that was not handed out; None exactly where none is ready. It takes no memory.
    pub fn next(&mut self) -> Option<Frame>
        ensures next { MatchOption result (self.old.ready ≡ [])
            (λ frame. self.old.ready ≡ frame ∷ self.new.ready) }
        ensures none { IfNone result (self.new ≡ self.old) }
        ensures rest { self.new.rest ≡ self.old.rest }
        ensures stop { self.new.stop ≡ self.old.stop }
        ensures fits { IfSome result Fits }
        ensures follows { IfSome result (λ frame. (fed : List ℕ) (handed : List Frame)
            → Follows fed handed self.old → Follows fed (handed ++ frame ∷ []) self.new) }
    {
        self.ready.pop_front()
    }

    /// How many bytes stand after the last whole frame.
    pub fn unread(&self) -> usize
        ensures { result ≡ length self.now.rest }
    {
        self.bytes.len()
    }

    /// Whether bytes stand after the last whole frame.
    pub fn inside(&self) -> bool
        ensures { IsTrue result ↔ (self.now.rest ≢ []) }
    {
        !self.bytes.is_empty()
    }
}
