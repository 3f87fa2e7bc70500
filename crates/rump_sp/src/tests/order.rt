// A peer that awaits the answer to each frame before it sends the next one.
ghost use Rattle.std.specs.Prelude.{◌≡◌, false, None};

use super::connection::{BANNER, CALL, ENOSYS, HANDSHAKE, HELLO};
use crate::top::rump_main;
use sp_base::Octets;
use sp_io::{Failed, IoFault, MemSalt, MemSink, Sink, Source};
use std::alloc::Global;
use std::cell::Cell;
use std::test::Fail;

/// A source of one frame a call, which looks at how many bytes were written by then.
#[derive(Drop)]
struct Peer<'a> {
    written: &'a Cell<u64>,
    calls: usize,
    /// At each call, all answers to the frames before it were written.
    answered: bool,
    ended: bool,
    done: bool,
}

/// A sink that only counts what is written to it.
#[derive(Drop)]
struct Counter<'a> {
    written: &'a Cell<u64>,
    done: bool,
}

/// The frame of a call of the peer, and how many bytes are written before it.
fn turn(call: usize) -> (&'static [u8], u64) {
    let banner = BANNER.len() as u64;
    let hello = HELLO.len() as u64;
    let answer = ENOSYS.len() as u64;
    match call {
        0 => (HANDSHAKE, banner),
        1 => (CALL, banner + hello),
        _ => (&[], banner + hello + answer),
    }
}

impl Source for Peer<'_> {
    ghost faults = { λ _. 0 };

    ghost left = { λ _. None };

    ghost passed = { λ _. None };

    ghost ended = { λ s. s.ended };

    ghost is_done = { λ s. s.done };

    fn take(&mut self, alloc: Global, piece: &mut Octets, max: u32) -> Result<(), IoFault> {
        *piece = Octets::none(alloc);
        let (frame, before) = turn(self.calls);
        self.answered = self.answered && self.written.get() == before;
        let (first, _) = frame.split_at(frame.len().min(max as usize));
        piece.extend(first)?;
        self.calls = self.calls.saturating_add(1);
        self.ended = self.ended || piece.is_empty();
        Ok(())
    }

    fn done(&mut self) {
        self.done = true;
    }
}

impl Sink for Counter<'_> {
    ghost faults = { λ _. 0 };

    ghost held = { λ _. None };

    ghost is_done = { λ s. s.done };

    fn put(&mut self, piece: &[u8]) -> Result<u32, Failed> {
        let count = piece.len().min(65_536) as u32;
        let before = self.written.get();
        self.written.set(before.saturating_add(u64::from(count)));
        Ok(count)
    }

    fn done(&mut self) {
        self.done = true;
    }
}

#[test]
fn answers_come_before_more_is_taken(rt: HostRuntime) -> Result<(), Fail> {
    let alloc = rt.alloc();
    let written = Cell::new(0);
    let mut peer = Peer {
        written: &written,
        calls: 0,
        answered: true,
        ended: false,
        done: false,
    };
    let mut counter = Counter {
        written: &written,
        done: false,
    };
    let mut salt = MemSalt::of(alloc, 0, &[])?;
    let mut err = MemSink::of(alloc, &[])?;
    let words = ["stdio"];
    let status = rump_main(alloc, &words, &mut salt, &mut peer, &mut counter, &mut err);
    assert_eq!(rt; status, 0);
    assert_eq!(rt; peer.calls, 3);
    assert!(rt; peer.answered);
    Ok(())
}
