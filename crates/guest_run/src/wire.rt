//! One direction of the link between a client and its server.
ghost use Rattle.std.specs.Prelude.{◌≡◌, IfOk};
ghost use Rattle.sp_frames.specs.Grammar.{Fits};
ghost use Rattle.guest_run.specs.Wire.{IsIdle};

use sp_base::{NoMemory, Octets};
use sp_frames::{Frame, FrameFault, Framer, encode};
use std::alloc::Global;
use std::marker::Model;

/// A direction of the link. Frames pass it as bytes, one at a time, so nothing is under way between
/// two calls.
#[derive(Drop)]
pub struct Wire {
    alloc: Global,
    framer: Framer,
}

impl Model for Wire {
    ghost use Rattle.sp_frames.specs.Framing.{Held};
    ghost use Rattle.guest_run.specs.Wire.{IsIdle};

    ghost Value = { Held };

    ghost view = { λ w. w.framer };

    ghost invariant = { λ w. IsIdle w.framer };
}

/// The frame that the framer gives for the bytes of a frame.
fn pass(alloc: Global, framer: &mut Framer, frame: &Frame) -> Result<Frame, NoMemory>
    requires fits { Fits frame.now }
    requires idle { IsIdle framer.old }
    ensures same { IfOk result (λ passed. passed ≡ frame.now) }
    ensures idle { IsIdle framer.new }
{
    let mut bytes = Octets::none(alloc);
    encode(alloc, frame, &mut bytes)?;
    match framer.feed(bytes.slice()) {
        Ok(()) => match framer.next() {
            Some(passed) => Ok(passed),
            None => unreachable!(),
        },
        Err(fault) => match fault {
            FrameFault::NoMemory => Err(NoMemory),
            _ => unreachable!(),
        },
    }
}

impl Wire {
    /// A direction on which nothing was sent yet.
    pub fn fresh(alloc: Global) -> Wire
        ensures { IsIdle result }
    {
        Wire {
            alloc,
            framer: Framer::fresh(alloc),
        }
    }

    /// Sends a frame as its bytes, and gives what comes out of them: that frame, and nothing is
    /// left. The only error is want of memory.
    pub fn send(&mut self, frame: &Frame) -> Result<Frame, NoMemory>
        requires { Fits frame.now }
        ensures { IfOk result (λ passed. passed ≡ frame.now) }
    {
        pass(self.alloc, &mut self.framer, frame)
    }
}
