//! Whole sources read, and whole texts written.
ghost use Rattle.std.specs.Prelude.{◌≡◌, ◌+◌, ◌≤◌, true, false, length, OnOk, OnErr, IfOk, IsErrOf};
ghost use Rattle.std.specs.Io.KnownBytes.{Appends, Consumes};
ghost use Rattle.sp_io.specs.Causes.{HasCause, HasWholeCause};
ghost use Rattle.sp_io.specs.declared.fault.TakeFault.TheVariants as fault;
ghost use Rattle.sp_io.specs.Whole.{IsAll, IsLonger, TakesAtMost, AppendsFirst};

use crate::MOST_MOVED;
use crate::fault::{Failed, TakeFault};
use crate::sink::Sink;
use crate::source::Source;
use sp_base::Octets;
use std::alloc::Global;

/// Reads a source to its end: all that it has left, which is at most `most` bytes.
///
/// TooLong comes only where more are left, and then no text is answered; Failed comes only where a
/// read failed. What was read before an error is lost. In any case no more than `most + 1` bytes are
/// taken: reading stops at the first piece that passes `most`.
pub fn take_all<S: Source>(alloc: Global, source: &mut S, most: u32) -> Result<Octets, TakeFault>
    requires { S.is_done source.old ≡ false }

    // what the text is
    ensures all { IfOk result (IsAll (S.left source.old)) }
    ensures few { IfOk result (λ text. length text ≤ most) }
    ensures left { IfOk result (Consumes (S.left source.old) (S.left source.new)) }
    ensures passed { IfOk result (Appends (S.passed source.old) (S.passed source.new)) }
    ensures ended { OnOk result (S.ended source.new ≡ true) }

    // when each error comes
    ensures too_long { IsErrOf result fault.TooLong → IsLonger (S.left source.old) most }
    ensures cause { HasWholeCause (S.faults source.old) (S.faults source.new) result }

    // what stays
    ensures taken { TakesAtMost (S.left source.old) (S.left source.new)
        (S.passed source.old) (S.passed source.new) (most + 1) }
    ensures open { S.is_done source.new ≡ false }
{
    let mut text = Octets::none(alloc);
    let mut piece = Octets::none(alloc);
    loop {
        let room = most as usize - text.len() + 1;
        source.take(alloc, &mut piece, room.min(MOST_MOVED) as u32)?;
        if piece.is_empty() {
            return Ok(text);
        }
        if piece.len() == room {
            return Err(TakeFault::TooLong);
        }
        text.extend(piece.slice())?;
    }
}

/// Puts all of the bytes into a sink, in order.
///
/// After an error the sink holds first bytes of them; how many is not told.
pub fn put_all<K: Sink>(sink: &mut K, bytes: &[u8]) -> Result<(), Failed>
    requires { K.is_done sink.old ≡ false }
    ensures all { OnOk result (Appends (K.held sink.old) (K.held sink.new) bytes.now) }
    ensures front { OnErr result (AppendsFirst (K.held sink.old) (K.held sink.new) bytes.now) }
    ensures cause { HasCause (K.faults sink.old) (K.faults sink.new) result }
    ensures open { K.is_done sink.new ≡ false }
{
    let mut rest = bytes;
    while !rest.is_empty() {
        let count = sink.put(rest)?;
        let (_, after) = rest.split_at(count as usize);
        rest = after;
    }
    Ok(())
}
