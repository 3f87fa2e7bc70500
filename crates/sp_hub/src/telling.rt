ghost use Rattle.std.specs.Prelude.{◌≡◌, ◌≤◌, ◌+◌, ◌++◌, length, map, OnOk, OnErr, IfOk};
ghost use Rattle.std.specs.List.{AllByRecursion};
ghost use Rattle.sp_frames.specs.Grammar.{Fits};
ghost use Rattle.hub_model.specs.Frames.{told, puts_from};
ghost use Rattle.sp_hub.specs.Outs.{HaveRooms};

use crate::blank::Blank;
use crate::frames;
use kern_model::{OutPiece, Outcome};
use sp_base::{Items, KeptQueue, NoMemory, Place, Range, ReqNo};
use sp_frames::Frame;
use std::alloc::Global;
use std::marker::Model;

/// The room that telling a call's outcome takes, but for its response: memory for what the call writes at each place where it
/// may write, and as many places in a queue.
#[derive(Drop)]
pub(crate) struct Telling {
    blanks: Items<Blank>,
}

impl Model for Telling {
    ghost use Rattle.std.specs.Prelude.{List, ℕ};
    ghost use Rattle.std.specs.Coded.{coded_list, coded_ℕ};

    ghost Value = { List ℕ };

    ghost coded = { coded_list coded_ℕ };

    ghost view = { λ t. t.blanks };
}

/// Memory for as many bytes as each range has.
fn blanks(alloc: Global, ranges: &[Range]) -> Result<Items<Blank>, NoMemory>
    ensures { IfOk result (λ blanks. blanks ≡ map (λ r. r.len) ranges.now) }
{
    let mut blanks = Items::none(alloc);
    for range in ranges {
        blanks.push(Blank::of(alloc, range.len)?)?;
    }
    Ok(blanks)
}

/// Queues a Put for each piece, counted from 0 on, in memory and places that were kept.
fn put_all(
    queue: &mut KeptQueue<Frame>,
    blanks: &mut Items<Blank>,
    number: ReqNo,
    pieces: &[OutPiece],
)
    requires rooms { HaveRooms blanks.old pieces.now }
    requires few { length blanks.old ≤ 8 }
    requires places { length blanks.old ≤ queue.old.spare }
    ensures items { queue.new.items ≡ queue.old.items ++ puts_from number 0 pieces.now }
    ensures spare { queue.new.spare + length blanks.old ≡ queue.old.spare + length blanks.new }
    ensures fits { AllByRecursion Fits queue.old.items → AllByRecursion Fits queue.new.items }
{
    for (index, piece) in pieces.iter().enumerate() {
        let Some(blank) = blanks.take_first() else {
            unreachable!()
        };
        let bytes = blank.filled(piece.bytes.slice());
        queue.put_kept(frames::put(number, index as u32, piece.addr, bytes));
    }
}

impl Telling {
    /// Takes the room for what is written at these places. An error leaves the queue as it was.
    pub(crate) fn room(
        alloc: Global,
        queue: &mut KeptQueue<Frame>,
        ranges: &[Range],
    ) -> Result<Telling, NoMemory>
        ensures room { IfOk result (λ telling. telling ≡ map (λ r. r.len) ranges.now) }
        ensures ok { OnOk result
            (queue.new ≡ record queue.old { spare = queue.old.spare + length ranges.now }) }
        ensures err { OnErr result (queue.new ≡ queue.old) }
    {
        let blanks = blanks(alloc, ranges)?;
        queue.keep(ranges.len())?;
        Ok(Telling { blanks })
    }

    /// Gives the places in the queue back.
    pub(crate) fn give_back(self, queue: &mut KeptQueue<Frame>)
        requires { length self ≤ queue.old.spare }
        ensures items { queue.new.items ≡ queue.old.items }
        ensures spare { queue.new.spare + length self ≡ queue.old.spare }
    {
        queue.free(self.blanks.len());
    }

    /// Queues what tells an outcome, and gives back the places that it doesn't need; takes no memory.
    pub(crate) fn tell(
        self,
        queue: &mut KeptQueue<Frame>,
        number: ReqNo,
        place: Place,
        outcome: &Outcome,
    )
        requires rooms { HaveRooms self outcome.now.outs }
        requires few { length self ≤ 8 }
        requires places { length self + 1 ≤ queue.old.spare }
        ensures items { queue.new.items ≡ queue.old.items ++ told number outcome.now place.0 }
        ensures spare { queue.new.spare + (length self + 1) ≡ queue.old.spare }
        ensures fits { AllByRecursion Fits queue.old.items
            → AllByRecursion Fits queue.new.items }
    {
        let mut blanks = self.blanks;
        put_all(queue, &mut blanks, number, outcome.outs.slice());
        queue.free(blanks.len());
        queue.put_kept(frames::answered(number, outcome, place));
    }
}
