//! The object that the threads play on.

use sp_base::Object;

/// Counts its calls, modulo 2^64.
#[derive(Drop)]
pub struct Counter {
    pub total: u64,
}

impl Object for Counter {
    ghost use Rattle.turn_bench.specs.Counts.{Ticks};

    type Event = ();

    type Reply = u64;

    ghost may_play = { λ _. Unit {0} };

    ghost step = { λ before _ reply after. Ticks before.total reply after.total };

    fn play(&mut self, _event: ()) -> u64 {
        self.total = self.total.wrapping_add(1);
        self.total
    }
}
