// What a connection has still to do.
ghost use Rattle.std.specs.Prelude.{◌≡◌};
ghost use Rattle.std.specs.FinMap as map;
ghost use Rattle.std.specs.List.{list_any};
ghost use Rattle.hub_model.specs.Sound.{is_waiting};
ghost use Rattle.hub_model.specs.Still.{has_work};

use crate::connection::Connection;
use hub_model::OpenCall;

/// Whether a call isn't performed yet.
fn is_waiting(call: &OpenCall) -> bool
    ensures { result ≡ is_waiting call.now }
{
    !matches!(call, OpenCall::Answers)
}

impl Connection {
    /// Whether some call isn't performed yet.
    fn has_waiting(&self) -> bool
        ensures { result ≡ list_any is_waiting (map.values self.now.calls) }
    {
        self.calls.values().any(|call| is_waiting(call))
    }

    /// Whether a frame is queued, or some call isn't performed yet.
    pub(crate) fn has_work(&self) -> bool
        ensures { result ≡ has_work self.now }
    {
        self.queue.len() != 0 || self.has_waiting()
    }
}
