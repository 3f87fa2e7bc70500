// Whether something goes on by itself.
ghost use Rattle.std.specs.Prelude.{◌≡◌, not};
ghost use Rattle.std.specs.FinMap as map;
ghost use Rattle.std.specs.List.{list_any};
ghost use Rattle.client_model.specs.Run.{is_still as is_client_still};
ghost use Rattle.sp_world.specs.Happens.{Happens};
ghost use Rattle.sp_world.specs.Steps.{HaveSteps};
ghost use Rattle.world_model.specs.Host.{is_ready, may_ask};
ghost use Rattle.world_model.specs.Still.{is_empty_link, is_still};

use crate::parts::Parts;
use world_model::{Event, HostCall, Reply};

impl Parts {
    /// Whether some link has a frame under way.
    fn has_frame_under_way(&self) -> bool
        ensures { result ≡ list_any (λ l. not (is_empty_link l)) (map.values self.now.links) }
    {
        self.links.values().any(|link| !link.is_empty())
    }

    /// Whether some client has a frame to send, or an answer to be collected.
    fn has_busy_client(&self) -> bool
        ensures { result ≡ list_any (λ k. not (is_client_still k)) (map.values self.now.clients) }
    {
        self.clients.values().any(|client| !client.is_still())
    }

    /// Whether an operation that waits for the host's kernel could be performed now.
    #[tactic(auto, using(crate::proofs::HostLaws::ready_is))]
    fn is_ready(&self, call: &HostCall) -> bool
        ensures { result ≡ is_ready self.now call.now }
    {
        self.may_ask(call.pid, &call.op) && self.host.ready(call.pid, &call.op, &call.ins)
    }

    /// Whether some operation that waits for the host's kernel could be performed now.
    fn has_ready_call(&self) -> bool
        ensures { result ≡ list_any (λ call. is_ready self.now call) self.now.waiting }
    {
        self.waiting.iter().any(|call| self.is_ready(call))
    }

    /// Whether no frame is under way or queued, no call that waits at the server could go on, no
    /// answer is to be collected, and no operation that waits for the host's kernel could go on.
    #[tactic(auto, using(crate::proofs::StillLaws::still_is))]
    pub(crate) fn is_still(&self) -> bool
        requires { HaveSteps self.now.rump }
        ensures { result ≡ is_still self.now }
    {
        !self.has_frame_under_way()
            && self.hub.is_idle()
            && !self.has_busy_client()
            && !self.has_ready_call()
    }

    /// It is asked whether the world is still.
    pub(crate) fn give_up(&mut self) -> Reply
        requires { HaveSteps self.old.rump }
        ensures { Happens self.old Event.GiveUp result self.new }
    {
        if self.is_still() {
            Reply::Still
        } else {
            Reply::NotStill
        }
    }
}
