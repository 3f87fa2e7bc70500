ghost use Rattle.std.specs.Prelude.{◌≡◌, Some, Bool, false, IfSome, IsSome, length, slice_get};
ghost use Rattle.std.specs.FinMap as map;
ghost use Rattle.std.specs.Option.{option_map};
ghost use Rattle.sp_base.specs.Needs.{needs_of};
ghost use Rattle.sp_base.specs.declared.call.Call.{Call};
ghost use Rattle.sp_frames.specs.Grammar.{Fits};
ghost use Rattle.kern_model.specs.declared.operation.Ins.{Ins};
ghost use Rattle.hub_model.specs.Frames.{ask};
ghost use Rattle.hub_model.specs.Machine.{Plays};
ghost use Rattle.hub_model.specs.Sound.{IsSound};
ghost use Rattle.hub_model.specs.State as state;
ghost use Rattle.hub_model.specs.Work.{perform};
ghost use Rattle.hub_model.specs.declared.event.Event.TheVariants as event;
ghost use Rattle.hub_model.specs.declared.state.OpenCall.{OpenCall};
ghost use Rattle.sp_hub.specs.Work.{waiting, HasAll, IsAsked};

use crate::connection::Connection;
use crate::frames;
use crate::machine::{Core, process_in};
use hub_model::{OpenCall, Reply};
use kern_model::Pieces;
use sp_base::{Call, ConnNo, NoMemory, ReqNo};
use sp_frames::Frame;

/// An ask for the next of what a call reads; None where it has all.
#[tactic(auto, using(crate::proofs::Asks::index_small))]
fn next_ask(number: ReqNo, call: &Call, got: &Pieces) -> Option<Frame>
    ensures ask { result ≡ option_map (λ need. ask number (length got.now) need)
        (slice_get (needs_of call.now) (length got.now)) }
    ensures fits { IfSome result Fits }
{
    let need = *call.needs().slice().get(got.len())?;
    Some(frames::ask(number, got.len() as u32, need))
}

impl Core {
    /// An open call of a connection is worked.
    ///
    /// A call that still reads something asks for it, where no ask is out: NoMemory comes only where the memory for an ask is
    /// refused, and then all is as it was. A call that has all that it reads is performed where the kernel is ready, and what
    /// tells its outcome is queued; where memory for that is refused it ends unperformed, with an error.
    pub(crate) fn work(&mut self, no: ConnNo, number: ReqNo) -> Reply
        requires running { self.old.halted ≡ false }
        requires sound { IsSound self.old }
        ensures plays { Plays self.old (event.Work no number) result self.new }
    {
        let Some(connection) = self.connections.get(no.0 as u64) else {
            return Reply::Nothing;
        };
        match connection.call(number) {
            None | Some(OpenCall::Answers) => Reply::Nothing,
            Some(OpenCall::Gathers { asked: true, .. }) => Reply::AwaitsAnswer,
            Some(OpenCall::Gathers { call, got, .. }) => match next_ask(number, call, got) {
                Some(ask) => self.ask(no, number, ask),
                None => self.perform(no, number),
            },
            Some(OpenCall::Fails { .. }) => self.perform(no, number),
        }
    }

    /// Queues an ask for what a call reads next. NoMemory leaves all as it was.
    fn ask(&mut self, no: ConnNo, number: ReqNo, ask: Frame) -> Reply
        requires there { IsSome (map.get self.old.connections no.0) }
        requires call { (x : state.Connection) → map.get self.old.connections no.0 ≡ Some x
            → IsSome (map.get x.calls number.0) }
        requires fits { Fits ask }
        ensures { IsAsked self.old no number ask result self.new }
    {
        let mut connection = Connection::blank(self.alloc);
        self.connections.swap(no.0 as u64, &mut connection);
        let result = connection.ask(number, ask);
        self.connections.swap(no.0 as u64, &mut connection);
        match result {
            Ok(()) => Reply::Asked,
            Err(NoMemory) => Reply::NoMemory,
        }
    }

    /// Performs a call that has all that it reads, for the process of its connection.
    #[tactic(auto, using(crate::proofs::At::live_at))]
    fn perform(&mut self, no: ConnNo, number: ReqNo) -> Reply
        requires sound { IsSound self.old }
        requires there { IsSome (map.get self.old.connections no.0) }
        requires gathered { (x : state.Connection) → map.get self.old.connections no.0 ≡ Some x
            → (task : OpenCall) × (map.get x.calls number.0 ≡ Some task) × HasAll task }
        ensures { (x : state.Connection) (call : Call) (ins : Ins)
            → map.get self.old.connections no.0 ≡ Some x
            → map.get x.calls number.0 ≡ Some (waiting call ins)
            → (memory : Bool) × ((result, self.new)
            ≡ perform memory self.old no x number call ins (state.process_in x.condition)) }
    {
        let Some(condition) = self.condition(no) else {
            return Reply::Nothing;
        };
        let Some(pid) = process_in(condition) else {
            return Reply::Nothing;
        };
        let mut connection = Connection::blank(self.alloc);
        self.connections.swap(no.0 as u64, &mut connection);
        let reply = connection.perform(&mut self.kernel, pid, no, number);
        self.connections.swap(no.0 as u64, &mut connection);
        reply
    }
}
