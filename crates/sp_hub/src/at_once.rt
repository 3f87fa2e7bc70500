ghost use Rattle.std.specs.Prelude.{◌≡◌, false, IfSome, IfNone, IsSome, Some};
ghost use Rattle.sp_base.specs.Table.{at};
ghost use Rattle.sp_base.specs.declared.names.Pid.{Pid};
ghost use Rattle.kern_model.specs.Journal.{state_after};
ghost use Rattle.hub_model.specs.State.{process_in};
ghost use Rattle.sp_frames.specs.Grammar.{Fits};
ghost use Rattle.hub_model.specs.Sound.{IsSound};
ghost use Rattle.sp_hub.specs.AtOnce.{AnswersAtOnce, IsReady};

use crate::connection::Connection;
use crate::gathered::Gathered;
use crate::machine::Core;
use crate::{frames, verdict};
use hub_model::Verdict;
use kern_calls::Kernel;
use sp_base::ConnNo;
use sp_fork::Cookies;
use sp_frames::Frame;

/// The call of a frame of a connection, where it can be performed at once; else None. Takes no memory.
fn ready_call(
    kernel: &Kernel,
    cookies: &Cookies,
    no: ConnNo,
    connection: &Connection,
    frame: &Frame,
) -> Option<Gathered>
    requires live { (pid : Pid) → process_in connection.now.condition ≡ Some pid
        → IsSome (at (state_after kernel.now.items).processes pid.0) }
    ensures { IfSome result (IsReady kernel.now.items cookies.now no connection.now frame.now) }
{
    let pid = connection.idle_process()?;
    let Verdict::Task(call) = verdict::on_frame(kernel, cookies, no, connection, frame) else {
        return None;
    };
    if call.need_at(0).is_some() || !call.outs_allowed().slice().is_empty() {
        return None;
    }
    let gathered = Gathered::of_call(kernel.alloc(), call, pid, no, frame.number);
    if gathered.is_ready(kernel) {
        Some(gathered)
    } else {
        None
    }
}

impl Core {
    /// The call of a frame is opened, performed and answered at once, where it can be; gives its response.
    ///
    /// None leaves all as it was.
    #[tactic(auto, using(crate::proofs::AtOnce::owner_lives))]
    pub(crate) fn at_once(&mut self, no: ConnNo, frame: &Frame) -> Option<Frame>
        requires running { self.old.halted ≡ false }
        requires sound { IsSound self.old }
        ensures plays { IfSome result (λ response.
            AnswersAtOnce self.old no frame.now response self.new) }
        ensures fits { IfSome result Fits }
        ensures none { IfNone result (self.new ≡ self.old) }
    {
        let connection = self.connections.get(no.0 as u64)?;
        let gathered = ready_call(&self.kernel, &self.cookies, no, connection, frame)?;
        let Ok(place) = gathered.act(&mut self.kernel) else {
            return None;
        };
        let mut connection = Connection::blank(self.alloc);
        self.connections.swap(no.0 as u64, &mut connection);
        connection.use_number(frame.number);
        self.connections.swap(no.0 as u64, &mut connection);
        match self.kernel.journal().last() {
            Some(entry) => Some(frames::answered(frame.number, &entry.outcome, place)),
            None => unreachable!(),
        }
    }
}
