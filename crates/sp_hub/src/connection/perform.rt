ghost use Rattle.std.specs.Prelude.{◌≡◌, Some, IsSome};
ghost use Rattle.std.specs.FinMap as map;
ghost use Rattle.sp_base.specs.Table.{at};
ghost use Rattle.sp_base.specs.declared.call.Call.{Call};
ghost use Rattle.kern_model.specs.Journal.{next_entry, state_after};
ghost use Rattle.kern_model.specs.declared.journal.Who.TheVariants.{Request};
ghost use Rattle.kern_model.specs.declared.operation.Ins.{Ins};
ghost use Rattle.kern_model.specs.declared.operation.Op.TheVariants as op;
ghost use Rattle.hub_model.specs.State.{process_in};
ghost use Rattle.hub_model.specs.declared.state.OpenCall.{OpenCall};
ghost use Rattle.sp_hub.specs.Room.{HasExitRoom};
ghost use Rattle.sp_hub.specs.Work.{waiting, HasAll, Performs};

use crate::connection::Connection;
use crate::frames;
use crate::gathered::Gathered;
use hub_model::{OpenCall, Reply};
use kern_calls::Kernel;
use sp_base::{ConnNo, NoMemory, Pid, ReqNo, SpError};

impl Connection {
    /// Performs a call that has all that it reads, for the process of the connection, and queues what tells its outcome.
    ///
    /// Where the kernel isn't ready nothing changes. Where memory is refused the call ends unperformed, and an error is queued in
    /// the room that was kept for it.
    pub(crate) fn perform(
        &mut self,
        kernel: &mut Kernel,
        pid: Pid,
        no: ConnNo,
        number: ReqNo,
    ) -> Reply
        requires process { process_in self.old.condition ≡ Some pid }
        requires live { IsSome (at (state_after kernel.old.items).processes pid.0) }
        requires there { IsSome (map.get self.old.calls number.0) }
        requires gathered { (task : OpenCall) → map.get self.old.calls number.0 ≡ Some task
            → HasAll task }
        requires room { HasExitRoom kernel.old }
        ensures performs { (call : Call) (ins : Ins)
            → map.get self.old.calls number.0 ≡ Some (waiting call ins)
            → Performs no number
            (next_entry kernel.old.items pid (Request no number) (op.Sys call) ins)
            kernel.old.items self.old result kernel.new.items self.new }
        ensures room { HasExitRoom kernel.new }
    {
        let mut task = OpenCall::Answers;
        self.calls.swap(number.0, &mut task);
        let gathered = Gathered::of(task, pid, no, number);
        if !gathered.is_ready(kernel) {
            let mut task = gathered.into_task();
            self.calls.swap(number.0, &mut task);
            return Reply::NotReady;
        }
        match gathered.perform(kernel, &mut self.queue) {
            Ok(()) => Reply::Done,
            Err(NoMemory) => {
                self.queue
                    .put_kept(frames::refusal(number, 1, SpError::Memory));
                Reply::Refused(SpError::Memory)
            }
        }
    }
}
