ghost use Rattle.std.specs.Prelude.{◌≡◌, IfOk, OnErr, IsSome, Some};
ghost use Rattle.sp_base.specs.Table.{at};
ghost use Rattle.kern_model.specs.Descriptors.{act_attach, act_fork, act_exec, act_exit, act_getpid};
ghost use Rattle.kern_model.specs.Sound.{IsHeld, IsSound};

use crate::parts::Parts;
use crate::rows::close_rows;
use kern_model::Outcome;
use kern_open::ProcFault;
use sp_base::{DESCRIPTORS, Errno, NoMemory, Pid};

impl Parts {
    /// A new process in the root directory. Want of memory leaves the state as it was.
    pub(crate) fn attach(&mut self) -> Result<Outcome, NoMemory>
        ensures ok { IfOk result (λ outcome. act_attach self.old ≡ Some (outcome, self.new)) }
        ensures err { OnErr result (self.new ≡ self.old) }
    {
        match self.opens.attach() {
            Ok(pid) => Ok(self.done(u64::from(pid.0))),
            Err(ProcFault::Full) => Ok(self.failed(Errno::Eagain)),
            Err(ProcFault::NoMemory) => Err(NoMemory),
        }
    }

    /// A new process with all that another has. Want of memory leaves the state as it was.
    pub(crate) fn fork(&mut self, pid: Pid) -> Result<Outcome, NoMemory>
        requires { IsSome (at self.old.processes pid.0) }
        ensures ok { IfOk result (λ outcome. act_fork self.old pid.0 ≡ Some (outcome, self.new)) }
        ensures err { OnErr result (self.new ≡ self.old) }
    {
        match self.opens.fork(pid) {
            Ok(child) => Ok(self.done(u64::from(child.0))),
            Err(ProcFault::Full) => Ok(self.failed(Errno::Eagain)),
            Err(ProcFault::NoMemory) => Err(NoMemory),
        }
    }

    /// Another program takes the process: its marked rows are closed.
    pub(crate) fn exec(&mut self, pid: Pid) -> Outcome
        requires live { IsSome (at self.old.processes pid.0) }
        requires held { IsHeld self.old }
        ensures { act_exec self.old pid.0 ≡ Some (result, self.new) }
    {
        close_rows(self, true, pid, DESCRIPTORS);
        self.done(0)
    }

    /// The process ends: its rows are closed.
    pub(crate) fn exit(&mut self, pid: Pid) -> Outcome
        requires live { IsSome (at self.old.processes pid.0) }
        requires sound { IsSound self.old }
        ensures { act_exit self.old pid.0 ≡ Some (result, self.new) }
    {
        close_rows(self, false, pid, DESCRIPTORS);
        self.end(pid);
        self.done(0)
    }

    /// The process's number.
    pub(crate) fn getpid(&self, pid: Pid) -> Outcome
        ensures { act_getpid self.now pid.0 ≡ Some (result, self.now) }
    {
        self.done(u64::from(pid.0))
    }
}
