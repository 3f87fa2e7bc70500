ghost use Rattle.std.specs.Prelude.{ℕ, List, ◌≡◌, IfOk, OnErr, IsSome, IsTrue, Some, None, Ok};
ghost use Rattle.sp_base.specs.Needs.{ArePieces, needs_of};
ghost use Rattle.sp_base.specs.Table.{at};
ghost use Rattle.kern_model.specs.Act.{first, second, act, act_op, act_call};
ghost use Rattle.kern_model.specs.Journal.{FitsPid};
ghost use Rattle.kern_model.specs.Needs.{FitsIns, needs};
ghost use Rattle.kern_model.specs.Plain.{step_of};
ghost use Rattle.kern_model.specs.Sound.{IsSound};
ghost use Rattle.kern_calls.specs.Kernel.{is_steady, is_steady_call};

use crate::parts::Parts;
use kern_model::{Ins, Op, Outcome, Pieces};
use sp_base::{Call, Errno, NoMemory, Octets, Pid};

/// The first piece of what was gathered, empty where there is none.
fn first_piece(pieces: &[Octets]) -> &[u8]
    ensures { result.now ≡ first pieces.now }
{
    match pieces.first() {
        Some(piece) => piece.slice(),
        None => &[],
    }
}

/// The piece behind the first, empty where there is none.
fn second_piece(pieces: &[Octets]) -> &[u8]
    ensures { result.now ≡ second pieces.now }
{
    match pieces.split_first() {
        Some((_, rest)) => first_piece(rest),
        None => &[],
    }
}

impl Parts {
    /// Performs a system call that takes no memory.
    fn call_steady(&mut self, pid: Pid, call: &Call) -> Outcome
        requires live { IsSome (at self.old.processes pid.0) }
        requires sound { IsSound self.old }
        requires steady { IsTrue (is_steady_call call.now) }
        ensures { (pieces : List (List ℕ)) → act_call self.old pid.0 call.now pieces
            ≡ Some (result, self.new) }
    {
        match call {
            Call::Close { fd } => self.close(pid, *fd),
            Call::Lseek { fd, offset, whence } => self.lseek(pid, *fd, *offset, *whence),
            Call::Fcntl {
                fd,
                command,
                argument,
            } => self.fcntl(pid, *fd, *command, *argument),
            _ => unreachable!(),
        }
    }

    /// Performs an operation that has all that it reads, and takes no memory.
    fn perform_steady(&mut self, pid: Pid, op: &Op) -> Outcome
        requires process { FitsPid self.old pid.0 op.now }
        requires sound { IsSound self.old }
        requires steady { IsTrue (is_steady op.now) }
        ensures { (pieces : List (List ℕ)) → act_op self.old pid.0 op.now pieces
            ≡ Some (result, self.new) }
    {
        match op {
            Op::Sys(call) => self.call_steady(pid, call),
            Op::Exec => self.exec(pid),
            Op::Exit => self.exit(pid),
            _ => unreachable!(),
        }
    }

    /// Performs an operation that takes no memory.
    pub(crate) fn act_steady(&mut self, pid: Pid, op: &Op, ins: &Ins) -> Outcome
        requires process { FitsPid self.old pid.0 op.now }
        requires sound { IsSound self.old }
        requires steady { IsTrue (is_steady op.now) }
        ensures { act self.old pid.0 op.now ins.now ≡ Some (result, self.new) }
    {
        match ins {
            Ins::Fault(error) => self.failed(*error),
            Ins::Given(_) => self.perform_steady(pid, op),
        }
    }

    /// Performs a system call with the pieces that it read: None, and the same state, where the definition has no step.
    fn call(&mut self, pid: Pid, call: &Call, pieces: &Pieces) -> Result<Option<Outcome>, NoMemory>
        requires live { IsSome (at self.old.processes pid.0) }
        requires sound { IsSound self.old }
        requires pieces { ArePieces (needs_of call.now) pieces.now }
        ensures ok { IfOk result (λ answer. act_call self.old pid.0 call.now pieces.now
            ≡ step_of answer self.new) }
        ensures waits { result ≡ Ok None → self.new ≡ self.old }
        ensures err { OnErr result (self.new ≡ self.old) }
    {
        let first = first_piece(pieces.slice());
        let second = second_piece(pieces.slice());
        Ok(Some(match call {
            Call::Getpid => self.getpid(pid),
            Call::Open { flags, .. } => self.open(pid, first, *flags)?,
            Call::Close { fd } => self.close(pid, *fd),
            Call::Read { fd, out, len } => self.read(pid, *fd, *out, *len)?,
            Call::Write { fd, .. } => self.write(pid, *fd, first)?,
            Call::Pread {
                fd,
                out,
                len,
                offset,
            } => self.pread(pid, *fd, *out, *len, *offset)?,
            Call::Pwrite { fd, offset, .. } => self.pwrite(pid, *fd, first, *offset)?,
            Call::Lseek { fd, offset, whence } => self.lseek(pid, *fd, *offset, *whence),
            Call::Ftruncate { fd, len } => self.ftruncate(pid, *fd, *len)?,
            Call::Fstat { fd, out } => self.fstat(pid, *fd, *out)?,
            Call::Stat { out, .. } => self.stat(pid, first, *out)?,
            Call::Link { .. } => self.link(pid, first, second)?,
            Call::Unlink { .. } => self.unlink(pid, first),
            Call::Rename { .. } => self.rename(pid, first, second)?,
            Call::Mkdir { .. } => self.mkdir(pid, first)?,
            Call::Rmdir { .. } => self.rmdir(pid, first),
            Call::Chdir { .. } => self.chdir(pid, first),
            Call::Dup { fd } => self.dup(pid, *fd),
            Call::Dup2 { fd, new_fd } => self.dup2(pid, *fd, *new_fd),
            Call::Fcntl {
                fd,
                command,
                argument,
            } => self.fcntl(pid, *fd, *command, *argument),
            Call::Unknown { .. } => self.failed(Errno::Enosys),
            _ => return Ok(None),
        }))
    }

    /// Performs an operation that has all that it reads.
    fn perform(&mut self, pid: Pid, op: &Op, pieces: &Pieces) -> Result<Option<Outcome>, NoMemory>
        requires process { FitsPid self.old pid.0 op.now }
        requires sound { IsSound self.old }
        requires pieces { ArePieces (needs op.now) pieces.now }
        ensures ok { IfOk result (λ answer. act_op self.old pid.0 op.now pieces.now
            ≡ step_of answer self.new) }
        ensures waits { result ≡ Ok None → self.new ≡ self.old }
        ensures err { OnErr result (self.new ≡ self.old) }
    {
        match op {
            Op::Sys(call) => self.call(pid, call, pieces),
            Op::Attach => Ok(Some(self.attach()?)),
            Op::Fork => Ok(Some(self.fork(pid)?)),
            Op::Exec => Ok(Some(self.exec(pid))),
            Op::Exit => Ok(Some(self.exit(pid))),
        }
    }

    /// Performs an operation: the outcome that the definition gives in this state, and the state after it.
    /// None, exactly where the definition has no step, and want of memory leave the state as it was.
    pub(crate) fn act(&mut self, pid: Pid, op: &Op, ins: &Ins) -> Result<Option<Outcome>, NoMemory>
        requires process { FitsPid self.old pid.0 op.now }
        requires sound { IsSound self.old }
        requires ins { FitsIns op.now ins.now }
        ensures ok { IfOk result (λ answer. act self.old pid.0 op.now ins.now
            ≡ step_of answer self.new) }
        ensures waits { result ≡ Ok None → self.new ≡ self.old }
        ensures err { OnErr result (self.new ≡ self.old) }
    {
        match ins {
            Ins::Fault(error) => Ok(Some(self.failed(*error))),
            Ins::Given(pieces) => self.perform(pid, op, pieces),
        }
    }
}
