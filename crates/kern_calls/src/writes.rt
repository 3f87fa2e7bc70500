ghost use Rattle.std.specs.Prelude.{ℕ, true, false, ◌≡◌, ◌==◌, ◌+◌, ◌<◌, ◌^◌, length, IfOk, OnErr, IsSome, Some, Err};
ghost use Rattle.sp_base.specs.Table.{at};
ghost use Rattle.sp_base.specs.declared.errno.Errno.{Errno as Error};
ghost use Rattle.kern_nodes.specs.declared.fault.TreeFault.TheVariants as fault;
ghost use Rattle.kern_model.specs.declared.node.OpenFile.{OpenFile as FileOf};
ghost use Rattle.kern_model.specs.State.{State, kind_in};
ghost use Rattle.kern_model.specs.Step.{answered, failed};
ghost use Rattle.kern_model.specs.Files.{may_write, is_file_kind, write_start, write_node, truncate_file, act_write, act_pwrite, act_ftruncate};
ghost use Rattle.kern_model.specs.declared.node.Object.TheVariants as object;
ghost use Rattle.kern_model.specs.Sound.{IsSound};

use crate::parts::Parts;
use crate::reads::{at_offset, is_negative};
use kern_model::{Access, NodeKind, OpenFile, Outcome};
use kern_nodes::TreeFault;
use sp_base::{Errno, NoMemory, NodeNo, Pid};

/// Whether an access allows writing.
pub(crate) fn may_write(access: Access) -> bool
    ensures { result ≡ may_write access }
{
    !matches!(access, Access::Reading)
}

impl Parts {
    /// Writes the bytes that fit to a node from a start on, and answers how many these are. An error leaves all as it was.
    fn put(&mut self, node: u64, start: u64, bytes: &[u8]) -> Result<u32, TreeFault>
        requires there { IsSome (at self.old.nodes node) }
        requires some { (length bytes.now == 0) ≡ false }
        ensures ok { IfOk result (λ count. (file : FileOf) (after : State → ℕ → State)
            → may_write file.access ≡ true
            → write_node self.old node file start bytes.now after
            ≡ answered count (after self.new (start + count))) }
        ensures refused { (error : Error) → result ≡ Err (fault.Errno error)
            → (file : FileOf) (after : State → ℕ → State)
            → may_write file.access ≡ true
            → write_node self.old node file start bytes.now after ≡ failed error self.old }
        ensures end { IfOk result (λ count. start + count < 2 ^ 64) }
        ensures err { OnErr result (self.new ≡ self.old) }
        ensures processes { self.new.processes ≡ self.old.processes }
        ensures files { self.new.files ≡ self.old.files }
    {
        self.tree.write_at(NodeNo(node), start, bytes)
    }

    /// Where a write of an open file starts.
    fn write_start(&self, node: u64, file: OpenFile) -> u64
        requires { IsSome (at self.now.nodes node) }
        ensures { result ≡ write_start self.now node file }
    {
        if file.append {
            self.size(node)
        } else {
            file.offset
        }
    }

    /// write. Want of memory leaves the state as it was.
    pub(crate) fn write(&mut self, pid: Pid, fd: u64, bytes: &[u8]) -> Result<Outcome, NoMemory>
        requires live { IsSome (at self.old.processes pid.0) }
        requires sound { IsSound self.old }
        ensures ok { IfOk result (λ outcome. act_write self.old pid.0 fd bytes.now
            ≡ Some (outcome, self.new)) }
        ensures err { OnErr result (self.new ≡ self.old) }
    {
        let Some((_, file)) = self.file_of(pid, fd) else {
            return Ok(self.failed(Errno::Ebadf));
        };
        let node = file.object.node();
        if !may_write(file.access) {
            return Ok(self.failed(Errno::Ebadf));
        }
        if bytes.is_empty() {
            return Ok(self.done(0));
        }
        let start = self.write_start(node, file);
        match self.put(node, start, bytes) {
            Ok(count) => {
                self.set_file(pid, fd, at_offset(file, start + u64::from(count)));
                Ok(self.done(u64::from(count)))
            }
            Err(TreeFault::Errno(error)) => Ok(self.failed(error)),
            Err(TreeFault::NoMemory) => Err(NoMemory),
        }
    }

    /// pwrite. Want of memory leaves the state as it was.
    pub(crate) fn pwrite(
        &mut self,
        pid: Pid,
        fd: u64,
        bytes: &[u8],
        offset: u64,
    ) -> Result<Outcome, NoMemory>
        requires live { IsSome (at self.old.processes pid.0) }
        requires sound { IsSound self.old }
        ensures ok { IfOk result (λ outcome. act_pwrite self.old pid.0 fd bytes.now offset
            ≡ Some (outcome, self.new)) }
        ensures err { OnErr result (self.new ≡ self.old) }
    {
        let Some((_, file)) = self.file_of(pid, fd) else {
            return Ok(self.failed(Errno::Ebadf));
        };
        let node = file.object.node();
        if is_negative(offset) {
            return Ok(self.failed(Errno::Einval));
        }
        if !may_write(file.access) {
            return Ok(self.failed(Errno::Ebadf));
        }
        if bytes.is_empty() {
            return Ok(self.done(0));
        }
        match self.put(node, offset, bytes) {
            Ok(count) => Ok(self.done(u64::from(count))),
            Err(TreeFault::Errno(error)) => Ok(self.failed(error)),
            Err(TreeFault::NoMemory) => Err(NoMemory),
        }
    }

    /// ftruncate. Want of memory leaves the state as it was.
    pub(crate) fn ftruncate(&mut self, pid: Pid, fd: u64, len: u64) -> Result<Outcome, NoMemory>
        requires live { IsSome (at self.old.processes pid.0) }
        requires sound { IsSound self.old }
        ensures ok { IfOk result (λ outcome. act_ftruncate self.old pid.0 fd len
            ≡ Some (outcome, self.new)) }
        ensures err { OnErr result (self.new ≡ self.old) }
    {
        let Some((_, file)) = self.file_of(pid, fd) else {
            return Ok(self.failed(Errno::Ebadf));
        };
        let node = file.object.node();
        if !may_write(file.access) || !self.is_file(node) {
            return Ok(self.failed(Errno::Einval));
        }
        match self.tree.cut(NodeNo(node), len) {
            Ok(()) => Ok(self.done(0)),
            Err(TreeFault::Errno(error)) => Ok(self.failed(error)),
            Err(TreeFault::NoMemory) => Err(NoMemory),
        }
    }
}
