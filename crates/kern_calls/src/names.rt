ghost use Rattle.std.specs.Prelude.{◌≡◌, ◌≤◌, ◌+◌, ◌==◌, length, slice_range, IfOk, OnErr, IsSome, Some, if◌then◌else◌};
ghost use Rattle.sp_base.specs.Table.{at};
ghost use Rattle.kern_model.specs.Files.{act_stat};
ghost use Rattle.kern_model.specs.Links.{act_chdir, act_link, act_mkdir, act_rmdir, act_unlink};
ghost use Rattle.sp_base.specs.declared.errno.Errno.TheVariants.{Ebusy, Einval};
ghost use Rattle.kern_model.specs.State.{root};
ghost use Rattle.kern_model.specs.Sound.{IsSound};
ghost use Rattle.kern_model.specs.State.{with_process, replace_directory};

use crate::parts::Parts;
use kern_model::{NodeKind, Outcome};
use kern_names::{Last, ROOT};
use kern_nodes::TreeFault;
use sp_base::{Errno, NoMemory, NodeNo, Pid};

/// The last component's name in a path's text.
pub(crate) fn name_in(text: &[u8], last: Last) -> &[u8]
    requires short { length text.now ≤ 1023 }
    requires fits { last.from + last.len ≤ length text.now }
    ensures { result.now ≡ slice_range text.now last.from (last.from + last.len) }
{
    &text[last.from as usize..(last.from + last.len) as usize]
}

/// Why what was found without a name of its own can't lose one: EBUSY of the root, EINVAL behind a last `.` or `..`.
pub(crate) fn unnamed_error(node: NodeNo) -> Errno
    ensures { result ≡ (if node.0 == root then Ebusy else Einval) }
{
    if node == ROOT {
        Errno::Ebusy
    } else {
        Errno::Einval
    }
}

impl Parts {
    /// stat. It changes nothing.
    pub(crate) fn stat(&self, pid: Pid, text: &[u8], addr: u64) -> Result<Outcome, NoMemory>
        requires live { IsSome (at self.now.processes pid.0) }
        requires sound { IsSound self.now }
        requires short { length text.now ≤ 1023 }
        ensures { IfOk result (λ outcome. act_stat self.now pid.0 text.now addr
            ≡ Some (outcome, self.now)) }
    {
        let found = match self.found(pid, text) {
            Ok(found) => found,
            Err(error) => return Ok(self.failed(error)),
        };
        let bytes = self.stat_bytes(found.node.0)?;
        self.wrote(0, addr, bytes)
    }

    /// Goes to another working directory.
    fn set_directory(&mut self, pid: Pid, node: NodeNo)
        requires { IsSome (at self.old.processes pid.0) }
        ensures { self.new
            ≡ with_process self.old pid.0 (replace_directory (at self.old.processes pid.0) node.0) }
    {
        self.opens.set_directory(pid, node);
    }

    /// chdir.
    pub(crate) fn chdir(&mut self, pid: Pid, text: &[u8]) -> Outcome
        requires live { IsSome (at self.old.processes pid.0) }
        requires sound { IsSound self.old }
        requires short { length text.now ≤ 1023 }
        ensures { act_chdir self.old pid.0 text.now ≡ Some (result, self.new) }
    {
        let found = match self.found(pid, text) {
            Ok(found) => found,
            Err(error) => return self.failed(error),
        };
        if !self.is_directory(found.node.0) {
            return self.failed(Errno::Enotdir);
        }
        self.set_directory(pid, found.node);
        self.done(0)
    }

    /// mkdir. Want of memory leaves the state as it was.
    pub(crate) fn mkdir(&mut self, pid: Pid, text: &[u8]) -> Result<Outcome, NoMemory>
        requires live { IsSome (at self.old.processes pid.0) }
        requires sound { IsSound self.old }
        requires short { length text.now ≤ 1023 }
        ensures ok { IfOk result (λ outcome. act_mkdir self.old pid.0 text.now
            ≡ Some (outcome, self.new)) }
        ensures err { OnErr result (self.new ≡ self.old) }
    {
        let last = match self.missing(pid, text) {
            Ok(last) => last,
            Err(error) => return Ok(self.failed(error)),
        };
        let name = name_in(text, last);
        match self.tree.create(last.directory, name, NodeKind::Directory) {
            Ok(_) => Ok(self.done(0)),
            Err(TreeFault::Errno(error)) => Ok(self.failed(error)),
            Err(TreeFault::NoMemory) => Err(NoMemory),
        }
    }

    /// unlink.
    pub(crate) fn unlink(&mut self, pid: Pid, text: &[u8]) -> Outcome
        requires live { IsSome (at self.old.processes pid.0) }
        requires sound { IsSound self.old }
        requires short { length text.now ≤ 1023 }
        ensures { act_unlink self.old pid.0 text.now ≡ Some (result, self.new) }
    {
        let found = match self.found(pid, text) {
            Ok(found) => found,
            Err(error) => return self.failed(error),
        };
        if self.is_directory(found.node.0) {
            return self.failed(Errno::Eperm);
        }
        let Some(last) = found.last else {
            unreachable!();
        };
        let name = name_in(text, last);
        match self.tree.unlink(last.directory, name) {
            Ok(()) => self.done(0),
            Err(_) => unreachable!(),
        }
    }

    /// rmdir.
    pub(crate) fn rmdir(&mut self, pid: Pid, text: &[u8]) -> Outcome
        requires live { IsSome (at self.old.processes pid.0) }
        requires sound { IsSound self.old }
        requires short { length text.now ≤ 1023 }
        ensures { act_rmdir self.old pid.0 text.now ≡ Some (result, self.new) }
    {
        let found = match self.found(pid, text) {
            Ok(found) => found,
            Err(error) => return self.failed(error),
        };
        if !self.is_directory(found.node.0) {
            return self.failed(Errno::Enotdir);
        }
        let Some(last) = found.last else {
            return self.failed(unnamed_error(found.node));
        };
        if !self.tree.is_empty(found.node) {
            return self.failed(Errno::Enotempty);
        }
        if self.opens.is_directory_of_some(found.node) {
            return self.failed(Errno::Ebusy);
        }
        let name = name_in(text, last);
        match self.tree.rmdir(last.directory, name) {
            Ok(()) => self.done(0),
            Err(_) => unreachable!(),
        }
    }

    /// link. Want of memory leaves the state as it was.
    pub(crate) fn link(&mut self, pid: Pid, old: &[u8], new: &[u8]) -> Result<Outcome, NoMemory>
        requires live { IsSome (at self.old.processes pid.0) }
        requires sound { IsSound self.old }
        requires short { length old.now ≤ 1023 }
        requires short_new { length new.now ≤ 1023 }
        ensures ok { IfOk result (λ outcome. act_link self.old pid.0 old.now new.now
            ≡ Some (outcome, self.new)) }
        ensures err { OnErr result (self.new ≡ self.old) }
    {
        let found = match self.found(pid, old) {
            Ok(found) => found,
            Err(error) => return Ok(self.failed(error)),
        };
        if self.is_directory(found.node.0) {
            return Ok(self.failed(Errno::Eperm));
        }
        let last = match self.missing(pid, new) {
            Ok(last) => last,
            Err(error) => return Ok(self.failed(error)),
        };
        if last.slash {
            return Ok(self.failed(Errno::Enoent));
        }
        let name = name_in(new, last);
        match self.tree.link(found.node, last.directory, name) {
            Ok(()) => Ok(self.done(0)),
            Err(TreeFault::Errno(error)) => Ok(self.failed(error)),
            Err(TreeFault::NoMemory) => Err(NoMemory),
        }
    }
}
