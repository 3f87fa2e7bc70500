ghost use Rattle.std.specs.Prelude.{◌≡◌, ◌≤◌, IsSome, Some};
ghost use Rattle.sp_base.specs.Table.{at};
ghost use Rattle.kern_model.specs.declared.node.Row.{Row as RowOf};
ghost use Rattle.kern_model.specs.State.{rows_of};
ghost use Rattle.kern_model.specs.Descriptors.{act_close, act_dup, act_dup2, act_fcntl, act_duplicate_from, act_get_flag, act_set_flag, act_get_status, act_set_status, duplicate, flag_number, access_number, has_bit, status_number};
ghost use Rattle.kern_model.specs.Sound.{IsHeld};

use crate::parts::Parts;
use kern_model::{Access, OpenFile, Outcome};
use sp_base::{DESCRIPTORS, Errno, Fd, Pid};

/// Whether a bit of a word is set.
pub(crate) fn has_bit(word: u64, bit: u64) -> bool
    ensures { result ≡ has_bit word bit }
{
    word & bit == bit
}

/// 1 for a flag that is set.
fn flag_number(flag: bool) -> u64
    ensures value { result ≡ flag_number flag }
    ensures most { result ≤ 1 }
{
    if flag { 1 } else { 0 }
}

/// The access as open's flags give it.
fn access_number(access: Access) -> u64
    ensures value { result ≡ access_number access }
    ensures most { result ≤ 2 }
{
    match access {
        Access::Reading => 0,
        Access::Writing => 1,
        Access::Both => 2,
    }
}

/// The status of an open file.
fn status_number(file: OpenFile) -> u64
    ensures { result ≡ status_number file }
{
    access_number(file.access) + 4 * flag_number(file.nonblock) + 8 * flag_number(file.append)
}

impl Parts {
    /// close.
    pub(crate) fn close(&mut self, pid: Pid, fd: u64) -> Outcome
        requires live { IsSome (at self.old.processes pid.0) }
        requires held { IsHeld self.old }
        ensures { act_close self.old pid.0 fd ≡ Some (result, self.new) }
    {
        if self.row(pid, fd).is_none() {
            return self.failed(Errno::Ebadf);
        }
        self.close_row(pid, fd);
        self.done(0)
    }

    /// The lowest unused descriptor from `least` on gets the open file of a descriptor.
    fn duplicate(&mut self, pid: Pid, fd: u64, least: u64) -> Outcome
        requires live { IsSome (at self.old.processes pid.0) }
        requires open { IsSome (at (rows_of self.old pid.0) fd) }
        ensures { (row : RowOf) → at (rows_of self.old pid.0) fd ≡ Some row
            → duplicate self.old pid.0 row least ≡ Some (result, self.new) }
    {
        let Some(to) = self.share(pid, fd, least) else {
            return self.failed(Errno::Emfile);
        };
        self.done(u64::from(to.0))
    }

    /// dup.
    pub(crate) fn dup(&mut self, pid: Pid, fd: u64) -> Outcome
        requires { IsSome (at self.old.processes pid.0) }
        ensures { act_dup self.old pid.0 fd ≡ Some (result, self.new) }
    {
        if self.row(pid, fd).is_none() {
            return self.failed(Errno::Ebadf);
        }
        self.duplicate(pid, fd, 0)
    }

    /// dup2.
    pub(crate) fn dup2(&mut self, pid: Pid, fd: u64, new_fd: u64) -> Outcome
        requires live { IsSome (at self.old.processes pid.0) }
        requires held { IsHeld self.old }
        ensures { act_dup2 self.old pid.0 fd new_fd ≡ Some (result, self.new) }
    {
        if self.row(pid, fd).is_none() {
            return self.failed(Errno::Ebadf);
        }
        if new_fd >= DESCRIPTORS {
            return self.failed(Errno::Ebadf);
        }
        if fd == new_fd {
            return self.done(new_fd);
        }
        self.share_to(pid, fd, Fd(new_fd as u32));
        self.done(new_fd)
    }

    /// fcntl F_DUPFD.
    fn duplicate_from(&mut self, pid: Pid, fd: u64, least: u64) -> Outcome
        requires live { IsSome (at self.old.processes pid.0) }
        requires open { IsSome (at (rows_of self.old pid.0) fd) }
        ensures { (row : RowOf) → at (rows_of self.old pid.0) fd ≡ Some row
            → act_duplicate_from self.old pid.0 row least ≡ Some (result, self.new) }
    {
        if least >= DESCRIPTORS {
            return self.failed(Errno::Einval);
        }
        self.duplicate(pid, fd, least)
    }

    /// fcntl F_SETFD.
    fn set_flag(&mut self, pid: Pid, fd: u64, argument: u64) -> Outcome
        requires live { IsSome (at self.old.processes pid.0) }
        requires open { IsSome (at (rows_of self.old pid.0) fd) }
        ensures { (row : RowOf) → at (rows_of self.old pid.0) fd ≡ Some row
            → act_set_flag self.old pid.0 fd row argument ≡ Some (result, self.new) }
    {
        self.mark(pid, fd, has_bit(argument, 1));
        self.done(0)
    }

    /// fcntl F_GETFL.
    fn get_status(&self, pid: Pid, fd: u64) -> Outcome
        requires { IsSome (at self.now.processes pid.0) }
        ensures { (row : RowOf) → at (rows_of self.now pid.0) fd ≡ Some row
            → act_get_status self.now row ≡ Some (result, self.now) }
    {
        match self.file_of(pid, fd) {
            Some((_, file)) => self.done(status_number(file)),
            None => self.failed(Errno::Ebadf),
        }
    }

    /// fcntl F_SETFL.
    fn set_status(&mut self, pid: Pid, fd: u64, argument: u64) -> Outcome
        requires live { IsSome (at self.old.processes pid.0) }
        requires held { IsHeld self.old }
        requires open { IsSome (at (rows_of self.old pid.0) fd) }
        ensures { (row : RowOf) → at (rows_of self.old pid.0) fd ≡ Some row
            → act_set_status self.old row argument ≡ Some (result, self.new) }
    {
        let Some((_, file)) = self.file_of(pid, fd) else {
            return self.failed(Errno::Ebadf);
        };
        let changed = OpenFile {
            object: file.object,
            access: file.access,
            append: has_bit(argument, 8),
            nonblock: has_bit(argument, 4),
            offset: file.offset,
        };
        self.set_file(pid, fd, changed);
        self.done(0)
    }

    /// fcntl.
    pub(crate) fn fcntl(&mut self, pid: Pid, fd: u64, command: u64, argument: u64) -> Outcome
        requires live { IsSome (at self.old.processes pid.0) }
        requires held { IsHeld self.old }
        ensures { act_fcntl self.old pid.0 fd command argument ≡ Some (result, self.new) }
    {
        let Some(row) = self.row(pid, fd) else {
            return self.failed(Errno::Ebadf);
        };
        match command {
            0 => self.duplicate_from(pid, fd, argument),
            1 => self.done(flag_number(row.close_on_exec)),
            2 => self.set_flag(pid, fd, argument),
            3 => self.get_status(pid, fd),
            4 => self.set_status(pid, fd, argument),
            _ => self.failed(Errno::Einval),
        }
    }
}
