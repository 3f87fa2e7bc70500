ghost use Rattle.std.specs.Prelude.{◌≡◌, ℕ, ◌≤◌, IsSome, Some};
ghost use Rattle.sp_base.specs.Table.{at, lowest_unused};
ghost use Rattle.kern_model.specs.State.{rows_of, replace_file};
ghost use Rattle.kern_model.specs.Descriptors.{act_close, act_dup, act_dup2, act_fcntl, act_duplicate_from, act_get_flag, act_set_flag, act_get_status, act_set_status, duplicate, flag_number, access_number, has_bit, status_number};

use super::Plain;
use crate::node::{Access, OpenFile, Row};
use crate::outcome::Outcome;
use sp_base::{DESCRIPTORS, Errno, Pid, table};

/// Whether a bit of a word is set.
pub(crate) fn has_bit(word: u64, bit: u64) -> bool
    ensures { result ≡ has_bit word bit }
{
    word & bit == bit
}

/// 1 for a flag that is set.
fn flag_number(flag: bool) -> u64
    ensures value { result ≡ flag_number flag }
    ensures most { result ≤ 1 }
{
    if flag { 1 } else { 0 }
}

/// The access as open's flags give it.
fn access_number(access: Access) -> u64
    ensures value { result ≡ access_number access }
    ensures most { result ≤ 2 }
{
    match access {
        Access::Reading => 0,
        Access::Writing => 1,
        Access::Both => 2,
    }
}

/// The status of an open file.
fn status_number(file: OpenFile) -> u64
    ensures { result ≡ status_number file }
{
    access_number(file.access) + 4 * flag_number(file.nonblock) + 8 * flag_number(file.append)
}

/// The same row with the flag set or clear.
fn with_flag(row: Row, close_on_exec: bool) -> Row
    ensures { result ≡ record row { close_on_exec = close_on_exec } }
{
    Row {
        file: row.file,
        close_on_exec,
    }
}

impl Plain {
    /// The lowest unused descriptor of a process from `least` on.
    pub(crate) fn lowest_descriptor(&self, pid: Pid, least: u64) -> Option<usize>
        requires { IsSome (at self.now.processes pid.0) }
        ensures { result ≡ lowest_unused (rows_of self.now pid.0) least }
    {
        match &self.processes[pid.0 as usize] {
            Some(descriptors) => descriptors.lowest_unused(least as usize),
            None => None,
        }
    }

    /// close.
    pub fn close(&mut self, pid: Pid, fd: u64) -> Outcome
        requires { IsSome (at self.old.processes pid.0) }
        ensures { act_close self.old pid.0 fd ≡ Some (result, self.new) }
    {
        if self.row(pid, fd).is_none() {
            return self.failed(Errno::Ebadf);
        }
        self.close_row(pid, fd);
        self.done(0)
    }

    /// The lowest unused descriptor from `least` on gets the open file of a row.
    fn duplicate(&mut self, pid: Pid, row: Row, least: u64) -> Outcome
        requires { IsSome (at self.old.processes pid.0) }
        ensures { duplicate self.old pid.0 row least ≡ Some (result, self.new) }
    {
        let Some(fd) = self.lowest_descriptor(pid, least) else {
            return self.failed(Errno::Emfile);
        };
        self.set_row(pid, fd as u64, Some(with_flag(row, false)));
        self.done(fd as u64)
    }

    /// dup.
    pub(crate) fn dup(&mut self, pid: Pid, fd: u64) -> Outcome
        requires { IsSome (at self.old.processes pid.0) }
        ensures { act_dup self.old pid.0 fd ≡ Some (result, self.new) }
    {
        match self.row(pid, fd) {
            Some(row) => self.duplicate(pid, row, 0),
            None => self.failed(Errno::Ebadf),
        }
    }

    /// dup2.
    pub(crate) fn dup2(&mut self, pid: Pid, fd: u64, new_fd: u64) -> Outcome
        requires { IsSome (at self.old.processes pid.0) }
        ensures { act_dup2 self.old pid.0 fd new_fd ≡ Some (result, self.new) }
    {
        let Some(row) = self.row(pid, fd) else {
            return self.failed(Errno::Ebadf);
        };
        if new_fd >= DESCRIPTORS {
            return self.failed(Errno::Ebadf);
        }
        if fd == new_fd {
            return self.done(new_fd);
        }
        self.close_row(pid, new_fd);
        self.set_row(pid, new_fd, Some(with_flag(row, false)));
        self.done(new_fd)
    }

    /// fcntl F_DUPFD.
    fn duplicate_from(&mut self, pid: Pid, row: Row, least: u64) -> Outcome
        requires { IsSome (at self.old.processes pid.0) }
        ensures { act_duplicate_from self.old pid.0 row least ≡ Some (result, self.new) }
    {
        if least >= DESCRIPTORS {
            return self.failed(Errno::Einval);
        }
        self.duplicate(pid, row, least)
    }

    /// fcntl F_SETFD.
    fn set_flag(&mut self, pid: Pid, fd: u64, row: Row, argument: u64) -> Outcome
        requires { IsSome (at self.old.processes pid.0) }
        ensures { act_set_flag self.old pid.0 fd row argument ≡ Some (result, self.new) }
    {
        self.set_row(pid, fd, Some(with_flag(row, has_bit(argument, 1))));
        self.done(0)
    }

    /// fcntl F_GETFL.
    fn get_status(&self, row: Row) -> Outcome
        ensures { act_get_status self.now row ≡ Some (result, self.now) }
    {
        match table::at(&self.files, row.file) {
            Some(file) => self.done(status_number(file)),
            None => self.failed(Errno::Ebadf),
        }
    }

    /// Puts another open file in an open file's place.
    pub(crate) fn replace_file(&mut self, number: u64, file: OpenFile)
        ensures { self.new ≡ replace_file self.old number file }
    {
        table::set(&mut self.files, number, Some(file));
    }

    /// fcntl F_SETFL.
    fn set_status(&mut self, row: Row, argument: u64) -> Outcome
        ensures { act_set_status self.old row argument ≡ Some (result, self.new) }
    {
        let Some(file) = table::at(&self.files, row.file) else {
            return self.failed(Errno::Ebadf);
        };
        let changed = OpenFile {
            object: file.object,
            access: file.access,
            append: has_bit(argument, 8),
            nonblock: has_bit(argument, 4),
            offset: file.offset,
        };
        self.replace_file(row.file, changed);
        self.done(0)
    }

    /// fcntl.
    pub fn fcntl(&mut self, pid: Pid, fd: u64, command: u64, argument: u64) -> Outcome
        requires { IsSome (at self.old.processes pid.0) }
        ensures { act_fcntl self.old pid.0 fd command argument ≡ Some (result, self.new) }
    {
        let Some(row) = self.row(pid, fd) else {
            return self.failed(Errno::Ebadf);
        };
        match command {
            0 => self.duplicate_from(pid, row, argument),
            1 => self.done(flag_number(row.close_on_exec)),
            2 => self.set_flag(pid, fd, row, argument),
            3 => self.get_status(row),
            4 => self.set_status(row, argument),
            _ => self.failed(Errno::Einval),
        }
    }
}
