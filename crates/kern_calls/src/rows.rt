ghost use Rattle.std.specs.Prelude.{ℕ, ◌≡◌, ◌≢◌, ◌<◌, false, IsSome, IfSome, IfNone, Some, None};
ghost use Rattle.sp_base.specs.Table.{at, lowest_unused};
ghost use Rattle.sp_base.specs.declared.limits.TheConstants.{DESCRIPTORS};
ghost use Rattle.kern_model.specs.declared.node.Row.{Row as RowOf};
ghost use Rattle.kern_model.specs.declared.node.OpenFile.{OpenFile as FileOf};
ghost use Rattle.kern_model.specs.Plain.{file_of_row};
ghost use Rattle.kern_model.specs.Sound.{IsHeld};
ghost use Rattle.kern_model.specs.State.{rows_of, with_row, with_process, replace_file, closes, close_row, close_rows};

use crate::parts::Parts;
use kern_model::{OpenFile, Row};
use sp_base::{Fd, NodeNo, Pid};

impl Parts {
    /// The row of a descriptor of a process.
    pub(crate) fn row(&self, pid: Pid, fd: u64) -> Option<Row>
        requires { IsSome (at self.now.processes pid.0) }
        ensures { result ≡ at (rows_of self.now pid.0) fd }
    {
        self.opens.lookup(pid, fd)
    }

    /// Takes the row of a descriptor away, and what only that row kept.
    pub(crate) fn close_row(&mut self, pid: Pid, fd: u64)
        requires live { IsSome (at self.old.processes pid.0) }
        requires held { IsHeld self.old }
        ensures after { self.new ≡ close_row self.old pid.0 fd }
        ensures live { IsSome (at self.new.processes pid.0) }
        ensures held { IsHeld self.new }
    {
        if let Some(gone) = self.opens.close(pid, fd) {
            self.tree.release(NodeNo(gone.object.node()));
        }
    }

    /// The open file of a descriptor of a process, with its number.
    pub(crate) fn file_of(&self, pid: Pid, fd: u64) -> Option<(u64, OpenFile)>
        requires { IsSome (at self.now.processes pid.0) }
        ensures { result ≡ file_of_row self.now (at (rows_of self.now pid.0) fd) }
    {
        let row = self.row(pid, fd)?;
        let file = self.opens.file(pid, fd)?;
        Some((row.file, file))
    }

    /// Puts another open file, of the same object, in the place of that of a descriptor.
    pub(crate) fn set_file(&mut self, pid: Pid, fd: u64, file: OpenFile)
        requires live { IsSome (at self.old.processes pid.0) }
        requires open { IsSome (at (rows_of self.old pid.0) fd) }
        requires there { (row : RowOf) → at (rows_of self.old pid.0) fd ≡ Some row
            → IsSome (at self.old.files row.file) }
        requires same { (row : RowOf) (old : FileOf) → at (rows_of self.old pid.0) fd ≡ Some row
            → at self.old.files row.file ≡ Some old → file.object ≡ old.object }
        ensures { (row : RowOf) → at (rows_of self.old pid.0) fd ≡ Some row → self.new
            ≡ replace_file self.old row.file file }
    {
        self.opens.set_file(pid, fd, file);
    }

    /// The lowest unused descriptor from `least` on. None exactly where there is none below 128.
    pub(crate) fn lowest_descriptor(&self, pid: Pid, least: u64) -> Option<Fd>
        requires { IsSome (at self.now.processes pid.0) }
        ensures which { IfSome result (λ fd. lowest_unused (rows_of self.now pid.0) least
            ≡ Some fd.0) }
        ensures none { IfNone result (lowest_unused (rows_of self.now pid.0) least ≡ None) }
    {
        self.opens.lowest_unused(pid, least)
    }

    /// Gives the lowest unused descriptor from `least` on to the open file of a descriptor, with the
    /// flag clear. None exactly where there is none below 128; then all stays as it was.
    pub(crate) fn share(&mut self, pid: Pid, fd: u64, least: u64) -> Option<Fd>
        requires live { IsSome (at self.old.processes pid.0) }
        requires open { IsSome (at (rows_of self.old pid.0) fd) }
        ensures which { IfSome result (λ to. lowest_unused (rows_of self.old pid.0) least
            ≡ Some to.0) }
        ensures made { (row : RowOf) → at (rows_of self.old pid.0) fd ≡ Some row
            → IfSome result (λ to. self.new
            ≡ with_row self.old pid.0 to.0 (Some (record row { close_on_exec = false }))) }
        ensures full { IfNone result (lowest_unused (rows_of self.old pid.0) least ≡ None) }
        ensures none { IfNone result (self.new ≡ self.old) }
    {
        self.opens.duplicate(pid, fd, least)
    }

    /// Closes a descriptor, if it is open, and gives it to the open file of another, with the flag
    /// clear.
    pub(crate) fn share_to(&mut self, pid: Pid, fd: u64, to: Fd)
        requires live { IsSome (at self.old.processes pid.0) }
        requires held { IsHeld self.old }
        requires open { IsSome (at (rows_of self.old pid.0) fd) }
        requires below { to.0 < DESCRIPTORS }
        requires other { fd ≢ to.0 }
        ensures { (row : RowOf) → at (rows_of self.old pid.0) fd ≡ Some row
            → self.new
            ≡ with_row (close_row self.old pid.0 to.0) pid.0 to.0
            (Some (record row { close_on_exec = false })) }
    {
        if let Some(gone) = self.opens.dup_to(pid, fd, to) {
            self.tree.release(NodeNo(gone.object.node()));
        }
    }

    /// Sets the close-on-exec flag of a descriptor.
    pub(crate) fn mark(&mut self, pid: Pid, fd: u64, on: bool)
        requires live { IsSome (at self.old.processes pid.0) }
        requires open { IsSome (at (rows_of self.old pid.0) fd) }
        ensures { (row : RowOf) → at (rows_of self.old pid.0) fd ≡ Some row
            → self.new ≡ with_row self.old pid.0 fd (Some (record row { close_on_exec = on })) }
    {
        self.opens.set_flag(pid, fd, on);
    }

    /// Whether an exec closes the row of a descriptor.
    fn is_marked(&self, pid: Pid, fd: u64) -> bool
        requires { IsSome (at self.now.processes pid.0) }
        ensures { result ≡ closes (at (rows_of self.now pid.0) fd) }
    {
        match self.row(pid, fd) {
            Some(row) => row.close_on_exec,
            None => false,
        }
    }

    /// Ends a process that has no rows left.
    pub(crate) fn end(&mut self, pid: Pid)
        requires live { IsSome (at self.old.processes pid.0) }
        requires closed { (fd : ℕ) → at (rows_of self.old pid.0) fd ≡ None }
        ensures { self.new ≡ with_process self.old pid.0 None }
    {
        self.opens.end(pid);
    }
}

/// Takes away all rows of a process below a descriptor, or those that are marked alone.
pub(crate) fn close_rows(parts: &mut Parts, only_marked: bool, pid: Pid, end: u64)
    requires live { IsSome (at parts.old.processes pid.0) }
    requires held { IsHeld parts.old }
    ensures after { parts.new ≡ close_rows only_marked parts.old pid.0 end }
    ensures live { IsSome (at parts.new.processes pid.0) }
{
    for fd in 0..end {
        if !only_marked || parts.is_marked(pid, fd) {
            parts.close_row(pid, fd);
        }
    }
}
