ghost use Rattle.std.specs.Prelude.{◌≡◌, ◌≢◌, ℕ, ◌+◌, ◌^◌, ◌<◌, ◌↔◌, length, max, false, is_some, count_by, slice_set, IfOk, OnOk, OnErr, IfSome, IfNone, IsSome, IsTrue, None, Some};
ghost use Rattle.sp_base.specs.declared.limits.TheConstants.{DESCRIPTORS};
ghost use Rattle.sp_base.specs.Table.{at, lowest_unused};
ghost use Rattle.kern_model.specs.declared.node.Row.{Row as RowOf};
ghost use Rattle.kern_model.specs.State.{fresh_process, replace_directory};
ghost use Rattle.kern_proc.specs.Processes.{is_worked_in};
ghost use Rattle.kern_open.specs.OpenTables.{OpenTables, no_tables, rows_of, with_process, with_row, duplicate_of, file_of, replace_file, close_row, closed_file, open_at};

use crate::shared::{Shared, hold, hold_rows};
use kern_model::{OpenFile, Row};
use kern_proc::{ProcFault, Procs};
use numbered::Numbered;
use sp_base::{Fd, FileNo, NoMemory, NodeNo, Pid};
use std::alloc::Global;
use std::marker::Model;

/// The processes, and the open files that their rows share. An open file is counted by the rows
/// that are of it, and goes with the last of them. Only `fresh`, `attach`, `fork` and `reserve` take
/// memory.
#[derive(Drop)]
pub struct Opens {
    /// The file of a row here is the key under which `files` holds it.
    procs: Procs,
    /// Each open file with its count, by the number that contracts see in its rows.
    files: Numbered<Shared>,
}

impl Model for Opens {
    ghost use Rattle.kern_open.specs.OpenTables.{OpenTables, tables_code};

    ghost Value = { OpenTables };

    ghost coded = { tables_code };

    ghost use Rattle.kern_open.specs.Counted.{tables_of, IsCounted};

    ghost view = { λ o. tables_of o.procs o.files };

    ghost invariant = { λ o. IsCounted o.procs o.files };
}

impl Opens {
    /// No process and no open file.
    pub fn fresh(alloc: Global) -> Result<Opens, NoMemory>
        ensures { IfOk result (λ opens. opens ≡ no_tables) }
    {
        let Ok(procs) = Procs::fresh(alloc) else {
            return Err(NoMemory);
        };
        Ok(Opens {
            procs,
            files: Numbered::new(alloc),
        })
    }

    /// How many processes there are.
    pub fn count(&self) -> u32
        ensures { result ≡ count_by is_some self.now.processes }
    {
        self.procs.count()
    }

    /// Whether the process is live.
    pub fn is_live(&self, pid: Pid) -> bool
        ensures { IsTrue result ↔ IsSome (at self.now.processes pid.0) }
    {
        self.procs.is_live(pid)
    }

    /// Whether all 256 numbers of processes are used.
    pub fn is_full(&self) -> bool
        ensures { IsTrue result ↔ (lowest_unused self.now.processes 2 ≡ None) }
    {
        self.procs.is_full()
    }

    /// A new process with no descriptors in the root directory, under the lowest unused number. An
    /// error leaves all as it was.
    pub fn attach(&mut self) -> Result<Pid, ProcFault>
        ensures number { IfOk result (λ pid. lowest_unused self.old.processes 2 ≡ Some pid.0) }
        ensures made { IfOk result (λ pid.
            self.new ≡ with_process self.old pid.0 (Some fresh_process)) }
        ensures full { (result ≡ Err ProcFault.Full) ↔ (lowest_unused self.old.processes 2 ≡ None) }
        ensures err { OnErr result (self.new ≡ self.old) }
    {
        let pid = self.procs.attach(NodeNo(1))?;
        Ok(pid)
    }

    /// A new process with the rows, the flags, the open files and the directory of its parent, under
    /// the lowest unused number. An error leaves all as it was.
    pub fn fork(&mut self, parent: Pid) -> Result<Pid, ProcFault>
        requires { IsSome (at self.old.processes parent.0) }
        ensures number { IfOk result (λ child. lowest_unused self.old.processes 2 ≡ Some child.0) }
        ensures made { IfOk result (λ child.
            self.new ≡ with_process self.old child.0 (at self.old.processes parent.0)) }
        ensures full { (result ≡ Err ProcFault.Full) ↔ (lowest_unused self.old.processes 2 ≡ None) }
        ensures err { OnErr result (self.new ≡ self.old) }
    {
        let child = self.procs.fork(parent)?;
        hold_rows(&self.procs, &mut self.files, child);
        Ok(child)
    }

    /// The row of a descriptor. None exactly where it isn't open.
    pub fn lookup(&self, pid: Pid, fd: u64) -> Option<Row>
        requires { IsSome (at self.now.processes pid.0) }
        ensures { result ≡ at (rows_of self.now pid.0) fd }
    {
        let Some(file) = self.procs.lookup(pid, fd) else {
            return None;
        };
        let Some(close_on_exec) = self.procs.cloexec(pid, fd) else {
            return None;
        };
        let Some(number) = self.files.number(file.0) else {
            unreachable!();
        };
        Some(Row {
            file: number,
            close_on_exec,
        })
    }

    /// The open file of a descriptor. None exactly where it isn't open.
    pub fn file(&self, pid: Pid, fd: u64) -> Option<OpenFile>
        requires { IsSome (at self.now.processes pid.0) }
        ensures which { result ≡ file_of self.now (at (rows_of self.now pid.0) fd) }
        ensures open { IsSome result ↔ IsSome (at (rows_of self.now pid.0) fd) }
    {
        let Some(key) = self.procs.lookup(pid, fd) else {
            return None;
        };
        let Some(shared) = self.files.get(key.0) else {
            unreachable!();
        };
        Some(shared.file)
    }

    /// Puts another open file in the place of that of a descriptor, for all rows that are of it.
    pub fn set_file(&mut self, pid: Pid, fd: u64, file: OpenFile)
        requires live { IsSome (at self.old.processes pid.0) }
        requires open { IsSome (at (rows_of self.old pid.0) fd) }
        ensures { (row : RowOf) → at (rows_of self.old pid.0) fd ≡ Some row →
            self.new ≡ replace_file self.old row.file file }
    {
        let Some(key) = self.procs.lookup(pid, fd) else {
            return;
        };
        let Some(shared) = self.files.get(key.0).copied() else {
            unreachable!();
        };
        let other = Shared {
            file,
            rows: shared.rows,
        };
        self.files.set(key.0, other);
    }

    /// The lowest unused descriptor from `least` on. None exactly where there is none below 128.
    pub fn lowest_unused(&self, pid: Pid, least: u64) -> Option<Fd>
        requires { IsSome (at self.now.processes pid.0) }
        ensures which { IfSome result (λ fd.
            lowest_unused (rows_of self.now pid.0) least ≡ Some fd.0) }
        ensures none { IfNone result (lowest_unused (rows_of self.now pid.0) least ≡ None) }
        ensures below { IfSome result (λ fd. fd.0 < DESCRIPTORS) }
    {
        self.procs.lowest_unused(pid, least)
    }

    /// Keeps room for so many more open files, which `open` then takes without more memory. An error
    /// leaves all as it was.
    pub fn reserve(&mut self, more: u64) -> Result<(), NoMemory>
        ensures ok { OnOk result (self.new ≡ record self.old { room = max self.old.room more }) }
        ensures err { OnErr result (self.new ≡ self.old) }
        ensures fits { length self.new.files + self.new.room < 2 ^ 64 }
    {
        if self.files.reserve(more).is_err() {
            return Err(NoMemory);
        }
        Ok(())
    }

    /// Makes an open file, in the room that was reserved, under the lowest unused descriptor.
    pub fn open(&mut self, pid: Pid, file: OpenFile, cloexec: bool) -> Fd
        requires live { IsSome (at self.old.processes pid.0) }
        requires unused { IsSome (lowest_unused (rows_of self.old pid.0) 0) }
        requires room { 0 < self.old.room }
        ensures which { lowest_unused (rows_of self.old pid.0) 0 ≡ Some result.0 }
        ensures made { self.new ≡ open_at self.old pid.0 result.0 file cloexec }
    {
        let key = self.files.insert_reserved(Shared { file, rows: 1 });
        let Some(fd) = self.procs.install(pid, 0, FileNo(key), cloexec) else {
            unreachable!();
        };
        fd
    }

    /// Gives the lowest unused descriptor from `least` on to the open file of a descriptor, with the
    /// flag clear. None exactly where there is none below 128; then all stays as it was.
    pub fn duplicate(&mut self, pid: Pid, fd: u64, least: u64) -> Option<Fd>
        requires live { IsSome (at self.old.processes pid.0) }
        requires open { IsSome (at (rows_of self.old pid.0) fd) }
        ensures which { IfSome result (λ to.
            lowest_unused (rows_of self.old pid.0) least ≡ Some to.0) }
        ensures made { (row : RowOf) → at (rows_of self.old pid.0) fd ≡ Some row →
            IfSome result (λ to. self.new ≡ with_row self.old pid.0 to.0 (duplicate_of row)) }
        ensures full { IfNone result (lowest_unused (rows_of self.old pid.0) least ≡ None) }
        ensures none { IfNone result (self.new ≡ self.old) }
    {
        let Some(key) = self.procs.lookup(pid, fd) else {
            return None;
        };
        let Some(to) = self.procs.install(pid, least, key, false) else {
            return None;
        };
        hold(&mut self.files, key.0);
        Some(to)
    }

    /// Gives an unused descriptor to the open file of another, with the flag clear.
    fn share(&mut self, pid: Pid, fd: u64, to: Fd)
        requires live { IsSome (at self.old.processes pid.0) }
        requires open { IsSome (at (rows_of self.old pid.0) fd) }
        requires unused { at (rows_of self.old pid.0) to.0 ≡ None }
        requires below { to.0 < DESCRIPTORS }
        ensures { (row : RowOf) → at (rows_of self.old pid.0) fd ≡ Some row →
            self.new ≡ with_row self.old pid.0 to.0 (duplicate_of row) }
    {
        let Some(key) = self.procs.lookup(pid, fd) else {
            return;
        };
        let _ = self.procs.put_at(pid, to, key);
        hold(&mut self.files, key.0);
    }

    /// Closes a descriptor, if it is open, and gives it to the open file of another, with the flag
    /// clear. Answers the open file that went with the row that was closed, if that was its last.
    pub fn dup_to(&mut self, pid: Pid, fd: u64, to: Fd) -> Option<OpenFile>
        requires live { IsSome (at self.old.processes pid.0) }
        requires open { IsSome (at (rows_of self.old pid.0) fd) }
        requires below { to.0 < DESCRIPTORS }
        requires other { fd ≢ to.0 }
        ensures made { (row : RowOf) → at (rows_of self.old pid.0) fd ≡ Some row →
            self.new ≡ with_row (close_row self.old pid.0 to.0) pid.0 to.0 (duplicate_of row) }
        ensures gone { result ≡ closed_file self.old pid.0 to.0 }
    {
        let gone = self.close(pid, u64::from(to.0));
        self.share(pid, fd, to);
        gone
    }

    /// Takes the row of a descriptor away, if it is open, and answers the open file that went with
    /// it: None where it wasn't open, and where other rows are of its open file.
    pub fn close(&mut self, pid: Pid, fd: u64) -> Option<OpenFile>
        requires { IsSome (at self.old.processes pid.0) }
        ensures closed { self.new ≡ close_row self.old pid.0 fd }
        ensures gone { result ≡ closed_file self.old pid.0 fd }
        ensures unused { at (rows_of self.new pid.0) fd ≡ None }
        ensures others { (k : ℕ) → k ≢ fd →
            at (rows_of self.new pid.0) k ≡ at (rows_of self.old pid.0) k }
        ensures live { IsSome (at self.new.processes pid.0) }
    {
        let Some(key) = self.procs.close(pid, fd) else {
            return None;
        };
        let Some(shared) = self.files.get(key.0).copied() else {
            unreachable!();
        };
        if shared.rows == 1 {
            let gone = self.files.remove(key.0);
            return Some(gone.file);
        }
        let fewer = Shared {
            file: shared.file,
            rows: shared.rows - 1,
        };
        self.files.set(key.0, fewer);
        None
    }

    /// Sets the close-on-exec flag of a descriptor.
    pub fn set_flag(&mut self, pid: Pid, fd: u64, on: bool)
        requires live { IsSome (at self.old.processes pid.0) }
        requires open { IsSome (at (rows_of self.old pid.0) fd) }
        ensures { (row : RowOf) → at (rows_of self.old pid.0) fd ≡ Some row →
            self.new ≡ with_row self.old pid.0 fd (Some (record row { close_on_exec = on })) }
    {
        let _ = self.procs.set_cloexec(pid, fd, on);
    }

    /// Ends a process that has no rows left.
    pub fn end(&mut self, pid: Pid)
        requires live { IsSome (at self.old.processes pid.0) }
        requires closed { (fd : ℕ) → fd < DESCRIPTORS → at (rows_of self.old pid.0) fd ≡ None }
        ensures { self.new ≡ with_process self.old pid.0 None }
    {
        self.procs.end(pid);
    }

    /// The working directory of a process.
    pub fn directory(&self, pid: Pid) -> NodeNo
        requires { IsSome (at self.now.processes pid.0) }
        ensures { IfSome (at self.now.processes pid.0) (λ process. result.0 ≡ process.directory) }
    {
        self.procs.cwd(pid)
    }

    /// Goes to another working directory.
    pub fn set_directory(&mut self, pid: Pid, node: NodeNo)
        requires { IsSome (at self.old.processes pid.0) }
        ensures { self.new ≡ with_process self.old pid.0
            (replace_directory (at self.old.processes pid.0) node.0) }
    {
        self.procs.set_cwd(pid, node);
    }

    /// Whether some process works in a node.
    pub fn is_directory_of_some(&self, node: NodeNo) -> bool
        ensures { result ≡ is_worked_in self.now.processes node.0 }
    {
        self.procs.is_cwd(node)
    }
}
