ghost use Rattle.std.specs.Prelude.{◌≡◌, ℕ, ◌<◌, length, IfOk, IsSome, Some, None, IsTrue, ◌↔◌};
ghost use Rattle.std.specs.List.{list_any};
ghost use Rattle.sp_base.specs.declared.limits.TheConstants.{FIRST_PROCESS};
ghost use Rattle.sp_base.specs.Table.{at, lowest_unused};
ghost use Rattle.kern_model.specs.State.{opening, rows_of, is_row_of, rows_in, is_held, is_of_node, stays, without_unused, let_go_of, let_go, with_row, closes, close_row, close_rows};
ghost use Rattle.kern_model.specs.Outcome.{success, failure};
ghost use Rattle.kern_model.specs.Plain.{file_of_row};

mod act;
mod descriptor_calls;
mod file_bytes;
mod file_calls;
mod link_calls;
mod open;
mod processes;
mod rename;
mod seek;
mod stat_calls;
mod walk;
mod write_calls;

use crate::descriptors::Descriptors;
use crate::name_map::NameMap;
use crate::node::{Node, NodeKind, Object, OpenFile, Row};
use crate::outcome::Outcome;
use sp_base::{Errno, FIRST_PROCESS, Items, NoMemory, Octets, PROCESSES, Pid, table};
use std::alloc::Global;
use std::marker::Model;

/// The slow kernel: it walks lists, and its contract is the definition. It is seen as the state that it holds.
#[derive(Drop)]
pub struct Plain {
    alloc: Global,
    names: NameMap,
    nodes: Vec<Option<Node>>,
    processes: Vec<Option<Descriptors>>,
    files: Vec<Option<OpenFile>>,
}

impl Model for Plain {
    ghost use Rattle.std.specs.Prelude.{◌≡◌, length};
    ghost use Rattle.kern_model.specs.State.{State, process_numbers};
    ghost use Rattle.kern_model.specs.StateCode.{state_code};

    ghost Value = { State };

    ghost coded = { state_code };

    ghost view = { λ p. record { names = p.names; nodes = p.nodes.items; processes = p.processes.items; files = p.files.items } };

    ghost invariant = { λ p. length p.processes.items ≡ process_numbers };
}

/// Whether some row of some process is of an open file.
fn is_held_in(processes: &[Option<Descriptors>], file: u64) -> bool
    ensures { result ≡ list_any
        (λ process. list_any (is_row_of file) (rows_in process)) processes.now }
{
    for process in processes {
        if let Some(descriptors) = process {
            if descriptors.holds(file) {
                return true;
            }
        }
    }
    false
}

/// Whether an open file is of a node.
fn is_of_node(file: Option<OpenFile>, node: u64) -> bool
    ensures { result ≡ is_of_node node file }
{
    match file {
        Some(file) => match file.object {
            Object::Node(number) => number == node,
        },
        None => false,
    }
}

/// Whether some open file is of a node.
fn has_file_of(files: &[Option<OpenFile>], node: u64) -> bool
    ensures { result ≡ list_any (is_of_node node) files.now }
{
    for file in files {
        if is_of_node(*file, node) {
            return true;
        }
    }
    false
}

/// The table of nodes that has the root directory alone. No node has the number 0.
fn first_nodes(alloc: Global) -> Result<Vec<Option<Node>>, NoMemory>
    ensures { IfOk result (λ nodes. nodes.items ≡ opening.nodes) }
{
    let mut nodes = Vec::new(alloc);
    nodes.push(None)?;
    nodes.push(Some(Node {
        kind: NodeKind::Directory,
        bytes: Octets::none(alloc),
    }))?;
    Ok(nodes)
}

impl Plain {
    /// A kernel with the root directory and without processes.
    pub fn fresh(alloc: Global) -> Result<Plain, NoMemory>
        ensures { IfOk result (λ plain. plain ≡ opening) }
    {
        let mut names = NameMap::fresh(alloc);
        names.insert(Items::none(alloc), 1)?;
        Ok(Plain {
            alloc,
            names,
            nodes: first_nodes(alloc)?,
            processes: table::blank(alloc, (FIRST_PROCESS + PROCESSES) as usize)?,
            files: Vec::new(alloc),
        })
    }

    /// Whether the process is live.
    pub fn is_live(&self, pid: Pid) -> bool
        ensures { IsTrue result ↔ IsSome (at self.now.processes pid.0) }
    {
        let n = pid.0 as usize;
        n < self.processes.len() && self.processes[n].is_some()
    }

    /// Whether every number of a process is used.
    pub fn is_full(&self) -> bool
        ensures { IsTrue result ↔ (lowest_unused self.now.processes FIRST_PROCESS ≡ None) }
    {
        table::lowest_unused(&self.processes, FIRST_PROCESS as usize).is_none()
    }

    /// A success with one value.
    fn done(&self, value: u64) -> Outcome
        ensures { result ≡ success value }
    {
        Outcome::success(self.alloc, value)
    }

    /// An error.
    fn failed(&self, error: Errno) -> Outcome
        ensures { result ≡ failure error }
    {
        Outcome::failure(self.alloc, error)
    }

    /// The row of a descriptor of a process.
    fn row(&self, pid: Pid, fd: u64) -> Option<Row>
        requires { IsSome (at self.now.processes pid.0) }
        ensures { result ≡ at (rows_of self.now pid.0) fd }
    {
        match &self.processes[pid.0 as usize] {
            Some(descriptors) => descriptors.row(fd),
            None => None,
        }
    }

    /// The open file of a descriptor of a process, with its number.
    fn file_of(&self, pid: Pid, fd: u64) -> Option<(u64, OpenFile)>
        requires { IsSome (at self.now.processes pid.0) }
        ensures { result ≡ file_of_row self.now (at (rows_of self.now pid.0) fd) }
    {
        let row = self.row(pid, fd)?;
        let file = table::at(&self.files, row.file)?;
        Some((row.file, file))
    }

    /// Sets the row of a descriptor of a process, or takes it away.
    fn set_row(&mut self, pid: Pid, fd: u64, row: Option<Row>)
        requires { IsSome (at self.old.processes pid.0) }
        ensures after { self.new ≡ with_row self.old pid.0 fd row }
        ensures live { IsSome (at self.new.processes pid.0) }
    {
        let n = pid.0 as usize;
        if n < self.processes.len() {
            if let Some(descriptors) = &mut self.processes[n] {
                descriptors.set_row(fd, row);
            }
        }
    }

    /// Lets a node go that neither a name nor an open file keeps.
    fn drop_unused(&mut self, node: u64)
        ensures after { self.new ≡ without_unused self.old node }
        ensures processes { self.new.processes ≡ self.old.processes }
    {
        if self.names.name_count(node) == 0 && !has_file_of(&self.files, node) {
            table::set(&mut self.nodes, node, None);
        }
    }

    /// Lets go of what an open file was of.
    fn let_go_of(&mut self, object: Object)
        ensures after { self.new ≡ let_go_of self.old object }
        ensures processes { self.new.processes ≡ self.old.processes }
    {
        match object {
            Object::Node(node) => self.drop_unused(node),
        }
    }

    /// Lets an open file go that no row is of.
    fn let_go(&mut self, file: u64)
        ensures after { self.new ≡ let_go self.old file }
        ensures processes { self.new.processes ≡ self.old.processes }
    {
        if is_held_in(&self.processes, file) {
            return;
        }
        let gone = table::at(&self.files, file);
        table::set(&mut self.files, file, None);
        if let Some(gone) = gone {
            self.let_go_of(gone.object);
        }
    }

    /// Takes the row of a descriptor away, and what only that row kept.
    fn close_row(&mut self, pid: Pid, fd: u64)
        requires { IsSome (at self.old.processes pid.0) }
        ensures after { self.new ≡ close_row self.old pid.0 fd }
        ensures live { IsSome (at self.new.processes pid.0) }
    {
        if let Some(row) = self.row(pid, fd) {
            self.set_row(pid, fd, None);
            self.let_go(row.file);
        }
    }

    /// Whether an exec closes the row of a descriptor.
    fn is_marked(&self, pid: Pid, fd: u64) -> bool
        requires { IsSome (at self.now.processes pid.0) }
        ensures { result ≡ closes (at (rows_of self.now pid.0) fd) }
    {
        match self.row(pid, fd) {
            Some(row) => row.close_on_exec,
            None => false,
        }
    }
}

/// Takes away all rows of a process below a descriptor, or those that are marked alone.
fn close_rows(kernel: &mut Plain, only_marked: bool, pid: Pid, end: u64)
    requires { IsSome (at kernel.old.processes pid.0) }
    ensures after { kernel.new ≡ close_rows only_marked kernel.old pid.0 end }
    ensures live { IsSome (at kernel.new.processes pid.0) }
{
    for fd in 0..end {
        if !only_marked || kernel.is_marked(pid, fd) {
            kernel.close_row(pid, fd);
        }
    }
}
