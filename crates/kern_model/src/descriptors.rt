ghost use Rattle.std.specs.Prelude.{◌≡◌, ℕ, ◌<◌, length, slice_set, IfOk, IsTrue, Option, None, Some};
ghost use Rattle.std.specs.List.{list_any};
ghost use Rattle.sp_base.specs.Table.{at, lowest_unused};
ghost use Rattle.kern_model.specs.State.{Process, fresh_process, is_row_of};

use crate::node::Row;
use sp_base::{DESCRIPTORS, NoMemory, table};
use std::alloc::Global;
use std::marker::Model;

/// The working directory of one process, by its node, and its rows by descriptor.
#[derive(Drop)]
pub struct Descriptors {
    directory: u64,
    rows: Vec<Option<Row>>,
}

impl Model for Descriptors {
    ghost use Rattle.std.specs.Prelude.{◌≡◌, length};
    ghost use Rattle.sp_base.specs.declared.limits.TheConstants.{DESCRIPTORS};
    ghost use Rattle.kern_model.specs.State.{Process};
    ghost use Rattle.kern_model.specs.StateCode.{process_code};

    ghost Value = { Process };

    ghost coded = { process_code };

    ghost view = { λ d. record { directory = d.directory; rows = d.rows.items } };

    ghost invariant = { λ d. length d.rows.items ≡ DESCRIPTORS };
}

/// Whether a row is of an open file.
fn is_of(row: Option<Row>, file: u64) -> bool
    ensures { result ≡ is_row_of file row }
{
    match row {
        Some(row) => row.file == file,
        None => false,
    }
}

/// Whether some row is of an open file.
fn has_row_of(rows: &[Option<Row>], file: u64) -> bool
    ensures { result ≡ list_any (is_row_of file) rows.now }
{
    for row in rows {
        if is_of(*row, file) {
            return true;
        }
    }
    false
}

/// A copy of rows.
fn copy_rows(alloc: Global, rows: &[Option<Row>]) -> Result<Vec<Option<Row>>, NoMemory>
    ensures { IfOk result (λ copy. copy.items ≡ rows.now) }
{
    let mut copy = Vec::new(alloc);
    for row in rows {
        copy.push(*row)?;
    }
    Ok(copy)
}

impl Descriptors {
    /// A process with no descriptors in the root directory.
    pub fn fresh(alloc: Global) -> Result<Descriptors, NoMemory>
        ensures { IfOk result (λ d. d ≡ fresh_process) }
    {
        Ok(Descriptors {
            directory: 1,
            rows: table::blank(alloc, DESCRIPTORS as usize)?,
        })
    }

    /// The same directory and rows once more.
    pub fn copy(&self, alloc: Global) -> Result<Descriptors, NoMemory>
        ensures { IfOk result (λ d. d ≡ self.now) }
    {
        Ok(Descriptors {
            directory: self.directory,
            rows: copy_rows(alloc, &self.rows)?,
        })
    }

    /// The rows by descriptor.
    pub fn rows(&self) -> &[Option<Row>]
        ensures rows { result.now ≡ self.now.rows }
        ensures length { length result.now ≡ DESCRIPTORS }
    {
        &self.rows
    }

    /// The row of a descriptor.
    pub fn row(&self, fd: u64) -> Option<Row>
        ensures { result ≡ at self.now.rows fd }
    {
        table::at(&self.rows, fd)
    }

    /// Sets the row of a descriptor, or takes it away.
    pub fn set_row(&mut self, fd: u64, row: Option<Row>)
        ensures { self.new ≡ record self.old { rows = slice_set self.old.rows fd row } }
    {
        table::set(&mut self.rows, fd, row);
    }

    /// The lowest unused descriptor from `least` on.
    pub fn lowest_unused(&self, least: usize) -> Option<usize>
        ensures { result ≡ lowest_unused self.now.rows least }
    {
        table::lowest_unused(&self.rows, least)
    }

    /// Whether some row is of an open file.
    pub fn holds(&self, file: u64) -> bool
        ensures { result ≡ list_any (is_row_of file) self.now.rows }
    {
        has_row_of(&self.rows, file)
    }

    /// The node of the working directory.
    pub fn directory(&self) -> u64
        ensures { result ≡ self.now.directory }
    {
        self.directory
    }

    /// Goes to another working directory.
    pub fn set_directory(&mut self, node: u64)
        ensures { self.new ≡ record self.old { directory = node } }
    {
        self.directory = node;
    }
}
