ghost use Rattle.std.specs.Prelude.{◌≡◌, ◌↔◌, IsSome, IfOk, IsTrue, None, is_some, count_by};
ghost use Rattle.sp_base.specs.Table.{at, lowest_unused};
ghost use Rattle.sp_base.specs.declared.limits.TheConstants.{FIRST_PROCESS};
ghost use Rattle.kern_model.specs.Outcome.{success, failure};
ghost use Rattle.kern_model.specs.State.{opening};

use kern_files::Tree;
use kern_model::Outcome;
use kern_open::Opens;
use sp_base::{Errno, NoMemory, Pid};
use std::alloc::Global;
use std::marker::Model;

/// The parts that hold a kernel's state: processes with their open files, and the tree of files. Each node has as many holders as
/// open files.
#[derive(Drop)]
pub(crate) struct Parts {
    pub(crate) alloc: Global,
    pub(crate) opens: Opens,
    pub(crate) tree: Tree,
}

impl Model for Parts {
    ghost use Rattle.kern_model.specs.State.{State};
    ghost use Rattle.kern_model.specs.StateCode.{state_code};

    ghost Value = { State };

    ghost coded = { state_code };

    ghost use Rattle.kern_calls.specs.Joined.{joined, AreHolders};

    ghost view = { λ p. joined p.opens p.tree };

    ghost invariant = { λ p. AreHolders p.opens p.tree };
}

impl Parts {
    /// The state before any operation.
    pub(crate) fn fresh(alloc: Global) -> Result<Parts, NoMemory>
        ensures { IfOk result (λ parts. parts ≡ opening) }
    {
        Ok(Parts {
            alloc,
            opens: Opens::fresh(alloc)?,
            tree: Tree::fresh(alloc)?,
        })
    }

    /// Whether the process is live.
    pub(crate) fn is_live(&self, pid: Pid) -> bool
        ensures { IsTrue result ↔ IsSome (at self.now.processes pid.0) }
    {
        self.opens.is_live(pid)
    }

    /// Whether every number of a process is used.
    pub(crate) fn is_full(&self) -> bool
        ensures { IsTrue result ↔ (lowest_unused self.now.processes FIRST_PROCESS ≡ None) }
    {
        self.opens.is_full()
    }

    /// How many processes are live.
    pub(crate) fn processes(&self) -> u32
        ensures { result ≡ count_by is_some self.now.processes }
    {
        self.opens.count()
    }

    /// A success with one value.
    pub(crate) fn done(&self, value: u64) -> Outcome
        ensures { result ≡ success value }
    {
        Outcome::success(self.alloc, value)
    }

    /// An error.
    pub(crate) fn failed(&self, error: Errno) -> Outcome
        ensures { result ≡ failure error }
    {
        Outcome::failure(self.alloc, error)
    }
}
