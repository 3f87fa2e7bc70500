ghost use Rattle.std.specs.Prelude.{◌≡◌, ℕ, ◌+◌, ◌<◌, ◌^◌, length, IsSome, Some};
ghost use Rattle.numbered.specs.Book.{IsBook, with_value};
ghost use Rattle.sp_base.specs.declared.limits.TheConstants.{DESCRIPTORS};
ghost use Rattle.sp_base.specs.Table.{at};
ghost use Rattle.kern_proc.specs.Processes.{rows_at};
ghost use Rattle.kern_model.specs.declared.node.Row.{Row as RowOf};
ghost use Rattle.kern_open.specs.declared.shared.Shared.{Shared as SharedOf};
ghost use Rattle.kern_open.specs.Counted.{shared_at, Holds};

use kern_model::OpenFile;
use kern_proc::Procs;
use numbered::Numbered;
use sp_base::{DESCRIPTORS, Pid};

/// An open file, and how many rows of all processes are of it.
#[derive(Clone, Copy, Debug, PartialEq, Eq)]
pub struct Shared {
    pub file: OpenFile,
    pub rows: u64,
}

/// Counts one row more of what a key holds.
pub fn hold(files: &mut Numbered<Shared>, key: u64)
    requires few { (shared : SharedOf) → shared_at files.old key ≡ Some shared →
        shared.rows < 2 ^ 32 }
    ensures counted { (shared : SharedOf) → shared_at files.old key ≡ Some shared →
        files.new ≡ with_value files.old key (record shared { rows = shared.rows + 1 }) }
    ensures sound { IsBook files.old }
{
    let Some(shared) = files.get(key).copied() else {
        return;
    };
    let more = Shared {
        file: shared.file,
        rows: shared.rows + 1,
    };
    files.set(key, more);
}

/// Counts the rows of a process once more.
pub fn hold_rows(procs: &Procs, files: &mut Numbered<Shared>, pid: Pid)
    requires live { IsSome (at procs.now pid.0) }
    requires rows { length (rows_at procs.now pid.0) ≡ DESCRIPTORS }
    requires held { (fd : ℕ) (row : RowOf) → at (rows_at procs.now pid.0) fd ≡ Some row →
        IsSome (shared_at files.old row.file) }
    requires few { (key : ℕ) (shared : SharedOf) → shared_at files.old key ≡ Some shared →
        shared.rows < 2 ^ 31 }
    ensures { Holds files.old files.new (rows_at procs.now pid.0) }
{
    for fd in 0..DESCRIPTORS {
        if let Some(file) = procs.lookup(pid, fd) {
            hold(files, file.0);
        }
    }
}
