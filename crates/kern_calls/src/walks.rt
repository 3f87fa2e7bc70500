ghost use Rattle.std.specs.Prelude.{ℕ, Bool, ◌≡◌, ◌≤◌, length, IfOk, IsSome, Err};
ghost use Rattle.sp_base.specs.Table.{at};
ghost use Rattle.sp_base.specs.declared.errno.Errno.{Errno as Error};
ghost use Rattle.sp_base.specs.declared.errno.Errno.TheVariants.{Eexist};
ghost use Rattle.kern_model.specs.Name.{Path};
ghost use Rattle.kern_model.specs.Sound.{IsSound};
ghost use Rattle.kern_model.specs.Step.{Step, failed, with_found, with_missing};
ghost use Rattle.kern_model.specs.Walk.{walk};
ghost use Rattle.kern_calls.specs.Reached.{IsFound, IsMissing, files_of};
ghost use Rattle.kern_files.specs.Reach.{Reaches};

use crate::parts::Parts;
use kern_names::{Last, Walked};
use sp_base::{Errno, NodeNo, Pid};

/// A node that a path's text leads to, and the last component, where that is a name.
#[derive(Clone, Copy, Debug, PartialEq, Eq)]
pub(crate) struct Found {
    pub(crate) node: NodeNo,
    pub(crate) last: Option<Last>,
}

impl Parts {
    /// What a path's text, of at most 1,023 bytes, leads to for a process.
    pub(crate) fn walk(&self, pid: Pid, text: &[u8]) -> Walked
        requires live { IsSome (at self.now.processes pid.0) }
        requires sound { IsSound self.now }
        requires short { length text.now ≤ 1023 }
        ensures { Reaches (files_of self.now) text.now (walk self.now pid.0 text.now) result }
    {
        self.tree.walk(self.opens.directory(pid), text)
    }

    /// What stands under a path's text of at most 1,023 bytes; ENOENT where nothing does.
    pub(crate) fn found(&self, pid: Pid, text: &[u8]) -> Result<Found, Errno>
        requires live { IsSome (at self.now.processes pid.0) }
        requires sound { IsSound self.now }
        requires short { length text.now ≤ 1023 }
        ensures ok { IfOk result (λ found. IsFound self.now text.now
            (walk self.now pid.0 text.now) found.node.0 found.last) }
        ensures err { (error : Error) → result ≡ Err error → (act_with : Path → ℕ → Bool → Step)
            → with_found (walk self.now pid.0 text.now) self.now act_with ≡ failed error self.now }
    {
        match self.walk(pid, text) {
            Walked::Found(node, last) => Ok(Found { node, last }),
            Walked::Missing(_) => Err(Errno::Enoent),
            Walked::Fault(error) => Err(error),
        }
    }

    /// The place of a path's text of at most 1,023 bytes that nothing stands under; EEXIST where something does.
    pub(crate) fn missing(&self, pid: Pid, text: &[u8]) -> Result<Last, Errno>
        requires live { IsSome (at self.now.processes pid.0) }
        requires sound { IsSound self.now }
        requires short { length text.now ≤ 1023 }
        ensures ok { IfOk result (λ last. IsMissing self.now text.now
            (walk self.now pid.0 text.now) last) }
        ensures err { (error : Error) → result ≡ Err error → (act_with : Path → Bool → Step)
            → with_missing (walk self.now pid.0 text.now) Eexist self.now act_with
            ≡ failed error self.now }
    {
        match self.walk(pid, text) {
            Walked::Missing(last) => Ok(last),
            Walked::Found(_, _) => Err(Errno::Eexist),
            Walked::Fault(error) => Err(error),
        }
    }
}
