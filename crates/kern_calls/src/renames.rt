ghost use Rattle.std.specs.Prelude.{◌≡◌, ◌≤◌, length, IfOk, OnErr, IsSome, Some, Err};
ghost use Rattle.sp_base.specs.Table.{at};
ghost use Rattle.sp_base.specs.declared.errno.Errno.{Errno as Error};
ghost use Rattle.kern_model.specs.Links.{act_rename};
ghost use Rattle.kern_model.specs.Name.{Path};
ghost use Rattle.kern_model.specs.Sound.{IsSound};
ghost use Rattle.kern_model.specs.Step.{failed};
ghost use Rattle.kern_files.specs.Files.{rename_error};
ghost use Rattle.kern_files.specs.Reach.{IsLast};
ghost use Rattle.kern_calls.specs.Reached.{files_of};
ghost use Rattle.kern_calls.specs.Renames.{IsPart, MayRename};

use crate::names::{name_in, unnamed_error};
use crate::parts::Parts;
use kern_files::TreeFault;
use kern_model::Outcome;
use kern_names::{Last, ROOT, Walked};
use sp_base::{Errno, NoMemory, Pid};

impl Parts {
    /// Why the tree can't give what stands under one name another: EINVAL, EISDIR, ENOTDIR, ENOTEMPTY.
    fn rename_fault(&self, from: Last, old: &[u8], to: Last, new: &[u8]) -> Option<Errno>
        requires short { length old.now ≤ 1023 }
        requires short_new { length new.now ≤ 1023 }
        requires begins { IsPart self.now old.now from }
        requires ends { IsPart self.now new.now to }
        ensures { (path above : Path) → IsLast (files_of self.now) old.now path from
            → IsLast (files_of self.now) new.now above to
            → result ≡ rename_error (files_of self.now) path above }
    {
        let old_name = name_in(old, from);
        let new_name = name_in(new, to);
        self.tree
            .rename_fault(from.directory, old_name, to.directory, new_name)
    }

    /// The names that a rename takes and gives, or why it can't be done.
    fn rename_ends(&self, pid: Pid, old: &[u8], new: &[u8]) -> Result<(Last, Last), Errno>
        requires live { IsSome (at self.now.processes pid.0) }
        requires sound { IsSound self.now }
        requires short { length old.now ≤ 1023 }
        requires short_new { length new.now ≤ 1023 }
        ensures ok { IfOk result (λ ends. MayRename self.now pid.0 old.now new.now ends.0 ends.1) }
        ensures err { (error : Error) → result ≡ Err error
            → act_rename self.now pid.0 old.now new.now ≡ failed error self.now }
    {
        let found = self.found(pid, old)?;
        match self.walk(pid, new) {
            Walked::Fault(error) => Err(error),
            Walked::Missing(to) => {
                if to.slash && !self.is_directory(found.node.0) {
                    return Err(Errno::Enoent);
                }
                let Some(from) = found.last else {
                    return Err(unnamed_error(found.node));
                };
                match self.rename_fault(from, old, to, new) {
                    Some(error) => Err(error),
                    None => Ok((from, to)),
                }
            }
            Walked::Found(node, last) => {
                let (Some(from), Some(to)) = (found.last, last) else {
                    return Err(if found.node == ROOT {
                        Errno::Ebusy
                    } else {
                        unnamed_error(node)
                    });
                };
                if let Some(error) = self.rename_fault(from, old, to, new) {
                    return Err(error);
                }
                if found.node != node && self.opens.is_directory_of_some(node) {
                    return Err(Errno::Ebusy);
                }
                Ok((from, to))
            }
        }
    }

    /// rename. Want of memory leaves the state as it was.
    pub(crate) fn rename(&mut self, pid: Pid, old: &[u8], new: &[u8]) -> Result<Outcome, NoMemory>
        requires live { IsSome (at self.old.processes pid.0) }
        requires sound { IsSound self.old }
        requires short { length old.now ≤ 1023 }
        requires short_new { length new.now ≤ 1023 }
        ensures ok { IfOk result (λ outcome. act_rename self.old pid.0 old.now new.now
            ≡ Some (outcome, self.new)) }
        ensures err { OnErr result (self.new ≡ self.old) }
    {
        let (from, to) = match self.rename_ends(pid, old, new) {
            Ok(ends) => ends,
            Err(error) => return Ok(self.failed(error)),
        };
        let old_name = name_in(old, from);
        let new_name = name_in(new, to);
        match self
            .tree
            .rename(from.directory, old_name, to.directory, new_name)
        {
            Ok(()) => Ok(self.done(0)),
            Err(TreeFault::NoMemory) => Err(NoMemory),
            Err(TreeFault::Errno(_)) => unreachable!(),
        }
    }
}
