ghost use Rattle.std.specs.Prelude.{◌≡◌, IfOk, OnErr, IsSome, Some};
ghost use Rattle.sp_base.specs.Table.{at};
ghost use Rattle.kern_model.specs.Links.{is_root, is_below, rename_to_missing, rename_over, rename_to_found, act_rename};

use super::Plain;
use crate::node::Path;
use crate::outcome::Outcome;
use crate::path::{depth_below, is_same};
use crate::walk::Walked;
use sp_base::{Errno, NoMemory, Octets, Pid};

/// Whether a path is the root's.
fn is_root(path: &[Octets]) -> bool
    ensures { result ≡ is_root path.now }
{
    is_same(path, &[])
}

/// Whether a path is below another.
fn is_below(path: &[Octets], top: &[Octets]) -> bool
    ensures { result ≡ is_below path.now top.now }
{
    depth_below(path, top).is_some() && !is_same(path, top)
}

impl Plain {
    /// rename onto what is missing. Want of memory leaves the state as it was.
    fn rename_to_missing(
        &mut self,
        old: &Path,
        node: u64,
        named: bool,
        new: &Path,
    ) -> Result<Outcome, NoMemory>
        ensures ok { IfOk result (λ outcome. rename_to_missing self.old old.now node named new.now
            ≡ Some (outcome, self.new)) }
        ensures err { OnErr result (self.new ≡ self.old) }
    {
        if is_root(old.slice()) {
            return Ok(self.failed(Errno::Ebusy));
        }
        if !named {
            return Ok(self.failed(Errno::Einval));
        }
        if is_below(new.slice(), old.slice()) {
            return Ok(self.failed(Errno::Einval));
        }
        self.names.rename(self.alloc, old.slice(), new.slice())?;
        Ok(self.done(0))
    }

    /// rename onto an object by its kind. Want of memory leaves the state as it was.
    fn rename_over(
        &mut self,
        old: &Path,
        node: u64,
        new: &Path,
        replaced: u64,
    ) -> Result<Outcome, NoMemory>
        ensures ok { IfOk result (λ outcome. rename_over self.old old.now node new.now replaced
            ≡ Some (outcome, self.new)) }
        ensures err { OnErr result (self.new ≡ self.old) }
    {
        if !self.is_directory(node) && self.is_directory(replaced) {
            return Ok(self.failed(Errno::Eisdir));
        }
        if self.is_directory(node) && !self.is_directory(replaced) {
            return Ok(self.failed(Errno::Enotdir));
        }
        if self.is_directory(replaced) && self.names.has_entries(new.slice()) {
            return Ok(self.failed(Errno::Enotempty));
        }
        if self.is_working_directory(replaced) {
            return Ok(self.failed(Errno::Ebusy));
        }
        let mut names = self.names.copy(self.alloc)?;
        names.remove(new.slice());
        names.rename(self.alloc, old.slice(), new.slice())?;
        self.drop_name(new, replaced);
        self.names = names;
        Ok(self.done(0))
    }

    /// rename onto an object that is there. Want of memory leaves the state as it was.
    fn rename_to_found(
        &mut self,
        old: &Path,
        node: u64,
        named: bool,
        new: &Path,
        replaced: u64,
        new_named: bool,
    ) -> Result<Outcome, NoMemory>
        ensures ok { IfOk result
            (λ outcome. rename_to_found self.old old.now node named new.now replaced new_named
            ≡ Some (outcome, self.new)) }
        ensures err { OnErr result (self.new ≡ self.old) }
    {
        if named && new_named && is_same(old.slice(), new.slice()) {
            return Ok(self.done(0));
        }
        if is_root(old.slice()) || is_root(new.slice()) {
            return Ok(self.failed(Errno::Ebusy));
        }
        if !(named && new_named) {
            return Ok(self.failed(Errno::Einval));
        }
        if node == replaced {
            self.drop_name(old, node);
            return Ok(self.done(0));
        }
        if is_below(new.slice(), old.slice()) {
            return Ok(self.failed(Errno::Einval));
        }
        self.rename_over(old, node, new, replaced)
    }

    /// rename. Want of memory leaves the state as it was.
    pub(crate) fn rename(&mut self, pid: Pid, old: &[u8], new: &[u8]) -> Result<Outcome, NoMemory>
        requires { IsSome (at self.old.processes pid.0) }
        ensures ok { IfOk result (λ outcome. act_rename self.old pid.0 old.now new.now
            ≡ Some (outcome, self.new)) }
        ensures err { OnErr result (self.new ≡ self.old) }
    {
        let (path, node, named) = match self.walk(pid, old)? {
            Walked::Found { path, node, named } => (path, node, named),
            Walked::Missing { .. } => return Ok(self.failed(Errno::Enoent)),
            Walked::Faulty(error) => return Ok(self.failed(error)),
        };
        match self.walk(pid, new)? {
            Walked::Found {
                path: new,
                node: replaced,
                named: new_named,
            } => self.rename_to_found(&path, node, named, &new, replaced, new_named),
            Walked::Missing { path: new, slash } => {
                if slash && !self.is_directory(node) {
                    return Ok(self.failed(Errno::Enoent));
                }
                self.rename_to_missing(&path, node, named, &new)
            }
            Walked::Faulty(error) => Ok(self.failed(error)),
        }
    }
}
