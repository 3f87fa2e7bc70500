ghost use Rattle.std.specs.Prelude.{◌≡◌, IfOk, IsSome};
ghost use Rattle.std.specs.FinMap.{get};
ghost use Rattle.sp_base.specs.Table.{at};
ghost use Rattle.kern_model.specs.State.{kind_in, is_directory, is_socket, directory_of};
ghost use Rattle.kern_model.specs.Walk.{found_at, last_at, walk_last, through, walk_from, walk};

use super::Plain;
use crate::node::{Node, NodeKind, Path};
use crate::path::{child, copy, parent};
use crate::path_text::{
    begins_with_slash, components, ends_with_slash, has_long_component, is_here, is_up,
};
use crate::walk::Walked;
use sp_base::{Errno, NoMemory, Octets, Pid};

/// The kind of a node, a file's where there is no node.
fn kind_at(nodes: &[Option<Node>], n: u64) -> NodeKind
    ensures { result ≡ kind_in (at nodes.now n) }
{
    let n = n as usize;
    if n >= nodes.len() {
        return NodeKind::File;
    }
    match &nodes[n] {
        Some(node) => node.kind,
        None => NodeKind::File,
    }
}

impl Plain {
    /// The kind of a node, a file's where there is no node.
    pub(crate) fn kind(&self, node: u64) -> NodeKind
        ensures { result ≡ kind_in (at self.now.nodes node) }
    {
        kind_at(&self.nodes, node)
    }

    /// Whether a node is a directory.
    pub(crate) fn is_directory(&self, node: u64) -> bool
        ensures { result ≡ is_directory self.now node }
    {
        matches!(self.kind(node), NodeKind::Directory)
    }

    /// Whether a node is a socket.
    pub(crate) fn is_socket(&self, node: u64) -> bool
        ensures { result ≡ is_socket self.now node }
    {
        matches!(self.kind(node), NodeKind::Socket)
    }

    /// The node of a process's working directory.
    fn directory(&self, pid: Pid) -> u64
        requires { IsSome (at self.now.processes pid.0) }
        ensures { result ≡ directory_of self.now pid.0 }
    {
        match &self.processes[pid.0 as usize] {
            Some(descriptors) => descriptors.directory(),
            None => 1,
        }
    }

    /// The object under a path that is known to be there.
    fn found_at(&self, path: &[Octets], named: bool) -> Result<Walked, NoMemory>
        ensures { IfOk result (λ walked. walked
            ≡ found_at path.now (get self.now.names path.now) named) }
    {
        let Some(node) = self.names.get(path) else {
            return Ok(Walked::Faulty(Errno::Enoent));
        };
        let path = copy(self.alloc, path)?;
        Ok(Walked::Found { path, node, named })
    }

    /// The object under a last component's path, or a missing one.
    fn last_at(&self, path: Path, slash: bool) -> Walked
        ensures { result ≡ last_at self.now path slash (get self.now.names path) }
    {
        let Some(node) = self.names.get(path.slice()) else {
            return Walked::Missing { path, slash };
        };
        if slash && !self.is_directory(node) {
            return Walked::Faulty(Errno::Enotdir);
        }
        Walked::Found {
            path,
            node,
            named: true,
        }
    }

    /// The last component, from a directory on.
    fn walk_last(&self, path: &[Octets], component: &[u8], slash: bool) -> Result<Walked, NoMemory>
        ensures { IfOk result (λ walked. walked ≡ walk_last self.now path.now component.now slash) }
    {
        if is_here(component) {
            return self.found_at(path, false);
        }
        if is_up(component) {
            return self.found_at(parent(path), false);
        }
        let path = child(self.alloc, component, path)?;
        Ok(self.last_at(path, slash))
    }

    /// Why a path can't be walked through, if it can't.
    fn through(&self, path: &[Octets]) -> Option<Errno>
        ensures { result ≡ through self.now (get self.now.names path.now) }
    {
        match self.names.get(path) {
            None => Some(Errno::Enoent),
            Some(node) => {
                if self.is_directory(node) {
                    None
                } else {
                    Some(Errno::Enotdir)
                }
            }
        }
    }

    /// The components from a directory on.
    fn walk_from(&self, path: &[Octets], parts: &[Octets], slash: bool) -> Result<Walked, NoMemory>
        ensures { IfOk result (λ walked. walked ≡ walk_from self.now path.now parts.now slash) }
    {
        let Some((component, rest)) = parts.split_first() else {
            return self.found_at(path, false);
        };
        if rest.is_empty() {
            return self.walk_last(path, component.slice(), slash);
        }
        if is_here(component.slice()) {
            return self.walk_from(path, rest, slash);
        }
        if is_up(component.slice()) {
            return self.walk_from(parent(path), rest, slash);
        }
        let inner = child(self.alloc, component.slice(), path)?;
        match self.through(inner.slice()) {
            Some(error) => Ok(Walked::Faulty(error)),
            None => self.walk_from(inner.slice(), rest, slash),
        }
    }

    /// What a path's text leads to for a process.
    pub(crate) fn walk(&self, pid: Pid, text: &[u8]) -> Result<Walked, NoMemory>
        requires { IsSome (at self.now.processes pid.0) }
        ensures { IfOk result (λ walked. walked ≡ walk self.now pid.0 text.now) }
    {
        if text.is_empty() {
            return Ok(Walked::Faulty(Errno::Enoent));
        }
        let parts = components(self.alloc, text)?;
        if has_long_component(parts.slice()) {
            return Ok(Walked::Faulty(Errno::Enametoolong));
        }
        if begins_with_slash(text) {
            return self.walk_from(&[], parts.slice(), ends_with_slash(text));
        }
        match self.names.path_of(self.alloc, self.directory(pid))? {
            Some(path) => self.walk_from(path.slice(), parts.slice(), ends_with_slash(text)),
            None => Ok(Walked::Faulty(Errno::Enoent)),
        }
    }
}
