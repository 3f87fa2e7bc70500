ghost use Rattle.std.specs.Prelude.{◌≡◌, length, IfOk, OnErr, IsSome, Some};
ghost use Rattle.sp_base.specs.Table.{at};
ghost use Rattle.kern_model.specs.State.{replace_bytes, with_bytes};
ghost use Rattle.kern_model.specs.declared.node.Object.TheVariants as object;
ghost use Rattle.kern_model.specs.Descriptors.{has_bit};
ghost use Rattle.kern_model.specs.Files.{may_write, opened, open_found, open_missing, with_new_file, act_open};

use super::Plain;
use crate::node::{Access, Node, NodeKind, Object, OpenFile, Path, Row};
use crate::open_flags::OpenFlags;
use crate::outcome::Outcome;
use crate::walk::Walked;
use sp_base::{Errno, NoMemory, Octets, Pid, table};

/// Whether an access allows writing.
pub(crate) fn may_write(access: Access) -> bool
    ensures { result ≡ may_write access }
{
    !matches!(access, Access::Reading)
}

/// A node with other bytes, where there is a node.
fn rewritten(nodes: &[Option<Node>], n: u64, bytes: Octets) -> Option<Node>
    ensures { result ≡ replace_bytes (at nodes.now n) bytes }
{
    let n = n as usize;
    if n >= nodes.len() {
        return None;
    }
    match &nodes[n] {
        Some(node) => Some(Node {
            kind: node.kind,
            bytes,
        }),
        None => None,
    }
}

/// The open file that open makes of a node.
fn file_of(node: u64, flags: OpenFlags, access: Access) -> OpenFile
    ensures { result ≡ record { object = object.Node node; access = access; append = has_bit flags.0 8; nonblock = has_bit flags.0 4; offset = 0 } }
{
    OpenFile {
        object: Object::Node(node),
        access,
        append: flags.appends(),
        nonblock: flags.never_waits(),
        offset: 0,
    }
}

impl Plain {
    /// Puts other bytes into a node.
    pub(crate) fn set_bytes(&mut self, node: u64, bytes: Octets)
        ensures { self.new ≡ with_bytes self.old node bytes }
    {
        let changed = rewritten(&self.nodes, node, bytes);
        table::set(&mut self.nodes, node, changed);
    }

    /// A descriptor gets a new open file of a node. Want of memory leaves the state as it was.
    fn opened(
        &mut self,
        pid: Pid,
        fd: u64,
        node: u64,
        flags: OpenFlags,
        access: Access,
    ) -> Result<Outcome, NoMemory>
        requires { IsSome (at self.old.processes pid.0) }
        ensures ok { IfOk result (λ outcome. opened self.old pid.0 fd node flags.0 access
            ≡ Some (outcome, self.new)) }
        ensures err { OnErr result (self.new ≡ self.old) }
    {
        let file = self.files.len() as u64;
        self.files.push(Some(file_of(node, flags, access)))?;
        let close_on_exec = flags.closes_on_exec();
        self.set_row(
            pid,
            fd,
            Some(Row {
                file,
                close_on_exec,
            }),
        );
        Ok(self.done(fd))
    }

    /// open of an object that is there. Want of memory leaves the state as it was.
    fn open_found(
        &mut self,
        pid: Pid,
        fd: u64,
        node: u64,
        flags: OpenFlags,
        access: Access,
    ) -> Result<Outcome, NoMemory>
        requires { IsSome (at self.old.processes pid.0) }
        ensures ok { IfOk result (λ outcome. open_found self.old pid.0 fd node flags.0 access
            ≡ Some (outcome, self.new)) }
        ensures err { OnErr result (self.new ≡ self.old) }
    {
        if flags.creates() && flags.excludes() {
            return Ok(self.failed(Errno::Eexist));
        }
        if self.is_directory(node) && (may_write(access) || flags.creates()) {
            return Ok(self.failed(Errno::Eisdir));
        }
        if self.is_socket(node) {
            return Ok(self.failed(Errno::Eopnotsupp));
        }
        let outcome = self.opened(pid, fd, node, flags, access)?;
        if flags.truncates() {
            self.set_bytes(node, Octets::none(self.alloc));
        }
        Ok(outcome)
    }

    /// An empty file is made under a path and opened. Want of memory leaves the state as it was.
    fn open_new(
        &mut self,
        pid: Pid,
        fd: u64,
        path: Path,
        flags: OpenFlags,
        access: Access,
    ) -> Result<Outcome, NoMemory>
        requires { IsSome (at self.old.processes pid.0) }
        ensures ok { IfOk result
            (λ outcome. opened (with_new_file self.old path) pid.0 fd
            (length self.old.nodes) flags.0 access ≡ Some (outcome, self.new)) }
        ensures err { OnErr result (self.new ≡ self.old) }
    {
        self.files.reserve(1)?;
        let node = self.nodes.len() as u64;
        let file = self.files.len() as u64;
        let made = file_of(node, flags, access);
        self.nodes.reserve(1)?;
        self.names.insert(path, node)?;
        let empty = Node {
            kind: NodeKind::File,
            bytes: Octets::none(self.alloc),
        };
        match self.nodes.push(Some(empty)) {
            Ok(()) => {}
            Err(_) => unreachable!(),
        }
        match self.files.push(Some(made)) {
            Ok(()) => {}
            Err(_) => unreachable!(),
        }
        let close_on_exec = flags.closes_on_exec();
        self.set_row(
            pid,
            fd,
            Some(Row {
                file,
                close_on_exec,
            }),
        );
        Ok(self.done(fd))
    }

    /// open of what is missing. Want of memory leaves the state as it was.
    fn open_missing(
        &mut self,
        pid: Pid,
        fd: u64,
        path: Path,
        slash: bool,
        flags: OpenFlags,
        access: Access,
    ) -> Result<Outcome, NoMemory>
        requires { IsSome (at self.old.processes pid.0) }
        ensures ok { IfOk result
            (λ outcome. open_missing self.old pid.0 fd path slash flags.0 access
            ≡ Some (outcome, self.new)) }
        ensures err { OnErr result (self.new ≡ self.old) }
    {
        if !flags.creates() || slash {
            return Ok(self.failed(Errno::Enoent));
        }
        if !self.has_room() {
            return Ok(self.failed(Errno::Enospc));
        }
        self.open_new(pid, fd, path, flags, access)
    }

    /// open. Want of memory leaves the state as it was.
    pub(crate) fn open(
        &mut self,
        pid: Pid,
        path: &[u8],
        flags: OpenFlags,
    ) -> Result<Outcome, NoMemory>
        requires { IsSome (at self.old.processes pid.0) }
        ensures ok { IfOk result (λ outcome. act_open self.old pid.0 path.now flags.0
            ≡ Some (outcome, self.new)) }
        ensures err { OnErr result (self.new ≡ self.old) }
    {
        let Some(access) = flags.access() else {
            return Ok(self.failed(Errno::Einval));
        };
        if !flags.is_known() || flags.truncates() && !may_write(access) {
            return Ok(self.failed(Errno::Einval));
        }
        let Some(fd) = self.lowest_descriptor(pid, 0) else {
            return Ok(self.failed(Errno::Emfile));
        };
        match self.walk(pid, path)? {
            Walked::Found { node, .. } => self.open_found(pid, fd as u64, node, flags, access),
            Walked::Missing { path, slash } => self.open_missing(
                pid, fd as u64, path, slash, flags, access,
            ),
            Walked::Faulty(error) => Ok(self.failed(error)),
        }
    }
}
