ghost use Rattle.std.specs.Prelude.{ℕ, ◌≡◌, ◌≤◌, ◌<◌, ◌+◌, ◌^◌, length, IfOk, OnOk, OnErr, IfSome, IfNone, IsSome, Some, None};
ghost use Rattle.sp_base.specs.Table.{at, lowest_unused};
ghost use Rattle.kern_model.specs.Descriptors.{has_bit};
ghost use Rattle.kern_model.specs.Files.{act_open, opened, open_found, open_walked, truncates};
ghost use Rattle.kern_model.specs.Sound.{IsSound};
ghost use Rattle.kern_model.specs.State.{rows_of};
ghost use Rattle.kern_model.specs.Step.{failed};
ghost use Rattle.kern_model.specs.Walk.{walk};
ghost use Rattle.kern_open.specs.OpenTables as tables;
ghost use Rattle.kern_files.specs.Files.{holders_of, cut_error};
ghost use Rattle.kern_calls.specs.Opened.{opened_file, held, emptied_if, without_bytes_if};
ghost use Rattle.kern_calls.specs.Reached.{IsMissing};

use crate::names::name_in;
use crate::parts::Parts;
use crate::writes::may_write;
use kern_files::Tree;
use kern_model::{Access, NodeKind, Object, OpenFile, OpenFlags, Outcome};
use kern_names::{Last, Walked};
use kern_nodes::TreeFault;
use kern_open::Opens;
use sp_base::{Errno, Fd, NoMemory, NodeNo, Pid};

/// What an open asks for, once its flags are known: the flags, and the access among them.
#[derive(Clone, Copy, Debug, PartialEq, Eq)]
struct Asked {
    flags: OpenFlags,
    access: Access,
}

/// The open file that an open of a node makes.
fn opened_file(node: NodeNo, asked: Asked) -> OpenFile
    ensures { result ≡ opened_file node.0 asked.flags.0 asked.access }
{
    OpenFile {
        object: Object::Node(node.0),
        access: asked.access,
        append: asked.flags.appends(),
        nonblock: asked.flags.never_waits(),
        offset: 0,
    }
}

/// Empties a node, where that is asked for. Want of memory leaves all as it was.
fn empty_if(tree: &mut Tree, node: NodeNo, asked: bool) -> Result<(), NoMemory>
    requires there { IsSome (at tree.old.nodes node.0) }
    requires fits { cut_error tree.old node.0 0 ≡ None }
    ensures ok { OnOk result (tree.new ≡ emptied_if asked tree.old node.0) }
    ensures err { OnErr result (tree.new ≡ tree.old) }
{
    if !asked {
        return Ok(());
    }
    match tree.cut(node, 0) {
        Ok(()) => Ok(()),
        Err(TreeFault::NoMemory) => Err(NoMemory),
        Err(TreeFault::Errno(_)) => unreachable!(),
    }
}

/// Gives a new open file of a node, in the room that was reserved, the lowest unused descriptor.
fn open_node(opens: &mut Opens, tree: &mut Tree, pid: Pid, node: NodeNo, asked: Asked) -> Fd
    requires live { IsSome (at opens.old.processes pid.0) }
    requires unused { IsSome (lowest_unused (tables.rows_of opens.old pid.0) 0) }
    requires room { 0 < opens.old.room }
    requires there { IsSome (at tree.old.nodes node.0) }
    requires fits { holders_of tree.old node.0 + 1 < 2 ^ 64 }
    ensures which { lowest_unused (tables.rows_of opens.old pid.0) 0 ≡ Some result.0 }
    ensures opens { opens.new ≡ tables.open_at opens.old pid.0 result.0
        (opened_file node.0 asked.flags.0 asked.access) (has_bit asked.flags.0 4194304) }
    ensures tree { tree.new ≡ held tree.old node.0 }
    ensures counted { holders_of tree.new node.0 ≡ holders_of tree.old node.0 + 1 }
{
    tree.hold(node);
    opens.open(pid, opened_file(node, asked), asked.flags.closes_on_exec())
}

impl Parts {
    /// Why a node that is there can't be opened: EEXIST where it is to be made, EISDIR of a directory that is to be written or
    /// made, EOPNOTSUPP of a socket.
    fn open_fault(&self, node: NodeNo, asked: Asked) -> Option<Errno>
        requires { IsSome (at self.now.nodes node.0) }
        ensures fault { IfSome result (λ error. (pid fd : ℕ)
            → open_found self.now pid fd node.0 asked.flags.0 asked.access
            ≡ failed error self.now) }
        ensures none { IfNone result ((pid fd : ℕ)
            → open_found self.now pid fd node.0 asked.flags.0 asked.access
            ≡ opened (without_bytes_if (truncates asked.flags.0) self.now node.0) pid fd node.0
            asked.flags.0 asked.access) }
    {
        let creates = asked.flags.creates();
        if creates && asked.flags.excludes() {
            return Some(Errno::Eexist);
        }
        if self.is_directory(node.0) && (may_write(asked.access) || creates) {
            return Some(Errno::Eisdir);
        }
        if self.is_socket(node.0) {
            return Some(Errno::Eopnotsupp);
        }
        None
    }

    /// open of what is there. Want of memory leaves the state as it was.
    fn open_found(&mut self, pid: Pid, node: NodeNo, asked: Asked) -> Result<Outcome, NoMemory>
        requires live { IsSome (at self.old.processes pid.0) }
        requires sound { IsSound self.old }
        requires unused { IsSome (lowest_unused (rows_of self.old pid.0) 0) }
        requires there { IsSome (at self.old.nodes node.0) }
        ensures ok { IfOk result (λ outcome. (fd : ℕ)
            → lowest_unused (rows_of self.old pid.0) 0 ≡ Some fd
            → open_found self.old pid.0 fd node.0 asked.flags.0 asked.access
            ≡ Some (outcome, self.new)) }
        ensures err { OnErr result (self.new ≡ self.old) }
    {
        if let Some(error) = self.open_fault(node, asked) {
            return Ok(self.failed(error));
        }
        self.opens.reserve(1)?;
        empty_if(&mut self.tree, node, asked.flags.truncates())?;
        let fd = open_node(&mut self.opens, &mut self.tree, pid, node, asked);
        Ok(self.done(u64::from(fd.0)))
    }

    /// open of what is missing. Want of memory leaves the state as it was.
    fn open_missing(
        &mut self,
        pid: Pid,
        text: &[u8],
        last: Last,
        asked: Asked,
    ) -> Result<Outcome, NoMemory>
        requires live { IsSome (at self.old.processes pid.0) }
        requires short { length text.now ≤ 1023 }
        requires unused { IsSome (lowest_unused (rows_of self.old pid.0) 0) }
        requires missing { IsMissing self.old text.now (walk self.old pid.0 text.now) last }
        ensures ok { IfOk result (λ outcome. (fd : ℕ)
            → lowest_unused (rows_of self.old pid.0) 0 ≡ Some fd
            → open_walked self.old pid.0 fd (walk self.old pid.0 text.now)
            asked.flags.0 asked.access ≡ Some (outcome, self.new)) }
        ensures err { OnErr result (self.new ≡ self.old) }
    {
        if !asked.flags.creates() || last.slash {
            return Ok(self.failed(Errno::Enoent));
        }
        self.opens.reserve(1)?;
        let name = name_in(text, last);
        let node = match self.tree.create(last.directory, name, NodeKind::File) {
            Ok(node) => node,
            Err(TreeFault::Errno(error)) => return Ok(self.failed(error)),
            Err(TreeFault::NoMemory) => return Err(NoMemory),
        };
        let fd = open_node(&mut self.opens, &mut self.tree, pid, node, asked);
        Ok(self.done(u64::from(fd.0)))
    }

    /// open. Want of memory leaves the state as it was.
    pub(crate) fn open(&mut self, pid: Pid, path: &[u8], flags: u64) -> Result<Outcome, NoMemory>
        requires live { IsSome (at self.old.processes pid.0) }
        requires sound { IsSound self.old }
        requires short { length path.now ≤ 1023 }
        ensures ok { IfOk result (λ outcome. act_open self.old pid.0 path.now flags
            ≡ Some (outcome, self.new)) }
        ensures err { OnErr result (self.new ≡ self.old) }
    {
        let flags = OpenFlags(flags);
        let Some(access) = flags.access() else {
            return Ok(self.failed(Errno::Einval));
        };
        if !flags.is_known() || flags.truncates() && !may_write(access) {
            return Ok(self.failed(Errno::Einval));
        }
        if self.lowest_descriptor(pid, 0).is_none() {
            return Ok(self.failed(Errno::Emfile));
        }
        let asked = Asked { flags, access };
        match self.walk(pid, path) {
            Walked::Fault(error) => Ok(self.failed(error)),
            Walked::Found(node, _) => self.open_found(pid, node, asked),
            Walked::Missing(last) => self.open_missing(pid, path, last, asked),
        }
    }
}
