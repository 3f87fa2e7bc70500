ghost use Rattle.std.specs.Prelude.{ℕ, ◌≡◌, ◌+◌, ◌<◌, ◌^◌, length, IfOk, OnErr, IfSome, IsSome, Some};
ghost use Rattle.sp_base.specs.Table.{at};
ghost use Rattle.kern_model.specs.Files.{bytes_from, is_file_kind, stat_bytes, kind_number};
ghost use Rattle.kern_model.specs.Outcome.{success};
ghost use Rattle.kern_model.specs.Sound.{HasLimits};
ghost use Rattle.kern_model.specs.State.{kind_in, bytes_of, is_directory, is_socket};
ghost use Rattle.kern_model.specs.Step.{piece_at};

use crate::parts::Parts;
use kern_model::{NodeKind, OutPiece, Outcome};
use sp_base::{Items, NoMemory, NodeNo, Octets};

/// The number of a kind of node.
fn kind_number(kind: NodeKind) -> u32
    ensures { result ≡ kind_number kind }
{
    match kind {
        NodeKind::File => 1,
        NodeKind::Directory => 2,
        NodeKind::Socket => 4,
    }
}

impl Parts {
    /// The kind of a node.
    pub(crate) fn kind(&self, node: u64) -> NodeKind
        requires { IsSome (at self.now.nodes node) }
        ensures { result ≡ kind_in (at self.now.nodes node) }
    {
        self.tree.stat(NodeNo(node)).kind
    }

    /// Whether a node is a directory.
    pub(crate) fn is_directory(&self, node: u64) -> bool
        requires { IsSome (at self.now.nodes node) }
        ensures { result ≡ is_directory self.now node }
    {
        matches!(self.kind(node), NodeKind::Directory)
    }

    /// Whether a node is a socket.
    pub(crate) fn is_socket(&self, node: u64) -> bool
        requires { IsSome (at self.now.nodes node) }
        ensures { result ≡ is_socket self.now node }
    {
        matches!(self.kind(node), NodeKind::Socket)
    }

    /// Whether a node is a file.
    pub(crate) fn is_file(&self, node: u64) -> bool
        requires { IsSome (at self.now.nodes node) }
        ensures { result ≡ is_file_kind (kind_in (at self.now.nodes node)) }
    {
        matches!(self.kind(node), NodeKind::File)
    }

    /// How many bytes a node has.
    pub(crate) fn size(&self, node: u64) -> u64
        requires { IsSome (at self.now.nodes node) }
        ensures { result ≡ length (bytes_of self.now node) }
    {
        self.tree.stat(NodeNo(node)).size
    }

    /// A copy of what one call moves of the bytes of a node from an offset on.
    pub(crate) fn read_at(&self, node: u64, offset: u64, len: u64) -> Result<Octets, NoMemory>
        requires there { IsSome (at self.now.nodes node) }
        requires limits { HasLimits self.now }
        ensures bytes { IfOk result (λ bytes. bytes ≡ bytes_from self.now node offset len) }
        ensures end { IfOk result (λ bytes. offset + length bytes < 2 ^ 64) }
    {
        self.tree.read_at(NodeNo(node), offset, len)
    }

    /// What fstat and stat write of a node.
    pub(crate) fn stat_bytes(&self, node: u64) -> Result<Octets, NoMemory>
        requires { IsSome (at self.now.nodes node) }
        ensures { IfOk result (λ bytes. bytes ≡ stat_bytes self.now node) }
    {
        let stat = self.tree.stat(NodeNo(node));
        let mut bytes = Octets::none(self.alloc);
        bytes.extend(&kind_number(stat.kind).to_le_bytes())?;
        bytes.extend(&stat.links.to_le_bytes())?;
        bytes.extend(&stat.size.to_le_bytes())?;
        bytes.extend(&node.to_le_bytes())?;
        Ok(bytes)
    }

    /// A success that writes bytes to an address.
    pub(crate) fn wrote(&self, value: u64, addr: u64, bytes: Octets) -> Result<Outcome, NoMemory>
        ensures { IfOk result (λ outcome. outcome
            ≡ record (success value) { outs = piece_at addr bytes }) }
    {
        let mut outs = Items::none(self.alloc);
        if bytes.len() > 0 {
            outs.push(OutPiece { addr, bytes })?;
        }
        Ok(Outcome {
            err: 0,
            ret0: value,
            ret1: 0,
            outs,
        })
    }
}
