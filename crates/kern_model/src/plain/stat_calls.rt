ghost use Rattle.std.specs.Prelude.{◌≡◌, IfOk, OnErr, IsSome, Some};
ghost use Rattle.std.specs.Int.{w32, to_le_bytes};
ghost use Rattle.sp_base.specs.Table.{at};
ghost use Rattle.kern_model.specs.Files.{kind_number, link_count, stat_bytes, act_fstat, act_stat};

use super::Plain;
use crate::node::NodeKind;
use crate::outcome::Outcome;
use crate::walk::Walked;
use sp_base::{Errno, NoMemory, Octets, Pid};

/// The number of a kind of node.
fn kind_number(kind: NodeKind) -> u32
    ensures { result ≡ kind_number kind }
{
    match kind {
        NodeKind::File => 1,
        NodeKind::Directory => 2,
        NodeKind::Socket => 4,
    }
}

/// The four lowest bytes of a number, the lowest first.
fn low_bytes(number: u64) -> [u8; 4]
    ensures { result ≡ to_le_bytes w32 number }
{
    let bytes = number.to_le_bytes();
    [bytes[0], bytes[1], bytes[2], bytes[3]]
}

impl Plain {
    /// How many links a node has.
    fn link_count(&self, node: u64) -> u64
        ensures { result ≡ link_count self.now node }
    {
        if self.is_directory(node) {
            1
        } else {
            self.names.name_count(node) as u64
        }
    }

    /// What fstat and stat write of a node.
    fn stat_bytes(&self, node: u64) -> Result<Octets, NoMemory>
        ensures { IfOk result (λ bytes. bytes ≡ stat_bytes self.now node) }
    {
        let size = self.bytes(node).len() as u64;
        let mut bytes = Octets::none(self.alloc);
        bytes.extend(&kind_number(self.kind(node)).to_le_bytes())?;
        bytes.extend(&low_bytes(self.link_count(node)))?;
        bytes.extend(&size.to_le_bytes())?;
        bytes.extend(&node.to_le_bytes())?;
        Ok(bytes)
    }

    /// fstat. It changes nothing.
    pub(crate) fn fstat(&self, pid: Pid, fd: u64, addr: u64) -> Result<Outcome, NoMemory>
        requires { IsSome (at self.now.processes pid.0) }
        ensures { IfOk result (λ outcome. act_fstat self.now pid.0 fd addr
            ≡ Some (outcome, self.now)) }
    {
        let Some((_, file)) = self.file_of(pid, fd) else {
            return Ok(self.failed(Errno::Ebadf));
        };
        let bytes = self.stat_bytes(file.object.node())?;
        self.wrote(0, addr, bytes)
    }

    /// stat. It changes nothing.
    pub(crate) fn stat(&self, pid: Pid, text: &[u8], addr: u64) -> Result<Outcome, NoMemory>
        requires { IsSome (at self.now.processes pid.0) }
        ensures { IfOk result (λ outcome. act_stat self.now pid.0 text.now addr
            ≡ Some (outcome, self.now)) }
    {
        let node = match self.walk(pid, text)? {
            Walked::Found { node, .. } => node,
            Walked::Missing { .. } => return Ok(self.failed(Errno::Enoent)),
            Walked::Faulty(error) => return Ok(self.failed(error)),
        };
        let bytes = self.stat_bytes(node)?;
        self.wrote(0, addr, bytes)
    }
}
