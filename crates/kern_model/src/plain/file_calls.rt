ghost use Rattle.std.specs.Prelude.{◌≡◌, ℕ, ◌+◌, ◌^◌, ◌<◌, length, take, drop, IfOk, OnErr, IsSome, Some};
ghost use Rattle.sp_base.specs.Table.{at};
ghost use Rattle.sp_base.specs.Needs.{transfer_of};
ghost use Rattle.kern_model.specs.State.{bytes_in, bytes_of};
ghost use Rattle.kern_model.specs.Outcome.{success};
ghost use Rattle.kern_model.specs.Step.{piece_at};
ghost use Rattle.kern_model.specs.Files.{act_read, act_pread, may_read, is_negative};

use super::Plain;
use super::file_bytes::bytes_in;
use crate::node::{Access, Node, OpenFile};
use crate::outcome::{OutPiece, Outcome};
use sp_base::{Errno, Items, NoMemory, Octets, Pid, TRANSFER};
use std::alloc::Global;

/// Whether an access allows reading.
fn may_read(access: Access) -> bool
    ensures { result ≡ may_read access }
{
    !matches!(access, Access::Writing)
}

/// Whether a word is negative as two's complement.
pub(crate) fn is_negative(word: u64) -> bool
    ensures { result ≡ is_negative word }
{
    word >= 1 << 63
}

/// The bytes of a node, none where there is no node.
fn bytes_at(nodes: &[Option<Node>], n: u64) -> &[u8]
    ensures { result.now ≡ bytes_in (at nodes.now n) }
{
    let n = n as usize;
    if n >= nodes.len() {
        return &[];
    }
    bytes_in(&nodes[n])
}

/// A copy of what one call moves of bytes from an offset on.
fn copy_range(alloc: Global, bytes: &[u8], offset: u64, len: u64) -> Result<Octets, NoMemory>
    ensures piece { IfOk result (λ piece. piece ≡ take (transfer_of len) (drop offset bytes.now)) }
    ensures end { IfOk result (λ piece. offset + length piece < 2 ^ 64) }
{
    let start = offset as usize;
    if start >= bytes.len() {
        return Ok(Octets::none(alloc));
    }
    let (_, behind) = bytes.split_at(start);
    let count = len.min(TRANSFER) as usize;
    if count >= behind.len() {
        return Octets::of(alloc, behind);
    }
    let (front, _) = behind.split_at(count);
    Octets::of(alloc, front)
}

/// An open file at another offset.
pub(crate) fn at_offset(file: OpenFile, offset: u64) -> OpenFile
    ensures { result ≡ record file { offset = offset } }
{
    OpenFile {
        object: file.object,
        access: file.access,
        append: file.append,
        nonblock: file.nonblock,
        offset,
    }
}

impl Plain {
    /// The bytes of a node.
    pub(crate) fn bytes(&self, node: u64) -> &[u8]
        ensures { result.now ≡ bytes_of self.now node }
    {
        bytes_at(&self.nodes, node)
    }

    /// A success that writes bytes to an address.
    pub(crate) fn wrote(&self, value: u64, addr: u64, bytes: Octets) -> Result<Outcome, NoMemory>
        ensures { IfOk result (λ outcome. outcome
            ≡ record (success value) { outs = piece_at addr bytes }) }
    {
        let mut outs = Items::none(self.alloc);
        if bytes.len() > 0 {
            outs.push(OutPiece { addr, bytes })?;
        }
        Ok(Outcome {
            err: 0,
            ret0: value,
            ret1: 0,
            outs,
        })
    }

    /// read. Want of memory leaves the state as it was.
    pub(crate) fn read(
        &mut self,
        pid: Pid,
        fd: u64,
        addr: u64,
        len: u64,
    ) -> Result<Outcome, NoMemory>
        requires { IsSome (at self.old.processes pid.0) }
        ensures ok { IfOk result (λ outcome. act_read self.old pid.0 fd addr len
            ≡ Some (outcome, self.new)) }
        ensures err { OnErr result (self.new ≡ self.old) }
    {
        let Some((number, file)) = self.file_of(pid, fd) else {
            return Ok(self.failed(Errno::Ebadf));
        };
        let node = file.object.node();
        if !may_read(file.access) {
            return Ok(self.failed(Errno::Ebadf));
        }
        if self.is_directory(node) {
            return Ok(self.failed(Errno::Eisdir));
        }
        let bytes = copy_range(self.alloc, self.bytes(node), file.offset, len)?;
        let count = bytes.len() as u64;
        let outcome = self.wrote(count, addr, bytes)?;
        self.replace_file(number, at_offset(file, file.offset + count));
        Ok(outcome)
    }

    /// pread. Want of memory leaves the state as it was.
    pub(crate) fn pread(
        &mut self,
        pid: Pid,
        fd: u64,
        addr: u64,
        len: u64,
        offset: u64,
    ) -> Result<Outcome, NoMemory>
        requires { IsSome (at self.old.processes pid.0) }
        ensures ok { IfOk result (λ outcome. act_pread self.old pid.0 fd addr len offset
            ≡ Some (outcome, self.new)) }
        ensures err { OnErr result (self.new ≡ self.old) }
    {
        let Some((_, file)) = self.file_of(pid, fd) else {
            return Ok(self.failed(Errno::Ebadf));
        };
        let node = file.object.node();
        if is_negative(offset) {
            return Ok(self.failed(Errno::Einval));
        }
        if !may_read(file.access) {
            return Ok(self.failed(Errno::Ebadf));
        }
        if self.is_directory(node) {
            return Ok(self.failed(Errno::Eisdir));
        }
        let bytes = copy_range(self.alloc, self.bytes(node), offset, len)?;
        let count = bytes.len() as u64;
        self.wrote(count, addr, bytes)
    }
}
