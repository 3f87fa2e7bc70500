ghost use Rattle.std.specs.Prelude.{◌≡◌, IfOk, OnErr, IsSome, Some};
ghost use Rattle.sp_base.specs.Table.{at};
ghost use Rattle.kern_model.specs.Files.{act_read, act_pread, act_fstat, may_read, is_negative};
ghost use Rattle.kern_model.specs.Sound.{IsSound};

use crate::parts::Parts;
use kern_model::{Access, OpenFile, Outcome};
use sp_base::{Errno, NoMemory, Pid};

/// Whether an access allows reading.
fn may_read(access: Access) -> bool
    ensures { result ≡ may_read access }
{
    !matches!(access, Access::Writing)
}

/// Whether a word is negative as two's complement.
pub(crate) fn is_negative(word: u64) -> bool
    ensures { result ≡ is_negative word }
{
    word >= 1 << 63
}

/// An open file at another offset.
pub(crate) fn at_offset(file: OpenFile, offset: u64) -> OpenFile
    ensures { result ≡ record file { offset = offset } }
{
    OpenFile {
        object: file.object,
        access: file.access,
        append: file.append,
        nonblock: file.nonblock,
        offset,
    }
}

impl Parts {
    /// read. Want of memory leaves the state as it was.
    pub(crate) fn read(
        &mut self,
        pid: Pid,
        fd: u64,
        addr: u64,
        len: u64,
    ) -> Result<Outcome, NoMemory>
        requires live { IsSome (at self.old.processes pid.0) }
        requires sound { IsSound self.old }
        ensures ok { IfOk result (λ outcome. act_read self.old pid.0 fd addr len
            ≡ Some (outcome, self.new)) }
        ensures err { OnErr result (self.new ≡ self.old) }
    {
        let Some((_, file)) = self.file_of(pid, fd) else {
            return Ok(self.failed(Errno::Ebadf));
        };
        let node = file.object.node();
        if !may_read(file.access) {
            return Ok(self.failed(Errno::Ebadf));
        }
        if self.is_directory(node) {
            return Ok(self.failed(Errno::Eisdir));
        }
        let bytes = self.read_at(node, file.offset, len)?;
        let count = bytes.len() as u64;
        let outcome = self.wrote(count, addr, bytes)?;
        self.set_file(pid, fd, at_offset(file, file.offset + count));
        Ok(outcome)
    }

    /// pread. It changes nothing.
    pub(crate) fn pread(
        &self,
        pid: Pid,
        fd: u64,
        addr: u64,
        len: u64,
        offset: u64,
    ) -> Result<Outcome, NoMemory>
        requires live { IsSome (at self.now.processes pid.0) }
        requires sound { IsSound self.now }
        ensures { IfOk result (λ outcome. act_pread self.now pid.0 fd addr len offset
            ≡ Some (outcome, self.now)) }
    {
        let Some((_, file)) = self.file_of(pid, fd) else {
            return Ok(self.failed(Errno::Ebadf));
        };
        let node = file.object.node();
        if is_negative(offset) {
            return Ok(self.failed(Errno::Einval));
        }
        if !may_read(file.access) {
            return Ok(self.failed(Errno::Ebadf));
        }
        if self.is_directory(node) {
            return Ok(self.failed(Errno::Eisdir));
        }
        let bytes = self.read_at(node, offset, len)?;
        let count = bytes.len() as u64;
        self.wrote(count, addr, bytes)
    }

    /// fstat. It changes nothing.
    pub(crate) fn fstat(&self, pid: Pid, fd: u64, addr: u64) -> Result<Outcome, NoMemory>
        requires live { IsSome (at self.now.processes pid.0) }
        requires sound { IsSound self.now }
        ensures { IfOk result (λ outcome. act_fstat self.now pid.0 fd addr
            ≡ Some (outcome, self.now)) }
    {
        let Some((_, file)) = self.file_of(pid, fd) else {
            return Ok(self.failed(Errno::Ebadf));
        };
        let bytes = self.stat_bytes(file.object.node())?;
        self.wrote(0, addr, bytes)
    }
}
