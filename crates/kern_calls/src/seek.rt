ghost use Rattle.std.specs.Prelude.{◌≡◌, IsSome, Some};
ghost use Rattle.sp_base.specs.Table.{at};
ghost use Rattle.kern_model.specs.Files.{act_lseek, within, seek_sum, seek_base};
ghost use Rattle.kern_model.specs.Sound.{IsHeld};

use crate::parts::Parts;
use crate::reads::{at_offset, is_negative};
use kern_model::{OpenFile, Outcome};
use sp_base::{Errno, Pid};

/// A sum that is not above 2^63 - 1.
fn within(sum: u64) -> Option<u64>
    ensures { result ≡ within sum }
{
    if is_negative(sum) { None } else { Some(sum) }
}

/// The sum of a base and a word read as two's complement, where it is from 0 to 2^63 - 1.
fn seek_sum(base: u64, word: u64) -> Option<u64>
    ensures { result ≡ seek_sum base word }
{
    if is_negative(word) {
        let back = u64::MAX - word + 1;
        if base < back {
            return None;
        }
        return within(base - back);
    }
    if is_negative(base) {
        return None;
    }
    within(base + word)
}

impl Parts {
    /// The base of an lseek.
    fn seek_base(&self, node: u64, file: OpenFile, whence: u64) -> Option<u64>
        requires { IsSome (at self.now.nodes node) }
        ensures { result ≡ seek_base self.now node file whence }
    {
        match whence {
            0 => Some(0),
            1 => Some(file.offset),
            2 => Some(self.size(node)),
            _ => None,
        }
    }

    /// lseek.
    pub(crate) fn lseek(&mut self, pid: Pid, fd: u64, offset: u64, whence: u64) -> Outcome
        requires live { IsSome (at self.old.processes pid.0) }
        requires held { IsHeld self.old }
        ensures { act_lseek self.old pid.0 fd offset whence ≡ Some (result, self.new) }
    {
        let Some((_, file)) = self.file_of(pid, fd) else {
            return self.failed(Errno::Ebadf);
        };
        let Some(base) = self.seek_base(file.object.node(), file, whence) else {
            return self.failed(Errno::Einval);
        };
        let Some(sum) = seek_sum(base, offset) else {
            return self.failed(Errno::Einval);
        };
        self.set_file(pid, fd, at_offset(file, sum));
        self.done(sum)
    }
}
