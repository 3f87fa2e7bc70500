//! A process that performs calls on a kernel.
ghost use Rattle.std.specs.Prelude.{◌≡◌, ℕ, List, [], ◌∷◌, length, IfOk};
ghost use Rattle.kern_model.specs.Needs.{FitsIns};
ghost use Rattle.kernel_bench.specs.Path.{IsPath};

use crate::text::{DIRECTORY, is_path, path_of};
use kern_calls::{Acted, Kernel};
use kern_model::{Ins, Op, Pieces, Who};
use sp_base::{Call, Items, NoMemory, Octets, Pid};
use std::alloc::Global;

/// How many bytes are written to each file.
const SIZE: usize = 512;

/// Where a path lies in the guest's memory, which nobody looks at here.
const PATH: u64 = 4_096;

/// Where bytes lie in the guest's memory.
const BYTES: u64 = 8_192;

const O_RDONLY: u64 = 0;

const O_WRONLY: u64 = 1;

const O_CREAT: u64 = 512;

/// A call was refused.
#[derive(Clone, Copy, Debug, PartialEq, Eq)]
pub struct Refused;

impl From<NoMemory> for Refused {
    fn from(_e: NoMemory) -> Refused {
        Refused
    }
}

/// What was done.
#[derive(Clone, Copy, Debug, Default, PartialEq, Eq)]
pub struct Counts {
    /// How many calls succeeded.
    pub calls: u64,
    /// How many bytes were written.
    pub written: u64,
    /// How many bytes were read.
    pub read: u64,
}

/// A kernel, one process of it, and what that process did.
#[derive(Drop)]
pub struct Guest {
    alloc: Global,
    kernel: Kernel,
    pid: Pid,
    counts: Counts,
}

/// The value of the last call, where it succeeded.
fn last_value(kernel: &Kernel) -> Result<u64, Refused> {
    match kernel.journal().last() {
        Some(entry) if entry.outcome.err == 0 => Ok(entry.outcome.ret0),
        _ => Err(Refused),
    }
}

/// One piece alone.
fn one_piece(alloc: Global, piece: Octets) -> Result<Pieces, NoMemory>
    ensures { IfOk result (λ pieces. pieces ≡ piece ∷ []) }
{
    let mut pieces = Items::none(alloc);
    pieces.push(piece)?;
    Ok(pieces)
}

/// So many bytes to write.
fn filling(alloc: Global) -> Result<Octets, NoMemory>
    ensures { IfOk result (λ bytes. length bytes ≡ SIZE) }
{
    let bytes = vec![in alloc; b'x'; SIZE]?;
    Ok(Octets::from_vec(bytes))
}

impl Guest {
    /// A kernel with one process, in the root directory.
    pub fn attach(alloc: Global) -> Result<Guest, Refused> {
        let mut kernel = Kernel::fresh(alloc)?;
        let who = Who::Host(0, 0);
        let Acted::Done(_) = kernel.act(Pid(0), who, Op::Attach, Ins::Given(Items::none(alloc)))
        else {
            return Err(Refused);
        };
        let Ok(pid) = u32::try_from(last_value(&kernel)?) else {
            return Err(Refused);
        };
        Ok(Guest {
            alloc,
            kernel,
            pid: Pid(pid),
            counts: Counts::default(),
        })
    }

    /// What was done so far.
    pub fn counts(&self) -> Counts {
        self.counts
    }

    /// Performs a call, and answers its value.
    fn call(&mut self, call: Call, ins: Ins) -> Result<u64, Refused>
        requires { FitsIns (Op.Sys call) ins }
    {
        if !self.kernel.is_live(self.pid) {
            return Err(Refused);
        }
        let who = Who::Host(0, self.counts.calls);
        let Acted::Done(_) = self.kernel.act(self.pid, who, Op::Sys(call), ins) else {
            return Err(Refused);
        };
        self.counts.calls = self.counts.calls.saturating_add(1);
        last_value(&self.kernel)
    }

    /// The pieces of a call that reads one path.
    fn path(&self, path: Octets) -> Result<Pieces, Refused>
        ensures { IfOk result (λ pieces. (path : List ℕ) × (pieces ≡ path ∷ []) × IsPath path) }
    {
        if !is_path(path.slice()) {
            return Err(Refused);
        }
        Ok(one_piece(self.alloc, path)?)
    }

    /// Makes the directory that all files are in.
    pub fn make_directory(&mut self) -> Result<(), Refused> {
        let pieces = self.path(Octets::of(self.alloc, DIRECTORY)?)?;
        self.call(Call::Mkdir { path: PATH }, Ins::Given(pieces))?;
        Ok(())
    }

    /// Opens a file, and answers the descriptor.
    fn open(&mut self, number: u32, flags: u64) -> Result<u64, Refused> {
        let pieces = self.path(path_of(self.alloc, number)?)?;
        self.call(Call::Open { path: PATH, flags }, Ins::Given(pieces))
    }

    /// Closes a descriptor.
    fn close(&mut self, fd: u64) -> Result<(), Refused> {
        self.call(Call::Close { fd }, Ins::Given(Items::none(self.alloc)))?;
        Ok(())
    }

    /// Makes a file, writes its bytes and closes it.
    pub fn fill(&mut self, number: u32) -> Result<(), Refused> {
        let fd = self.open(number, O_WRONLY | O_CREAT)?;
        let pieces = one_piece(self.alloc, filling(self.alloc)?)?;
        let call = Call::Write {
            fd,
            input: BYTES,
            len: SIZE as u64,
        };
        let written = self.call(call, Ins::Given(pieces))?;
        self.counts.written = self.counts.written.saturating_add(written);
        self.close(fd)
    }

    /// Looks at a file by stat, reads its bytes and closes it.
    pub fn look(&mut self, number: u32) -> Result<(), Refused> {
        let pieces = self.path(path_of(self.alloc, number)?)?;
        self.call(
            Call::Stat {
                path: PATH,
                out: BYTES,
            },
            Ins::Given(pieces),
        )?;
        let fd = self.open(number, O_RDONLY)?;
        let call = Call::Read {
            fd,
            out: BYTES,
            len: SIZE as u64,
        };
        let read = self.call(call, Ins::Given(Items::none(self.alloc)))?;
        self.counts.read = self.counts.read.saturating_add(read);
        self.close(fd)
    }

    /// Takes a file's name away.
    pub fn unlink(&mut self, number: u32) -> Result<(), Refused> {
        let pieces = self.path(path_of(self.alloc, number)?)?;
        self.call(Call::Unlink { path: PATH }, Ins::Given(pieces))?;
        Ok(())
    }
}
