// The operations of the tables.
use kern_model::{Ins, Op, Pieces};
use sp_base::{Call, Errno, Items, NoMemory, Octets, Words};
use std::alloc::Global;

pub const O_RDONLY: u64 = 0;

pub const O_WRONLY: u64 = 1;

pub const O_RDWR: u64 = 2;

pub const O_NONBLOCK: u64 = 4;

pub const O_APPEND: u64 = 8;

pub const O_CREAT: u64 = 0x200;

pub const O_TRUNC: u64 = 0x400;

pub const O_EXCL: u64 = 0x800;

pub const O_CLOEXEC: u64 = 0x400000;

pub const F_DUPFD: u64 = 0;

pub const F_GETFD: u64 = 1;

pub const F_SETFD: u64 = 2;

pub const F_GETFL: u64 = 3;

pub const F_SETFL: u64 = 4;

pub const FROM_START: u64 = 0;

pub const FROM_OFFSET: u64 = 1;

pub const FROM_END: u64 = 2;

/// -1 as a word.
pub const MINUS_1: u64 = u64::MAX;

/// Where a call reads a path, a second path or bytes; no outcome depends on it.
const INPUT: u64 = 0x1000;

/// Where a call writes.
pub const OUT: u64 = 0x2000;

/// An operation of a row. Descriptors, flags and other words are the calls' own; texts stand in place of their addresses.
#[derive(Clone, Copy, Debug)]
pub enum Step {
    Attach,
    Fork,
    Exec,
    Exit,
    Getpid,
    /// A call of this number, which is outside the table.
    Unknown(u32),
    Open(&'static str, u64),
    /// An open whose path can't be read.
    OpenFault(Errno),
    Close(u64),
    Read(u64, u64),
    Write(u64, &'static str),
    /// A write of so many bytes that can't be read.
    WriteFault(u64, u64),
    Pread(u64, u64, u64),
    Pwrite(u64, &'static str, u64),
    Lseek(u64, u64, u64),
    Ftruncate(u64, u64),
    Fstat(u64),
    Stat(&'static str),
    /// A stat of a path that has a component of so many bytes between two texts.
    StatLong(&'static str, usize, &'static str),
    Link(&'static str, &'static str),
    Unlink(&'static str),
    Rename(&'static str, &'static str),
    Mkdir(&'static str),
    /// A mkdir of a path that has a component of so many bytes behind a text.
    MkdirLong(&'static str, usize),
    Rmdir(&'static str),
    Chdir(&'static str),
    Dup(u64),
    Dup2(u64, u64),
    Fcntl(u64, u64, u64),
}

/// A text as bytes, and behind it so many bytes `a` and a second text.
fn path(alloc: Global, front: &str, count: usize, back: &str) -> Result<Octets, NoMemory> {
    let mut path = Octets::of(alloc, front.as_bytes())?;
    for _ in 0..count {
        path.push(b'a')?;
    }
    path.extend(back.as_bytes())?;
    Ok(path)
}

/// The pieces of one text.
fn one(alloc: Global, text: &str) -> Result<Pieces, NoMemory> {
    let mut pieces = Items::none(alloc);
    pieces.push(Octets::of(alloc, text.as_bytes())?)?;
    Ok(pieces)
}

/// The pieces of two texts.
fn two(alloc: Global, first: &str, second: &str) -> Result<Pieces, NoMemory> {
    let mut pieces = one(alloc, first)?;
    pieces.push(Octets::of(alloc, second.as_bytes())?)?;
    Ok(pieces)
}

/// The pieces of bytes, none where there is no byte.
fn bytes(alloc: Global, text: &str) -> Result<Pieces, NoMemory> {
    if text.is_empty() {
        return Ok(Items::none(alloc));
    }
    one(alloc, text)
}

/// The pieces of a path with a long component.
fn long(alloc: Global, front: &str, count: usize, back: &str) -> Result<Pieces, NoMemory> {
    let mut pieces = Items::none(alloc);
    pieces.push(path(alloc, front, count, back)?)?;
    Ok(pieces)
}

impl Step {
    /// The call of a step on names; None where it is none.
    fn name_call(self) -> Option<Call> {
        let path = INPUT;
        let new_path = INPUT;
        Some(match self {
            Step::Open(_, flags) => Call::Open { path, flags },
            Step::OpenFault(_) => Call::Open { path, flags: 0 },
            Step::Stat(_) | Step::StatLong(..) => Call::Stat { path, out: OUT },
            Step::Link(..) => Call::Link { path, new_path },
            Step::Unlink(_) => Call::Unlink { path },
            Step::Rename(..) => Call::Rename { path, new_path },
            Step::Mkdir(_) | Step::MkdirLong(..) => Call::Mkdir { path },
            Step::Rmdir(_) => Call::Rmdir { path },
            Step::Chdir(_) => Call::Chdir { path },
            _ => return None,
        })
    }

    /// The call of a step that reads or writes a file; None where it is none.
    fn file_call(self) -> Option<Call> {
        let input = INPUT;
        let out = OUT;
        Some(match self {
            Step::Read(fd, len) => Call::Read { fd, out, len },
            Step::Write(fd, text) => {
                let len = text.len() as u64;
                Call::Write { fd, input, len }
            }
            Step::WriteFault(fd, len) => Call::Write { fd, input, len },
            Step::Pread(fd, len, offset) => Call::Pread {
                fd,
                out,
                len,
                offset,
            },
            Step::Pwrite(fd, text, offset) => {
                let len = text.len() as u64;
                Call::Pwrite {
                    fd,
                    input,
                    len,
                    offset,
                }
            }
            Step::Fstat(fd) => Call::Fstat { fd, out },
            _ => return None,
        })
    }

    /// The call of a step that gathers and writes nothing.
    fn plain_call(self) -> Call {
        match self {
            Step::Unknown(num) => Call::Unknown {
                num,
                words: Words::of(&[]),
            },
            Step::Close(fd) => Call::Close { fd },
            Step::Lseek(fd, offset, whence) => Call::Lseek { fd, offset, whence },
            Step::Ftruncate(fd, len) => Call::Ftruncate { fd, len },
            Step::Dup(fd) => Call::Dup { fd },
            Step::Dup2(fd, new_fd) => Call::Dup2 { fd, new_fd },
            Step::Fcntl(fd, command, argument) => Call::Fcntl {
                fd,
                command,
                argument,
            },
            _ => Call::Getpid,
        }
    }

    /// The operation of a step.
    pub fn op(self) -> Op {
        match self {
            Step::Attach => return Op::Attach,
            Step::Fork => return Op::Fork,
            Step::Exec => return Op::Exec,
            Step::Exit => return Op::Exit,
            _ => {}
        }
        if let Some(call) = self.name_call() {
            return Op::Sys(call);
        }
        match self.file_call() {
            Some(call) => Op::Sys(call),
            None => Op::Sys(self.plain_call()),
        }
    }

    /// What is gathered for a step.
    pub fn ins(self, alloc: Global) -> Result<Ins, NoMemory> {
        let pieces = match self {
            Step::OpenFault(error) => return Ok(Ins::Fault(error)),
            Step::WriteFault(..) => return Ok(Ins::Fault(Errno::Efault)),
            Step::Open(path, _)
            | Step::Stat(path)
            | Step::Unlink(path)
            | Step::Mkdir(path)
            | Step::Rmdir(path)
            | Step::Chdir(path) => one(alloc, path)?,
            Step::Link(path, new_path) | Step::Rename(path, new_path) => {
                two(alloc, path, new_path)?
            }
            Step::Write(_, text) | Step::Pwrite(_, text, _) => bytes(alloc, text)?,
            Step::StatLong(front, count, back) => long(alloc, front, count, back)?,
            Step::MkdirLong(front, count) => long(alloc, front, count, "")?,
            _ => Items::none(alloc),
        };
        Ok(Ins::Given(pieces))
    }

    /// Whether what the step writes is a stat.
    pub fn is_stat(self) -> bool {
        matches!(self, Step::Fstat(_) | Step::Stat(_) | Step::StatLong(..))
    }
}
