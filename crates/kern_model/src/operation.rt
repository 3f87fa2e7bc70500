use sp_base::{Call, Errno, Items, Octets};

/// What a process asks of the kernel.
#[derive(Debug, Drop)]
pub enum Op {
    /// A system call with its words.
    Sys(Call),
    /// A new process without a parent.
    Attach,
    /// A new process with the table of the one that asks.
    Fork,
    /// The process goes on as another program.
    Exec,
    /// The process ends.
    Exit,
}

/// The bytes that were gathered from the caller's memory, one piece for each range that the call reads.
pub type Pieces = Items<Octets>;

/// What was gathered for an operation.
#[derive(Debug, Drop)]
pub enum Ins {
    /// All that it reads.
    Given(Pieces),
    /// The error of the first range that could not be read.
    Fault(Errno),
}
