/// Why no process is made.
#[derive(Clone, Copy, Debug, PartialEq, Eq)]
pub enum ProcFault {
    /// All 256 numbers are used.
    Full,
    /// Memory was refused.
    NoMemory,
}
