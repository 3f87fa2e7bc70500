//! Processes, and the open files that their descriptors share.
#![tactic(auto)]

mod opens;
mod shared;
#[cfg(test)]
mod tests;

pub use kern_proc::ProcFault;
pub use opens::Opens;
