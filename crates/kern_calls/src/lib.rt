//! The kernel: it performs one operation at a time, and keeps the journal of all that it performed.
#![tactic(auto)]

mod act;
mod acted;
mod descriptors;
mod kernel;
mod names;
mod nodes;
mod opening;
mod parts;
mod processes;
mod reads;
mod renames;
mod rows;
mod seek;
#[cfg(test)]
mod tests;
mod walks;
mod writes;

pub use acted::{Acted, Tried};
pub use kernel::Kernel;
