//! The files of a kernel: a tree of names over nodes with bytes.
#![tactic(auto)]

mod stat;
#[cfg(test)]
mod tests;
mod tree;

pub use kern_model::NodeKind;
pub use kern_names::{Last, Walked};
pub use kern_nodes::TreeFault;
pub use stat::Stat;
pub use tree::Tree;
