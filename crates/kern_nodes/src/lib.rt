//! The nodes of a file system by number: what each is, its bytes, how many links it has, and how many
//! hold it.
#![tactic(auto)]

mod contents;
mod fault;
mod inode;
mod nodes;
#[cfg(test)]
mod tests;

pub use fault::TreeFault;
pub use nodes::Nodes;
pub use sp_base::NodeNo;
