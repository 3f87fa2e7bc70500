use crate::node::Path;
use sp_base::Errno;

/// What a path's text leads to.
#[derive(Debug, Drop)]
pub enum Walked {
    /// An object, by its absolute path and its node. It is `named` where the last component is its
    /// name, which it isn't for the root, for `.` and for `..`.
    Found { path: Path, node: u64, named: bool },
    /// A missing last component, by the path that it would have, and whether a slash ends the text.
    Missing { path: Path, slash: bool },
    /// The error that the walk came upon.
    Faulty(Errno),
}
