use sp_base::{Errno, NodeNo};

/// The last component of a path's text, where it is a name, so neither `.` nor `..`.
#[derive(Clone, Copy, Debug, PartialEq, Eq)]
pub struct Last {
    /// The directory that the name stands in, or would stand in.
    pub directory: NodeNo,
    /// Where the name begins in the text, in bytes.
    pub from: u32,
    /// How many bytes the name has.
    pub len: u32,
    /// Whether a slash ends the text.
    pub slash: bool,
}

/// What a path's text leads to.
#[derive(Clone, Copy, Debug, PartialEq, Eq)]
pub enum Walked {
    /// A node. It has no last component for the root, for `.` and for `..`.
    Found(NodeNo, Option<Last>),
    /// Nothing stands under the last component.
    Missing(Last),
    /// The error that the walk came upon.
    Fault(Errno),
}
