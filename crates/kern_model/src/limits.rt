//! The limits of nodes and files.

/// How many nodes there are at the most, the root and those without a name included.
pub const NODE_LIMIT: usize = 65_536;

/// How many names a node has at the most.
pub const LINK_LIMIT: u32 = 32_767;

/// How many bytes a file has at the most.
pub const FILE_LIMIT: u64 = 16_777_216;

/// How many bytes all files have together at the most, those without a name included.
pub const TOTAL_LIMIT: u64 = 268_435_456;
