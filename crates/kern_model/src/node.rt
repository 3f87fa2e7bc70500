ghost use Rattle.std.specs.Prelude.{◌≡◌};
ghost use Rattle.kern_model.specs.declared.node.Object.TheVariants as object;

use sp_base::{Items, Octets};

/// An absolute path: its components, the last one first; the root has none.
pub type Path = Items<Octets>;

/// What a node is.
#[derive(Clone, Copy, Debug, PartialEq, Eq)]
pub enum NodeKind {
    File,
    Directory,
    Socket,
}

/// A file, a directory or a local socket's name. Only a file has bytes.
#[derive(Debug, Drop)]
pub struct Node {
    pub kind: NodeKind,
    pub bytes: Octets,
}

/// For what a file was opened.
#[derive(Clone, Copy, Debug, PartialEq, Eq)]
pub enum Access {
    Reading,
    Writing,
    Both,
}

/// What an open file is of.
#[derive(Clone, Copy, Debug, PartialEq, Eq)]
pub enum Object {
    /// The node of this number.
    Node(u64),
}

impl Object {
    /// The node that it is.
    pub fn node(self) -> u64
        ensures { self ≡ object.Node result }
    {
        match self {
            Object::Node(node) => node,
        }
    }
}

/// What processes share that have a descriptor from one another: what is open, and where reading goes on.
#[derive(Clone, Copy, Debug, PartialEq, Eq)]
pub struct OpenFile {
    pub object: Object,
    pub access: Access,
    /// Writes go to the end.
    pub append: bool,
    /// Calls that would wait answer EAGAIN.
    pub nonblock: bool,
    pub offset: u64,
}

/// What a descriptor names: an open file, by number, and whether an exec closes it.
#[derive(Clone, Copy, Debug, PartialEq, Eq)]
pub struct Row {
    pub file: u64,
    pub close_on_exec: bool,
}
