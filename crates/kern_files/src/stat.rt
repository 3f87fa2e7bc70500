use kern_model::NodeKind;
use sp_base::NodeNo;

/// What a node is: its kind, how many links it has (a directory has 1), how many bytes, and its number.
#[derive(Clone, Copy, Debug, PartialEq, Eq)]
pub struct Stat {
    pub kind: NodeKind,
    pub links: u32,
    pub size: u64,
    pub node: NodeNo,
}
