//! What a kernel is: its state, what each operation does to it, which journals are legal, and the
//! plain kernel that computes all of this.
#![tactic(auto)]

mod descriptors;
mod journal;
mod laws;
mod limits;
mod name_map;
mod node;
mod open_flags;
mod operation;
mod outcome;
mod path;
mod path_text;
mod plain;
mod walk;

pub use descriptors::Descriptors;
pub use journal::{Entry, Who};
pub use laws::{
    attach_takes_the_lowest_number, calls_keep_who_is_live, error_gives_nothing,
    exec_closes_marked_rows, exit_ends_the_process, fault_leaves_the_state, fork_copies_the_parent,
    legal_journals_replay, others_stay, reads_give_what_was_written, rename_moves_the_tree,
    states_stay_sound,
};
pub use limits::{FILE_LIMIT, LINK_LIMIT, NODE_LIMIT, TOTAL_LIMIT};
pub use name_map::{Name, NameMap};
pub use node::{Access, Node, NodeKind, Object, OpenFile, Path, Row};
pub use open_flags::OpenFlags;
pub use operation::{Ins, Op, Pieces};
pub use outcome::{OutPiece, Outcome, Outs};
pub use plain::Plain;
pub use walk::Walked;
