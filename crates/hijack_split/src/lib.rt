//! The splitter: what each of a guest's descriptors names, and which steps on the two kernels make
//! up a guest's call.
#![tactic(auto)]

mod answers;
mod calls;
mod change;
mod commands;
mod dup2;
mod kind;
mod laws;
mod new_descriptors;
mod pieces;
mod read_text;
mod route;
mod split;
mod text;
mod turn;
mod view;

pub use answers::Answers;
pub use change::{Alias, Change, Named};
pub use kind::Kind;
pub use laws::{
    calls_keep_their_words, changes_rename_one, cut_paths_read_as_the_rest,
    exec_takes_marked_aliases, names_are_distinct, new_host_descriptors_are_names,
    only_some_calls_change_the_view, own_errors_come_without_calls, texts_are_read_as_views,
};
pub use turn::{Made, Plan, Route, Stage, Turn};
pub use view::View;
