//! The text of a journal: a line for each operation that a kernel performed.
#![tactic(auto)]

mod call;
mod entry;
mod flags;
mod form;
mod gathered;
mod name;
#[cfg(test)]
mod tests;
mod word;

pub use entry::{journal_text, put_entry};
