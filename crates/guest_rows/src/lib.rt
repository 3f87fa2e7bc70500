//! The rows that tell how a guest's lines went.
#![tactic(auto)]

mod added;
mod answered;
mod field;
mod row;
#[cfg(test)]
mod tests;

pub use added::Addition;
pub use answered::{PollPart, entries_text, put_bar};
pub use row::{Row, RowResult, SideName, put_answer, row_text};
