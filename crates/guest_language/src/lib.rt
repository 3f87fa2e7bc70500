//! The language of scripts, which say what guests do.
#![tactic(auto)]

mod call_line;
mod fault;
mod forks;
mod laws;
mod length;
mod memory;
mod names;
mod number_lines;
mod reading;
mod script;
mod slot;
#[cfg(test)]
mod tests;
mod text_lines;
mod unknown_line;
mod verb;
mod what;
mod whole;

pub use call_line::made_of;
pub use fault::{ScriptFault, ScriptKind};
pub use laws::{
    background_lines_are_calls, names_are_distinct, scripts_are_read_as_spelled, sections_are_sound,
};
pub use length::{MOST_BYTES, MOST_GUESTS, MOST_LINES};
pub use memory::call_words;
pub use script::{Line, Parent, Section, What};
pub use slot::{BAD, FIRST, Made, SECOND, Slot};
pub use verb::{Verb, verb_of};
pub use whole::Script;
