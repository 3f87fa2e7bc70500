//! One object that many threads play on in turn, and the one history of their calls.
#![tactic(auto)]

mod rule;
mod turn;
mod view;

pub use turn::{Pass, Turn};
pub use view::{Entry, Known, Player, Slot, Stage, View};

#[cfg(test)]
mod tests;
