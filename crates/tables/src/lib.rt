//! Finite maps from numbers.
#![tactic(auto)]

mod table;
#[cfg(test)]
mod tests;

pub use table::Table;
