//! RUMPHIJACK: what it says, and which kernel a path or a socket goes to by it.
#![tactic(auto)]

mod families;
mod faults;
mod items;
mod names;
mod offset;
mod read;
mod rules;

pub use families::Family;
pub use items::Key;
pub use names::{Routed, RuleFault, SideName};
pub use offset::Offset;
pub use rules::{Division, Rules};
