//! The memory of a caller: parts at addresses, what a call reads of it, and what is written into it.
#![tactic(auto)]

mod delivery;
mod fault;
mod gathering;
mod laws;
mod mem;
mod part;
mod part_faults;
mod reading;
#[cfg(test)]
mod tests;
mod writing;

pub use delivery::{Delivery, Placed, deliver};
pub use fault::{CopyFault, MemFault, NotWritable};
pub use gathering::gather;
pub use laws::{
    delivered_inside_the_pieces, read_from_any_part, rising_parts_have_no_fault,
    written_inside_the_range, written_into_any_part,
};
pub use mem::Mem;
pub use part::{HIGHEST_END, LOWEST_BASE, Part, ROOT_BASE, Right};
