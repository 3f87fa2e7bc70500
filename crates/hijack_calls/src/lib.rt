//! A guest's calls over two kernels: each step on the side that the splitter names.
#![tactic(auto)]

mod laws;
mod side;
mod splitter;

pub use laws::{calls_have_few_steps, own_errors_leave_both_sides};
pub use side::{Cause, Side, SideFault, WaitSide};
pub use splitter::{Done, Replied, Splitter};
