//! The run of one guest over the cores of the server and the client, joined in one process.
#![tactic(auto)]

mod calling;
mod greeting;
mod joined;
mod laws;
mod outside;
mod rows;
mod running;
mod steps;
mod wire;

pub use calling::Called;
pub use joined::Joined;
pub use laws::execs_keep_clear_rows;
pub use outside::outside_line;
pub use running::{Ran, RunEnd, run};
