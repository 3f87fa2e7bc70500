//! The server's core: a machine that takes events of many connections, and performs their calls on one kernel.
#![tactic(auto)]

mod at_once;
mod blank;
mod connection;
mod cookies;
mod frames;
mod gathered;
mod hub;
mod kernel;
mod machine;
mod requests;
mod telling;
mod verdict;
mod work;

pub use hub::Hub;
pub use hub_model::{Condition, Event, Finish, OPEN_CALLS, OpenCall, Reply, Verdict};
pub use sp_frames::Version;
