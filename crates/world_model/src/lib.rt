//! A server, its clients, the links between them and the host's kernel as one machine, as
//! definitions, with the law of what its callers see.
#![tactic(auto)]

mod event;
mod host;
mod laws;

pub use event::{Event, Reply};
pub use host::HostCall;
pub use laws::world_law;
