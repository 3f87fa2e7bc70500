//! A server, its clients, the links between them and the host's kernel, as one machine that plays
//! events and keeps the law of the world.
#![tactic(auto)]

mod client;
mod copies;
mod ends;
mod host;
mod link;
mod log;
mod parts;
mod server;
mod still;
mod world;

pub use world::World;
pub use world_model::{Event, Reply};
