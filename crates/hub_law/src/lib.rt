//! What the frames of a server's clients, its journal and its answers have to do with each other.
#![tactic(auto)]

mod laws;

pub use laws::server_agrees;
