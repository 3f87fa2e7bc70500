//! Frames: the messages between a server and its clients, as bytes and back.
//!
//! `encode` spells a frame, and a `Framer` gives the frames back from a stream of bytes, however the
//! stream is cut.
#![tactic(auto)]

mod banner;
mod bodies;
mod fault;
mod fields;
mod frame;
mod framer;
mod front;
mod header;
mod laws;
mod reading;
mod rows;
#[cfg(test)]
mod tests;
mod version;
mod writing;

pub use banner::BANNER;
pub use fault::FrameFault;
pub use frame::{Body, Frame, INDEX_LIMIT};
pub use framer::Framer;
pub use laws::{
    banner_is_the_text, fault_ends_the_frames, fault_stays, no_prefix, one_fault, one_spelling,
    one_whole,
};
pub use version::Version;
pub use writing::encode;
