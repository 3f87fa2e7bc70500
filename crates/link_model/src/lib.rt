//! The laws of a link: a client's call through frames gives what it gives where it is made of the
//! kernel at once, and a process that goes on as its next program keeps a whole link.
#![tactic(auto)]

mod laws;
mod moves;

pub use laws::{
    calls_by_frames_are_direct, greetings_make_links_whole, next_programs_have_whole_links,
};
pub use moves::Move;
