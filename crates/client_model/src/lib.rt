//! The client's machine, as definitions: what it holds, what it answers to each event, and what it
//! is afterwards; with the laws that hold of every run.
#![tactic(auto)]

mod event;
mod laws;
mod request;

pub use event::{Event, Hello, Reply, Want};
pub use laws::{
    first_ending_stays, memory_changes_where_allowed, numbers_rise, refusals_change_nothing,
    requests_are_answered_in_kind,
};
pub use request::{Ending, OPEN_REQUESTS, Request, Response};
