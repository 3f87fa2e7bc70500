//! The server's machine, as definitions: what it holds, what it answers to each event, and what it is afterwards.
#![tactic(auto)]

mod event;
mod handover;
mod laws;
mod state;
mod verdict;

pub use event::{Event, Finish, Reply};
pub use handover::Handover;
pub use laws::{
    closing_takes_cookies_back, events_keep_what_holds, owners_are_inherited,
    processes_are_inherited, runs_leave_legal_journals,
};
pub use state::{Condition, OPEN_CALLS, OpenCall};
pub use verdict::Verdict;
