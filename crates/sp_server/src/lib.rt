//! Serving: frames come in as bytes, happen to a server, and what it answers goes out as bytes.
#![tactic(auto)]

mod laws;
mod serving;
mod session;
mod stdio;
#[cfg(test)]
mod tests;

pub use laws::{later_bytes, one_end, one_run, refused_calls};
pub use stdio::{StdioEnd, serve_stdio};
