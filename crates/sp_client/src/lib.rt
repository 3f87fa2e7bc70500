//! The client library's core: a machine that sends the system calls, forks and execs of a guest to a
//! server, and answers what the server asks meanwhile.
#![tactic(auto)]

mod asking;
mod client;
mod copies;
mod fitness;
mod request;
mod serving;
#[cfg(test)]
mod tests;

pub use client::ClientCore;
