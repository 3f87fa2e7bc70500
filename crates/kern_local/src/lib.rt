//! Channels of bytes and of letters, and the sockets that are joined by them.
#![tactic(auto)]

mod chan;
mod chans;
mod ends;
mod ledger;
#[cfg(test)]
mod name_tests;
mod names;
mod pipes;
mod post;
mod rulings;
mod sock;
mod sock_rulings;
#[cfg(test)]
mod socket_tests;
mod socks;
mod stream;
#[cfg(test)]
mod tests;

pub use chans::Chans;
pub use names::Names;
pub use socks::Socks;
