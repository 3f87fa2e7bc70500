//! What pipes and sockets are: what a channel holds, what each call comes to, and what it changes. The
//! definitions stand in `specs/`; here are the values that they speak of.
#![tactic(auto)]

mod address;
mod letter;
mod limits;
mod numbers;
mod ruling;

pub use address::{Address, Family, SockKind};
pub use letter::Letter;
pub use limits::{BACKLOG, LETTER_BYTES, LETTERS, PIPE_WHOLE, STREAM_BYTES};
pub use numbers::{ChanNo, SockNo};
pub use ruling::{How, Ready, Ruling, SockFault};
