//! The limits of channels.

/// How many bytes a pipe, or one direction of a stream, holds at the most.
pub const STREAM_BYTES: u64 = 16_384;

/// How many letters wait at a datagram socket at the most.
pub const LETTERS: u64 = 64;

/// How many bytes a letter has at the most.
pub const LETTER_BYTES: u64 = 8_192;

/// A write of so many bytes or fewer goes into a pipe whole, also where it may not wait.
pub const PIPE_WHOLE: u64 = 512;

/// How many connections wait at a listening socket at the most.
pub const BACKLOG: u64 = 16;
