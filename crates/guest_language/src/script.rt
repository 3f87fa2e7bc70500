//! A script: guests, and what each does.
use sp_base::{Call, Items, Octets};

/// What a line asks for.
#[derive(Debug, Drop)]
pub enum What {
    /// A system call.
    Run(Call),
    /// A child, which runs the section of this number, counted from 0.
    Fork(u32),
    /// The guest goes on as another program, with the lines behind this one.
    Exec,
    /// The guest waits for its background lines.
    Join,
}

/// A line of a section.
#[derive(Debug, Drop)]
pub struct Line {
    /// The words with single spaces, `&` included.
    pub text: Octets,
    /// The line's number in the script's text, from 1.
    pub at: u32,
    /// Whether it is started on a caller of its own.
    pub background: bool,
    pub what: What,
}

/// The line of a fork: its section's number, and its own among the section's lines, both from 0.
#[derive(Clone, Copy, Debug, PartialEq, Eq)]
pub struct Parent {
    pub section: usize,
    pub line: usize,
}

/// A guest and its lines.
#[derive(Debug, Drop)]
pub struct Section {
    /// The guest's name.
    pub name: Octets,
    /// The number of the section's first line in the script's text, from 1.
    pub at: u32,
    pub lines: Items<Line>,
}
