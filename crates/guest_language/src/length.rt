//! How long a script may be.
ghost use Rattle.std.specs.Prelude.{◌≡◌, ◌≤◌, ◌==◌, ◌^◌, count_by, length, map};
ghost use Rattle.guest_language.specs.Length.{guest_line_count, is_ended, is_guest_line, is_long, line_count};

use script_words::first_word;

/// The most bytes of a script: 16 MiB.
pub const MOST_BYTES: usize = 16_777_216;

/// The most lines.
pub const MOST_LINES: usize = 100_000;

/// The most lines that begin with the word `guest`.
pub const MOST_GUESTS: usize = 200;

/// How many line ends a text has.
fn line_end_count(text: &[u8]) -> usize
    ensures count { result ≡ count_by (λ b. b == 10) text.now }
    ensures within { result ≤ length text.now }
{
    text.iter().filter(|b| **b == b'\n').count()
}

/// Whether the last line has its line end.
fn is_ended(text: &[u8]) -> bool
    ensures { result ≡ is_ended text.now }
{
    match text.last() {
        Some(last) => *last == b'\n',
        None => true,
    }
}

/// How many lines a text has.
fn line_count(text: &[u8]) -> usize
    requires { length text.now ≤ 2 ^ 24 }
    ensures { result ≡ line_count text.now }
{
    let ends = line_end_count(text);
    if is_ended(text) { ends } else { ends + 1 }
}

/// Whether a text has more bytes or lines than are read.
pub fn is_long(text: &[u8]) -> bool
    ensures { result ≡ is_long text.now }
{
    text.len() > MOST_BYTES || line_count(text) > MOST_LINES
}

/// Whether the first word is `guest`.
fn is_guest_line(line: &[u8]) -> bool
    ensures { result ≡ is_guest_line line.now }
{
    first_word(line) == b"guest".as_slice()
}

/// How many lines begin with the word `guest`.
pub fn guest_line_count(lines: &[&[u8]]) -> usize
    ensures { result ≡ guest_line_count (map (λ w. w.now) lines.now) }
{
    let mut count: usize = 0;
    for line in lines {
        count += usize::from(is_guest_line(line));
    }
    count
}
