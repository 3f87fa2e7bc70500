//! The lines of a script that don't run yet.
ghost use Rattle.std.specs.Prelude.{◌≡◌};
ghost use Rattle.guest_run.specs.Outside.{first_outside, is_inside, is_taken, outside_line};

use guest_language::{Line, Section, What};

/// Whether a line is a call that the server takes by now, or an exec.
fn is_taken(what: &What) -> bool
    ensures { result ≡ is_taken what.now }
{
    match what {
        What::Run(call) => !(21..=33).contains(&call.num()),
        What::Exec => true,
        What::Fork(_) | What::Join => false,
    }
}

/// Whether a line runs by now.
fn is_inside(line: &Line) -> bool
    ensures { result ≡ is_inside line.now }
{
    !line.background && is_taken(&line.what)
}

/// The number of the first of these lines that doesn't run yet.
fn first_outside(lines: &[Line]) -> Option<u32>
    ensures { result ≡ first_outside lines.now }
{
    for line in lines {
        if !is_inside(line) {
            return Some(line.at);
        }
    }
    None
}

/// The number, in the script's text, of the first line that doesn't run yet; none where all run.
///
/// Of a first guest run the system calls 1 to 20 and unknown ones, each waited for, and execs. The
/// calls of pipes, sockets and poll, lines in the background, fork and join, and a second guest
/// don't.
pub fn outside_line(sections: &[Section]) -> Option<u32>
    ensures { result ≡ outside_line sections.now }
{
    let [section, others @ ..] = sections else {
        return None;
    };
    match (first_outside(section.lines.slice()), others) {
        (Some(at), _) => Some(at),
        (None, [second, ..]) => Some(second.at),
        (None, []) => None,
    }
}
