//! Which line forks which guest.
ghost use Rattle.std.specs.Prelude.{◌≡◌, IfOk};
ghost use Rattle.guest_language.specs.Forks.{circle_from, fork_place, goes_round, goes_up, has_circle, parent_at, parent_of, parents_of};

use crate::script::{Line, Parent, Section, What};
use sp_base::NoMemory;
use std::alloc::Global;

/// The place of the line that forks the section of a number.
fn fork_place(child: usize, lines: &[Line]) -> Option<usize>
    ensures { result ≡ fork_place child lines.now }
{
    for (i, line) in lines.iter().enumerate() {
        match &line.what {
            What::Fork(n) => {
                if *n as usize == child {
                    return Some(i);
                }
            }
            What::Run(_) | What::Exec | What::Join => {}
        }
    }
    None
}

/// The line that forks the section of a number; none where no line does.
pub fn parent_of(sections: &[Section], child: usize) -> Option<Parent>
    ensures { result ≡ parent_of sections.now child }
{
    for (i, section) in sections.iter().enumerate() {
        if let Some(line) = fork_place(child, section.lines.slice()) {
            return Some(Parent { section: i, line });
        }
    }
    None
}

/// The line that forks each section, in order.
fn parents_of(alloc: Global, sections: &[Section]) -> Result<Vec<Option<Parent>>, NoMemory>
    ensures { IfOk result (λ parents. parents.items ≡ parents_of sections.now) }
{
    let mut parents = Vec::new(alloc);
    for (i, _) in sections.iter().enumerate() {
        parents.push(parent_of(sections, i))?;
    }
    Ok(parents)
}

/// The line that forks the section of a number, by the list of such lines.
#[tactic(auto, unfolding(crate::specs::Forks::parent_at))]
fn parent_at(parents: &[Option<Parent>], at: usize) -> Option<Parent>
    ensures { result ≡ parent_at parents.now at }
{
    match parents.get(at) {
        Some(parent) => *parent,
        None => None,
    }
}

/// Whether the way up from a section, from child to parent, has as many steps as these.
fn goes_up(parents: &[Option<Parent>], steps: &[Section], start: usize) -> bool
    ensures { result ≡ goes_up parents.now steps.now start }
{
    let mut at = start;
    for step in steps {
        let _name = &step.name;
        let Some(parent) = parent_at(parents, at) else {
            return false;
        };
        at = parent.section;
    }
    true
}

/// Whether the way up from a section has as many steps as there are sections.
#[tactic(auto, unfolding(crate::specs::Forks::goes_round))]
fn goes_round(parents: &[Option<Parent>], sections: &[Section], start: usize) -> bool
    ensures { result ≡ goes_round parents.now sections.now start }
{
    goes_up(parents, sections, start)
}

/// Whether the way up from one of the sections goes on for ever.
fn circle_in(parents: &[Option<Parent>], sections: &[Section]) -> bool
    ensures { result ≡ circle_from parents.now sections.now 0 sections.now }
{
    for (i, _) in sections.iter().enumerate() {
        if goes_round(parents, sections, i) {
            return true;
        }
    }
    false
}

/// Whether a guest of the sections is forked by itself, or by one that it leads to. The only error
/// is want of memory.
pub fn has_circle(alloc: Global, sections: &[Section]) -> Result<bool, NoMemory>
    ensures { IfOk result (λ found. found ≡ has_circle sections.now) }
{
    let parents = parents_of(alloc, sections)?;
    Ok(circle_in(parents.as_slice(), sections))
}
