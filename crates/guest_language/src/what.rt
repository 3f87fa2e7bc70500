//! What the words of a line ask for.
ghost use Rattle.std.specs.Prelude.{◌≡◌, ◌⊎◌, ◌<◌, ◌^◌, Err, MatchResult, Ok, length, map};
ghost use Rattle.guest_language.specs.What.{aside_what, child_aside, fork_what, forks, has_fork, in_background, is_forked, line_what, only_aside, only_line, verb_aside, verb_what, what_of};

use crate::call_line::made_of;
use crate::fault::ScriptKind;
use crate::names::{is_name, place_of};
use crate::script::{Line, Section, What};
use crate::verb::{Verb, verb_of};
use sp_base::NoMemory;
use std::alloc::Global;

/// Whether it is a fork of the section of a number.
fn forks(child: usize, what: &What) -> bool
    ensures { result ≡ forks child what.now }
{
    match what {
        What::Fork(n) => *n as usize == child,
        What::Run(_) | What::Exec | What::Join => false,
    }
}

/// Whether one of the lines forks the section of a number.
fn has_fork(child: usize, lines: &[Line]) -> bool
    ensures { result ≡ has_fork child lines.now }
{
    for line in lines {
        if forks(child, &line.what) {
            return true;
        }
    }
    false
}

/// Whether a line of the sections forks the section of a number.
fn is_forked(child: usize, sections: &[Section]) -> bool
    ensures { result ≡ is_forked child sections.now }
{
    for section in sections {
        if has_fork(child, section.lines.slice()) {
            return true;
        }
    }
    false
}

/// `fork NAME`.
fn fork_what(names: &[&[u8]], sections: &[Section], words: &[&[u8]]) -> Result<What, ScriptKind>
    requires { length names.now < 2 ^ 32 }
    ensures { result ≡ fork_what (map (λ w. w.now) names.now) sections.now (map (λ w. w.now) words.now) }
{
    let [name] = words else {
        return Err(ScriptKind::BadWords);
    };
    if !is_name(name) {
        return Err(ScriptKind::BadName);
    }
    let Some(i) = place_of(names, name) else {
        return Err(ScriptKind::UnknownGuest);
    };
    if is_forked(i, sections) {
        return Err(ScriptKind::ForkedTwice);
    }
    Ok(What::Fork(i as u32))
}

/// `exec`, `join`: no words.
fn only_line(what: What, words: &[&[u8]]) -> Result<What, ScriptKind>
    ensures { result ≡ only_line what (map (λ w. w.now) words.now) }
{
    if words.is_empty() {
        Ok(what)
    } else {
        Err(ScriptKind::BadWords)
    }
}

/// The call of a line.
fn verb_what(alloc: Global, word: &[u8], words: &[&[u8]]) -> Result<What, ScriptKind>
    ensures { let says = verb_what word.now (map (λ w. w.now) words.now) in
        MatchResult result (λ what. says ≡ Ok what) (λ e. (e ≡ ScriptKind.NoMemory) ⊎ (says ≡ Err e)) }
{
    let Some(verb) = verb_of(word) else {
        return Err(ScriptKind::UnknownCall);
    };
    match made_of(alloc, verb, words) {
        Ok(Some(made)) => Ok(What::Run(made.call)),
        Ok(None) => Err(ScriptKind::BadWords),
        Err(NoMemory) => Err(ScriptKind::NoMemory),
    }
}

/// What the words of a line of a guest ask for.
fn line_what(
    alloc: Global,
    names: &[&[u8]],
    sections: &[Section],
    words: &[&[u8]],
) -> Result<What, ScriptKind>
    requires { length names.now < 2 ^ 32 }
    ensures { let says = line_what (map (λ w. w.now) names.now) sections.now (map (λ w. w.now) words.now) in
        MatchResult result (λ what. says ≡ Ok what) (λ e. (e ≡ ScriptKind.NoMemory) ⊎ (says ≡ Err e)) }
{
    let [word, rest @ ..] = words else {
        return Err(ScriptKind::BadWords);
    };
    if *word == b"fork".as_slice() {
        return fork_what(names, sections, rest);
    }
    if *word == b"exec".as_slice() {
        return only_line(What::Exec, rest);
    }
    if *word == b"join".as_slice() {
        return only_line(What::Join, rest);
    }
    verb_what(alloc, word, rest)
}

/// Whether a call may be started on a caller of its own.
fn in_background(verb: Verb) -> bool
    ensures { result ≡ in_background verb }
{
    match verb {
        Verb::Read | Verb::Write | Verb::Pread | Verb::Pwrite | Verb::Recvfrom | Verb::Sendto =>
            true,
        _ => false,
    }
}

/// The fault of a line behind `&` that names a guest.
fn child_aside(words: &[&[u8]]) -> ScriptKind
    ensures { result ≡ child_aside (map (λ w. w.now) words.now) }
{
    let [name] = words else {
        return ScriptKind::BadWords;
    };
    if is_name(name) {
        ScriptKind::NotInBackground
    } else {
        ScriptKind::BadName
    }
}

/// The fault of `& exec` and `& join`.
fn only_aside(words: &[&[u8]]) -> ScriptKind
    ensures { result ≡ only_aside (map (λ w. w.now) words.now) }
{
    if words.is_empty() {
        ScriptKind::NotInBackground
    } else {
        ScriptKind::BadWords
    }
}

/// The call of a line behind `&`.
fn verb_aside(alloc: Global, word: &[u8], words: &[&[u8]]) -> Result<What, ScriptKind>
    ensures { let says = verb_aside word.now (map (λ w. w.now) words.now) in
        MatchResult result (λ what. says ≡ Ok what) (λ e. (e ≡ ScriptKind.NoMemory) ⊎ (says ≡ Err e)) }
{
    let Some(verb) = verb_of(word) else {
        return Err(ScriptKind::UnknownCall);
    };
    match made_of(alloc, verb, words) {
        Ok(Some(made)) => {
            if !in_background(verb) {
                return Err(ScriptKind::NotInBackground);
            }
            Ok(What::Run(made.call))
        }
        Ok(None) => Err(ScriptKind::BadWords),
        Err(NoMemory) => Err(ScriptKind::NoMemory),
    }
}

/// What the words behind `&` ask for.
fn aside_what(alloc: Global, words: &[&[u8]]) -> Result<What, ScriptKind>
    ensures { let says = aside_what (map (λ w. w.now) words.now) in
        MatchResult result (λ what. says ≡ Ok what) (λ e. (e ≡ ScriptKind.NoMemory) ⊎ (says ≡ Err e)) }
{
    let [word, rest @ ..] = words else {
        return Err(ScriptKind::BadWords);
    };
    if *word == b"guest".as_slice() || *word == b"fork".as_slice() {
        return Err(child_aside(rest));
    }
    if *word == b"exec".as_slice() || *word == b"join".as_slice() {
        return Err(only_aside(rest));
    }
    verb_aside(alloc, word, rest)
}

/// What a line asks for, `&` before it or not.
pub fn what_of(
    alloc: Global,
    names: &[&[u8]],
    sections: &[Section],
    words: &[&[u8]],
) -> Result<What, ScriptKind>
    requires { length names.now < 2 ^ 32 }
    ensures { let says = what_of (map (λ w. w.now) names.now) sections.now (map (λ w. w.now) words.now) in
        MatchResult result (λ what. says ≡ Ok what) (λ e. (e ≡ ScriptKind.NoMemory) ⊎ (says ≡ Err e)) }
{
    let [word, rest @ ..] = words else {
        return Err(ScriptKind::BadWords);
    };
    if *word == b"&".as_slice() {
        return aside_what(alloc, rest);
    }
    line_what(alloc, names, sections, words)
}
