//! A script's text, read line by line.
ghost use Rattle.std.specs.Prelude.{◌≡◌, ◌⊎◌, ◌<◌, ◌≤◌, ◌+◌, ◌^◌, ◌++◌, [], ◌∷◌, Err, IfOk, MatchResult, Ok, OnOk, length, map};
ghost use Rattle.std.specs.List.{list_all};
ghost use Rattle.guest_language.specs.declared.script.Section.{Section};
ghost use Rattle.guest_language.specs.Sections.{add_line, guest_step, is_printed, is_taken, line_of, step, steps, words_step};

use crate::fault::{ScriptFault, ScriptKind};
use crate::names::is_name;
use crate::script::{Line, Section, What};
use crate::what::what_of;
use script_words::{byte_at, joined, words_of};
use sp_base::{Items, NoMemory, Octets};
use std::alloc::Global;

/// Whether all bytes are those of scripts.
fn is_printed(line: &[u8]) -> bool
    ensures { result ≡ is_printed line.now }
{
    line.iter().all(|b| *b >= 32 && *b <= 126)
}

/// Whether a section has the name.
fn is_taken(sections: &[Section], name: &[u8]) -> bool
    ensures { result ≡ is_taken sections.now name.now }
{
    for section in sections {
        if section.name.slice() == name {
            return true;
        }
    }
    false
}

/// Begins a section.
fn add_section(
    alloc: Global,
    sections: &mut Vec<Section>,
    name: &[u8],
    at: u32,
) -> Result<(), NoMemory>
    ensures { let section : Section = record { name = name.now; at = at; lines = [] } in
        OnOk result (sections.new.items ≡ sections.old.items ++ section ∷ []) }
{
    let name = Octets::of(alloc, name)?;
    sections.push(Section {
        name,
        at,
        lines: Items::none(alloc),
    })?;
    Ok(())
}

/// Reads a line `guest NAME`, whose words behind the first these are.
fn guest_step(
    alloc: Global,
    sections: &mut Vec<Section>,
    at: u32,
    words: &[&[u8]],
) -> Result<(), ScriptKind>
    ensures { let next = guest_step sections.old.items at (map (λ w. w.now) words.now) in
        MatchResult result
        (λ _. next ≡ Ok sections.new.items)
        (λ e. (e ≡ ScriptKind.NoMemory) ⊎ (next ≡ Err e)) }
{
    let [name] = words else {
        return Err(ScriptKind::BadWords);
    };
    if !is_name(name) {
        return Err(ScriptKind::BadName);
    }
    if is_taken(sections.as_slice(), name) {
        return Err(ScriptKind::GuestTwice);
    }
    match add_section(alloc, sections, name, at) {
        Ok(()) => Ok(()),
        Err(NoMemory) => Err(ScriptKind::NoMemory),
    }
}

/// A line of a guest.
fn line_of(alloc: Global, at: u32, words: &[&[u8]], what: What) -> Result<Line, NoMemory>
    ensures { IfOk result (λ line. line ≡ line_of at (map (λ w. w.now) words.now) what) }
{
    let text = joined(alloc, words)?;
    let background = match words {
        [word, ..] => *word == b"&".as_slice(),
        [] => false,
    };
    Ok(Line {
        text,
        at,
        background,
        what,
    })
}

/// Adds a line to the last section.
fn add_line(sections: &mut Vec<Section>, line: Line) -> Result<(), NoMemory>
    requires { 0 < length sections.old.items }
    ensures { OnOk result (sections.new.items ≡ add_line sections.old.items line) }
{
    let last = sections.len() - 1;
    let section = &mut sections[last];
    section.lines.push(line)
}

/// Reads the words of a line that isn't blank.
fn words_step(
    alloc: Global,
    names: &[&[u8]],
    sections: &mut Vec<Section>,
    at: u32,
    words: &[&[u8]],
) -> Result<(), ScriptKind>
    requires { length names.now < 2 ^ 32 }
    ensures { let names = map (λ w. w.now) names.now in
        let next = words_step names sections.old.items at (map (λ w. w.now) words.now) in
        MatchResult result
        (λ _. next ≡ Ok sections.new.items)
        (λ e. (e ≡ ScriptKind.NoMemory) ⊎ (next ≡ Err e)) }
{
    let [word, rest @ ..] = words else {
        return Ok(());
    };
    if *word == b"guest".as_slice() {
        return guest_step(alloc, sections, at, rest);
    }
    if sections.is_empty() {
        return Err(ScriptKind::NoGuest);
    }
    match what_of(alloc, names, sections.as_slice(), words) {
        Ok(what) => match line_of(alloc, at, words, what) {
            Ok(line) => match add_line(sections, line) {
                Ok(()) => Ok(()),
                Err(NoMemory) => Err(ScriptKind::NoMemory),
            },
            Err(NoMemory) => Err(ScriptKind::NoMemory),
        },
        Err(kind) => Err(kind),
    }
}

/// Reads a line.
#[tactic(auto, unfolding(crate::specs::Sections::step))]
fn step(
    alloc: Global,
    names: &[&[u8]],
    sections: &mut Vec<Section>,
    at: u32,
    line: &[u8],
) -> Result<(), ScriptKind>
    requires { length names.now < 2 ^ 32 }
    ensures { let next = step (map (λ w. w.now) names.now) sections.old.items at line.now in
        MatchResult result
        (λ _. next ≡ Ok sections.new.items)
        (λ e. (e ≡ ScriptKind.NoMemory) ⊎ (next ≡ Err e)) }
{
    if !is_printed(line) {
        return Err(ScriptKind::BadByte);
    }
    if byte_at(line, 0) == b'#' {
        return Ok(());
    }
    let Ok(words) = words_of(alloc, line) else {
        return Err(ScriptKind::NoMemory);
    };
    words_step(alloc, names, sections, at, words.as_slice())
}

/// The sections of a text's lines, of which the first has number 1.
pub fn steps(alloc: Global, names: &[&[u8]], lines: &[&[u8]]) -> Result<Vec<Section>, ScriptFault>
    requires names { length names.now < 2 ^ 32 }
    requires lines { length lines.now < 2 ^ 32 }
    ensures { let read = steps (map (λ w. w.now) names.now) [] 1 (map (λ w. w.now) lines.now) in
        MatchResult result
        (λ sections. read ≡ Ok sections.items)
        (λ e. (e.kind ≡ ScriptKind.NoMemory) ⊎ (read ≡ Err e)) }
{
    let mut sections = Vec::new(alloc);
    let mut at: u32 = 0;
    for line in lines {
        at += 1;
        if let Err(kind) = step(alloc, names, &mut sections, at, line) {
            return Err(ScriptFault { line: at, kind });
        }
    }
    Ok(sections)
}
