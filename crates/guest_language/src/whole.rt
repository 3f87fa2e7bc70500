//! A script as a whole.
ghost use Rattle.std.specs.Prelude.{◌≡◌, ◌⊎◌, Err, MatchResult, Ok};
ghost use Rattle.guest_language.specs.Forks.{parent_of};
ghost use Rattle.guest_language.specs.Script.{script_of};

use crate::fault::{ScriptFault, ScriptKind, of_the_whole};
use crate::forks::{has_circle, parent_of};
use crate::length::{MOST_GUESTS, guest_line_count, is_long};
use crate::names::names_of;
use crate::reading::steps;
use crate::script::{Parent, Section};
use script_words::pieces;
use std::alloc::Global;
use std::marker::Model;

/// What guests do: a section for each of them.
#[derive(Debug, Drop)]
pub struct Script {
    sections: Vec<Section>,
}

impl Model for Script {
    ghost use Rattle.std.specs.Prelude.{◌≡◌, List, false};
    ghost use Rattle.guest_language.specs.declared.script.Section.{Section};
    ghost use Rattle.guest_language.specs.Forks.{has_circle};

    ghost Value = { List Section };

    ghost view = { λ s. s.sections.items };

    ghost invariant = { λ s. has_circle s.sections.items ≡ false };
}

impl Script {
    /// The script that a text is, or its first fault.
    ///
    /// A text that is too long is refused before all else, and a fork in a circle after the faults
    /// of every line; both have the line 0. Of several faulty lines the first is named.
    pub fn read(alloc: Global, text: &[u8]) -> Result<Script, ScriptFault>
        ensures { let read = script_of text.now in
            MatchResult result
            (λ script. read ≡ Ok script)
            (λ e. (e.kind ≡ ScriptKind.NoMemory) ⊎ (read ≡ Err e)) }
    {
        if is_long(text) {
            return Err(of_the_whole(ScriptKind::TooLong));
        }
        let Ok(lines) = pieces(alloc, text, b'\n') else {
            return Err(of_the_whole(ScriptKind::NoMemory));
        };
        if guest_line_count(lines.as_slice()) > MOST_GUESTS {
            return Err(of_the_whole(ScriptKind::TooLong));
        }
        let Ok(names) = names_of(alloc, lines.as_slice()) else {
            return Err(of_the_whole(ScriptKind::NoMemory));
        };
        let sections = steps(alloc, names.as_slice(), lines.as_slice())?;
        match has_circle(alloc, sections.as_slice()) {
            Ok(false) => Ok(Script { sections }),
            Ok(true) => Err(of_the_whole(ScriptKind::Circle)),
            Err(_) => Err(of_the_whole(ScriptKind::NoMemory)),
        }
    }

    /// The sections, in order.
    pub fn sections(&self) -> &[Section]
        ensures { result.now ≡ self.now }
    {
        self.sections.as_slice()
    }

    /// The line that forks the section of a number; none where no line does.
    pub fn parent(&self, child: u32) -> Option<Parent>
        ensures { result ≡ parent_of self.now child }
    {
        parent_of(self.sections.as_slice(), child as usize)
    }
}
