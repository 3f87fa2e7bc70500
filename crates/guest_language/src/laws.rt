//! The laws of scripts: functions that do nothing, and whose contracts are the laws.
ghost use Rattle.std.specs.Prelude.{◌≡◌, ℕ, List, Ok};
ghost use Rattle.std.specs.List.{AllByRecursion};
ghost use Rattle.guest_language.specs.declared.script.Section.{Section};
ghost use Rattle.guest_language.specs.Facts.{HasFineLines, HasOwnNames, IsSoundSection};
ghost use Rattle.guest_language.specs.Script.{script_of};
ghost use Rattle.guest_language.specs.Spelling.{spelled};

/// A line in the background is a system call, and neither fork, exec nor join.
pub fn background_lines_are_calls()
    ensures { (text : List ℕ) (script : List Section)
        → script_of text ≡ Ok script → HasFineLines script }
{}

/// No two sections of a script have the same name.
pub fn names_are_distinct()
    ensures { (text : List ℕ) (script : List Section)
        → script_of text ≡ Ok script → HasOwnNames script }
{}

/// Each section of a script has a guest's name and at most `MOST_LINES` lines, and a call of it is
/// unknown only where its number is outside the table of calls.
pub fn sections_are_sound()
    ensures { (text : List ℕ) (script : List Section)
        → script_of text ≡ Ok script → AllByRecursion IsSoundSection script }
{}

/// What a script was read as, spelled from its parts, reads as the same script, each line under its
/// number.
pub fn scripts_are_read_as_spelled()
    ensures { (text : List ℕ) (script : List Section)
        → script_of text ≡ Ok script → script_of (spelled script) ≡ Ok script }
{}
