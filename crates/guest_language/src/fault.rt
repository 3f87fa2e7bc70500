ghost use Rattle.std.specs.Prelude.{◌≡◌};
ghost use Rattle.guest_language.specs.declared.fault.ScriptKind.TheVariants as kind;

use sp_base::NoMemory;
use thiserror::Error;

/// What is wrong with a line or a script, in the order in which it is looked for.
#[derive(Clone, Copy, Debug, PartialEq, Eq, Error)]
pub enum ScriptKind {
    /// Memory was refused.
    #[error("out of memory")]
    NoMemory,
    /// More than 16 MiB, 100,000 lines or 200 guests.
    #[error("script too long")]
    TooLong,
    /// A byte outside 0x20 to 0x7e.
    #[error("bad byte")]
    BadByte,
    /// A line before the first `guest`.
    #[error("no guest yet")]
    NoGuest,
    /// A word that isn't a guest's name.
    #[error("bad name")]
    BadName,
    /// A guest's name that another section has.
    #[error("guest twice")]
    GuestTwice,
    /// A first word that names no call.
    #[error("unknown call")]
    UnknownCall,
    /// Words that aren't those of the line's call.
    #[error("bad words")]
    BadWords,
    /// A line behind `&` that isn't started on a caller of its own.
    #[error("not in the background")]
    NotInBackground,
    /// A fork of a guest that no section has.
    #[error("unknown guest")]
    UnknownGuest,
    /// A second fork of the same guest.
    #[error("forked twice")]
    ForkedTwice,
    /// A guest that is forked by itself or by one that it leads to.
    #[error("fork in a circle")]
    Circle,
}

impl From<NoMemory> for ScriptKind {
    ghost from_gives = { λ _ made. made ≡ kind.NoMemory };

    fn from(_e: NoMemory) -> ScriptKind {
        ScriptKind::NoMemory
    }
}

/// A fault of a script, and the line that has it, from 1; 0 for a fault of the whole.
#[derive(Clone, Copy, Debug, PartialEq, Eq, Error)]
#[error("line {line}: {kind}")]
pub struct ScriptFault {
    pub line: u32,
    pub kind: ScriptKind,
}

/// The fault of a whole script.
pub fn of_the_whole(kind: ScriptKind) -> ScriptFault
    ensures { result ≡ record { line = 0; kind = kind } }
{
    ScriptFault { line: 0, kind }
}
