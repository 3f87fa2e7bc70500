ghost use Rattle.std.specs.Prelude.{◌≡◌};
ghost use Rattle.sp_fork.specs.declared.unused.CookieFault.TheVariants as fault;

use sp_base::{ConnNo, NoMemory, Pid};
use thiserror::Error;

/// How many cookies are unused at the most, those of all connections together.
pub const UNUSED_COOKIES: u64 = 64;

/// What a cookie is for.
#[derive(Clone, Copy, Debug, PartialEq, Eq)]
pub enum CookieKind {
    /// A child process is handed to a connection of its own.
    Fork,
    /// A process goes on with its next program, on another connection.
    Exec,
}

/// A cookie that is unused, beside its number.
#[derive(Clone, Copy, Debug, PartialEq, Eq)]
pub struct Unused {
    /// The process that it hands over.
    pub pid: Pid,
    /// The connection that made it.
    pub maker: ConnNo,
    /// The random number that goes with its number.
    pub salt: u64,
    /// What it is for.
    pub kind: CookieKind,
}

/// Why no cookie was made. Nothing changed.
#[derive(Clone, Copy, Debug, PartialEq, Eq, Error)]
pub enum CookieFault {
    /// As many cookies are unused as can be, or the highest number was given.
    #[error("no more cookies")]
    Full,
    /// Memory was refused.
    #[error("out of memory")]
    NoMemory,
}

impl From<NoMemory> for CookieFault {
    ghost from_gives = { λ _ made. made ≡ fault.NoMemory };

    fn from(_e: NoMemory) -> CookieFault {
        CookieFault::NoMemory
    }
}

/// There is no such unused cookie. Nothing changed.
#[derive(Clone, Copy, Debug, PartialEq, Eq, Error)]
#[error("no such cookie")]
pub struct Unknown;
