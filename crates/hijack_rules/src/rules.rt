ghost use Rattle.std.specs.Prelude.{◌≡◌, ◌<◌, ◌≤◌, ◌^◌, ◌↔◌, IsTrue, length};
ghost use Rattle.std.specs.List.{list_any};
ghost use Rattle.hijack_rules.specs.Sides.{absolute_side, blanket_side, is_below, is_in, offset_of};
ghost use Rattle.hijack_rules.specs.Sides.{path_side, socket_side, whole_to};
ghost use Rattle.hijack_rules.specs.declared.rules.Rules.TheVariants.{Raw};

use crate::names::{Routed, SideName};
use crate::offset::{DEFAULT_OFFSET, Offset};
use sp_base::{Items, Octets};

/// Which kernel each call goes to.
#[derive(Debug, Drop)]
pub enum Rules {
    /// Every call goes to the rump kernel, unchanged.
    Raw,
    /// Calls are divided between the two kernels.
    Divided(Division),
}

/// How calls are divided between the two kernels.
#[derive(Debug, Drop)]
pub struct Division {
    /// The directory that is the rump kernel's root. It is cut off what lies below it.
    pub path: Option<Octets>,
    /// The directories that the rump kernel has under the same names.
    pub blanket: Items<Octets>,
    /// Whose the local sockets are.
    pub local: SideName,
    /// Whose the inet sockets are.
    pub inet: SideName,
    /// The first number of the rump kernel's descriptors.
    pub offset: Offset,
}

/// A path that goes whole to a side.
fn whole_to(side: SideName) -> Routed
    ensures { result ≡ whole_to side }
{
    match side {
        SideName::Rump => Routed::Rump(0),
        SideName::Host => Routed::Host,
    }
}

/// Whether a path lies below a directory.
#[tactic(auto, unfolding(crate::specs::Sides::is_below))]
fn is_below(path: &[u8], dir: &[u8]) -> bool
    ensures value { result ≡ is_below path.now dir.now }
    ensures longer { IsTrue result → length dir.now < length path.now }
{
    path.starts_with(dir) && path.len() > dir.len() && path[dir.len()] == b'/'
}

/// Whether a path is a directory, or lies below it.
#[tactic(auto, unfolding(crate::specs::Sides::is_in))]
fn is_in(path: &[u8], dir: &[u8]) -> bool
    ensures { result ≡ is_in path.now dir.now }
{
    if path == dir {
        return true;
    }
    is_below(path, dir)
}

/// Whether a path lies in one of the directories.
fn is_in_one(path: &[u8], dirs: &[Octets]) -> bool
    ensures { result ≡ list_any (is_in path.now) dirs.now }
{
    for dir in dirs {
        if is_in(path, dir.slice()) {
            return true;
        }
    }
    false
}

/// Where a path goes by the directories of `blanket=`.
fn blanket_side(dirs: &[Octets], path: &[u8]) -> Routed
    ensures { result ≡ blanket_side dirs.now path.now }
{
    if is_in_one(path, dirs) {
        return Routed::Rump(0);
    }
    Routed::Host
}

/// Where a path goes that begins with `/`.
fn absolute_side(division: &Division, path: &[u8]) -> Routed
    requires { length path.now < 2 ^ 32 }
    ensures { result ≡ absolute_side division.now.path division.now.blanket path.now }
{
    match &division.path {
        Some(dir) => {
            let dir = dir.slice();
            if path == dir {
                return Routed::RumpRoot;
            }
            if is_below(path, dir) {
                return Routed::Rump(dir.len() as u32);
            }
            blanket_side(division.blanket.slice(), path)
        }
        None => blanket_side(division.blanket.slice(), path),
    }
}

impl Rules {
    /// The rules under which every call goes to the rump kernel; the offset is 128.
    pub fn raw() -> Rules
        ensures { result ≡ Raw }
    {
        Rules::Raw
    }

    /// Whether these are the raw rules. Takes no memory.
    pub fn is_raw(&self) -> bool
        ensures { IsTrue result ↔ (self.now ≡ Raw) }
    {
        matches!(self, Rules::Raw)
    }

    /// Where a path goes, with the side of the working directory. Takes no memory.
    pub fn path_side(&self, cwd: SideName, path: &[u8]) -> Routed
        requires { length path.now < 2 ^ 32 }
        ensures { result ≡ path_side self.now cwd path.now }
    {
        match self {
            Rules::Raw => Routed::Rump(0),
            Rules::Divided(division) => {
                if path.first() != Some(&b'/') {
                    return whole_to(cwd);
                }
                absolute_side(division, path)
            }
        }
    }

    /// Where a socket of a family goes. Takes no memory.
    pub fn socket_side(&self, family: u64) -> SideName
        ensures { result ≡ socket_side self.now family }
    {
        match self {
            Rules::Raw => SideName::Rump,
            Rules::Divided(division) => match family {
                1 => division.local,
                2 => division.inet,
                _ => SideName::Host,
            },
        }
    }

    /// The first number of the rump kernel's descriptors. Takes no memory.
    pub fn offset(&self) -> u32
        ensures value { result ≡ offset_of self.now }
        ensures low { 32 ≤ result }
        ensures high { result ≤ 4096 }
    {
        match self {
            Rules::Raw => DEFAULT_OFFSET,
            Rules::Divided(division) => division.offset.number(),
        }
    }
}
