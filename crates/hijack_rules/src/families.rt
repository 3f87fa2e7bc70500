ghost use Rattle.std.specs.Prelude.{◌≡◌};
ghost use Rattle.hijack_rules.specs.Families.{family_name, is_family_word, no_family_name, said_of};
ghost use Rattle.hijack_rules.specs.Families.{side_by};

use crate::names::SideName;
use sp_base::Octets;

/// A family of sockets.
#[derive(Clone, Copy, Debug, PartialEq, Eq)]
pub enum Family {
    /// Sockets with paths for names.
    Local,
    /// Sockets with internet addresses and ports.
    Inet,
}

/// A family's name.
fn family_name(family: Family) -> &'static [u8]
    ensures { result.now ≡ family_name family }
{
    match family {
        Family::Local => b"local",
        Family::Inet => b"inet",
    }
}

/// The word that gives a family to the host.
fn no_family_name(family: Family) -> &'static [u8]
    ensures { result.now ≡ no_family_name family }
{
    match family {
        Family::Local => b"nolocal",
        Family::Inet => b"noinet",
    }
}

/// What a word says of a family; None where it says nothing.
#[tactic(auto, unfolding(crate::specs::Families::said_of))]
fn said_of(family: Family, word: &[u8]) -> Option<SideName>
    ensures { result ≡ said_of family word.now }
{
    if word == b"all".as_slice() {
        return Some(SideName::Rump);
    }
    if word == b"none".as_slice() {
        return Some(SideName::Host);
    }
    if word == family_name(family) {
        return Some(SideName::Rump);
    }
    if word == no_family_name(family) {
        return Some(SideName::Host);
    }
    None
}

/// Whether a word says something of a family.
pub fn is_family_word(word: &[u8]) -> bool
    ensures { result ≡ is_family_word word.now }
{
    said_of(Family::Local, word).is_some() || said_of(Family::Inet, word).is_some()
}

/// The side of a family by these words: the last one that says something of it decides.
pub fn side_by(family: Family, words: &[Octets]) -> SideName
    ensures { result ≡ side_by family words.now }
{
    let mut side = SideName::Host;
    for word in words {
        side = said_of(family, word.slice()).unwrap_or(side);
    }
    side
}
