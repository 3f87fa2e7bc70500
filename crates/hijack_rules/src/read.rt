ghost use Rattle.std.specs.Prelude.{◌≡◌, ◌⊎◌, Err, IfOk, MatchResult, Ok};
ghost use Rattle.hijack_rules.specs.Rules.{IsReadAs, division_by, members_of, offset_by};
ghost use Rattle.hijack_rules.specs.Items.{value_of};

use crate::families::{Family, side_by};
use crate::faults::look_at_all;
use crate::items::{Key, items_of, members, value_of};
use crate::names::RuleFault;
use crate::offset::{DEFAULT_OFFSET, Offset};
use crate::rules::{Division, Rules};
use sp_base::{Items, NoMemory, Octets};
use std::alloc::Global;

/// The members of the list that the item of a key says.
fn members_of(alloc: Global, key: Key, items: &[Octets]) -> Result<Items<Octets>, NoMemory>
    ensures { IfOk result (λ members. members ≡ members_of key items.now) }
{
    match value_of(key, items) {
        Some(value) => members(alloc, value, b':'),
        None => Ok(Items::none(alloc)),
    }
}

/// The directory that items say, a copy.
fn path_of(alloc: Global, items: &[Octets]) -> Result<Option<Octets>, NoMemory>
    ensures { IfOk result (λ path. path ≡ value_of Key.Path items.now) }
{
    match value_of(Key::Path, items) {
        Some(path) => Ok(Some(Octets::of(alloc, path)?)),
        None => Ok(None),
    }
}

/// The offset that items say.
fn offset_by(items: &[Octets]) -> Offset
    ensures { result ≡ offset_by items.now }
{
    let Some(value) = value_of(Key::Offset, items) else {
        return Offset::new(DEFAULT_OFFSET);
    };
    match Offset::of(value) {
        Some(offset) => offset,
        None => Offset::new(DEFAULT_OFFSET),
    }
}

/// What items say.
fn division_by(alloc: Global, items: &[Octets]) -> Result<Division, NoMemory>
    ensures { IfOk result (λ division. division ≡ division_by items.now) }
{
    let words = members_of(alloc, Key::Socket, items)?;
    Ok(Division {
        path: path_of(alloc, items)?,
        blanket: members_of(alloc, Key::Blanket, items)?,
        local: side_by(Family::Local, words.slice()),
        inet: side_by(Family::Inet, words.slice()),
        offset: offset_by(items),
    })
}

impl Rules {
    /// The rules that a text is.
    ///
    /// An error is the fault of the first item that has one. An item has the first of these that
    /// applies: Unknown without a key, Twice where an earlier item has its key, Path, Family or
    /// Offset by what it says. NoMemory comes where memory is refused.
    pub fn read(alloc: Global, text: &[u8]) -> Result<Rules, RuleFault>
        ensures { MatchResult result
            (λ rules. IsReadAs text.now (Ok rules))
            (λ e. (e ≡ RuleFault.NoMemory) ⊎ IsReadAs text.now (Err e)) }
    {
        let items = items_of(alloc, text)?;
        look_at_all(alloc, items.slice())?;
        Ok(Rules::Divided(division_by(alloc, items.slice())?))
    }
}
