ghost use Rattle.std.specs.Prelude.{◌≡◌, ◌⊎◌, ℕ, ◌<◌, MatchResult, None, Some, length};
ghost use Rattle.std.specs.List.{list_all};
ghost use Rattle.hijack_rules.specs.Faults.{fault_at, is_rule_path, item_fault, value_fault};
ghost use Rattle.hijack_rules.specs.Families.{is_family_word};
ghost use Rattle.hijack_rules.specs.Rules.{IsFirstFault};

use crate::families::is_family_word;
use crate::items::{Key, is_given, key_of, members, value_in};
use crate::names::RuleFault;
use crate::offset::Offset;
use sp_base::Octets;
use std::alloc::Global;

/// Whether rules may name a path.
#[tactic(auto, unfolding(crate::specs::Faults::is_rule_path))]
fn is_rule_path(path: &[u8]) -> bool
    ensures { result ≡ is_rule_path path.now }
{
    if path.is_empty() {
        return false;
    }
    path[0] == b'/' && path[path.len() - 1] != b'/'
}

/// Whether rules may name all of the paths.
fn are_rule_paths(paths: &[Octets]) -> bool
    ensures { result ≡ list_all is_rule_path paths.now }
{
    for path in paths {
        if !is_rule_path(path.slice()) {
            return false;
        }
    }
    true
}

/// Whether each word says something of a family.
fn are_family_words(words: &[Octets]) -> bool
    ensures { result ≡ list_all is_family_word words.now }
{
    for word in words {
        if !is_family_word(word.slice()) {
            return false;
        }
    }
    true
}

/// Looks at what an item of a key says; an error is what is wrong with it, or want of memory.
fn look_at_value(alloc: Global, key: Key, item: &[u8]) -> Result<(), RuleFault>
    ensures { MatchResult result
        (λ _. value_fault key item.now ≡ None)
        (λ e. (e ≡ RuleFault.NoMemory) ⊎ (value_fault key item.now ≡ Some e)) }
{
    let value = value_in(key, item);
    match key {
        Key::Path => {
            if !is_rule_path(value) {
                return Err(RuleFault::Path(Octets::of(alloc, item)?));
            }
        }
        Key::Blanket => {
            if !are_rule_paths(members(alloc, value, b':')?.slice()) {
                return Err(RuleFault::Path(Octets::of(alloc, item)?));
            }
        }
        Key::Socket => {
            if !are_family_words(members(alloc, value, b':')?.slice()) {
                return Err(RuleFault::Family(Octets::of(alloc, item)?));
            }
        }
        Key::Offset => {
            if Offset::of(value).is_none() {
                return Err(RuleFault::Offset(Octets::of(alloc, item)?));
            }
        }
    }
    Ok(())
}

/// Looks at an item behind earlier ones; an error is what is wrong with it, or want of memory.
fn look_at_item(alloc: Global, earlier: &[Octets], item: &[u8]) -> Result<(), RuleFault>
    ensures { MatchResult result
        (λ _. item_fault earlier.now item.now ≡ None)
        (λ e. (e ≡ RuleFault.NoMemory) ⊎ (item_fault earlier.now item.now ≡ Some e)) }
{
    let Some(key) = key_of(item) else {
        return Err(RuleFault::Unknown(Octets::of(alloc, item)?));
    };
    if is_given(key, earlier) {
        return Err(RuleFault::Twice(Octets::of(alloc, item)?));
    }
    look_at_value(alloc, key, item)
}

/// Looks at the item at a place; an error is what is wrong with it, or want of memory.
fn look_at(alloc: Global, items: &[Octets], i: usize) -> Result<(), RuleFault>
    requires { i < length items.now }
    ensures { MatchResult result
        (λ _. fault_at items.now i ≡ None)
        (λ e. (e ≡ RuleFault.NoMemory) ⊎ (fault_at items.now i ≡ Some e)) }
{
    look_at_item(alloc, &items[..i], items[i].slice())
}

/// Looks at all items; an error is the first fault, or want of memory.
pub fn look_at_all(alloc: Global, items: &[Octets]) -> Result<(), RuleFault>
    ensures { MatchResult result
        (λ _. (i : ℕ) → fault_at items.now i ≡ None)
        (λ e. (e ≡ RuleFault.NoMemory) ⊎ IsFirstFault items.now e) }
{
    for i in 0..items.len() {
        look_at(alloc, items, i)?;
    }
    Ok(())
}
