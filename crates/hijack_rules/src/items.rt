ghost use Rattle.std.specs.Prelude.{◌≡◌, ◌++◌, IfOk, drop, option_map};
ghost use Rattle.std.specs.Option.{option_copied};
ghost use Rattle.script_words.specs.Pieces.{pieces_of};
ghost use Rattle.hijack_rules.specs.Items.{is_given, is_of, items_of, key_of, name_of, value_in};
ghost use Rattle.hijack_rules.specs.Items.{value_of};

use script_words::pieces;
use sp_base::{Items, NoMemory, Octets};
use std::alloc::Global;

/// What an item is about.
#[derive(Clone, Copy, Debug, PartialEq, Eq)]
pub enum Key {
    /// `path=`: the directory that is the rump kernel's root.
    Path,
    /// `blanket=`: directories that the rump kernel has under the same names.
    Blanket,
    /// `socket=`: whose the sockets of each family are.
    Socket,
    /// `fdoff=`: the first number of the rump kernel's descriptors.
    Offset,
}

/// What an item of a key begins with.
fn name_of(key: Key) -> &'static [u8]
    ensures { result.now ≡ name_of key }
{
    match key {
        Key::Path => b"path=",
        Key::Blanket => b"blanket=",
        Key::Socket => b"socket=",
        Key::Offset => b"fdoff=",
    }
}

/// Whether an item is of a key.
fn is_of(key: Key, item: &[u8]) -> bool
    ensures { result ≡ is_of key item.now }
{
    item.starts_with(name_of(key))
}

/// The key of an item; None where it has none.
#[tactic(auto, unfolding(crate::specs::Items::key_of))]
pub fn key_of(item: &[u8]) -> Option<Key>
    ensures { result ≡ key_of item.now }
{
    if is_of(Key::Path, item) {
        return Some(Key::Path);
    }
    if is_of(Key::Blanket, item) {
        return Some(Key::Blanket);
    }
    if is_of(Key::Socket, item) {
        return Some(Key::Socket);
    }
    if is_of(Key::Offset, item) {
        return Some(Key::Offset);
    }
    None
}

/// What stands behind the first bytes.
fn behind(bytes: &[u8], count: usize) -> &[u8]
    ensures { result.now ≡ drop count bytes.now }
{
    if count > bytes.len() {
        return b"".as_slice();
    }
    let (_, rest) = bytes.split_at(count);
    rest
}

/// What an item of a key says.
pub fn value_in(key: Key, item: &[u8]) -> &[u8]
    ensures { result.now ≡ value_in key item.now }
{
    behind(item, name_of(key).len())
}

/// Whether some item is of a key.
pub fn is_given(key: Key, items: &[Octets]) -> bool
    ensures { result ≡ is_given key items.now }
{
    for item in items {
        if is_of(key, item.slice()) {
            return true;
        }
    }
    false
}

/// What the first item of a key says; None where no item is of it.
pub fn value_of(key: Key, items: &[Octets]) -> Option<&[u8]>
    ensures { option_map (λ value. value.now) result ≡ value_of key items.now }
{
    for item in items {
        if is_of(key, item.slice()) {
            return Some(value_in(key, item.slice()));
        }
    }
    None
}

/// The pieces between the bytes that are the separator, each a copy.
pub fn members(alloc: Global, bytes: &[u8], separator: u8) -> Result<Items<Octets>, NoMemory>
    ensures { IfOk result (λ members. members ≡ pieces_of separator bytes.now) }
{
    let pieces = pieces(alloc, bytes, separator)?;
    let mut members = Items::none(alloc);
    for piece in &pieces {
        members.push(Octets::of(alloc, *piece)?)?;
    }
    Ok(members)
}

/// The items of a text.
#[tactic(auto, unfolding(crate::specs::Items::items_of))]
pub fn items_of(alloc: Global, text: &[u8]) -> Result<Items<Octets>, NoMemory>
    ensures { IfOk result (λ items. items ≡ items_of text.now) }
{
    if text.is_empty() {
        return Ok(Items::none(alloc));
    }
    members(alloc, text, b',')
}
