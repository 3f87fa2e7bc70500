ghost use Rattle.std.specs.Prelude.{◌≡◌, ◌==◌, nat_lt, length, map, filter, IfOk};
ghost use Rattle.std.specs.List.{slice_split};
ghost use Rattle.kern_model.specs.Name.{components, begins_with_slash, ends_with_slash};
ghost use Rattle.kern_model.specs.Walk.{is_here, is_up, has_long_component};

use crate::node::Path;
use sp_base::{Items, NoMemory, Octets};
use std::alloc::{AllocError, Global};
use std::cmp::Ordering;

/// Whether a component is one dot.
pub fn is_here(component: &[u8]) -> bool
    ensures { result ≡ is_here component.now }
{
    matches!(component.cmp(b".".as_slice()), Ordering::Equal)
}

/// Whether a component is two dots.
pub fn is_up(component: &[u8]) -> bool
    ensures { result ≡ is_up component.now }
{
    matches!(component.cmp(b"..".as_slice()), Ordering::Equal)
}

/// Whether the first byte is a slash.
pub fn begins_with_slash(text: &[u8]) -> bool
    ensures { result ≡ begins_with_slash text.now }
{
    !text.is_empty() && text[0] == b'/'
}

/// Whether the last byte is a slash.
pub fn ends_with_slash(text: &[u8]) -> bool
    ensures { result ≡ ends_with_slash text.now }
{
    let len = text.len();
    len > 0 && text[len - 1] == b'/'
}

/// What stands between the slashes of a text.
fn parts(alloc: Global, text: &[u8]) -> Result<Vec<&[u8]>, AllocError>
    ensures { IfOk result (λ parts. map (λ x. x.now) parts.items
        ≡ slice_split (λ b. b == 47) text.now) }
{
    text.split(|b| *b == b'/').collect(alloc)
}

/// Copies of the parts that are not empty.
fn copies(alloc: Global, parts: &[&[u8]]) -> Result<Path, NoMemory>
    ensures { IfOk result (λ copies. copies
        ≡ filter (λ component. nat_lt 0 (length component)) (map (λ x. x.now) parts.now)) }
{
    let mut copies = Items::none(alloc);
    for part in parts {
        if !part.is_empty() {
            copies.push(Octets::of(alloc, part)?)?;
        }
    }
    Ok(copies)
}

/// The components of a path's text, in their order.
pub fn components(alloc: Global, text: &[u8]) -> Result<Items<Octets>, NoMemory>
    ensures { IfOk result (λ parts. parts ≡ components text.now) }
{
    let parts = parts(alloc, text)?;
    copies(alloc, &parts)
}

/// Whether some component has more than 255 bytes.
pub fn has_long_component(parts: &[Octets]) -> bool
    ensures { result ≡ has_long_component parts.now }
{
    for component in parts {
        if component.len() > 255 {
            return true;
        }
    }
    false
}
