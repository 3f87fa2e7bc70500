ghost use Rattle.std.specs.Prelude.{◌≡◌, ◌<◌, ◌≤◌, ◌+◌, ◌++◌, IfSome, MatchBool, None, Some, drop, length, slice_index_or, take, true};
ghost use Rattle.sp_copy.specs.declared.part.Part.{Part};
ghost use Rattle.sp_copy.specs.Writing.{taker, takes, written};

use crate::part::Part;
use sp_base::Octets;
use std::alloc::Global;
use std::mem;

/// Whether the part takes so many bytes from the address on.
fn takes(part: &Part, addr: u64, len: usize) -> bool
    ensures { result ≡ takes addr len part.now }
{
    let has = part.bytes.len() as u64;
    part.right.can_write()
        && part.base <= addr
        && addr - part.base <= has
        && len as u64 <= has - (addr - part.base)
}

/// The place of the first part that takes the range.
fn place_of(parts: &[Part], addr: u64, len: usize) -> Option<usize>
    ensures place { result ≡ taker addr len parts.now }
    ensures within { IfSome result (λ i. i < length parts.now) }
    ensures takes { IfSome result (λ i. (d : Part) → takes addr len (slice_index_or parts.now i d) ≡ true) }
{
    for (i, part) in parts.iter().enumerate() {
        if takes(part, addr, len) {
            return Some(i);
        }
    }
    None
}

/// Puts a piece in place of as many bytes.
fn put_at(bytes: &mut [u8], at: usize, piece: &[u8])
    requires { at + length piece.now ≤ length bytes.old }
    ensures { bytes.new ≡ take at bytes.old ++ piece.now ++ drop (at + length piece.now) bytes.old }
{
    bytes[at..at + piece.len()].copy_from_slice(piece);
}

/// Puts a piece in place of as many bytes of a list. Takes no memory.
fn put(alloc: Global, bytes: &mut Octets, at: usize, piece: &[u8])
    requires { at + length piece.now ≤ length bytes.old }
    ensures { bytes.new ≡ take at bytes.old ++ piece.now ++ drop (at + length piece.now) bytes.old }
{
    let mut taken = mem::replace(bytes, Octets::none(alloc)).into_vec();
    put_at(taken.as_mut_slice(), at, piece);
    *bytes = Octets::from_vec(taken);
}

/// Writes the bytes where one part takes them all; tells whether one does.
pub fn write_in(alloc: Global, parts: &mut Vec<Part>, addr: u64, bytes: &[u8]) -> bool
    ensures { MatchBool result
        (written parts.old.items addr bytes.now ≡ Some parts.new.items)
        ((written parts.old.items addr bytes.now ≡ None) × (parts.new.items ≡ parts.old.items)) }
{
    let Some(i) = place_of(parts.as_slice(), addr, bytes.len()) else {
        return false;
    };
    let part = &mut parts[i];
    let at = (addr - part.base) as usize;
    put(alloc, &mut part.bytes, at, bytes);
    true
}
