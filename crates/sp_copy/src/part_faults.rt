ghost use Rattle.std.specs.Prelude.{◌≡◌, ◌<◌, ◌^◌, [], length, position};
ghost use Rattle.sp_copy.specs.Parts.{share_address};
ghost use Rattle.sp_copy.specs.Faults.{bounds_fault, fault_of, overlap_fault, own_fault};

use crate::fault::MemFault;
use crate::part::{HIGHEST_END, LOWEST_BASE, Part};

/// The fault of one part by itself.
fn own_fault(number: u32, part: &Part) -> Option<MemFault>
    ensures { result ≡ own_fault number part.now }
{
    let len = part.bytes.len() as u64;
    if part.base < LOWEST_BASE {
        return Some(MemFault::TooLow(number));
    }
    if part.base > HIGHEST_END || len > HIGHEST_END - part.base {
        return Some(MemFault::TooHigh(number));
    }
    None
}

/// The first part that lies too low or too high.
fn bounds_fault(parts: &[Part]) -> Option<MemFault>
    requires { length parts.now < 2 ^ 32 }
    ensures { result ≡ bounds_fault 0 parts.now }
{
    for (i, part) in parts.iter().enumerate() {
        if let Some(fault) = own_fault(i as u32, part) {
            return Some(fault);
        }
    }
    None
}

/// The first of some parts that shares an address with this one.
fn first_sharing(part: &Part, parts: &[Part]) -> Option<usize>
    ensures { result ≡ position (share_address part.now) parts.now }
{
    parts.iter().position(|other| part.shares(other))
}

/// The first part that shares an address with an earlier one.
fn overlap_fault(parts: &[Part]) -> Option<MemFault>
    requires { length parts.now < 2 ^ 32 }
    ensures { result ≡ overlap_fault [] parts.now }
{
    for (j, part) in parts.iter().enumerate() {
        let (earlier, _) = parts.split_at(j);
        if let Some(i) = first_sharing(part, earlier) {
            return Some(MemFault::Overlap(i as u32, j as u32));
        }
    }
    None
}

/// The first fault of a list of parts, those of one part by itself first.
pub fn fault_of(parts: &[Part]) -> Option<MemFault>
    requires { length parts.now < 2 ^ 32 }
    ensures { result ≡ fault_of parts.now }
{
    if let Some(fault) = bounds_fault(parts) {
        return Some(fault);
    }
    overlap_fault(parts)
}
