ghost use Rattle.std.specs.Prelude.{◌≡◌, ℕ, ◌<◌, length, replicate, slice_set, IfOk, IfSome, None};
ghost use Rattle.sp_base.specs.Table.{at, lowest_unused};

use crate::memory::NoMemory;
use std::alloc::Global;

/// A table with nothing at any number below `len`.
pub fn blank<T: Drop>(alloc: Global, len: usize) -> Result<Vec<Option<T>>, NoMemory>
    ensures { IfOk result (λ table. table.items ≡ replicate len None) }
{
    let mut table = Vec::new(alloc);
    for _ in 0..len {
        table.push(None)?;
    }
    Ok(table)
}

/// The lowest unused number from `least` on.
pub fn lowest_unused<T>(table: &[Option<T>], least: usize) -> Option<usize>
    ensures which { result ≡ lowest_unused table.now least }
    ensures below { IfSome result (λ n. n < length table.now) }
{
    for i in least..table.len() {
        if table[i].is_none() {
            return Some(i);
        }
    }
    None
}

/// What a table has at a number.
pub fn at<T: Copy>(table: &[Option<T>], n: u64) -> Option<T>
    ensures { result ≡ at table.now n }
{
    let n = n as usize;
    if n < table.len() { table[n] } else { None }
}

/// Sets what a table has at a number; beyond its end nothing changes.
pub fn set<T: Drop>(table: &mut Vec<Option<T>>, n: u64, value: Option<T>)
    ensures { table.new.items ≡ slice_set table.old.items n value }
{
    let n = n as usize;
    if n < table.len() {
        table[n] = value;
    }
}
