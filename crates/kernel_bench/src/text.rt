//! The texts that the calls read.
ghost use Rattle.std.specs.Prelude.{IsTrue};
ghost use Rattle.kernel_bench.specs.Path.{IsPath};

use sp_base::{NoMemory, Octets};
use std::alloc::Global;

/// The directory that all files are in.
pub const DIRECTORY: &[u8] = b"/d";

/// The path of a file: its number, in the directory.
pub fn path_of(alloc: Global, number: u32) -> Result<Octets, NoMemory> {
    let path = format!(in alloc; "/d/{number}")?;
    Octets::of(alloc, path.as_bytes())
}

/// Whether bytes are a path that a call may be given: fewer than 1,024, and none of them zero.
pub fn is_path(bytes: &[u8]) -> bool
    ensures { IsTrue result → IsPath bytes.now }
{
    bytes.len() < 1_024 && bytes.iter().all(|byte| *byte != 0)
}
