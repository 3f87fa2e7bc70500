ghost use Rattle.std.specs.Prelude.{◌≡◌, ◌≤◌, length, IfOk};
ghost use Rattle.sp_frames.specs.Fields.{IsBytes};

use sp_base::{NoMemory, Octets};
use std::alloc::Global;
use std::marker::Model;

/// Memory for a copy of bytes to come, of so many at the most.
#[derive(Drop)]
pub(crate) struct Blank {
    bytes: Vec<u8>,
}

impl Model for Blank {
    ghost use Rattle.std.specs.Prelude.{◌≡◌, ℕ, [], vec_capacity};
    ghost use Rattle.std.specs.Coded.{coded_ℕ};

    ghost Value = { ℕ };

    ghost coded = { coded_ℕ };

    ghost view = { λ b. vec_capacity b.bytes };

    ghost invariant = { λ b. b.bytes.items ≡ [] };
}

impl Blank {
    /// Memory for so many bytes.
    pub(crate) fn of(alloc: Global, most: u64) -> Result<Blank, NoMemory>
        ensures { IfOk result (λ blank. blank ≡ most) }
    {
        let bytes = Vec::with_capacity(alloc, most as usize)?;
        Ok(Blank { bytes })
    }

    /// A copy of bytes for which there is the memory; takes no memory.
    pub(crate) fn filled(self, bytes: &[u8]) -> Octets
        requires { length bytes.now ≤ self }
        ensures copy { result ≡ bytes.now }
        ensures bytes { IsBytes result }
    {
        let mut items = self.bytes;
        match items.extend_from_slice(bytes) {
            Ok(()) => Octets::from_vec(items),
            Err(_) => unreachable!(),
        }
    }
}
