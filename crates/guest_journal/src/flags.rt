//! The flags of an open.
ghost use Rattle.std.specs.Prelude.{◌≡◌, ◌++◌, IfOk, OnOk};
ghost use Rattle.guest_journal.specs.Names.{access_name, flag_bars, flags_text};

use guest_rows::put_bar;
use sp_base::{NoMemory, Octets};
use std::alloc::Global;

/// The bits that have a name, the two of the access among them.
const NAMED: u64 = 0x400e0f;

/// The access that the last two bits ask for.
#[tactic(auto, unfolding(crate::specs::Names::access_name))]
fn access_name(bits: u64) -> &'static [u8]
    ensures { result.now ≡ access_name bits }
{
    match bits % 4 {
        0 => b"O_RDONLY".as_slice(),
        1 => b"O_WRONLY".as_slice(),
        2 => b"O_RDWR".as_slice(),
        _ => b"O_WRONLY|O_RDWR".as_slice(),
    }
}

/// Appends the other flags that are set, each behind `|`.
#[tactic(auto, unfolding(crate::specs::Names::flag_bars))]
fn put_flags(out: &mut Octets, bits: u64) -> Result<(), NoMemory>
    ensures { OnOk result (out.new ≡ out.old ++ flag_bars bits) }
{
    put_bar(out, bits, 4, b"O_NONBLOCK")?;
    put_bar(out, bits, 8, b"O_APPEND")?;
    put_bar(out, bits, 0x200, b"O_CREAT")?;
    put_bar(out, bits, 0x400, b"O_TRUNC")?;
    put_bar(out, bits, 0x800, b"O_EXCL")?;
    put_bar(out, bits, 0x400000, b"O_CLOEXEC")
}

/// The flags of an open; none where one has no name.
#[tactic(auto, unfolding(crate::specs::Names::flags_text))]
pub fn flags_text(alloc: Global, bits: u64) -> Result<Option<Octets>, NoMemory>
    ensures { IfOk result (λ text. text ≡ flags_text bits) }
{
    if bits | NAMED != NAMED {
        return Ok(None);
    }
    let mut text = Octets::of(alloc, access_name(bits))?;
    put_flags(&mut text, bits)?;
    Ok(Some(text))
}
