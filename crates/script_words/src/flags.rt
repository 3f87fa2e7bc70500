ghost use Rattle.std.specs.Prelude.{◌≡◌, IfOk, map};
ghost use Rattle.script_words.specs.Flags.{flag_of, flags_in, flags_of};

use crate::splitting::pieces;
use sp_base::NoMemory;
use std::alloc::Global;

/// The bits of one name.
#[tactic(auto, unfolding(crate::specs::Flags::flag_of))]
fn flag_of(name: &[u8]) -> Option<u64>
    ensures { result ≡ flag_of name.now }
{
    if name == b"O_RDONLY".as_slice() {
        return Some(0);
    }
    if name == b"O_WRONLY".as_slice() {
        return Some(1);
    }
    if name == b"O_RDWR".as_slice() {
        return Some(2);
    }
    if name == b"O_NONBLOCK".as_slice() {
        return Some(4);
    }
    if name == b"O_APPEND".as_slice() {
        return Some(8);
    }
    if name == b"O_CREAT".as_slice() {
        return Some(0x200);
    }
    if name == b"O_TRUNC".as_slice() {
        return Some(0x400);
    }
    if name == b"O_EXCL".as_slice() {
        return Some(0x800);
    }
    if name == b"O_CLOEXEC".as_slice() {
        return Some(0x40_0000);
    }
    None
}

/// The bits of all the names.
fn flags_in(names: &[&[u8]]) -> Option<u64>
    ensures { result ≡ flags_in 0 (map (λ w. w.now) names.now) }
{
    let mut flags: u64 = 0;
    for name in names {
        let Some(flag) = flag_of(name) else {
            return None;
        };
        flags |= flag;
    }
    Some(flags)
}

/// The flags of an open that a word names, joined by `|`; none where a name is no flag's. The only
/// error is want of memory.
pub fn flags_of(alloc: Global, word: &[u8]) -> Result<Option<u64>, NoMemory>
    ensures { IfOk result (λ found. found ≡ flags_of word.now) }
{
    let names = pieces(alloc, word, b'|')?;
    Ok(flags_in(names.as_slice()))
}
