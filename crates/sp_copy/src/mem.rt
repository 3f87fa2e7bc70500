ghost use Rattle.std.specs.Prelude.{◌≡◌, ◌<◌, ◌^◌, ◌⊎◌, [], Err, IfOk, IsOk, MatchResult, None, Ok, OnErr, OnOk, Some, length};
ghost use Rattle.sp_copy.specs.Faults.{Rises, fault_of};
ghost use Rattle.sp_base.specs.Needs.{IsPiece};
ghost use Rattle.sp_copy.specs.Reading.{read_of};
ghost use Rattle.sp_copy.specs.Writing.{written};

use crate::fault::{CopyFault, MemFault, NotWritable};
use crate::part::{Part, ROOT_BASE, Right};
use crate::part_faults::fault_of;
use crate::reading::{given, gives, look_in};
use crate::writing::write_in;
use sp_base::{Items, Need, NoMemory, Octets};
use std::alloc::Global;
use std::marker::Model;

/// The memory of a caller: parts that share no address, and the text `/` at address 8.
#[derive(Debug, Drop)]
pub struct Mem {
    alloc: Global,
    parts: Vec<Part>,
}

impl Model for Mem {
    ghost use Rattle.std.specs.Prelude.{◌≡◌, List, None};
    ghost use Rattle.sp_copy.specs.declared.part.Part.{Part};
    ghost use Rattle.sp_copy.specs.Faults.{fault_of};

    ghost Value = { List Part };

    ghost view = { λ m. m.parts.items };

    ghost invariant = { λ m. fault_of m.parts.items ≡ None };
}

/// The text that every memory has.
const ROOT_TEXT: &[u8] = b"/\0";

/// A copy of parts. The only error is want of memory.
fn copy_parts(alloc: Global, parts: &[Part]) -> Result<Vec<Part>, NoMemory>
    ensures { IfOk result (λ copies. copies.items ≡ parts.now) }
{
    let mut copies = Vec::with_capacity(alloc, parts.len())?;
    for part in parts {
        copies.push(part.copy(alloc)?)?;
    }
    Ok(copies)
}

impl Mem {
    /// The memory without parts; takes no memory.
    pub fn none(alloc: Global) -> Mem
        ensures { result ≡ [] }
    {
        Mem {
            alloc,
            parts: Vec::new(alloc),
        }
    }

    /// The memory of these parts, which are taken over without a copy.
    ///
    /// A part that begins below 4,096 or ends above 2^63 is looked for first, part by part, and
    /// then the first part that shares an address with an earlier one.
    pub fn new(alloc: Global, parts: Items<Part>) -> Result<Mem, MemFault>
        requires { length parts < 2 ^ 32 }
        ensures made { MatchResult result
            (λ m. (m ≡ parts) × (fault_of parts ≡ None))
            (λ e. fault_of parts ≡ Some e) }
        ensures rising { Rises parts → IsOk result }
    {
        let parts = parts.into_vec();
        if let Some(fault) = fault_of(parts.as_slice()) {
            return Err(fault);
        }
        Ok(Mem { alloc, parts })
    }

    /// A copy of the memory. The only error is want of memory.
    pub fn copy(&self, alloc: Global) -> Result<Mem, NoMemory>
        ensures { IfOk result (λ mem. mem ≡ self.now) }
    {
        let parts = copy_parts(alloc, self.parts.as_slice())?;
        Ok(Mem { alloc, parts })
    }

    /// The parts, in order.
    pub fn parts(&self) -> &[Part]
        ensures parts { result.now ≡ self.now }
        ensures apart { fault_of self.now ≡ None }
    {
        self.parts.as_slice()
    }

    /// What the need names, in place; takes no memory.
    ///
    /// Bytes lie wholly in one readable part, else `Fault`. A text is the bytes before the first
    /// zero byte; `NoEnd` comes exactly where as many bytes as are looked at lie in the part and
    /// none is zero, and `Fault` where the part ends first, or no readable part has the address.
    #[tactic(auto, using(crate::proofs::Pieces::read_fits))]
    pub fn look(&self, need: &Need) -> Result<&[u8], CopyFault>
        ensures value { let reads = read_of self.now need.now in
            MatchResult result (λ piece. reads ≡ Ok piece.now) (λ e. reads ≡ Err e) }
        ensures fits { IfOk result (λ piece. IsPiece need.now piece.now) }
    {
        let root = ROOT_TEXT;
        if gives(need, ROOT_BASE, Right::Readable, root) {
            return given(need, ROOT_BASE, Right::Readable, root);
        }
        look_in(self.parts.as_slice(), need)
    }

    /// A copy of what `look` gives, with the same faults, and `NoMemory` where memory is refused.
    #[tactic(auto, using(crate::proofs::Pieces::read_fits))]
    pub fn read(&self, alloc: Global, need: &Need) -> Result<Octets, CopyFault>
        ensures value { let reads = read_of self.now need.now in
            MatchResult result
            (λ piece. reads ≡ Ok piece)
            (λ e. (e ≡ CopyFault.NoMemory) ⊎ (reads ≡ Err e)) }
        ensures fits { IfOk result (λ piece. IsPiece need.now piece) }
    {
        let piece = self.look(need)?;
        Ok(Octets::of(alloc, piece)?)
    }

    /// Writes the bytes from the address on; takes no memory.
    ///
    /// `NotWritable` comes exactly where the range isn't wholly in one writable part; then nothing
    /// changes.
    #[tactic(auto, using(crate::proofs::Changes::written_keeps))]
    pub fn write(&mut self, addr: u64, bytes: &[u8]) -> Result<(), NotWritable>
        ensures ok { OnOk result (written self.old addr bytes.now ≡ Some self.new) }
        ensures err { OnErr result (written self.old addr bytes.now ≡ None) }
        ensures same { OnErr result (self.new ≡ self.old) }
    {
        if write_in(self.alloc, &mut self.parts, addr, bytes) {
            Ok(())
        } else {
            Err(NotWritable)
        }
    }
}
