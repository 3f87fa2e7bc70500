ghost use Rattle.std.specs.Prelude.{[], ◌≡◌, ◌∷◌, ◌+◌, ◌<◌, ◌≤◌, ◌⊎◌, Err, IfOk, IfSome, MatchOption, MatchResult, Ok, drop, length};
ghost use Rattle.sp_base.specs.Needs.{ArePieces, needs_of};
ghost use Rattle.sp_copy.specs.Gathering.{gather};

use crate::fault::CopyFault;
use crate::mem::Mem;
use sp_base::{Call, Items, Need, Octets};
use std::alloc::Global;

/// The need of an index, and how far the call's needs are then gone through.
#[tactic(auto, using(crate::proofs::Pieces::need_there, crate::proofs::Pieces::need_gone, crate::proofs::Pieces::few_needs))]
fn next_need(call: &Call, index: u32) -> Option<Need>
    ensures next { let needs = needs_of call.now in
        MatchOption result
        (drop index needs ≡ [])
        (λ need. drop index needs ≡ need ∷ drop (index + 1) needs) }
    ensures within { IfSome result (λ _. index < length (needs_of call.now)) }
    ensures few { length (needs_of call.now) ≤ 2 }
{
    call.need_at(index)
}

/// What the call reads of the memory: one piece for each of its needs, in order, or the fault of the
/// first need that has one.
#[tactic(auto, using(crate::proofs::Pieces::gathered_fits, crate::proofs::Pieces::one_gathered))]
pub fn gather(alloc: Global, call: &Call, mem: &Mem) -> Result<Items<Octets>, CopyFault>
    ensures value { let reads = gather call.now mem.now in
        MatchResult result
        (λ pieces. reads ≡ Ok pieces)
        (λ e. (e ≡ CopyFault.NoMemory) ⊎ (reads ≡ Err e)) }
    ensures fits { IfOk result (λ pieces. ArePieces (needs_of call.now) pieces) }
{
    let mut pieces = Items::none(alloc);
    let mut index = 0;
    while let Some(need) = next_need(call, index) {
        let piece = mem.read(alloc, &need)?;
        pieces.push(piece)?;
        index += 1;
    }
    Ok(pieces)
}
