//! The copies of a caller's memory that answer a server's asks.
ghost use Rattle.std.specs.Prelude.{◌≡◌, ◌≢◌, ◌<◌, ◌≤◌, IfOk};
ghost use Rattle.client_model.specs.Asks.{copy_of, error_of, got_bytes, got_text};
ghost use Rattle.sp_base.specs.declared.need.Need.TheVariants as need;
ghost use Rattle.sp_copy.specs.Reading.{read_of};
ghost use Rattle.sp_copy.specs.declared.fault.CopyFault.TheVariants as fault;
ghost use Rattle.sp_frames.specs.Fields.{IsBytes};
ghost use Rattle.sp_frames.specs.Grammar.{BodyFits};
ghost use Rattle.sp_client.specs.Asked.{IsAskOf};

use sp_base::{Need, NoMemory, Octets};
use sp_copy::{CopyFault, Mem};
use sp_frames::Body;
use std::alloc::Global;

/// The number of the error that a copy carries; NoMemory where memory was refused.
fn error_of(why: CopyFault) -> Result<u32, NoMemory>
    ensures number { IfOk result (λ number. number ≡ error_of why) }
    ensures known { IfOk result (λ number. why ≢ fault.NoMemory) }
{
    match why {
        CopyFault::Fault => Ok(14),
        CopyFault::NoEnd => Ok(63),
        CopyFault::NoMemory => Err(NoMemory),
    }
}

/// The bytes as they are, each below 2^8.
fn bytes_of(octets: Octets) -> Octets
    ensures value { result ≡ octets }
    ensures fits { IsBytes octets }
{
    let _bytes = octets.slice();
    octets
}

/// The copy of bytes that answers an ask of an index.
#[tactic(auto, using(crate::proofs::Fit::bytes_fit, crate::proofs::Fit::no_bytes_fit))]
fn copy_of_bytes(
    alloc: Global,
    mem: &Mem,
    index: u32,
    addr: u64,
    len: u64,
) -> Result<Body, NoMemory>
    requires index { index < 2 }
    requires len { len ≤ 131044 }
    ensures value { IfOk result (λ copy.
        copy ≡ got_bytes index (read_of mem.now (need.Bytes addr len))) }
    ensures fits { IfOk result (λ copy. BodyFits copy) }
{
    match mem.read(alloc, &Need::Bytes(addr, len)) {
        Ok(bytes) => Ok(Body::GotBytes {
            index,
            err: 0,
            bytes: bytes_of(bytes),
        }),
        Err(why) => Ok(Body::GotBytes {
            index,
            err: error_of(why)?,
            bytes: Octets::none(alloc),
        }),
    }
}

/// The copy of a text that answers an ask of an index.
#[tactic(auto, using(crate::proofs::Fit::text_fits))]
fn copy_of_text(
    alloc: Global,
    mem: &Mem,
    index: u32,
    addr: u64,
    most: u64,
) -> Result<Body, NoMemory>
    requires index { index < 2 }
    requires most { most ≤ 1024 }
    ensures value { IfOk result (λ copy.
        copy ≡ got_text index (read_of mem.now (need.Text addr most))) }
    ensures fits { IfOk result (λ copy. BodyFits copy) }
{
    match mem.read(alloc, &Need::Text(addr, most)) {
        Ok(bytes) => Ok(Body::GotText {
            index,
            err: 0,
            bytes: bytes_of(bytes),
        }),
        Err(why) => Ok(Body::GotText {
            index,
            err: error_of(why)?,
            bytes: Octets::none(alloc),
        }),
    }
}

/// The copy that answers an ask of an index, read from a memory at once. The only error is want of
/// memory.
pub(crate) fn copy_of(alloc: Global, mem: &Mem, index: u32, ask: &Body) -> Result<Body, NoMemory>
    requires { IsAskOf index ask.now }
    ensures value { IfOk result (λ copy. copy ≡ copy_of mem.now ask.now) }
    ensures fits { IfOk result (λ copy. BodyFits copy) }
{
    match ask {
        Body::AskBytes { addr, len, .. } => copy_of_bytes(alloc, mem, index, *addr, *len),
        Body::AskText { addr, max, .. } => copy_of_text(alloc, mem, index, *addr, *max),
        _ => unreachable!(),
    }
}
