//! The frames that are fed, as bytes.
ghost use Rattle.std.specs.Prelude.{◌≤◌, IfOk};
ghost use Rattle.sp_frames.specs.Grammar.{Fits};

use sp_base::{NoMemory, Octets, ReqNo, Words};
use sp_frames::{Body, Frame, encode};
use std::alloc::Global;

/// A frame of a number: a request to close the descriptor of that number, or one to put bytes there.
fn numbered(alloc: Global, number: u64, put: u32) -> Result<Frame, NoMemory>
    requires { put ≤ 131040 }
    ensures { IfOk result Fits }
{
    if put == 0 {
        let words = Words::of(&[number]);
        return Ok(Frame {
            number: ReqNo(number),
            body: Body::Sys { num: 3, words },
        });
    }
    let bytes = Octets::from_vec(vec![in alloc; 0u8; put as usize]?);
    Ok(Frame {
        number: ReqNo(number),
        body: Body::Put {
            index: 0,
            addr: number,
            bytes,
        },
    })
}

/// Appends the frame of a number.
fn append(alloc: Global, bytes: &mut Octets, number: u64, put: u32) -> Result<(), NoMemory>
    requires { put ≤ 131040 }
{
    let frame = numbered(alloc, number, put)?;
    encode(alloc, &frame, bytes)
}

/// The frames of the numbers below a count, as bytes.
pub(crate) fn stream(alloc: Global, count: u32, put: u32) -> Result<Octets, NoMemory>
    requires { put ≤ 131040 }
{
    let mut bytes = Octets::none(alloc);
    for number in 0..count {
        append(alloc, &mut bytes, u64::from(number), put)?;
    }
    Ok(bytes)
}
