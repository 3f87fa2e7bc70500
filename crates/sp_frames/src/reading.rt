//! A frame at the front of bytes.
ghost use Rattle.std.specs.Prelude.{◌≡◌, IfOk};
ghost use Rattle.sp_frames.specs.Feeding.{FrontIs};
ghost use Rattle.sp_frames.specs.Reading.{step_of};

use crate::bodies::body;
use crate::fault::FrameFault;
use crate::frame::Frame;
use crate::header::read_header;
use crate::rows::checked_row;
use sp_base::{NoMemory, ReqNo};
use std::alloc::Global;

/// What stands at the front of bytes.
#[derive(Debug, Drop)]
pub enum Step {
    /// A frame, and how many bytes it has.
    Whole(Frame, usize),
    /// Less than a frame, and no fault so far.
    Partial,
    /// A fault.
    Fault(FrameFault),
}

#[tactic(auto, unfolding(crate::specs::Reading::step_of))]
fn find_step(alloc: Global, bytes: &[u8]) -> Result<Step, NoMemory>
    ensures { IfOk result (λ found. found ≡ step_of bytes.now) }
{
    if bytes.len() < 24 {
        return Ok(Step::Partial);
    }
    let h = read_header(bytes);
    let row = match checked_row(&h) {
        Err(fault) => return Ok(Step::Fault(fault)),
        Ok(row) => row,
    };
    if (bytes.len() as u64) < h.len {
        return Ok(Step::Partial);
    }
    let len = h.len as usize;
    match body(alloc, row, &h, &bytes[24..len])? {
        None => Ok(Step::Fault(FrameFault::Payload {
            kind: h.kind,
            len: h.len,
        })),
        Some(body) => Ok(Step::Whole(
            Frame {
                number: ReqNo(h.number),
                body,
            },
            len,
        )),
    }
}

/// What stands at the front of the bytes, in words of the grammar; `find_step` follows the reading.
pub fn read_step(alloc: Global, bytes: &[u8]) -> Result<Step, NoMemory>
    ensures { IfOk result (FrontIs bytes.now) }
{
    let step = find_step(alloc, bytes)?;
    Ok(step)
}
