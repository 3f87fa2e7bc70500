//! How the open calls of a connection are worked, and its frames handed out.
ghost use Rattle.std.specs.Prelude.{◌≡◌, ◌≢◌, ◌≤◌, ◌+◌, ◌++◌, List, OnOk, IfOk, if◌then◌else◌};
ghost use Rattle.std.specs.List.{flat_map};
ghost use Rattle.sp_frames.specs.declared.frame.Frame.{Frame};
ghost use Rattle.sp_frames.specs.Grammar.{spelling};
ghost use Rattle.sp_server.specs.Serving.{is_done, HandsOut, HandsOutOne};
ghost use Rattle.sp_server.specs.Session.{Proceeds, IsRound, AreAllRounds};
ghost use Rattle.sp_server.specs.Waiting.{waiting};

use sp_base::{ConnNo, NoMemory, Octets, ReqNo};
use sp_frames::encode;
use sp_hub::{Hub, Reply};
use std::alloc::Global;

/// Whether a reply says that an operation was performed; the error is want of memory.
fn was_performed(reply: Reply) -> Result<bool, NoMemory>
    ensures { IfOk result (λ done. (reply ≢ Reply.NoMemory) × (done ≡ is_done reply)) }
{
    match reply {
        Reply::NoMemory => Err(NoMemory),
        Reply::Done => Ok(true),
        _ => Ok(false),
    }
}

/// Works every call of a connection that waits once, in rising number, and answers whether one was performed.
///
/// Want of memory for an ask leaves the calls that weren't performed open.
fn work_round(hub: &mut Hub, no: ConnNo) -> Result<bool, NoMemory>
    ensures round { IfOk result (λ again. Proceeds no (IsRound no again) hub.old hub.new) }
    ensures fewer { IfOk result (λ again.
        waiting hub.new no + (if again then 1 else 0) ≤ waiting hub.old no) }
{
    let mut above = ReqNo(0);
    let mut performed = false;
    while let Some(number) = hub.lowest_task(no, above) {
        let done = was_performed(hub.work(no, number))?;
        performed = performed || done;
        above = number;
    }
    Ok(performed)
}

/// Works the open calls of a connection, in rounds, until none of them can be performed.
///
/// Want of memory for an ask leaves the calls that weren't performed open.
pub fn work_all(hub: &mut Hub, no: ConnNo) -> Result<(), NoMemory>
    ensures { OnOk result (Proceeds no (AreAllRounds no) hub.old hub.new) }
{
    let mut again = true;
    while again {
        again = work_round(hub, no)?;
    }
    Ok(())
}

/// Takes the oldest frame that is queued for a connection, and adds its spelling to a text; answers whether there was one.
///
/// Want of memory loses the frame, and leaves the text as it was.
fn hand_out_one(
    alloc: Global,
    hub: &mut Hub,
    no: ConnNo,
    text: &mut Octets,
) -> Result<bool, NoMemory>
    ensures { IfOk result (λ more. HandsOutOne hub.old no text.old more hub.new text.new) }
{
    match hub.take(no) {
        Reply::Out(frame) => {
            encode(alloc, &frame, text)?;
            Ok(true)
        }
        _ => Ok(false),
    }
}

/// Takes all frames that are queued for a connection, and adds their spellings to a text.
///
/// Want of memory loses the frames that were taken, and leaves the others queued.
pub fn hand_out(alloc: Global, hub: &mut Hub, no: ConnNo, text: &mut Octets) -> Result<(), NoMemory>
    ensures { OnOk result ((frames : List Frame) × HandsOut hub.old no frames hub.new
        × (text.new ≡ text.old ++ flat_map spelling frames)) }
{
    let mut more = true;
    while more {
        more = hand_out_one(alloc, hub, no, text)?;
    }
    Ok(())
}
