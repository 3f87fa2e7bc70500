//! A call of a client over its link, from its start to its answer.
ghost use Rattle.std.specs.Prelude.{◌≡◌, false, IfOk};
ghost use Rattle.sp_base.specs.Call.{IsProper, call_number};
ghost use Rattle.hub_model.specs.Verdict.{is_later_call};
ghost use Rattle.link_model.specs.Asked.{Asked, IsWhole};
ghost use Rattle.guest_run.specs.Called.{Becomes, IsAskedOver};
ghost use Rattle.guest_run.specs.Joined.{link_of};

use crate::joined::Joined;
use client_model::Reply as ClientReply;
use sp_base::{Answer, Call, NoMemory};
use sp_copy::Mem;

/// What becomes of a call.
#[derive(Debug, Drop)]
pub enum Called {
    /// It is performed and answered, and this is its caller's memory then.
    Answered(Answer, Mem),
    /// The server had no memory for it, so it isn't performed.
    Refused,
}

impl Joined {
    /// Makes a call over the whole link, and waits for its answer.
    ///
    /// The call is answered as the kernel answers it at once with the caller's memory in hand, and
    /// has one entry; then the link is whole again. Where the server has no memory to perform it, the
    /// journal stays as it was. After that, and after the only error, want of memory, the link is
    /// of no use any more.
    pub fn call(&mut self, call: Call, mem: Mem) -> Result<Called, NoMemory>
        requires whole { IsWhole (link_of self.old) }
        requires proper { IsProper call }
        requires now { is_later_call (call_number call) ≡ false }
        ensures { IfOk result (λ called. (asked : Asked)
            → IsAskedOver self.old call mem asked → Becomes asked called (link_of self.new)) }
    {
        let needs = call.needs().slice().len();
        let ClientReply::Started(number) = self.start(call, mem)? else {
            unreachable!();
        };
        self.to_server(0)?;
        if !self.gather(number, needs)? {
            return Ok(Called::Refused);
        }
        if !self.works(number)? {
            return Ok(Called::Refused);
        }
        let pieces = self.pieces();
        self.tell(pieces)?;
        match self.collect(number) {
            ClientReply::Got(answer, mem) => Ok(Called::Answered(answer, mem)),
            _ => unreachable!(),
        }
    }
}
