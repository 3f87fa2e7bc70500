//! The steps by which a call is brought to its answer.
ghost use Rattle.std.specs.Prelude.{[], ◌++◌, ◌∷◌, ◌≡◌, IfOk, List, OnOk, length};
ghost use Rattle.sp_base.specs.declared.need.Need.{Need};
ghost use Rattle.kern_model.specs.declared.journal.Entry.{Entry};
ghost use Rattle.kern_model.specs.declared.outcome.OutPiece.{OutPiece};
ghost use Rattle.link_model.specs.Link.{carried};
ghost use Rattle.link_model.specs.Route.{returns, rounds};
ghost use Rattle.link_model.specs.declared.moves.Move.TheVariants.{Work};
ghost use Rattle.guest_run.specs.Joined.{link_of};
ghost use Rattle.guest_run.specs.Steps.{GoesOn};

use crate::joined::Joined;
use sp_base::{NoMemory, ReqNo};
use sp_hub::Reply as ServerReply;

impl Joined {
    /// The server works the request of a number; gives whether it had the memory to perform it.
    /// The only error is want of memory for an ask.
    pub(crate) fn works(&mut self, number: ReqNo) -> Result<bool, NoMemory>
        ensures { IfOk result (λ goes_on.
            GoesOn goes_on (link_of self.old) number (Work number ∷ []) (link_of self.new)) }
    {
        match self.work(number)? {
            ServerReply::Refused(_) => Ok(false),
            _ => Ok(true),
        }
    }

    /// So many needs of a request are asked for, and copied to the server; gives whether the server
    /// had the memory to go on with it. The only error is want of memory.
    pub(crate) fn gather(&mut self, number: ReqNo, count: usize) -> Result<bool, NoMemory>
        ensures { IfOk result (λ goes_on. (needs : List Need) → length needs ≡ count
            → GoesOn goes_on (link_of self.old) number (rounds number needs) (link_of self.new)) }
    {
        for _ in 0..count {
            if !self.works(number)? {
                return Ok(false);
            }
            self.to_client()?;
            self.to_server(0)?;
        }
        Ok(true)
    }

    /// How many pieces of memory the newest entry of the journal writes; 0 where there is none.
    pub(crate) fn pieces(&self) -> usize
        ensures { (journal : List Entry) (entry : Entry)
            → self.now.hub.journal ≡ journal ++ entry ∷ [] → result ≡ length entry.outcome.outs }
    {
        match self.hub.journal().last() {
            Some(entry) => entry.outcome.outs.len(),
            None => 0,
        }
    }

    /// So many pieces that a request writes go to the client, and then its response. The only error
    /// is want of memory.
    pub(crate) fn tell(&mut self, count: usize) -> Result<(), NoMemory>
        ensures { OnOk result ((outs : List OutPiece) → length outs ≡ count
            → link_of self.new ≡ carried (link_of self.old) (returns outs)) }
    {
        for _ in 0..count {
            self.to_client()?;
        }
        self.to_client()?;
        Ok(())
    }
}
