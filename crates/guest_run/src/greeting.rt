//! How a guest and its server meet, how its process goes on as its next program, and how they part.
ghost use Rattle.std.specs.Prelude.{◌≡◌, ◌<◌, ◌^◌, ℕ, IfOk};
ghost use Rattle.sp_base.specs.declared.names.Pid.{Pid};
ghost use Rattle.sp_frames.specs.Grammar.{IsName};
ghost use Rattle.guest_run.specs.Guest.{HasExeced, IsAtRest, IsGreeted};
ghost use Rattle.guest_run.specs.Run.{HasExited};

use crate::joined::Joined;
use client_model::{Hello, Reply as ClientReply};
use sp_base::{NoMemory, Octets, Place, ReqNo};
use sp_hub::Finish;
use std::alloc::Global;

impl Joined {
    /// A guest of this name and a server of its own, which has made its process. The only error is
    /// want of memory.
    pub fn greeted(alloc: Global, name: Octets) -> Result<Joined, NoMemory>
        requires { IsName name }
        ensures { IfOk result IsGreeted }
    {
        let mut joined = Joined::opened(alloc, Hello::Guest(name))?;
        joined.to_server(0)?;
        joined.to_client()?;
        Ok(joined)
    }

    /// The guest's process goes on as its next program, of this name: a cookie with the salt hands
    /// it over to the next connection, and the one that it had ends. Gives the place of its exec.
    ///
    /// The only error is want of memory; after it the link is of no use any more.
    pub fn exec(&mut self, alloc: Global, name: Octets, salt: u64) -> Result<Place, NoMemory>
        requires name { IsName name }
        requires rest { (pid : Pid) × (bound : ℕ) × (bound < 2 ^ 32) × IsAtRest self.old pid bound }
        ensures { IfOk result (λ place. (pid : Pid) (bound : ℕ) → bound < 2 ^ 32
            → IsAtRest self.old pid bound → HasExeced self.old pid bound place self.new) }
    {
        let ClientReply::Started(number) = self.preexec()? else {
            unreachable!();
        };
        self.to_server(salt)?;
        self.to_client()?;
        let ClientReply::ExecReady(cookie) = self.collect(number) else {
            unreachable!();
        };
        let left = self.conn;
        self.open_next(alloc, Hello::Image(cookie, name))?;
        self.to_server(0)?;
        self.to_client()?;
        let ClientReply::Joined { place, .. } = self.collect(ReqNo(1)) else {
            unreachable!();
        };
        let Some(place) = place else {
            unreachable!();
        };
        self.hub.ended(left, Finish::Clean);
        Ok(place)
    }

    /// The guest's connection ends, and its process exits. Takes no memory.
    pub fn end(&mut self)
        ensures { (pid : Pid) (bound : ℕ) → IsAtRest self.old pid bound
            → HasExited self.old.conn pid self.old.hub.journal self.new.hub.journal }
    {
        self.hub.ended(self.conn, Finish::Clean);
    }
}
