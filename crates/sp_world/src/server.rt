// What the server plays by itself, and how connections open, break and close.
ghost use Rattle.std.specs.Prelude.{◌≡◌, ◌<◌, ◌^◌, ◌+◌, OnErr, OnOk, None};
ghost use Rattle.std.specs.FinMap.{get, insert, remove};
ghost use Rattle.client_model.specs.State.{HasName};
ghost use Rattle.sp_frames.specs.declared.version.Version.TheVariants.{Four};
ghost use Rattle.sp_world.specs.Ends.{of_server};
ghost use Rattle.sp_world.specs.Happens.{Happens, IsPaired, IsWithin};
ghost use Rattle.world_model.specs.State.{fresh_link};

use crate::link::Link;
use crate::parts::Parts;
use client_model::Hello;
use hub_model::{Finish, Reply as ServerReply};
use sp_base::{ConnNo, NoMemory, ReqNo};
use sp_client::ClientCore;
use world_model::{Event, Reply};

/// The world's reply where the server answers.
fn of_server(reply: ServerReply) -> Reply
    ensures { result ≡ of_server reply }
{
    match reply {
        ServerReply::NoMemory => Reply::NoMemory,
        reply => Reply::Server(reply),
    }
}

impl Parts {
    /// Gives a number without a connection a client and a link. An error leaves all as it was.
    fn place(&mut self, no: ConnNo, client: ClientCore) -> Result<(), NoMemory>
        requires client { get self.old.clients no.0 ≡ None }
        requires link { get self.old.links no.0 ≡ None }
        ensures ok { OnOk result (self.new ≡ record self.old {
          clients = insert self.old.clients no.0 client;
          links = insert self.old.links no.0 fresh_link;
        }) }
        ensures err { OnErr result (self.new ≡ self.old) }
    {
        let key = no.0 as u64;
        self.links.insert(key, Link::fresh(self.alloc))?;
        let Ok(()) = self.clients.insert(key, client) else {
            drop(self.links.remove(key));
            return Err(NoMemory);
        };
        Ok(())
    }

    /// Takes the client and the link of a number away.
    fn displace(&mut self, no: ConnNo)
        ensures { self.new ≡ record self.old {
          clients = remove self.old.clients no.0;
          links = remove self.old.links no.0;
        } }
    {
        let key = no.0 as u64;
        drop(self.clients.remove(key));
        drop(self.links.remove(key));
    }

    /// A connection of a new number opens, and its client greets.
    pub(crate) fn connect(&mut self, no: ConnNo, hello: Hello) -> Reply
        requires name { HasName hello }
        requires paired { IsPaired self.old }
        requires version { self.old.rump.version ≡ Four }
        ensures { Happens self.old (Event.Connect no hello) result self.new }
    {
        if self.links.get(no.0 as u64).is_some() {
            return Reply::Server(ServerReply::Closed);
        }
        let Ok(client) = ClientCore::fresh(self.alloc, hello) else {
            return Reply::NoMemory;
        };
        let Ok(()) = self.place(no, client) else {
            return Reply::NoMemory;
        };
        match self.hub.opened(no) {
            ServerReply::Nothing => Reply::Server(ServerReply::Nothing),
            reply => {
                self.displace(no);
                of_server(reply)
            }
        }
    }

    /// The server works the call of a request.
    pub(crate) fn work(&mut self, no: ConnNo, number: ReqNo) -> Reply
        ensures { Happens self.old (Event.Work no number) result self.new }
    {
        if !self.is_there(no) {
            return Reply::Closed;
        }
        of_server(self.hub.work(no, number))
    }

    /// The link of a connection breaks.
    pub(crate) fn cut(&mut self, no: ConnNo, most: u64) -> Reply
        requires within { IsWithin most self.old }
        requires room { most + 1 < 2 ^ 64 }
        ensures { Happens self.old (Event.Cut no) result self.new }
    {
        let Some(mut ends) = self.take_out(no) else {
            return Reply::Closed;
        };
        let _ = self.hub.lost(no);
        let _ = ends.client.gone();
        ends.link.cut();
        self.put_back(no, ends);
        Reply::Moved
    }

    /// A guest closes its connection.
    pub(crate) fn ends(&mut self, no: ConnNo) -> Reply
        ensures { Happens self.old (Event.Ends no) result self.new }
    {
        let Some(mut ends) = self.take_out(no) else {
            return Reply::Closed;
        };
        ends.link.empty();
        self.put_back(no, ends);
        drop(self.clients.remove(no.0 as u64));
        Reply::Server(self.hub.ended(no, Finish::Clean))
    }

    /// The server is to take nothing more.
    pub(crate) fn halt(&mut self) -> Reply
        ensures { Happens self.old Event.Halt result self.new }
    {
        Reply::Server(self.hub.halt())
    }
}
