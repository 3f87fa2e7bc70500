//! A client and its server in one process, whose frames go between them as bytes.
ghost use Rattle.std.specs.Prelude.{◌≡◌, ◌+◌, ◌<◌, ◌^◌, None, Some, IfOk, OnOk, true};
ghost use Rattle.sp_base.specs.declared.names.Caller.{Caller};
ghost use Rattle.sp_frames.specs.declared.version.Version.TheVariants.{Four};
ghost use Rattle.hub_model.specs.Machine as server;
ghost use Rattle.hub_model.specs.State.{fresh_machine};
ghost use Rattle.hub_model.specs.declared.event.Event.TheVariants as server_event;
ghost use Rattle.client_model.specs.State.{HasName, fresh_client};
ghost use Rattle.client_model.specs.declared.event.Event.TheVariants as client_event;
ghost use Rattle.link_model.specs.Link.{made, sent};
ghost use Rattle.link_model.specs.declared.moves.Move.TheVariants as moves;
ghost use Rattle.guest_run.specs.Joined.{IsPlayed, IsWorked, first_connection, link_of, next_connection};

use crate::wire::Wire;
use client_model::{Hello, Reply as ClientReply};
use sp_base::{Call, ConnNo, NoMemory, ReqNo};
use sp_client::ClientCore;
use sp_copy::Mem;
use sp_hub::{Hub, Reply as ServerReply};
use std::alloc::Global;

/// The number of the first connection.
const FIRST: ConnNo = ConnNo(0);

/// A client, its server, the number of their connection, and the two directions of the link between
/// them.
///
/// After want of memory a frame may be lost, and the link is of no use any more.
#[derive(Drop)]
pub struct Joined {
    pub hub: Hub,
    pub client: ClientCore,
    pub conn: ConnNo,
    up: Wire,
    down: Wire,
}

impl Joined {
    /// A client that begins, and a server to which nothing happened but that their connection
    /// opened. The only error is want of memory.
    pub fn opened(alloc: Global, hello: Hello) -> Result<Joined, NoMemory>
        requires { HasName hello }
        ensures client { IfOk result (λ joined. joined.client ≡ fresh_client Four hello) }
        ensures server { IfOk result (λ joined. joined.hub
            ≡ (server.played true (fresh_machine Four) (server_event.Opened first_connection)).1) }
        ensures conn { IfOk result (λ joined. joined.conn ≡ first_connection) }
    {
        let mut hub = Hub::fresh(alloc)?;
        hub.opened(FIRST).or_no_memory()?;
        Ok(Joined {
            hub,
            client: ClientCore::fresh(alloc, hello)?,
            conn: FIRST,
            up: Wire::fresh(alloc),
            down: Wire::fresh(alloc),
        })
    }

    /// The next connection opens, over which another client begins. Nothing was under way. The only
    /// error is want of memory; the link is of no use then.
    pub fn open_next(&mut self, alloc: Global, hello: Hello) -> Result<(), NoMemory>
        requires name { HasName hello }
        requires few { self.old.conn.0 + 1 < 2 ^ 32 }
        ensures client { OnOk result (self.new.client ≡ fresh_client Four hello) }
        ensures server { OnOk result (self.new.hub ≡ (server.played true self.old.hub
            (server_event.Opened (next_connection self.old.conn))).1) }
        ensures conn { OnOk result (self.new.conn ≡ next_connection self.old.conn) }
    {
        let next = ConnNo(self.conn.0 + 1);
        self.client = ClientCore::fresh(alloc, hello)?;
        self.hub.opened(next).or_no_memory()?;
        self.conn = next;
        Ok(())
    }

    /// The client's oldest frame goes to the server, with the salt for the cookie that it makes;
    /// gives what the server answers, or None where the client has no frame. The only error is want
    /// of memory.
    pub fn to_server(&mut self, salt: u64) -> Result<Option<ServerReply>, NoMemory>
        ensures { IfOk result (λ answer. sent (link_of self.old) salt
            ≡ record { link = link_of self.new; server = answer; client = None }) }
    {
        match self.client.take() {
            ClientReply::Out(frame) => {
                let frame = self.up.send(&frame)?;
                let reply = self.hub.frame(self.conn, frame, salt).or_no_memory()?;
                Ok(Some(reply))
            }
            _ => Ok(None),
        }
    }

    /// The server's oldest frame goes to the client; gives what the client answers, or None where
    /// the server has no frame. The only error is want of memory.
    pub fn to_client(&mut self) -> Result<Option<ClientReply>, NoMemory>
        ensures { IfOk result (λ answer. made (link_of self.old) moves.ToClient
            ≡ record { link = link_of self.new; server = None; client = answer }) }
    {
        match self.hub.take(self.conn) {
            ServerReply::Out(frame) => {
                let frame = self.down.send(&frame)?;
                match self.client.frame(frame) {
                    ClientReply::NoMemory(_) => Err(NoMemory),
                    reply => Ok(Some(reply)),
                }
            }
            _ => Ok(None),
        }
    }

    /// The server works the call of a number. Where it has no memory to perform the call, it
    /// answers Refused(Memory); where it has none to ask for what the call reads, that is an error.
    pub fn work(&mut self, number: ReqNo) -> Result<ServerReply, NoMemory>
        ensures { IfOk result (λ answer. IsWorked self.old number answer self.new) }
    {
        self.hub.work(self.conn, number).or_no_memory()
    }

    /// The client starts a call with its caller's memory. The only error is want of memory.
    pub fn start(&mut self, call: Call, mem: Mem) -> Result<ClientReply, NoMemory>
        ensures { IfOk result (λ answer. (caller : Caller)
            → IsPlayed self.old (client_event.Start caller call mem) answer self.new) }
    {
        match self.client.start(call, mem) {
            ClientReply::NoMemory(_) => Err(NoMemory),
            reply => Ok(reply),
        }
    }

    /// The client asks for a cookie, with which its process goes on as its next program. The only
    /// error is want of memory.
    pub fn preexec(&mut self) -> Result<ClientReply, NoMemory>
        ensures { IfOk result (λ answer. (caller : Caller)
            → IsPlayed self.old (client_event.Preexec caller) answer self.new) }
    {
        match self.client.preexec() {
            ClientReply::NoMemory(_) => Err(NoMemory),
            reply => Ok(reply),
        }
    }

    /// The client is asked for the answer to a request; takes no memory.
    pub fn collect(&mut self, number: ReqNo) -> ClientReply
        ensures { IsPlayed self.old (client_event.Collect number) result self.new }
    {
        self.client.collect(number)
    }
}
