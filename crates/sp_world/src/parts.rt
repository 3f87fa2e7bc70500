ghost use Rattle.std.specs.Prelude.{◌≡◌, ◌<◌, ◌^◌, ◌+◌, IfOk, IfSome, IfNone, IsSome, IsTrue, ◌↔◌};
ghost use Rattle.std.specs.FinMap.{get, insert};
ghost use Rattle.sp_frames.specs.declared.version.Version.TheVariants.{Four};
ghost use Rattle.sp_world.specs.Ends.{IsAbsent, IsThere, TakesOut};
ghost use Rattle.sp_world.specs.Happens.{Happens, IsNamed, IsPaired, IsWithin};
ghost use Rattle.sp_world.specs.Steps.{HaveSteps};
ghost use Rattle.world_model.specs.State.{fresh_world};

use crate::ends::Ends;
use crate::link::Link;
use kern_calls::Kernel;
use sp_base::{ConnNo, NoMemory};
use sp_client::ClientCore;
use sp_hub::Hub;
use std::alloc::Global;
use std::marker::Model;
use tables::Table;
use world_model::{Event, HostCall, Reply};

/// What a world holds: the server, the clients and the links by their connections' numbers, and the
/// host's kernel with how many entries each guest has there and the calls that wait for it.
#[derive(Drop)]
pub(crate) struct Parts {
    pub(crate) alloc: Global,
    pub(crate) hub: Hub,
    pub(crate) clients: Table<ClientCore>,
    pub(crate) links: Table<Link>,
    pub(crate) host: Kernel,
    pub(crate) counts: Table<u64>,
    pub(crate) waiting: Vec<HostCall>,
}

impl Model for Parts {
    ghost use Rattle.sp_world.specs.Code.{world_code};
    ghost use Rattle.world_model.specs.State.{World};

    ghost Value = { World };

    ghost coded = { world_code };

    ghost view = { λ w. record {
      rump = w.hub;
      clients = w.clients;
      links = w.links;
      host = w.host.items;
      counts = w.counts;
      waiting = w.waiting.items;
    } };
}

impl Parts {
    /// A world in which nothing happened yet. The only error is want of memory.
    pub(crate) fn fresh(alloc: Global) -> Result<Parts, NoMemory>
        ensures { IfOk result (λ parts. parts ≡ fresh_world Four) }
    {
        Ok(Parts {
            alloc,
            hub: Hub::fresh(alloc)?,
            clients: Table::new(alloc),
            links: Table::new(alloc),
            host: Kernel::fresh(alloc)?,
            counts: Table::new(alloc),
            waiting: Vec::new(alloc),
        })
    }

    /// Whether a connection is there, with its client and its link.
    pub(crate) fn is_there(&self, no: ConnNo) -> bool
        ensures { IsTrue result ↔ IsThere self.now no }
    {
        let key = no.0 as u64;
        self.clients.get(key).is_some() && self.links.get(key).is_some()
    }

    /// Takes the client and the link of a connection out, until they are put back; takes no memory.
    /// None, and nothing changes, where one of them isn't there.
    pub(crate) fn take_out(&mut self, no: ConnNo) -> Option<Ends>
        ensures out { IfSome result (λ ends. TakesOut self.old no ends.client ends.link self.new) }
        ensures absent { IfNone result (IsAbsent self.old no) }
        ensures stays { IfNone result (self.new ≡ self.old) }
    {
        if !self.is_there(no) {
            return None;
        }
        let key = no.0 as u64;
        let mut client = ClientCore::over(self.alloc);
        let mut link = Link::fresh(self.alloc);
        self.clients.swap(key, &mut client);
        self.links.swap(key, &mut link);
        Some(Ends { client, link })
    }

    /// Puts the client and the link of a connection back; takes no memory.
    pub(crate) fn put_back(&mut self, no: ConnNo, ends: Ends)
        requires client { IsSome (get self.old.clients no.0) }
        requires link { IsSome (get self.old.links no.0) }
        ensures { self.new ≡ record self.old {
          clients = insert self.old.clients no.0 ends.client;
          links = insert self.old.links no.0 ends.link;
        } }
    {
        let Ends {
            mut client,
            mut link,
        } = ends;
        self.clients.swap(no.0 as u64, &mut client);
        self.links.swap(no.0 as u64, &mut link);
    }

    /// An event happens: what is answered. After NoMemory all is as it was.
    pub(crate) fn play(&mut self, most: u64, event: Event) -> Reply
        requires named { IsNamed event }
        requires paired { IsPaired self.old }
        requires version { self.old.rump.version ≡ Four }
        requires within { IsWithin most self.old }
        requires room { most + 1 < 2 ^ 64 }
        requires steps { HaveSteps self.old.rump }
        ensures { Happens self.old event result self.new }
    {
        match event {
            Event::Connect(no, hello) => self.connect(no, hello),
            Event::Start(no, caller, call, mem) => self.start(no, caller, call, mem),
            Event::Prefork(no, caller, want) => self.prefork(no, caller, want),
            Event::Preexec(no, caller) => self.preexec(no, caller),
            Event::Collect(no, number) => self.collect(no, number),
            Event::ToServer(no, salt) => self.to_server(no, salt),
            Event::FromServer(no) => self.from_server(no),
            Event::ToClient(no) => self.to_client(no),
            Event::FromClient(no) => self.from_client(no),
            Event::Work(no, number) => self.work(no, number),
            Event::Cut(no) => self.cut(no, most),
            Event::Ends(no) => self.ends(no),
            Event::Host(guest, caller, pid, op, mem) => {
                self.host(most, guest, caller, pid, op, mem)
            }
            Event::GiveUp => self.give_up(),
            Event::Halt => self.halt(),
        }
    }
}
