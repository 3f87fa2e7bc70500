ghost use Rattle.std.specs.Prelude.{◌≡◌, ◌<◌, ◌^◌, ◌+◌};
ghost use Rattle.sp_world.specs.Ends.{Moves, brought_down, brought_up, sent_down, sent_up};
ghost use Rattle.world_model.specs.Machine.{cut_link, emptied};
ghost use Rattle.world_model.specs.State.{fresh_link};
ghost use Rattle.world_model.specs.Still.{is_empty_link};

use crate::copies::copy_of_frame;
use client_model::{Event as ClientEvent, Reply as ClientReply};
use hub_model::Reply as ServerReply;
use sp_base::ConnNo;
use sp_client::ClientCore;
use sp_frames::Frame;
use sp_hub::Hub;
use std::alloc::Global;
use std::collections::VecDeque;
use std::marker::Model;
use world_model::Reply;

/// What is between a client and the server: the frames under way, the oldest first, and how often
/// the link broke.
#[derive(Drop)]
pub(crate) struct Link {
    alloc: Global,
    up: VecDeque<Frame>,
    down: VecDeque<Frame>,
    faults: u64,
}

impl Model for Link {
    ghost use Rattle.sp_world.specs.Code.{link_code};
    ghost use Rattle.world_model.specs.State as state;

    ghost Value = { state.Link };

    ghost coded = { link_code };

    ghost view = { λ l. record { up = l.up.items; down = l.down.items; faults = l.faults } };
}

impl Link {
    /// A link over which nothing went yet; takes no memory.
    pub(crate) fn fresh(alloc: Global) -> Link
        ensures { result ≡ fresh_link }
    {
        Link {
            alloc,
            up: VecDeque::new(alloc),
            down: VecDeque::new(alloc),
            faults: 0,
        }
    }

    /// How often it broke.
    pub(crate) fn faults(&self) -> u64
        ensures { result ≡ self.now.faults }
    {
        self.faults
    }

    /// Whether no frame is under way.
    pub(crate) fn is_empty(&self) -> bool
        ensures { result ≡ is_empty_link self.now }
    {
        self.up.is_empty() && self.down.is_empty()
    }

    /// Drops the frames under way.
    pub(crate) fn empty(&mut self)
        ensures { self.new ≡ emptied self.old }
    {
        self.up.clear();
        self.down.clear();
    }

    /// The link breaks, and the frames under way are lost.
    pub(crate) fn cut(&mut self)
        requires { self.old.faults + 1 < 2 ^ 64 }
        ensures { self.new ≡ cut_link self.old }
    {
        self.empty();
        self.faults += 1;
    }

    /// The client's oldest frame is under way to the server from now on: Moved, or Nothing where
    /// the client has none. After NoMemory all is as it was.
    pub(crate) fn send_up(&mut self, client: &mut ClientCore) -> Reply
        ensures { Moves (sent_up self.old client.old) result
            self.old self.new client.old client.new }
    {
        if self.up.reserve(1).is_err() {
            return Reply::NoMemory;
        }
        match client.take() {
            ClientReply::Out(frame) => {
                self.up.push_back_reserved(frame);
                Reply::Moved
            }
            _ => Reply::Nothing,
        }
    }

    /// The server's oldest frame for a connection is under way to the client from now on: Moved,
    /// or Nothing where there is none. After NoMemory all is as it was.
    pub(crate) fn send_down(&mut self, hub: &mut Hub, no: ConnNo) -> Reply
        ensures { Moves (sent_down self.old hub.old no) result
            self.old self.new hub.old hub.new }
    {
        if self.down.reserve(1).is_err() {
            return Reply::NoMemory;
        }
        match hub.take(no) {
            ServerReply::Out(frame) => {
                self.down.push_back_reserved(frame);
                Reply::Moved
            }
            _ => Reply::Nothing,
        }
    }

    /// The oldest frame under way to the server comes there, with the salt for a cookie: what the
    /// server answers, or Nothing where no frame is under way. After NoMemory all is as it was.
    #[tactic(auto, using(crate::proofs::Moving::none_up))]
    pub(crate) fn bring_up(&mut self, hub: &mut Hub, no: ConnNo, salt: u64) -> Reply
        ensures { Moves (brought_up self.old hub.old no salt) result
            self.old self.new hub.old hub.new }
    {
        let Some(frame) = self.up.front() else {
            return Reply::Nothing;
        };
        let Ok(copy) = copy_of_frame(self.alloc, frame) else {
            return Reply::NoMemory;
        };
        match hub.frame(no, copy, salt) {
            ServerReply::NoMemory => Reply::NoMemory,
            reply => {
                drop(self.up.pop_front());
                Reply::Server(reply)
            }
        }
    }

    /// The oldest frame under way to the client comes there: what the client answers, or Nothing
    /// where no frame is under way. After NoMemory all is as it was.
    #[tactic(auto, using(crate::proofs::Moving::none_down))]
    pub(crate) fn bring_down(&mut self, client: &mut ClientCore) -> Reply
        ensures { Moves (brought_down self.old client.old) result
            self.old self.new client.old client.new }
    {
        let Some(frame) = self.down.front() else {
            return Reply::Nothing;
        };
        let Ok(copy) = copy_of_frame(self.alloc, frame) else {
            return Reply::NoMemory;
        };
        match client.play(ClientEvent::Frame(copy)) {
            ClientReply::NoMemory(mem) => {
                drop(mem);
                Reply::NoMemory
            }
            reply => {
                drop(self.down.pop_front());
                Reply::Client(reply)
            }
        }
    }
}
