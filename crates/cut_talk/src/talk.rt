//! A client and a server whose frames go between them as bytes, each cut into two pieces.
ghost use Rattle.sp_frames.specs.Grammar.{Fits};

use crate::row::Row;
use crate::wrong::Wrong;
use client_model::{Hello, Reply as ClientReply};
use sp_base::{Answer, Call, ConnNo, Octets, Place, ReqNo};
use sp_client::ClientCore;
use sp_copy::Mem;
use sp_frames::{Frame, Framer, encode};
use sp_hub::{Finish, Hub, Reply as ServerReply};
use std::alloc::Global;

/// No call has more steps.
const MOST_STEPS: u32 = 8;

/// Where each frame is cut, and how long none is.
#[derive(Clone, Copy)]
pub struct Cut {
    pub place: usize,
    pub longest: usize,
}

/// A client, its server, the number of their connection, and the two directions between them.
#[derive(Drop)]
pub struct Talk {
    alloc: Global,
    hub: Hub,
    client: ClientCore,
    conn: ConnNo,
    up: Framer,
    down: Framer,
    cut: Cut,
}

/// The frame that comes out of the two pieces of a frame's bytes, and not before the second. A cut
/// behind all of the bytes, or before them, leaves the frame whole.
fn pass(alloc: Global, framer: &mut Framer, frame: &Frame, cut: Cut) -> Result<Frame, Wrong>
    requires { Fits frame.now }
{
    let mut bytes = Octets::none(alloc);
    encode(alloc, frame, &mut bytes)?;
    let bytes = bytes.slice();
    if bytes.len() > cut.longest {
        return Err(Wrong("a frame is longer than every cut"));
    }
    let (front, rest) = bytes.split_at(cut.place.min(bytes.len()));
    let Ok(()) = framer.feed(front) else {
        return Err(Wrong("the first piece of a frame is refused"));
    };
    if !rest.is_empty() && framer.next().is_some() {
        return Err(Wrong("a frame came before its end"));
    }
    let Ok(()) = framer.feed(rest) else {
        return Err(Wrong("the second piece of a frame is refused"));
    };
    match framer.next() {
        Some(frame) if !framer.inside() => Ok(frame),
        _ => Err(Wrong("no frame came")),
    }
}

impl Talk {
    /// A guest whose handshake was answered.
    pub fn begun(alloc: Global, cut: Cut) -> Result<Talk, Wrong> {
        let mut talk = Talk {
            alloc,
            hub: Hub::fresh(alloc)?,
            client: ClientCore::fresh(alloc, Hello::Guest(Octets::of(alloc, b"vi")?))?,
            conn: ConnNo(0),
            up: Framer::fresh(alloc),
            down: Framer::fresh(alloc),
            cut,
        };
        talk.greet()?;
        Ok(talk)
    }

    /// How many entries the journal has.
    pub fn entries(&self) -> u64 {
        self.hub.journal().len() as u64
    }

    /// The client's oldest frame goes to the server, where it has one.
    fn to_server(&mut self) -> Result<(), Wrong> {
        if let ClientReply::Out(frame) = self.client.take() {
            let frame = pass(self.alloc, &mut self.up, &frame, self.cut)?;
            let salt = self.entries();
            self.hub.frame(self.conn, frame, salt);
        }
        Ok(())
    }

    /// The server's oldest frame goes to the client, where it has one.
    fn to_client(&mut self) -> Result<(), Wrong> {
        if let ServerReply::Out(frame) = self.hub.take(self.conn) {
            let frame = pass(self.alloc, &mut self.down, &frame, self.cut)?;
            self.client.frame(frame);
        }
        Ok(())
    }

    /// The connection opens, and the client's handshake is answered, with a place where it has one.
    fn greet(&mut self) -> Result<Option<Place>, Wrong> {
        self.hub.opened(self.conn);
        self.to_server()?;
        self.to_client()?;
        match self.client.collect(ReqNo(1)) {
            ClientReply::Joined { place, .. } => Ok(place),
            _ => Err(Wrong("the handshake isn't answered")),
        }
    }

    /// A call and its answer, with the memory then.
    fn call(&mut self, call: Call, mem: Mem) -> Result<(Answer, Mem), Wrong> {
        let ClientReply::Started(number) = self.client.start(call, mem) else {
            return Err(Wrong("the call isn't started"));
        };
        for _ in 0..MOST_STEPS {
            self.to_server()?;
            self.hub.work(self.conn, number);
            self.to_client()?;
        }
        match self.client.collect(number) {
            ClientReply::Got(answer, mem) => Ok((answer, mem)),
            _ => Err(Wrong("the call isn't answered")),
        }
    }

    /// The process goes on as its next program over the next connection, and is answered 0.
    fn exec(&mut self) -> Result<(Answer, Mem), Wrong> {
        let ClientReply::Started(number) = self.client.preexec() else {
            return Err(Wrong("no cookie is asked for"));
        };
        self.to_server()?;
        self.to_client()?;
        let ClientReply::ExecReady(cookie) = self.client.collect(number) else {
            return Err(Wrong("no cookie came"));
        };
        let left = self.conn;
        let Some(next) = left.0.checked_add(1) else {
            return Err(Wrong("no connection is left"));
        };
        self.conn = ConnNo(next);
        let name = Octets::of(self.alloc, b"vi")?;
        self.client = ClientCore::fresh(self.alloc, Hello::Image(cookie, name))?;
        let Some(place) = self.greet()? else {
            return Err(Wrong("the exec has no place"));
        };
        self.hub.ended(left, Finish::Clean);
        let answer = Answer {
            err: 0,
            ret0: 0,
            ret1: 0,
            place,
        };
        Ok((answer, Mem::none(self.alloc)))
    }

    /// What a row asks for is done: its answer, and the memory then. The answer's place is that of
    /// the next entry.
    pub fn play(&mut self, row: Row) -> Result<(Answer, Mem), Wrong> {
        let place = Place(self.entries());
        let (answer, mem) = match row {
            Row::Call(call, mem) => self.call(call, mem)?,
            Row::Exec => self.exec()?,
        };
        if answer.place != place {
            return Err(Wrong("the answer has another place"));
        }
        if answer.ret1 != 0 {
            return Err(Wrong("the answer has a second value"));
        }
        Ok((answer, mem))
    }
}
