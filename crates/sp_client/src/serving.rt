//! What the frames do that come from the server.
ghost use Rattle.std.specs.Prelude.{◌≡◌, ◌<◌, ◌∷◌, ◌++◌, [], Some, OnOk, OnErr, IsSome, false, true};
ghost use Rattle.std.specs.FinMap as map;
ghost use Rattle.client_model.specs.Asks.{answer_ask, goes_on, respond, welcome};
ghost use Rattle.client_model.specs.Fitness.{may_come};
ghost use Rattle.client_model.specs.Machine.{Plays, is_ask};
ghost use Rattle.client_model.specs.State as state;
ghost use Rattle.client_model.specs.State.{with_request};
ghost use Rattle.client_model.specs.declared.event.Event.TheVariants as event;
ghost use Rattle.client_model.specs.declared.request.Response.TheVariants as response;
ghost use Rattle.sp_client.specs.Asked.{IsAskOf, was_asked};
ghost use Rattle.sp_copy.specs.Delivering.{put_piece};

use crate::client::ClientCore;
use crate::copies::copy_of;
use crate::request::OpenRequest;
use client_model::{Ending, Reply, Request, Response};
use sp_base::{Cookie, NoMemory, Pid, Place, ReqNo};
use sp_copy::Mem;
use sp_frames::{Body, Frame};

/// The response of a fork.
fn forked(cookie: Cookie, place: Place, pid: Pid) -> Response
    ensures { result ≡ response.Forked cookie place pid }
{
    Response::Forked { cookie, place, pid }
}

impl ClientCore {
    /// A frame came from the server.
    ///
    /// BadServer, with the frame, where it is none that the server may send now: then the talk with
    /// it is over. Nothing otherwise, and once the talk is over: then nothing changes.
    pub fn frame(&mut self, frame: Frame) -> Reply
        ensures { Plays self.old (event.Frame frame) result self.new }
    {
        if self.ending.is_some() {
            return Reply::Nothing;
        }
        if !self.may_come(&frame) {
            self.ending = Some(Ending::Broken);
            return Reply::BadServer(frame);
        }
        match self.take_in(&frame) {
            Ok(()) => Reply::Nothing,
            Err(NoMemory) => Reply::NoMemory(Mem::none(self.alloc)),
        }
    }

    /// Whether the server may send the frame now.
    fn may_come(&self, frame: &Frame) -> bool
        ensures { result ≡ may_come (map.get self.now.requests frame.now.number.0) frame.now.body }
    {
        match self.requests.get(frame.number.0) {
            Some(request) => request.may_come(&frame.body),
            None => false,
        }
    }

    /// A frame does what it does that the server may send. An error leaves all as it was.
    fn take_in(&mut self, frame: &Frame) -> Result<(), NoMemory>
        requires { may_come (map.get self.old.requests frame.now.number.0) frame.now.body ≡ true }
        ensures ok { (x : state.Open) → map.get self.old.requests frame.now.number.0 ≡ Some x
            → OnOk result (self.new ≡ goes_on self.old frame.now.number x frame.now.body) }
        ensures err { OnErr result (self.new ≡ self.old) }
        ensures takes { OnErr result (is_ask frame.now.body ≡ true) }
    {
        let number = frame.number;
        match &frame.body {
            Body::AskBytes { index, .. } => return self.answer(number, *index, &frame.body),
            Body::AskText { index, .. } => return self.answer(number, *index, &frame.body),
            Body::Put { addr, bytes, .. } => self.put(number, *addr, bytes.slice()),
            Body::Answered(answer) => self.respond(number, Response::Answered(*answer)),
            Body::Refused { why, .. } => self.respond(number, Response::Refused(*why)),
            Body::Hello { pid } => self.welcome(number, Response::Joined(*pid)),
            Body::Joined { pid } => self.welcome(number, Response::Joined(*pid)),
            Body::Imaged { pid, place } => self.welcome(number, Response::Imaged(*pid, *place)),
            Body::Forked { cookie, place, pid } => {
                self.respond(number, forked(*cookie, *place, *pid));
            }
            Body::Cancelled => self.respond(number, Response::Cancelled),
            Body::ExecReady { cookie } => self.respond(number, Response::ExecReady(*cookie)),
            _ => {}
        }
        Ok(())
    }

    /// Queues the copy that answers an ask, and notes its index. An error leaves all as it was.
    fn answer(&mut self, number: ReqNo, index: u32, ask: &Body) -> Result<(), NoMemory>
        requires there { IsSome (map.get self.old.requests number.0) }
        requires asks { IsAskOf index ask.now }
        requires new { (x : state.Open) → map.get self.old.requests number.0 ≡ Some x
            → was_asked x.asked index ≡ false }
        ensures ok { (x : state.Open) → map.get self.old.requests number.0 ≡ Some x
            → OnOk result (self.new ≡ answer_ask self.old number x index ask.now) }
        ensures err { OnErr result (self.new ≡ self.old) }
    {
        let Some(request) = self.requests.get(number.0) else {
            unreachable!()
        };
        let body = copy_of(self.alloc, request.mem(), index, ask)?;
        self.queue.keep(1)?;
        self.queue.put_kept(Frame { number, body });
        self.note(number, index);
        Ok(())
    }

    /// A request in place of one that is taken out.
    fn blank(&self) -> OpenRequest {
        OpenRequest::sent(Request::Attach, Mem::none(self.alloc))
    }

    /// Notes that the server asked for a need of a request, for the first time.
    fn note(&mut self, number: ReqNo, index: u32)
        requires there { IsSome (map.get self.old.requests number.0) }
        requires index { index < 2 }
        requires new { (x : state.Open) → map.get self.old.requests number.0 ≡ Some x
            → was_asked x.asked index ≡ false }
        ensures { (x : state.Open) → map.get self.old.requests number.0 ≡ Some x
            → self.new ≡ with_request self.old number.0
            (record x { asked = x.asked ++ index ∷ [] }) }
    {
        let mut request = self.blank();
        self.requests.swap(number.0, &mut request);
        request.note(index);
        self.requests.swap(number.0, &mut request);
    }

    /// Writes bytes into the memory that was lent for a request.
    fn put(&mut self, number: ReqNo, addr: u64, bytes: &[u8])
        requires { IsSome (map.get self.old.requests number.0) }
        ensures { (x : state.Open) → map.get self.old.requests number.0 ≡ Some x
            → self.new ≡ with_request self.old number.0 (record x {
              delivery = put_piece x.delivery (record { addr = addr; bytes = bytes.now });
            }) }
    {
        let mut request = self.blank();
        self.requests.swap(number.0, &mut request);
        request.put(addr, bytes);
        self.requests.swap(number.0, &mut request);
    }

    /// Keeps the response of the handshake: the client speaks for a process.
    fn welcome(&mut self, number: ReqNo, response: Response)
        requires { IsSome (map.get self.old.requests number.0) }
        ensures { (x : state.Open) → map.get self.old.requests number.0 ≡ Some x
            → self.new ≡ welcome self.old number x response }
    {
        self.respond(number, response);
        self.ready = true;
    }

    /// Keeps the response of a request.
    fn respond(&mut self, number: ReqNo, response: Response)
        requires { IsSome (map.get self.old.requests number.0) }
        ensures { (x : state.Open) → map.get self.old.requests number.0 ≡ Some x
            → self.new ≡ respond self.old number x response }
    {
        let mut request = self.blank();
        self.requests.swap(number.0, &mut request);
        request.respond(response);
        self.requests.swap(number.0, &mut request);
    }
}
