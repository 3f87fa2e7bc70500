ghost use Rattle.std.specs.Prelude.{◌≡◌, ◌≢◌, Some, None, IfOk, IfErr, OnOk, OnErr, IsSome, false};
ghost use Rattle.std.specs.FinMap as map;
ghost use Rattle.std.specs.List.{list_any};
ghost use Rattle.client_model.specs.Machine.{Plays, played};
ghost use Rattle.client_model.specs.Requests.{closed, collected, highest_number, is_busy, start_now};
ghost use Rattle.client_model.specs.Run.{has_response, is_answered, is_still};
ghost use Rattle.client_model.specs.State as state;
ghost use Rattle.client_model.specs.State.{HasName, fresh_client, over_client, request_frame};
ghost use Rattle.client_model.specs.declared.event.Event.TheVariants as event;
ghost use Rattle.client_model.specs.declared.event.Reply.TheVariants as reply;
ghost use Rattle.sp_base.specs.declared.names.Caller.{Caller};
ghost use Rattle.sp_client.specs.Asking.{IsAsked};
ghost use Rattle.sp_frames.specs.Grammar.{BodyFits, Fits};
ghost use Rattle.sp_frames.specs.declared.frame.Frame.{Frame};
ghost use Rattle.sp_frames.specs.declared.version.Version.TheVariants.{Four};

use crate::asking::{asked_by, call_body, preexec_body, said_by, want_body, wanted};
use crate::request::OpenRequest;
use client_model::{Ending, Event, Hello, OPEN_REQUESTS, Reply, Request, Response, Want};
use sp_base::{Call, KeptQueue, NoMemory, ReqNo};
use sp_copy::{Delivery, Mem};
use sp_frames::{Body, Frame, Version};
use std::alloc::Global;
use std::marker::Model;
use tables::Table;

/// A guest's side of the talk with a server: its requests, the frames that it has to send, and what
/// came of them.
#[derive(Drop)]
pub struct ClientCore {
    pub(crate) alloc: Global,
    version: Version,
    pub(crate) ready: bool,
    last: u64,
    pub(crate) requests: Table<OpenRequest>,
    pub(crate) queue: KeptQueue<Frame>,
    pub(crate) ending: Option<Ending>,
}

impl Model for ClientCore {
    ghost use Rattle.std.specs.List.{AllByRecursion};
    ghost use Rattle.client_model.specs.Code.{client_code};
    ghost use Rattle.client_model.specs.State.{Client};
    ghost use Rattle.sp_frames.specs.Grammar.{Fits};

    ghost Value = { Client };

    ghost coded = { client_code };

    ghost view = { λ k. record {
      version = k.version;
      ready = k.ready;
      last = k.last;
      requests = k.requests;
      queue = k.queue.items;
      ending = k.ending;
    } };

    ghost invariant = { λ k. AllByRecursion Fits k.queue.items };
}

/// The frame of a request, by its number and what it says.
#[tactic(auto, using(crate::proofs::Fit::frame_fits))]
fn request_frame(number: u64, says: Body) -> Frame
    requires { BodyFits says }
    ensures frame { result ≡ request_frame number says }
    ensures fits { Fits result }
{
    Frame {
        number: ReqNo(number),
        body: says,
    }
}

/// What is collected of a request with its response, and with what was delivered for it.
fn collected(response: Response, delivery: Delivery) -> Reply
    ensures { result ≡ collected response delivery }
{
    match response {
        Response::Joined(pid) => Reply::Joined { pid, place: None },
        Response::Imaged(pid, place) => Reply::Joined {
            pid,
            place: Some(place),
        },
        Response::Answered(answer) => Reply::Got(delivery.answer(answer), delivery.mem),
        Response::Forked { cookie, place, pid } => Reply::Forked { cookie, place, pid },
        Response::Cancelled => Reply::Cancelled,
        Response::ExecReady(cookie) => Reply::ExecReady(cookie),
        Response::Refused(why) => Reply::Refused(why, delivery.mem),
    }
}

impl ClientCore {
    /// A client that begins. Its handshake, which is request 1, is queued. The only error is want
    /// of memory.
    pub fn fresh(alloc: Global, hello: Hello) -> Result<ClientCore, NoMemory>
        requires { HasName hello }
        ensures { IfOk result (λ core. core ≡ fresh_client Four hello) }
    {
        let mut queue = KeptQueue::none(alloc);
        queue.keep(1)?;
        let asks = asked_by(&hello);
        queue.put_kept(request_frame(1, said_by(hello)));
        let mut requests = Table::new(alloc);
        requests.insert(1, OpenRequest::sent(asks, Mem::none(alloc)))?;
        Ok(ClientCore {
            alloc,
            version: Version::Four,
            ready: false,
            last: 1,
            requests,
            queue,
            ending: None,
        })
    }

    /// A client without requests whose link is gone; takes no memory.
    pub fn over(alloc: Global) -> ClientCore
        ensures { result ≡ over_client Four }
    {
        ClientCore {
            alloc,
            version: Version::Four,
            ready: false,
            last: 0,
            requests: Table::new(alloc),
            queue: KeptQueue::none(alloc),
            ending: Some(Ending::Gone),
        }
    }

    /// Whether no frame is queued and no open request has its answer; takes no memory.
    pub fn is_still(&self) -> bool
        ensures { result ≡ is_still self.now }
    {
        self.queue.is_empty() && !self.has_answer()
    }

    /// Whether some open request has its answer.
    fn has_answer(&self) -> bool
        ensures { result ≡ list_any has_response (map.values self.now.requests) }
    {
        self.requests.values().any(|request| request.has_response())
    }

    /// Whether the request of a number is open and has its answer; takes no memory.
    pub fn is_answered(&self, number: ReqNo) -> bool
        ensures { result ≡ is_answered self.now number }
    {
        match self.requests.get(number.0) {
            Some(request) => request.has_response(),
            None => false,
        }
    }

    /// Whether a request that starts now would be answered Busy, unless the talk with the server is
    /// over or its handshake isn't answered; takes no memory.
    pub fn is_busy(&self) -> bool
        ensures { result ≡ is_busy self.now }
    {
        self.requests.len() as u64 >= OPEN_REQUESTS || self.last == u64::MAX
    }

    /// An event happens. Where memory is refused nothing changes, and memory that was lent comes
    /// back.
    pub fn play(&mut self, event: Event) -> Reply
        ensures plays { Plays self.old event result self.new }
        ensures fits { (frame : Frame) → result ≡ reply.Out frame → Fits frame }
    {
        match event {
            Event::Start(_, call, mem) => self.start(call, mem),
            Event::Prefork(_, want) => self.prefork(want),
            Event::Preexec(_) => self.preexec(),
            Event::Frame(frame) => self.frame(frame),
            Event::Collect(number) => self.collect(number),
            Event::Take => self.take(),
            Event::Gone => self.gone(),
        }
    }

    /// A caller asks for a system call, and lends its memory for it.
    ///
    /// Lost or Broken come once the talk with the server is over, by what ended it first; else
    /// NotYet before the handshake is answered with a process; else Busy where 64 requests are
    /// open, or no number is left. Otherwise the call is queued, and Started has its number.
    #[tactic(auto, using(crate::proofs::Events::start_plays))]
    pub fn start(&mut self, call: Call, mem: Mem) -> Reply
        ensures { (caller : Caller) → Plays self.old (event.Start caller call mem) result self.new }
    {
        let says = call_body(&call);
        self.ask(Request::Call(call), says, mem)
    }

    /// A caller wants a child that a cookie hands over, or a cookie to be taken back. The replies
    /// are those of a system call, with no memory.
    #[tactic(auto, using(crate::proofs::Events::prefork_plays))]
    pub fn prefork(&mut self, want: Want) -> Reply
        ensures { (caller : Caller) → Plays self.old (event.Prefork caller want) result self.new }
    {
        self.ask(wanted(want), want_body(want), Mem::none(self.alloc))
    }

    /// A caller asks for a cookie, with which its process goes on as its next program. The replies
    /// are those of a system call, with no memory.
    #[tactic(auto, using(crate::proofs::Events::preexec_plays))]
    pub fn preexec(&mut self) -> Reply
        ensures { (caller : Caller) → Plays self.old (event.Preexec caller) result self.new }
    {
        self.ask(Request::Preexec, preexec_body(), Mem::none(self.alloc))
    }

    /// A request is asked for, with the memory that is lent for it.
    fn ask(&mut self, asks: Request, says: Body, mem: Mem) -> Reply
        requires { BodyFits says }
        ensures { IsAsked self.old asks says mem result self.new }
    {
        if let Some(ending) = self.ending {
            return ending.reply(mem);
        }
        if !self.ready {
            return Reply::NotYet(mem);
        }
        if self.is_busy() {
            return Reply::Busy(mem);
        }
        match self.open(asks, says, mem) {
            Ok(number) => Reply::Started(number),
            Err(mem) => Reply::NoMemory(mem),
        }
    }

    /// Opens a request under the next number. Where memory is refused nothing changes, and the
    /// memory that was lent comes back.
    #[tactic(auto, using(crate::proofs::Fit::queue_fits))]
    fn open(&mut self, asks: Request, says: Body, mem: Mem) -> Result<ReqNo, Mem>
        requires number { self.old.last ≢ highest_number }
        requires fits { BodyFits says }
        ensures ok { OnOk result (self.new ≡ (start_now self.old asks says mem).1) }
        ensures number { IfOk result (λ number.
            reply.Started number ≡ (start_now self.old asks says mem).0) }
        ensures err { OnErr result (self.new ≡ self.old) }
        ensures mem { IfErr result (λ back. back ≡ mem) }
    {
        let number = self.last + 1;
        let blank = OpenRequest::sent(Request::Attach, Mem::none(self.alloc));
        let Ok(()) = self.queue.keep(1) else {
            return Err(mem);
        };
        let Ok(()) = self.requests.insert(number, blank) else {
            self.queue.free(1);
            return Err(mem);
        };
        self.queue.put_kept(request_frame(number, says));
        let mut request = OpenRequest::sent(asks, mem);
        self.requests.swap(number, &mut request);
        self.last = number;
        Ok(ReqNo(number))
    }

    /// A caller asks for the answer to a request, which closes it; takes no memory.
    ///
    /// Unknown where no request of the number is open, and NotYet, with no memory, where it is
    /// unanswered and the talk with the server goes on; then nothing changes.
    pub fn collect(&mut self, number: ReqNo) -> Reply
        ensures { (result, self.new) ≡ played self.old (event.Collect number) }
    {
        let Some(request) = self.requests.get(number.0) else {
            return Reply::Unknown;
        };
        match (request.response(), self.ending) {
            (Some(response), _) => collected(response, self.close(number)),
            (None, Some(ending)) => ending.reply(self.close(number).mem),
            (None, None) => Reply::NotYet(Mem::none(self.alloc)),
        }
    }

    /// Closes a request, and gives what was delivered for it; takes no memory.
    fn close(&mut self, number: ReqNo) -> Delivery
        requires { IsSome (map.get self.old.requests number.0) }
        ensures delivery { (x : state.Open) → map.get self.old.requests number.0 ≡ Some x
            → result ≡ x.delivery }
        ensures state { self.new ≡ closed self.old number }
    {
        match self.requests.remove(number.0) {
            Some(request) => request.into_delivery(),
            None => unreachable!(),
        }
    }

    /// The link can send a frame: the oldest that is queued, else Nothing; takes no memory.
    pub fn take(&mut self) -> Reply
        ensures plays { (result, self.new) ≡ played self.old event.Take }
        ensures fits { (frame : Frame) → result ≡ reply.Out frame → Fits frame }
    {
        match self.queue.take() {
            Some(frame) => Reply::Out(frame),
            None => Reply::Nothing,
        }
    }

    /// The link is gone: unless the talk with the server was over before, unanswered requests are
    /// lost from now on; takes no memory.
    pub fn gone(&mut self) -> Reply
        ensures { (result, self.new) ≡ played self.old event.Gone }
    {
        if self.ending.is_none() {
            self.ending = Some(Ending::Gone);
        }
        Reply::Nothing
    }
}
