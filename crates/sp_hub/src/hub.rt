ghost use Rattle.std.specs.Prelude.{◌≡◌, ◌≢◌, true, IfOk, IfSome, IfNone};
ghost use Rattle.kern_model.specs.Journal.{IsLegal, HasOwnKeys};
ghost use Rattle.sp_frames.specs.Grammar.{Fits};
ghost use Rattle.sp_frames.specs.declared.frame.Frame.{Frame};
ghost use Rattle.sp_hub.specs.AtOnce.{AnswersAtOnce};
ghost use Rattle.hub_model.specs.Machine.{Plays, played};
ghost use Rattle.hub_model.specs.State.{fresh_machine};
ghost use Rattle.hub_model.specs.Still.{is_idle};
ghost use Rattle.hub_model.specs.Task.{IsLowest, open_calls};

use crate::machine::Core;
use hub_model::{Event, Finish, Reply};
use kern_model::Entry;
use sp_base::{ConnNo, NoMemory, ReqNo};
use sp_frames::{Frame, Version};
use std::alloc::Global;
use std::marker::Model;

/// The server's core: the connections of its clients, the kernel that performs their calls, and the
/// unused cookies by which processes are handed from one connection to another.
#[derive(Drop)]
pub struct Hub {
    core: Core,
}

impl Model for Hub {
    ghost use Rattle.hub_model.specs.Code.{machine_code};
    ghost use Rattle.hub_model.specs.Sound.{IsSound};
    ghost use Rattle.hub_model.specs.State.{Machine};

    ghost Value = { Machine };

    ghost coded = { machine_code };

    ghost view = { λ h. h.core };

    ghost invariant = { λ h. IsSound h.core };
}

impl Hub {
    /// A server to which nothing happened: no connection, no process and an empty journal.
    pub fn fresh(alloc: Global) -> Result<Hub, NoMemory>
        ensures { IfOk result (λ hub. hub ≡ fresh_machine Version.Four) }
    {
        let core = Core::fresh(alloc, Version::Four)?;
        Ok(Hub { core })
    }

    /// All that was performed, in order; an entry's index is its place.
    pub fn journal(&self) -> &[Entry]
        ensures journal { result.now ≡ self.now.journal }
        ensures legal { IsLegal self.now.journal }
        ensures keys { HasOwnKeys self.now.journal }
    {
        self.core.journal()
    }

    /// A connection opens, and Nothing is answered.
    ///
    /// Closed comes where its number isn't above every number that was opened before, or the server
    /// has halted. After it and after NoMemory all is as it was.
    pub fn opened(&mut self, no: ConnNo) -> Reply
        ensures plays { Plays self.old (Event.Opened no) result self.new }
    {
        if self.core.is_halted() {
            return Reply::Closed;
        }
        self.core.opened(no)
    }

    /// A frame comes over a connection: Done answers a handshake, a fork, a process that is to go
    /// on as its next program, and a cookie that is taken back, each of which is performed at once.
    /// Task answers a call, which is open from then on, or a copy of what an open call reads, which
    /// can be worked on. The salt goes with the number of the cookie that a fork makes, or a
    /// process that is to go on as its next program; no other frame uses it.
    ///
    /// Refused(Malformed) says that the frame is none that this connection may send now: the
    /// connection's unused cookies are taken back, so that their children exit, then its process
    /// exits, its open calls are dropped, and the error is the last frame that it sends. Refused
    /// with another error queues that error under the request's number, which is used up; nothing
    /// else changes. Closed comes where the connection takes no frame or was never opened, or the
    /// server has halted. After Closed and NoMemory all is as it was.
    pub fn frame(&mut self, no: ConnNo, frame: Frame, salt: u64) -> Reply
        ensures plays { Plays self.old (Event.Frame no frame salt) result self.new }
    {
        if self.core.is_halted() {
            return Reply::Closed;
        }
        self.core.frame(no, frame, salt)
    }

    /// A call is opened, performed and answered at once, where no other call of its connection is
    /// open, no frame is queued for it, and the call reads and writes nothing of its caller's memory:
    /// gives its response, which isn't queued.
    ///
    /// None comes where it isn't so, where the kernel isn't ready, and where memory is refused; then
    /// all is as it was, and the frame is to be taken as any other.
    pub fn at_once(&mut self, no: ConnNo, frame: &Frame) -> Option<Frame>
        ensures plays { IfSome result (λ response.
            AnswersAtOnce self.old no frame.now response self.new) }
        ensures fits { IfSome result Fits }
        ensures none { IfNone result (self.new ≡ self.old) }
    {
        if self.core.is_halted() {
            return None;
        }
        self.core.at_once(no, frame)
    }

    /// An open call of a connection is worked: Asked says that an ask for the next of what it reads
    /// is queued, and Done that it was performed and that what it writes and its response are
    /// queued.
    ///
    /// Nothing comes where no such call is open and unperformed, AwaitsAnswer where an ask of it is
    /// out, NotReady where the kernel isn't ready for it, and Closed where the server has halted.
    /// After these and after NoMemory, which comes where there is no memory for an ask, all is as
    /// it was. Refused(Memory) comes where there is no memory for what would be performed: the call
    /// ends unperformed, and that error is queued under its number.
    pub fn work(&mut self, no: ConnNo, number: ReqNo) -> Reply
        ensures plays { Plays self.old (Event.Work no number) result self.new }
    {
        if self.core.is_halted() {
            return Reply::Closed;
        }
        self.core.work(no, number)
    }

    /// The oldest queued frame of a connection is handed out, as Out; this takes no memory. A
    /// response or an error ends its call.
    ///
    /// Nothing comes where no frame is queued. Closed comes where the connection is over, or takes
    /// nothing more and has no frame left, or was never opened, or the server has halted. After
    /// these all is as it was.
    pub fn take(&mut self, no: ConnNo) -> Reply
        ensures plays { (result, self.new) ≡ played true self.old (Event.Take no) }
        ensures fits { (frame : Frame) → result ≡ Reply.Out frame → Fits frame }
        ensures memory { result ≢ Reply.NoMemory }
    {
        if self.core.is_halted() {
            return Reply::Closed;
        }
        self.core.take(no)
    }

    /// The input of a connection ended, and Nothing is answered: its unused cookies are taken back,
    /// so that their children exit, then its process exits, and its open calls and queued frames
    /// are dropped. This takes no memory.
    ///
    /// Where the input of a connection with a process ended at bytes that are no frame, the queued
    /// frames are still sent, and behind them the error Malformed under number 0 and type 0. Closed
    /// comes where the connection is over already or was never opened, or the server has halted,
    /// and then all is as it was.
    pub fn ended(&mut self, no: ConnNo, finish: Finish) -> Reply
        ensures plays { (result, self.new) ≡ played true self.old (Event.Ended no finish) }
    {
        if self.core.is_halted() {
            return Reply::Closed;
        }
        self.core.ended(no, finish)
    }

    /// The link of a connection is lost, and Nothing is answered: its unused cookies are taken
    /// back, so that their children exit, then its process exits, and its open calls and queued
    /// frames are dropped. This takes no memory.
    ///
    /// Closed comes where the connection is over already or was never opened, or the server has
    /// halted, and then all is as it was.
    pub fn lost(&mut self, no: ConnNo) -> Reply
        ensures plays { (result, self.new) ≡ played true self.old (Event.Lost no) }
    {
        if self.core.is_halted() {
            return Reply::Closed;
        }
        self.core.lost(no)
    }

    /// The server is to take nothing more: from then on every event is answered Closed, and changes
    /// nothing.
    ///
    /// NotQuiet comes where a client may still send something, and then all is as it was. This
    /// takes no memory.
    pub fn halt(&mut self) -> Reply
        ensures plays { (result, self.new) ≡ played true self.old Event.Halt }
    {
        if self.core.is_halted() {
            return Reply::Closed;
        }
        self.core.halt()
    }

    /// The lowest number above a number under which a call of the connection is open and not
    /// performed; this takes no memory.
    ///
    /// None comes where there is no such call, as on a connection that was never opened.
    pub fn lowest_task(&self, no: ConnNo, above: ReqNo) -> Option<ReqNo>
        ensures { IsLowest (open_calls self.now no) above result }
    {
        self.core.lowest_task(no, above)
    }

    /// Whether no frame is queued, and no call is still to be performed; this takes no memory.
    pub fn is_idle(&self) -> bool
        ensures { result ≡ is_idle self.now }
    {
        self.core.is_idle()
    }

    /// An event happens; the answer is that of the method of the event's name.
    pub fn play(&mut self, event: Event) -> Reply
        ensures plays { Plays self.old event result self.new }
        ensures fits { (frame : Frame) → result ≡ Reply.Out frame → Fits frame }
    {
        match event {
            Event::Opened(no) => self.opened(no),
            Event::Frame(no, frame, salt) => self.frame(no, frame, salt),
            Event::Work(no, number) => self.work(no, number),
            Event::Take(no) => self.take(no),
            Event::Ended(no, finish) => self.ended(no, finish),
            Event::Lost(no) => self.lost(no),
            Event::Halt => self.halt(),
        }
    }
}
