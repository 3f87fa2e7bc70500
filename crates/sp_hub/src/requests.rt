ghost use Rattle.std.specs.Prelude.{◌≡◌, false, IfOk, IsSome, IsTrue, OnErr, OnOk, Some};
ghost use Rattle.std.specs.FinMap as map;
ghost use Rattle.kern_model.specs.Journal.{next_entry, state_after};
ghost use Rattle.kern_model.specs.declared.journal.Who.TheVariants.{Request};
ghost use Rattle.kern_model.specs.declared.operation.Op.TheVariants as op;
ghost use Rattle.sp_hub.specs.At.{condition_in, verdict_at};
ghost use Rattle.hub_model.specs.Ends.{drain};
ghost use Rattle.hub_model.specs.Frames.{answered_kind, last_error};
ghost use Rattle.hub_model.specs.Journal.{nothing_read};
ghost use Rattle.hub_model.specs.Machine.{Plays, frame_takes};
ghost use Rattle.hub_model.specs.Requests as requests;
ghost use Rattle.hub_model.specs.Sound.{IsSound};
ghost use Rattle.hub_model.specs.State as state;
ghost use Rattle.hub_model.specs.State.{speaks};
ghost use Rattle.hub_model.specs.declared.event.Event.TheVariants as event;
ghost use Rattle.hub_model.specs.declared.event.Reply.TheVariants as reply;
ghost use Rattle.hub_model.specs.declared.state.OpenCall.{OpenCall};
ghost use Rattle.sp_base.specs.declared.names.SpError.TheVariants as error;
ghost use Rattle.sp_frames.specs.declared.frame.Frame.{Frame};

use crate::connection::Connection;
use crate::machine::Core;
use crate::{frames, verdict};
use hub_model::{Handover, Reply, Verdict};
use sp_base::{Call, ConnNo, Errno, NoMemory, Octets, Place, ReqNo, SpError};
use sp_frames::{Body, Frame};
use std::alloc::Global;

/// The bytes that a copy brings, moved out of its frame.
fn bytes_in(alloc: Global, body: Body) -> Octets
    ensures { result ≡ requests.bytes_in body }
{
    match body {
        Body::GotBytes { bytes, .. } | Body::GotText { bytes, .. } => bytes,
        _ => Octets::none(alloc),
    }
}

impl Core {
    /// A frame comes over a connection.
    ///
    /// NoMemory comes where memory is refused that its reply would take, and then all is as it was.
    pub(crate) fn frame(&mut self, no: ConnNo, frame: Frame, salt: u64) -> Reply
        requires running { self.old.halted ≡ false }
        requires sound { IsSound self.old }
        ensures plays { Plays self.old (event.Frame no frame salt) result self.new }
    {
        let verdict = self.verdict(no, &frame);
        match self.follow(no, frame, salt, verdict) {
            Ok(reply) => reply,
            Err(NoMemory) => Reply::NoMemory,
        }
    }

    /// What becomes of a frame that comes over a connection; Closed where the connection is over or
    /// was never opened.
    fn verdict(&self, no: ConnNo, frame: &Frame) -> Verdict
        ensures { result ≡ verdict_at (state_after self.now.journal) self.now.cookies no frame.now
            (map.get self.now.connections no.0) }
    {
        match self.connections.get(no.0 as u64) {
            Some(connection) => {
                verdict::on_frame(&self.kernel, &self.cookies, no, connection, frame)
            }
            None => Verdict::Closed,
        }
    }

    /// A frame does what its verdict says. An error leaves all as it was.
    fn follow(
        &mut self,
        no: ConnNo,
        frame: Frame,
        salt: u64,
        verdict: Verdict,
    ) -> Result<Reply, NoMemory>
        requires sound { IsSound self.old }
        requires verdict { verdict ≡ verdict_at (state_after self.old.journal) self.old.cookies no
            frame (map.get self.old.connections no.0) }
        ensures reply { IfOk result (λ r. r
            ≡ (requests.frame_at self.old no frame salt (map.get self.old.connections no.0)).0) }
        ensures state { OnOk result (self.new
            ≡ (requests.frame_at self.old no frame salt (map.get self.old.connections no.0)).1) }
        ensures err { OnErr result (self.new ≡ self.old) }
        ensures takes { OnErr result (IsTrue (frame_takes
            (requests.frame_at self.old no frame salt (map.get self.old.connections no.0)).0)) }
    {
        match verdict {
            Verdict::Closed => Ok(Reply::Closed),
            Verdict::Malformed => Ok(self.malformed(no, &frame)),
            Verdict::Refused(why) => self.refuse(no, &frame, why),
            Verdict::Attach => self.attach(no, &frame),
            Verdict::Join(cookie) => self.join(no, &frame, cookie),
            Verdict::Image(cookie) => self.image(no, &frame, cookie),
            Verdict::Fork => self.fork(no, &frame, salt),
            Verdict::Ready => self.ready(no, &frame, salt),
            Verdict::Cancel(cookie) => self.cancel(no, &frame, cookie),
            Verdict::Task(call) => self.open_call(no, &frame, call),
            Verdict::Copy => self.add_copy(no, frame.number, bytes_in(self.alloc, frame.body)),
            Verdict::CopyFault(error) => {
                self.fail_call(no, frame.number, error);
                Ok(Reply::Task(frame.number))
            }
        }
    }

    /// A frame is malformed: its connection drains; takes no memory.
    fn malformed(&mut self, no: ConnNo, frame: &Frame) -> Reply
        requires sound { IsSound self.old }
        requires there { IsSome (map.get self.old.connections no.0) }
        requires speaks { (x : state.Connection) → map.get self.old.connections no.0 ≡ Some x
            → IsTrue (speaks x.condition) }
        ensures reply { result ≡ reply.Refused error.Malformed }
        ensures state { (x : state.Connection) → map.get self.old.connections no.0 ≡ Some x
            → self.new ≡ (drain result self.old no x
            (last_error frame.now.number (answered_kind frame.now.body))).1 }
    {
        if let Some(condition) = self.condition(no) {
            let error = frames::last_error(frame.number, frames::answered_kind(&frame.body));
            self.drain(no, condition, error);
        }
        Reply::Refused(SpError::Malformed)
    }

    /// A guest's handshake is performed: the connection speaks for the new process, and its
    /// response is queued.
    fn attach(&mut self, no: ConnNo, frame: &Frame) -> Result<Reply, NoMemory>
        requires there { IsSome (map.get self.old.connections no.0) }
        requires speaks { (x : state.Connection) → map.get self.old.connections no.0 ≡ Some x
            → IsTrue (speaks x.condition) }
        ensures reply { IfOk result (λ r. r ≡ reply.Done) }
        ensures state { (x : state.Connection) → map.get self.old.connections no.0 ≡ Some x
            → OnOk result (self.new ≡ (requests.attach self.old no x frame.now
            (next_entry self.old.journal requests.no_process
            (Request no frame.now.number) op.Attach nothing_read)).1) }
        ensures err { OnErr result (self.new ≡ self.old) }
    {
        let mut connection = Connection::blank(self.alloc);
        self.connections.swap(no.0 as u64, &mut connection);
        let place = Place(self.kernel.journal().len() as u64);
        let result = connection.attach(&mut self.kernel, no, frame.number);
        self.connections.swap(no.0 as u64, &mut connection);
        result?;
        self.note(Handover::Attached(no, place));
        Ok(Reply::Done)
    }

    /// A request is refused: its error is queued, and its number is used up.
    fn refuse(&mut self, no: ConnNo, frame: &Frame, why: SpError) -> Result<Reply, NoMemory>
        requires { IsSome (map.get self.old.connections no.0) }
        ensures reply { (x : state.Connection) → map.get self.old.connections no.0 ≡ Some x
            → IfOk result (λ r. r ≡ (requests.refuse self.old no x frame.now why
            (answered_kind frame.now.body)).0) }
        ensures state { (x : state.Connection) → map.get self.old.connections no.0 ≡ Some x
            → OnOk result (self.new ≡ (requests.refuse self.old no x frame.now why
            (answered_kind frame.now.body)).1) }
        ensures err { OnErr result (self.new ≡ self.old) }
    {
        let Some(kind) = frames::answered_kind(&frame.body) else {
            return Ok(Reply::Refused(why));
        };
        let error = frames::refusal(frame.number, kind, why);
        let mut connection = Connection::blank(self.alloc);
        self.connections.swap(no.0 as u64, &mut connection);
        let result = connection.answer(frame.number, error);
        self.connections.swap(no.0 as u64, &mut connection);
        result?;
        Ok(Reply::Refused(why))
    }

    /// A call is open from its request on.
    fn open_call(&mut self, no: ConnNo, frame: &Frame, call: Call) -> Result<Reply, NoMemory>
        requires { IsSome (map.get self.old.connections no.0) }
        ensures reply { IfOk result (λ r. r ≡ reply.Task frame.now.number) }
        ensures state { (x : state.Connection) → map.get self.old.connections no.0 ≡ Some x
            → OnOk result (self.new ≡ (requests.open_task self.old no x frame.now call).1) }
        ensures err { OnErr result (self.new ≡ self.old) }
    {
        let mut connection = Connection::blank(self.alloc);
        self.connections.swap(no.0 as u64, &mut connection);
        let result = connection.open_call(frame.number, call);
        self.connections.swap(no.0 as u64, &mut connection);
        result?;
        Ok(Reply::Task(frame.number))
    }

    /// A call goes on with the bytes of a copy.
    fn add_copy(&mut self, no: ConnNo, number: ReqNo, bytes: Octets) -> Result<Reply, NoMemory>
        requires there { IsSome (map.get self.old.connections no.0) }
        requires call { (x : state.Connection) → map.get self.old.connections no.0 ≡ Some x
            → IsSome (map.get x.calls number.0) }
        ensures reply { IfOk result (λ r. r ≡ reply.Task number) }
        ensures state { (x : state.Connection) (t : OpenCall)
            → map.get self.old.connections no.0 ≡ Some x → map.get x.calls number.0 ≡ Some t
            → OnOk result (self.new ≡ state.with_connection self.old no (record x {
              calls = map.insert x.calls number.0 (requests.with_copy t bytes);
            })) }
        ensures err { OnErr result (self.new ≡ self.old) }
    {
        let mut connection = Connection::blank(self.alloc);
        self.connections.swap(no.0 as u64, &mut connection);
        let result = connection.add_copy(number, bytes);
        self.connections.swap(no.0 as u64, &mut connection);
        result?;
        Ok(Reply::Task(number))
    }

    /// The asking of a call ends with an error; takes no memory.
    fn fail_call(&mut self, no: ConnNo, number: ReqNo, error: Errno)
        requires there { IsSome (map.get self.old.connections no.0) }
        requires call { (x : state.Connection) → map.get self.old.connections no.0 ≡ Some x
            → IsSome (map.get x.calls number.0) }
        ensures { (x : state.Connection) (t : OpenCall)
            → map.get self.old.connections no.0 ≡ Some x → map.get x.calls number.0 ≡ Some t
            → self.new ≡ state.with_connection self.old no (record x {
              calls = map.insert x.calls number.0 (requests.with_error t error);
            }) }
    {
        let mut connection = Connection::blank(self.alloc);
        self.connections.swap(no.0 as u64, &mut connection);
        connection.fail_call(number, error);
        self.connections.swap(no.0 as u64, &mut connection);
    }
}
