ghost use Rattle.std.specs.Prelude.{◌≡◌, ◌↔◌, ◌∷◌, ◌++◌, [], Some, None, IfOk, IfSome, OnOk, OnErr, IsTrue, IsSome, MatchOption, is_some, false, length, slice_get};
ghost use Rattle.std.specs.Option.{option_copied};
ghost use Rattle.std.specs.FinMap as map;
ghost use Rattle.kern_model.specs.Journal.{next_entry};
ghost use Rattle.kern_model.specs.declared.journal.Who.TheVariants.{Request};
ghost use Rattle.kern_model.specs.declared.operation.Op.TheVariants as op;
ghost use Rattle.sp_base.specs.declared.call.Call.{Call};
ghost use Rattle.sp_base.specs.declared.need.Need.{Need};
ghost use Rattle.sp_base.specs.Needs.{needs_of};
ghost use Rattle.sp_frames.specs.Grammar.{Fits};
ghost use Rattle.sp_hub.specs.AtOnce.{IsIdle};
ghost use Rattle.sp_hub.specs.Calls.{waits_in, with_ask};
ghost use Rattle.sp_hub.specs.Kernel.{Attaches};
ghost use Rattle.sp_hub.specs.Room.{HasExitRoom};
ghost use Rattle.hub_model.specs.Ends.{draining};
ghost use Rattle.hub_model.specs.Frames.{ask, hello, refusal};
ghost use Rattle.hub_model.specs.Journal.{nothing_read};
ghost use Rattle.hub_model.specs.Requests.{no_process, with_copy, with_error};
ghost use Rattle.hub_model.specs.Sound.{is_waiting};
ghost use Rattle.hub_model.specs.State as state;
ghost use Rattle.hub_model.specs.State.{speaks, fresh_connection};
ghost use Rattle.hub_model.specs.Task.{IsLowest};
ghost use Rattle.hub_model.specs.Work.{calls_after};
ghost use Rattle.hub_model.specs.declared.state.Condition.TheVariants as condition;
ghost use Rattle.hub_model.specs.declared.state.OpenCall.{OpenCall};
ghost use Rattle.hub_model.specs.declared.state.OpenCall.TheVariants as task;

mod handing;
mod perform;
mod still;

use crate::{frames, kernel};
use hub_model::{Condition, OpenCall};
use kern_calls::Kernel;
use kern_model::Pieces;
use sp_base::{Call, ConnNo, Errno, Items, KeptQueue, NoMemory, Octets, Pid, ReqNo, SpError};
use sp_frames::{Body, Frame};
use std::alloc::Global;
use std::marker::Model;
use tables::Table;

/// A connection that isn't over.
///
/// While its client may send something its queue keeps room for an error of each call that waits,
/// and for its last error. Each frame in the queue is within its row.
#[derive(Drop)]
pub(crate) struct Connection {
    alloc: Global,
    condition: Condition,
    last: u64,
    calls: Table<OpenCall>,
    queue: KeptQueue<Frame>,
}

impl Model for Connection {
    ghost use Rattle.sp_hub.specs.Room.{IsQueue};
    ghost use Rattle.hub_model.specs.State as state;
    ghost use Rattle.hub_model.specs.Code.{connection_code};

    ghost Value = { state.Connection };

    ghost coded = { connection_code };

    ghost view = { λ x. record { condition = x.condition; last = x.last; calls = x.calls; queue = x.queue.items } };

    ghost invariant = { λ x. IsQueue x.condition x.calls x.queue };
}

impl Connection {
    /// A connection that was just opened, with the room for its last error.
    pub(crate) fn fresh(alloc: Global) -> Result<Connection, NoMemory>
        ensures { IfOk result (λ connection. connection ≡ fresh_connection) }
    {
        let mut queue = KeptQueue::none(alloc);
        queue.keep(1)?;
        Ok(Connection {
            alloc,
            condition: Condition::Fresh,
            last: 0,
            calls: Table::new(alloc),
            queue,
        })
    }

    /// A connection in place of one that is taken out; takes no memory.
    pub(crate) fn blank(alloc: Global) -> Connection {
        Connection {
            alloc,
            condition: Condition::Draining,
            last: 0,
            calls: Table::new(alloc),
            queue: KeptQueue::none(alloc),
        }
    }

    /// How far it is.
    pub(crate) fn condition(&self) -> Condition
        ensures { result ≡ self.now.condition }
    {
        self.condition
    }

    /// Whether its client may still send something.
    pub(crate) fn speaks(&self) -> bool
        ensures { result ≡ speaks self.now.condition }
    {
        !matches!(self.condition, Condition::Draining)
    }

    /// Whether no frame is queued.
    pub(crate) fn is_quiet(&self) -> bool
        ensures { IsTrue result ↔ (self.now.queue ≡ []) }
    {
        self.queue.is_empty()
    }

    /// The highest number of a request that was taken, 0 before the first one.
    pub(crate) fn last(&self) -> u64
        ensures { result ≡ self.now.last }
    {
        self.last
    }

    /// The process that it speaks for, where no call is open and no frame is queued; else None.
    pub(crate) fn idle_process(&self) -> Option<Pid>
        ensures { IfSome result (IsIdle self.now) }
    {
        match self.condition {
            Condition::Live(pid) if self.calls.len() == 0 && self.queue.is_empty() => Some(pid),
            _ => None,
        }
    }

    /// A request of this number was taken.
    pub(crate) fn use_number(&mut self, number: ReqNo)
        ensures { self.new ≡ record self.old { last = number.0 } }
    {
        self.last = number.0;
    }

    /// How many calls are open.
    pub(crate) fn open_count(&self) -> usize
        ensures { result ≡ map.len self.now.calls }
    {
        self.calls.len()
    }

    /// The open call of a number; None where there is none.
    pub(crate) fn call(&self, number: ReqNo) -> Option<&OpenCall>
        ensures { option_copied result ≡ map.get self.now.calls number.0 }
    {
        self.calls.get(number.0)
    }

    /// Whether the call of a number is open, and isn't performed yet.
    fn waits(&self, number: u64) -> bool
        ensures { result ≡ waits_in (map.get self.now.calls number) }
    {
        !matches!(self.calls.get(number), Some(OpenCall::Answers) | None)
    }

    /// The lowest number above a number under which a call is open and not performed; None where
    /// there is none.
    pub(crate) fn lowest_task(&self, above: ReqNo) -> Option<ReqNo>
        ensures { IsLowest self.now.calls above result }
    {
        let number = self
            .calls
            .keys()
            .find(|number| **number > above.0 && self.waits(**number))?;
        Some(ReqNo(*number))
    }

    /// Drains it: it drops its calls, takes nothing more, and sends what is queued, with an error
    /// as its last frame.
    pub(crate) fn drain(&mut self, error: Frame)
        requires speaks { IsTrue (speaks self.old.condition) }
        requires fits { Fits error }
        ensures { self.new ≡ draining self.old error }
    {
        self.condition = Condition::Draining;
        self.calls = Table::new(self.alloc);
        self.queue.put_kept(error);
    }

    /// Answers a request with a response or an error, by which its number is used up. An error
    /// leaves all as it was.
    pub(crate) fn answer(&mut self, number: ReqNo, frame: Frame) -> Result<(), NoMemory>
        requires { Fits frame }
        ensures ok { OnOk result (self.new ≡ record self.old { last = number.0; queue = self.old.queue ++ frame ∷ [] }) }
        ensures err { OnErr result (self.new ≡ self.old) }
    {
        self.queue.keep(1)?;
        self.queue.put_kept(frame);
        self.last = number.0;
        Ok(())
    }

    /// Takes the oldest queued frame away; a response ends its call.
    pub(crate) fn take(&mut self) -> Option<Frame>
        ensures fits { IfSome result Fits }
        ensures state { MatchOption result ((self.old.queue ≡ []) × (self.new ≡ self.old))
            (λ f. (self.old.queue ≡ f ∷ self.new.queue)
            × (self.new ≡ record self.old { calls = calls_after self.old.calls f; queue = self.new.queue })) }
    {
        let frame = self.queue.take()?;
        if matches!(frame.body, Body::Answered(_) | Body::Refused { .. }) {
            self.calls.remove(frame.number.0);
        }
        Some(frame)
    }

    /// Opens a call, with the room for its error. An error leaves all as it was.
    pub(crate) fn open_call(&mut self, number: ReqNo, call: Call) -> Result<(), NoMemory>
        ensures ok { OnOk result (self.new ≡ record self.old {
          last = number.0;
          calls = map.insert self.old.calls number.0 (task.Gathers call [] false);
        }) }
        ensures err { OnErr result (self.new ≡ self.old) }
    {
        self.queue.keep(1)?;
        let task = OpenCall::Gathers {
            call,
            got: Items::none(self.alloc),
            asked: false,
        };
        match self.calls.insert(number.0, task) {
            Ok(()) => {
                self.last = number.0;
                Ok(())
            }
            Err(NoMemory) => {
                self.queue.free(1);
                Err(NoMemory)
            }
        }
    }

    /// Makes it the connection of a new process, with the response of its handshake behind the
    /// queued frames.
    ///
    /// An error leaves it and the journal as they were.
    pub(crate) fn attach(
        &mut self,
        kernel: &mut Kernel,
        no: ConnNo,
        number: ReqNo,
    ) -> Result<Pid, NoMemory>
        requires speaks { IsTrue (speaks self.old.condition) }
        requires room { HasExitRoom kernel.old }
        ensures journal { IfOk result (λ pid. Attaches kernel.old.items
            (next_entry kernel.old.items no_process (Request no number) op.Attach nothing_read) pid kernel.new.items) }
        ensures ok { IfOk result (λ pid. self.new ≡ record self.old {
          condition = condition.Live pid;
          last = number.0;
          queue = self.old.queue ++ hello number pid.0 ∷ [];
        }) }
        ensures err { OnErr result (self.new ≡ self.old) }
        ensures err_journal { OnErr result (kernel.new.items ≡ kernel.old.items) }
        ensures room { HasExitRoom kernel.new }
    {
        self.queue.keep(1)?;
        match kernel::attach(kernel, no, number) {
            Ok(pid) => {
                self.queue.put_kept(frames::hello(number, pid));
                self.condition = Condition::Live(pid);
                self.last = number.0;
                Ok(pid)
            }
            Err(NoMemory) => {
                self.queue.free(1);
                Err(NoMemory)
            }
        }
    }

    /// Adds the bytes of a copy to what its call has gathered. An error leaves all as it was.
    pub(crate) fn add_copy(&mut self, number: ReqNo, bytes: Octets) -> Result<(), NoMemory>
        requires { IsSome (map.get self.old.calls number.0) }
        ensures ok { OnOk result ((t : OpenCall) → map.get self.old.calls number.0 ≡ Some t
            → self.new ≡ record self.old { calls = map.insert self.old.calls number.0 (with_copy t bytes) }) }
        ensures err { OnErr result (self.new ≡ self.old) }
    {
        let mut task = OpenCall::Answers;
        self.calls.swap(number.0, &mut task);
        let result = add_copy(&mut task, bytes);
        self.calls.swap(number.0, &mut task);
        result
    }

    /// Ends the asking of a call with an error.
    pub(crate) fn fail_call(&mut self, number: ReqNo, error: Errno)
        requires { IsSome (map.get self.old.calls number.0) }
        ensures { (t : OpenCall) → map.get self.old.calls number.0 ≡ Some t
            → self.new ≡ record self.old { calls = map.insert self.old.calls number.0 (with_error t error) } }
    {
        let mut task = OpenCall::Answers;
        self.calls.swap(number.0, &mut task);
        let mut failed = with_error(task, error);
        self.calls.swap(number.0, &mut failed);
    }

    /// Queues an ask for what a call reads next. An error leaves all as it was.
    pub(crate) fn ask(&mut self, number: ReqNo, ask: Frame) -> Result<(), NoMemory>
        requires call { IsSome (map.get self.old.calls number.0) }
        requires fits { Fits ask }
        ensures ok { OnOk result ((t : OpenCall) → map.get self.old.calls number.0 ≡ Some t
            → self.new ≡ record self.old { calls = map.insert self.old.calls number.0 (with_ask t); queue = self.old.queue ++ ask ∷ [] }) }
        ensures err { OnErr result (self.new ≡ self.old) }
    {
        self.queue.keep(1)?;
        self.queue.put_kept(ask);
        let mut task = OpenCall::Answers;
        self.calls.swap(number.0, &mut task);
        let mut asked = with_ask(task);
        self.calls.swap(number.0, &mut asked);
        Ok(())
    }
}

/// Adds the bytes of a copy to a call that gathers. An error leaves all as it was.
fn add_copy(task: &mut OpenCall, bytes: Octets) -> Result<(), NoMemory>
    ensures ok { OnOk result (task.new ≡ with_copy task.old bytes) }
    ensures err { OnErr result (task.new ≡ task.old) }
    ensures waits { is_waiting task.new ≡ is_waiting task.old }
{
    match task {
        OpenCall::Gathers { got, asked, .. } => {
            got.push(bytes)?;
            *asked = false;
            Ok(())
        }
        _ => Ok(()),
    }
}

/// A call whose asking has ended with an error.
fn with_error(task: OpenCall, error: Errno) -> OpenCall
    ensures call { result ≡ with_error task error }
    ensures waits { is_waiting result ≡ is_waiting task }
{
    match task {
        OpenCall::Gathers { call, got, .. } => {
            drop(got);
            OpenCall::Fails { call, error }
        }
        OpenCall::Fails { call, error } => OpenCall::Fails { call, error },
        OpenCall::Answers => OpenCall::Answers,
    }
}

/// A call that waits for a copy.
fn with_ask(task: OpenCall) -> OpenCall
    ensures call { result ≡ with_ask task }
    ensures waits { is_waiting result ≡ is_waiting task }
{
    match task {
        OpenCall::Gathers { call, got, .. } => OpenCall::Gathers {
            call,
            got,
            asked: true,
        },
        OpenCall::Fails { call, error } => OpenCall::Fails { call, error },
        OpenCall::Answers => OpenCall::Answers,
    }
}
