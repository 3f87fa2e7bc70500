ghost use Rattle.std.specs.Prelude.{◌≡◌, ◌≢◌, false, true, IfOk, IsSome, IsTrue, OnErr, OnOk, Some};
ghost use Rattle.std.specs.Option.{option_copied};
ghost use Rattle.std.specs.FinMap as map;
ghost use Rattle.std.specs.List.{list_any};
ghost use Rattle.kern_model.specs.Journal.{state_after};
ghost use Rattle.sp_frames.specs.Grammar.{Fits};
ghost use Rattle.sp_frames.specs.declared.frame.Frame as frame;
ghost use Rattle.sp_hub.specs.At.{condition_in};
ghost use Rattle.hub_model.specs.Cookies.{ledger_of, with_ledger};
ghost use Rattle.hub_model.specs.Ends.{close, drain, left_by};
ghost use Rattle.hub_model.specs.Journal.{exit_of};
ghost use Rattle.hub_model.specs.Machine.{Plays, played, any_speaks, open_new, is_new};
ghost use Rattle.hub_model.specs.Sound.{IsSound};
ghost use Rattle.hub_model.specs.State as state;
ghost use Rattle.hub_model.specs.State.{fresh_machine, speaks};
ghost use Rattle.hub_model.specs.Still.{has_work, is_idle};
ghost use Rattle.hub_model.specs.Task.{IsLowest, open_calls};
ghost use Rattle.hub_model.specs.declared.event.Event.TheVariants as event;
ghost use Rattle.hub_model.specs.declared.event.Reply.TheVariants as reply;
ghost use Rattle.sp_base.specs.declared.names.Pid.{Pid};
ghost use Rattle.sp_base.specs.Table.{at};

use crate::connection::Connection;
use crate::{frames, kernel};
use history::Log;
use hub_model::{Condition, Finish, Handover, Reply};
use kern_calls::Kernel;
use kern_model::{Entry, Who};
use sp_base::{ConnNo, NoMemory, Pid, ReqNo};
use sp_fork::Cookies;
use sp_frames::{Frame, Version};
use std::alloc::Global;
use std::marker::Model;
use tables::Table;

/// What the server holds, without what holds of it: it keeps room for the exit of each process.
///
/// What was done to hand processes over is noted for proofs alone, the oldest first.
#[derive(Drop)]
pub(crate) struct Core {
    pub(crate) alloc: Global,
    version: Version,
    pub(crate) kernel: Kernel,
    pub(crate) connections: Table<Connection>,
    pub(crate) cookies: Cookies,
    pub(crate) handovers: Log<Handover>,
    opened: Option<u32>,
    halted: bool,
}

impl Model for Core {
    ghost use Rattle.std.specs.Prelude.{reverse};
    ghost use Rattle.sp_hub.specs.Room.{HasExitRoom};
    ghost use Rattle.hub_model.specs.Code.{machine_code};
    ghost use Rattle.hub_model.specs.State.{Machine};

    ghost Value = { Machine };

    ghost coded = { machine_code };

    ghost view = { λ h. record {
      version = h.version;
      journal = h.kernel.items;
      connections = h.connections;
      cookies = h.cookies;
      handovers = reverse h.handovers.items;
      opened = h.opened;
      halted = h.halted;
    } };

    ghost invariant = { λ h. HasExitRoom h.kernel };
}

/// The process that a connection of a condition speaks for.
pub(crate) fn process_in(condition: Condition) -> Option<Pid>
    ensures { result ≡ state.process_in condition }
{
    match condition {
        Condition::Live(pid) | Condition::InExec(pid) => Some(pid),
        _ => None,
    }
}

impl Core {
    /// A server to which nothing happened.
    pub(crate) fn fresh(alloc: Global, version: Version) -> Result<Core, NoMemory>
        ensures { IfOk result (λ core. core ≡ fresh_machine version) }
    {
        Ok(Core {
            alloc,
            version,
            kernel: Kernel::fresh(alloc)?,
            connections: Table::new(alloc),
            cookies: Cookies::fresh(alloc),
            handovers: Log::new(),
            opened: None,
            halted: false,
        })
    }

    /// Whether the server has halted.
    pub(crate) fn is_halted(&self) -> bool
        ensures { result ≡ self.now.halted }
    {
        self.halted
    }

    /// All that was performed, in order.
    pub(crate) fn journal(&self) -> &[Entry]
        ensures { result.now ≡ self.now.journal }
    {
        self.kernel.journal()
    }

    /// Whether a number is above every one that was opened.
    fn is_new(&self, no: ConnNo) -> bool
        ensures { result ≡ is_new self.now.opened no.0 }
    {
        match self.opened {
            None => true,
            Some(highest) => highest < no.0,
        }
    }

    /// A connection opens.
    ///
    /// NoMemory comes where memory is refused that its reply would take, and then all is as it was.
    pub(crate) fn opened(&mut self, no: ConnNo) -> Reply
        requires { self.old.halted ≡ false }
        ensures plays { Plays self.old (event.Opened no) result self.new }
    {
        match self.open_new(no) {
            Ok(reply) => reply,
            Err(NoMemory) => Reply::NoMemory,
        }
    }

    /// A connection opens, where its number is above every one that was opened. An error leaves all
    /// as it was.
    fn open_new(&mut self, no: ConnNo) -> Result<Reply, NoMemory>
        ensures reply { IfOk result (λ r. r ≡ (open_new self.old no).0) }
        ensures state { OnOk result (self.new ≡ (open_new self.old no).1) }
        ensures err { OnErr result (self.new ≡ self.old) }
        ensures takes { OnErr result ((open_new self.old no).0 ≡ reply.Nothing) }
    {
        if !self.is_new(no) {
            return Ok(Reply::Closed);
        }
        let connection = Connection::fresh(self.alloc)?;
        self.connections.insert(no.0 as u64, connection)?;
        self.opened = Some(no.0);
        Ok(Reply::Nothing)
    }

    /// How far a connection is; None where it is over or was never opened.
    pub(crate) fn condition(&self, no: ConnNo) -> Option<Condition>
        ensures { result ≡ condition_in (map.get self.now.connections no.0) }
    {
        Some(self.connections.get(no.0 as u64)?.condition())
    }

    /// The oldest queued frame of a connection is handed out; takes no memory.
    pub(crate) fn take(&mut self, no: ConnNo) -> Reply
        requires { self.old.halted ≡ false }
        ensures plays { (result, self.new) ≡ played true self.old (event.Take no) }
        ensures fits { (frame : frame.Frame) → result ≡ reply.Out frame → Fits frame }
        ensures memory { result ≢ reply.NoMemory }
    {
        let Some(connection) = self.connections.get(no.0 as u64) else {
            return Reply::Closed;
        };
        if connection.is_quiet() {
            return if connection.speaks() {
                Reply::Nothing
            } else {
                Reply::Closed
            };
        }
        let mut connection = Connection::blank(self.alloc);
        self.connections.swap(no.0 as u64, &mut connection);
        let head = connection.take();
        self.connections.swap(no.0 as u64, &mut connection);
        match head {
            Some(frame) => Reply::Out(frame),
            None => unreachable!(),
        }
    }

    /// The process of a connection exits, where it has one; takes no memory.
    fn exit(&mut self, no: ConnNo, condition: Condition)
        requires { (pid : Pid) → state.process_in condition ≡ Some pid
            → IsSome (at (state_after self.old.journal).processes pid.0) }
        ensures { self.new ≡ record self.old {
          journal = exit_of self.old.journal no (state.process_in condition);
        } }
    {
        if let Some(pid) = process_in(condition) {
            kernel::exit(&mut self.kernel, Who::End(no), pid);
        }
    }

    /// A connection goes: its unused cookies are taken back, and then its process exits; takes no
    /// memory.
    #[tactic(auto, using(crate::proofs::Backs::processes, crate::proofs::Backs::still_live))]
    fn go(&mut self, no: ConnNo, condition: Condition)
        requires sound { IsSound self.old }
        requires at { condition_in (map.get self.old.connections no.0) ≡ Some condition }
        ensures { self.new ≡ with_ledger self.old
            (left_by (ledger_of self.old) no (state.process_in condition)) }
    {
        self.take_all_back(no);
        self.exit(no, condition);
    }

    /// A connection that speaks drains, with an error as its last frame; takes no memory.
    #[tactic(auto, using(crate::proofs::At::there))]
    pub(crate) fn drain(&mut self, no: ConnNo, condition: Condition, error: Frame)
        requires sound { IsSound self.old }
        requires at { condition_in (map.get self.old.connections no.0) ≡ Some condition }
        requires speaks { IsTrue (speaks condition) }
        requires fits { Fits error }
        ensures { (x : state.Connection) → map.get self.old.connections no.0 ≡ Some x
            → self.new ≡ (drain reply.Nothing self.old no x error).1 }
    {
        self.go(no, condition);
        let mut connection = Connection::blank(self.alloc);
        self.connections.swap(no.0 as u64, &mut connection);
        connection.drain(error);
        self.connections.swap(no.0 as u64, &mut connection);
    }

    /// A connection is over; takes no memory.
    fn close(&mut self, no: ConnNo, condition: Condition)
        requires sound { IsSound self.old }
        requires at { condition_in (map.get self.old.connections no.0) ≡ Some condition }
        ensures { (x : state.Connection) → map.get self.old.connections no.0 ≡ Some x
            → self.new ≡ (close self.old no x).1 }
    {
        self.go(no, condition);
        self.connections.remove(no.0 as u64);
    }

    /// The input of a connection ends; takes no memory.
    pub(crate) fn ended(&mut self, no: ConnNo, finish: Finish) -> Reply
        requires running { self.old.halted ≡ false }
        requires sound { IsSound self.old }
        ensures plays { (result, self.new) ≡ played true self.old (event.Ended no finish) }
    {
        let Some(condition) = self.condition(no) else {
            return Reply::Closed;
        };
        match (condition, finish) {
            (Condition::Live(_), Finish::Bad(_)) => {
                self.drain(no, condition, frames::last_error(ReqNo(0), None));
            }
            _ => self.close(no, condition),
        }
        Reply::Nothing
    }

    /// The link of a connection is lost; takes no memory.
    pub(crate) fn lost(&mut self, no: ConnNo) -> Reply
        requires running { self.old.halted ≡ false }
        requires sound { IsSound self.old }
        ensures plays { (result, self.new) ≡ played true self.old (event.Lost no) }
    {
        let Some(condition) = self.condition(no) else {
            return Reply::Closed;
        };
        self.close(no, condition);
        Reply::Nothing
    }

    /// Whether some client may still send something.
    fn any_speaks(&self) -> bool
        ensures { result ≡ any_speaks self.now }
    {
        self.connections
            .values()
            .any(|connection| connection.speaks())
    }

    /// Whether some connection has something to do.
    fn has_work(&self) -> bool
        ensures { result ≡ list_any has_work (map.values self.now.connections) }
    {
        self.connections
            .values()
            .any(|connection| connection.has_work())
    }

    /// Whether no frame is queued, and no call is still to be performed.
    pub(crate) fn is_idle(&self) -> bool
        ensures { result ≡ is_idle self.now }
    {
        !self.has_work()
    }

    /// The server is to take nothing more.
    pub(crate) fn halt(&mut self) -> Reply
        requires { self.old.halted ≡ false }
        ensures plays { (result, self.new) ≡ played true self.old event.Halt }
    {
        if self.any_speaks() {
            return Reply::NotQuiet;
        }
        self.halted = true;
        Reply::Closed
    }

    /// The lowest number above a number under which a call of the connection is open and not
    /// performed.
    pub(crate) fn lowest_task(&self, no: ConnNo, above: ReqNo) -> Option<ReqNo>
        ensures { IsLowest (open_calls self.now no) above result }
    {
        self.connections.get(no.0 as u64)?.lowest_task(above)
    }
}
