ghost use Rattle.std.specs.Prelude.{◌≡◌, ◌∷◌, ◌++◌, [], false, length};
ghost use Rattle.std.specs.Prelude.{IfOk, IsSome, IsTrue, OnErr, OnOk};
ghost use Rattle.kern_model.specs.Journal.{next_entry, state_after};
ghost use Rattle.kern_model.specs.declared.journal.Who.TheVariants.{Request};
ghost use Rattle.kern_model.specs.declared.operation.Op.TheVariants as op;
ghost use Rattle.sp_base.specs.Table.{at, lowest_unused};
ghost use Rattle.sp_base.specs.declared.limits.TheConstants.{FIRST_PROCESS};
ghost use Rattle.sp_fork.specs.Jar.{IsJar, is_full, with_next};
ghost use Rattle.sp_fork.specs.declared.unused.CookieKind.TheVariants as kind;
ghost use Rattle.sp_frames.specs.Grammar.{Fits};
ghost use Rattle.hub_model.specs.Cookies.{handing, next_cookie};
ghost use Rattle.hub_model.specs.Frames.{cancelled, exec_ready, forked, imaged};
ghost use Rattle.hub_model.specs.Journal.{nothing_read};
ghost use Rattle.hub_model.specs.Requests.{after_cancel, left_over};
ghost use Rattle.hub_model.specs.State.{speaks};
ghost use Rattle.hub_model.specs.declared.state.Condition.TheVariants as condition;
ghost use Rattle.sp_hub.specs.Handing.{Enters, Forks};
ghost use Rattle.sp_hub.specs.Room.{HasExitRoom};

use crate::connection::Connection;
use crate::frames;
use crate::kernel::{self, Forked};
use hub_model::Condition;
use kern_calls::Kernel;
use kern_model::Op;
use sp_base::{ConnNo, Cookie, NoMemory, Pid, ReqNo};
use sp_fork::{CookieFault, CookieKind, Cookies};
use sp_frames::Frame;

impl Connection {
    /// Makes it speak for a process, with the response of its handshake behind the queued frames.
    /// An error leaves all as it was.
    pub(crate) fn speak_for(
        &mut self,
        pid: Pid,
        number: ReqNo,
        response: Frame,
    ) -> Result<(), NoMemory>
        requires speaks { IsTrue (speaks self.old.condition) }
        requires fits { Fits response }
        ensures ok { OnOk result (self.new ≡ record self.old {
          condition = condition.Live pid;
          last = number.0;
          queue = self.old.queue ++ response ∷ [];
        }) }
        ensures err { OnErr result (self.new ≡ self.old) }
    {
        self.answer(number, response)?;
        self.condition = Condition::Live(pid);
        Ok(())
    }

    /// Makes it speak for a process that goes on as its next program, by the exec of its handshake.
    /// An error leaves it and the journal as they were.
    pub(crate) fn image(
        &mut self,
        kernel: &mut Kernel,
        pid: Pid,
        no: ConnNo,
        number: ReqNo,
    ) -> Result<(), NoMemory>
        requires speaks { IsTrue (speaks self.old.condition) }
        requires live { IsSome (at (state_after kernel.old.items).processes pid.0) }
        requires room { HasExitRoom kernel.old }
        ensures journal { IfOk result (λ done. Enters kernel.old.items
            (next_entry kernel.old.items pid (Request no number) op.Exec nothing_read)
            kernel.new.items) }
        ensures ok { OnOk result (self.new ≡ record self.old {
          condition = condition.Live pid;
          last = number.0;
          queue = self.old.queue ++ imaged number pid (length kernel.old.items) ∷ [];
        }) }
        ensures err { OnErr result (self.new ≡ self.old) }
        ensures err_journal { OnErr result (kernel.new.items ≡ kernel.old.items) }
        ensures room { HasExitRoom kernel.new }
    {
        self.queue.keep(1)?;
        match kernel::hand_over(kernel, Op::Exec, pid, no, number) {
            Ok(place) => {
                self.queue.put_kept(frames::imaged(number, pid, place));
                self.condition = Condition::Live(pid);
                self.last = number.0;
                Ok(())
            }
            Err(NoMemory) => {
                self.queue.free(1);
                Err(NoMemory)
            }
        }
    }

    /// Forks its process, with the response behind the queued frames. An error leaves it, the
    /// journal and the cookies as they were.
    pub(crate) fn fork(
        &mut self,
        kernel: &mut Kernel,
        cookies: &mut Cookies,
        pid: Pid,
        no: ConnNo,
        number: ReqNo,
        salt: u64,
    ) -> Result<Forked, NoMemory>
        requires live { IsSome (at (state_after kernel.old.items).processes pid.0) }
        requires room { HasExitRoom kernel.old }
        requires jar { IsJar cookies.old }
        requires cookies { is_full cookies.old ≡ false }
        requires number { IsSome
            (lowest_unused (state_after kernel.old.items).processes FIRST_PROCESS) }
        ensures forks { IfOk result (λ made. Forks kernel.old.items cookies.old no salt
            (next_entry kernel.old.items pid (Request no number) op.Fork nothing_read)
            made kernel.new.items cookies.new) }
        ensures ok { IfOk result (λ made. self.new ≡ record self.old {
          last = number.0;
          queue = self.old.queue ++ forked number made.cookie made.place.0 made.child ∷ [];
        }) }
        ensures err { OnErr result (self.new ≡ self.old) }
        ensures err_journal { OnErr result (kernel.new.items ≡ kernel.old.items) }
        ensures err_cookies { OnErr result (cookies.new ≡ cookies.old) }
        ensures room { HasExitRoom kernel.new }
    {
        self.queue.keep(1)?;
        match kernel::fork(kernel, cookies, pid, no, number, salt) {
            Ok(made) => {
                let response = frames::forked(number, made.cookie, made.place, made.child);
                self.queue.put_kept(response);
                self.last = number.0;
                Ok(made)
            }
            Err(NoMemory) => {
                self.queue.free(1);
                Err(NoMemory)
            }
        }
    }

    /// Makes the cookie by which its process is to go on as its next program, with the response
    /// behind the queued frames.
    ///
    /// An error leaves it and the cookies as they were.
    pub(crate) fn ready(
        &mut self,
        cookies: &mut Cookies,
        pid: Pid,
        no: ConnNo,
        number: ReqNo,
        salt: u64,
    ) -> Result<Cookie, NoMemory>
        requires speaks { IsTrue (speaks self.old.condition) }
        requires cookies { is_full cookies.old ≡ false }
        ensures cookie { IfOk result (λ cookie. cookie ≡ next_cookie cookies.old salt) }
        ensures cookies { OnOk result (cookies.new
            ≡ with_next cookies.old (handing pid no salt kind.Exec)) }
        ensures ok { OnOk result (self.new ≡ record self.old {
          condition = condition.InExec pid;
          last = number.0;
          queue = self.old.queue ++ exec_ready number (next_cookie cookies.old salt) ∷ [];
        }) }
        ensures err { OnErr result (self.new ≡ self.old) }
        ensures err_cookies { OnErr result (cookies.new ≡ cookies.old) }
    {
        self.queue.keep(1)?;
        match cookies.make(pid, no, salt, CookieKind::Exec) {
            Ok(cookie) => {
                self.queue.put_kept(frames::exec_ready(number, cookie));
                self.condition = Condition::InExec(pid);
                self.last = number.0;
                Ok(cookie)
            }
            Err(CookieFault::NoMemory) => {
                self.queue.free(1);
                Err(NoMemory)
            }
            Err(CookieFault::Full) => unreachable!(),
        }
    }

    /// Answers that a cookie of a kind is taken back: without its exec cookie its process goes on
    /// as it is.
    ///
    /// An error leaves all as it was.
    pub(crate) fn cancelled(&mut self, number: ReqNo, kind: CookieKind) -> Result<(), NoMemory>
        ensures ok { OnOk result (self.new ≡ record self.old {
          condition = after_cancel kind self.old.condition;
          last = number.0;
          queue = self.old.queue ++ cancelled number ∷ [];
        }) }
        ensures err { OnErr result (self.new ≡ self.old) }
    {
        self.answer(number, frames::cancelled(number))?;
        if let (CookieKind::Exec, Condition::InExec(pid)) = (kind, self.condition) {
            self.condition = Condition::Live(pid);
        }
        Ok(())
    }

    /// Its process goes on as its next program, over another connection; takes no memory.
    pub(crate) fn leave(&mut self)
        requires { IsTrue (speaks self.old.condition) }
        ensures { self.new ≡ left_over self.old }
    {
        self.condition = Condition::Left;
    }
}
