ghost use Rattle.std.specs.Prelude.{◌≡◌, ◌∷◌, false, IfOk, IsSome, IsTrue, OnErr, OnOk, Some};
ghost use Rattle.std.specs.FinMap as map;
ghost use Rattle.kern_model.specs.Journal.{next_entry, state_after};
ghost use Rattle.kern_model.specs.declared.journal.Who.TheVariants.{Request};
ghost use Rattle.kern_model.specs.declared.operation.Op.TheVariants as op;
ghost use Rattle.sp_base.specs.Table.{at, lowest_unused};
ghost use Rattle.sp_base.specs.declared.limits.TheConstants.{FIRST_PROCESS};
ghost use Rattle.sp_fork.specs.Jar.{cancellable, is_full, redeemable};
ghost use Rattle.sp_fork.specs.declared.unused.CookieKind.TheVariants as kind;
ghost use Rattle.sp_hub.specs.Handing.{HasProcesses, TakesOver};
ghost use Rattle.hub_model.specs.Cookies.{ledger_of, take_all_back, take_back, with_ledger};
ghost use Rattle.hub_model.specs.Journal.{nothing_read};
ghost use Rattle.hub_model.specs.Requests as requests;
ghost use Rattle.hub_model.specs.Sound.{IsSound};
ghost use Rattle.hub_model.specs.State as state;
ghost use Rattle.hub_model.specs.State.{speaks};
ghost use Rattle.hub_model.specs.declared.state.Condition.TheVariants as condition;

use crate::connection::Connection;
use crate::machine::{Core, process_in};
use crate::{frames, kernel};
use hub_model::{Handover, Reply};
use kern_model::Who;
use sp_base::{ConnNo, Cookie, NoMemory, Pid};
use sp_fork::CookieKind;
use sp_frames::Frame;

impl Core {
    /// Notes what was done to hand a process over, for proofs alone.
    pub(crate) fn note(&mut self, handover: Handover)
        ensures { self.new ≡ record self.old { handovers = handover ∷ self.old.handovers } }
    {
        self.handovers = self.handovers.and(&handover);
    }

    /// A connection takes one of its cookies back, where it is unused; takes no memory.
    fn take_back(&mut self, no: ConnNo, cookie: Cookie)
        requires { HasProcesses (ledger_of self.old) }
        ensures { self.new ≡ with_ledger self.old (take_back (ledger_of self.old) no cookie) }
    {
        let Ok((pid, kind)) = self.cookies.cancel(cookie, no) else {
            return;
        };
        if kind == CookieKind::Fork {
            kernel::exit(&mut self.kernel, Who::Cancelled(cookie.number), pid);
        }
        self.note(Handover::Cancelled(cookie.number));
    }

    /// A connection takes all its unused cookies back, in rising order of their numbers; takes no
    /// memory.
    pub(crate) fn take_all_back(&mut self, no: ConnNo)
        requires { HasProcesses (ledger_of self.old) }
        ensures { self.new ≡ with_ledger self.old (take_all_back (ledger_of self.old) no) }
    {
        while let Some(cookie) = self.cookies.first_of(no) {
            self.take_back(no, cookie);
        }
    }

    /// A child's handshake is performed: the connection speaks for the child that a fork cookie
    /// hands over.
    ///
    /// An error leaves all as it was.
    pub(crate) fn join(
        &mut self,
        no: ConnNo,
        frame: &Frame,
        cookie: Cookie,
    ) -> Result<Reply, NoMemory>
        requires there { IsSome (map.get self.old.connections no.0) }
        requires speaks { (x : state.Connection) → map.get self.old.connections no.0 ≡ Some x
            → IsTrue (speaks x.condition) }
        ensures reply { (x : state.Connection) → IfOk result (λ r. r
            ≡ (requests.join self.old no x frame.now cookie
            (redeemable self.old.cookies cookie kind.Fork)).0) }
        ensures state { (x : state.Connection) → map.get self.old.connections no.0 ≡ Some x
            → OnOk result (self.new ≡ (requests.join self.old no x frame.now cookie
            (redeemable self.old.cookies cookie kind.Fork)).1) }
        ensures err { OnErr result (self.new ≡ self.old) }
    {
        let Some(unused) = self.cookies.redeemable(cookie, CookieKind::Fork) else {
            return Ok(Reply::Nothing);
        };
        let response = frames::joined(frame.number, unused.pid);
        let mut connection = Connection::blank(self.alloc);
        self.connections.swap(no.0 as u64, &mut connection);
        let result = connection.speak_for(unused.pid, frame.number, response);
        self.connections.swap(no.0 as u64, &mut connection);
        result?;
        self.use_up(cookie, CookieKind::Fork);
        self.note(Handover::Joined(no, cookie.number));
        Ok(Reply::Done)
    }

    /// A cookie of a kind is used up; takes no memory.
    fn use_up(&mut self, cookie: Cookie, kind: CookieKind)
        ensures { self.new ≡ requests.redeemed self.old cookie kind }
    {
        match self.cookies.redeem(cookie, kind) {
            Ok(_) => {}
            Err(_) => {}
        }
    }

    /// The process of a connection went on as its next program, over another connection; takes no
    /// memory.
    fn leave(&mut self, no: ConnNo)
        requires { (x : state.Connection) → map.get self.old.connections no.0 ≡ Some x
            → IsTrue (speaks x.condition) }
        ensures { self.new ≡ requests.left_at self.old no (map.get self.old.connections no.0) }
    {
        if self.connections.get(no.0 as u64).is_none() {
            return;
        }
        let mut connection = Connection::blank(self.alloc);
        self.connections.swap(no.0 as u64, &mut connection);
        connection.leave();
        self.connections.swap(no.0 as u64, &mut connection);
    }

    /// A process goes on as its next program, over a connection; the one that made its cookie stays
    /// as it was.
    ///
    /// An error leaves all as it was.
    fn take_over(
        &mut self,
        no: ConnNo,
        frame: &Frame,
        cookie: Cookie,
        pid: Pid,
    ) -> Result<(), NoMemory>
        requires there { IsSome (map.get self.old.connections no.0) }
        requires speaks { (x : state.Connection) → map.get self.old.connections no.0 ≡ Some x
            → IsTrue (speaks x.condition) }
        requires live { IsSome (at (state_after self.old.journal).processes pid.0) }
        ensures ok { (x : state.Connection) → map.get self.old.connections no.0 ≡ Some x
            → OnOk result (TakesOver self.old no x frame.now cookie pid (next_entry
            self.old.journal pid (Request no frame.now.number) op.Exec nothing_read) self.new) }
        ensures err { OnErr result (self.new ≡ self.old) }
    {
        let mut connection = Connection::blank(self.alloc);
        self.connections.swap(no.0 as u64, &mut connection);
        let result = connection.image(&mut self.kernel, pid, no, frame.number);
        self.connections.swap(no.0 as u64, &mut connection);
        result?;
        self.use_up(cookie, CookieKind::Exec);
        self.note(Handover::Imaged(no, cookie.number));
        Ok(())
    }

    /// The handshake of a process's next program is performed: the connection speaks for the
    /// process that an exec cookie hands over, and the one that made the cookie is left.
    ///
    /// An error leaves all as it was.
    #[tactic(auto, using(crate::proofs::Images::image_live, crate::proofs::Images::fresh_speaks))]
    pub(crate) fn image(
        &mut self,
        no: ConnNo,
        frame: &Frame,
        cookie: Cookie,
    ) -> Result<Reply, NoMemory>
        requires sound { IsSound self.old }
        requires there { IsSome (map.get self.old.connections no.0) }
        requires fresh { (x : state.Connection) → map.get self.old.connections no.0 ≡ Some x
            → x.condition ≡ condition.Fresh }
        ensures reply { (x : state.Connection) → IfOk result (λ r. r
            ≡ (requests.image self.old no x frame.now cookie
            (redeemable self.old.cookies cookie kind.Exec)).0) }
        ensures state { (x : state.Connection) → map.get self.old.connections no.0 ≡ Some x
            → OnOk result (self.new ≡ (requests.image self.old no x frame.now cookie
            (redeemable self.old.cookies cookie kind.Exec)).1) }
        ensures err { OnErr result (self.new ≡ self.old) }
    {
        let Some(unused) = self.cookies.redeemable(cookie, CookieKind::Exec) else {
            return Ok(Reply::Nothing);
        };
        self.take_over(no, frame, cookie, unused.pid)?;
        self.leave(unused.maker);
        Ok(Reply::Done)
    }

    /// The process of a connection forks, and a cookie hands its child over. An error leaves all as
    /// it was.
    pub(crate) fn fork(&mut self, no: ConnNo, frame: &Frame, salt: u64) -> Result<Reply, NoMemory>
        requires sound { IsSound self.old }
        requires there { IsSome (map.get self.old.connections no.0) }
        requires cookies { is_full self.old.cookies ≡ false }
        requires number { IsSome
            (lowest_unused (state_after self.old.journal).processes FIRST_PROCESS) }
        ensures reply { (x : state.Connection) → map.get self.old.connections no.0 ≡ Some x
            → IfOk result (λ r. r ≡ (requests.fork self.old no x frame.now salt
            (state.process_in x.condition)).0) }
        ensures state { (x : state.Connection) → map.get self.old.connections no.0 ≡ Some x
            → OnOk result (self.new ≡ (requests.fork self.old no x frame.now salt
            (state.process_in x.condition)).1) }
        ensures err { OnErr result (self.new ≡ self.old) }
    {
        let Some(condition) = self.condition(no) else {
            return Ok(Reply::Nothing);
        };
        let Some(pid) = process_in(condition) else {
            return Ok(Reply::Nothing);
        };
        let mut connection = Connection::blank(self.alloc);
        self.connections.swap(no.0 as u64, &mut connection);
        let result = connection.fork(
            &mut self.kernel,
            &mut self.cookies,
            pid,
            no,
            frame.number,
            salt,
        );
        self.connections.swap(no.0 as u64, &mut connection);
        let made = result?;
        self.note(Handover::Forked(made.cookie.number, made.place));
        Ok(Reply::Done)
    }

    /// A cookie is made by which the process of a connection is to go on as its next program. An
    /// error leaves all as it was.
    pub(crate) fn ready(&mut self, no: ConnNo, frame: &Frame, salt: u64) -> Result<Reply, NoMemory>
        requires there { IsSome (map.get self.old.connections no.0) }
        requires speaks { (x : state.Connection) → map.get self.old.connections no.0 ≡ Some x
            → IsTrue (speaks x.condition) }
        requires cookies { is_full self.old.cookies ≡ false }
        ensures reply { (x : state.Connection) → map.get self.old.connections no.0 ≡ Some x
            → IfOk result (λ r. r ≡ (requests.ready self.old no x frame.now salt
            (state.process_in x.condition)).0) }
        ensures state { (x : state.Connection) → map.get self.old.connections no.0 ≡ Some x
            → OnOk result (self.new ≡ (requests.ready self.old no x frame.now salt
            (state.process_in x.condition)).1) }
        ensures err { OnErr result (self.new ≡ self.old) }
    {
        let Some(condition) = self.condition(no) else {
            return Ok(Reply::Nothing);
        };
        let Some(pid) = process_in(condition) else {
            return Ok(Reply::Nothing);
        };
        let mut connection = Connection::blank(self.alloc);
        self.connections.swap(no.0 as u64, &mut connection);
        let result = connection.ready(&mut self.cookies, pid, no, frame.number, salt);
        self.connections.swap(no.0 as u64, &mut connection);
        let cookie = result?;
        self.note(Handover::Readied(cookie.number, no));
        Ok(Reply::Done)
    }

    /// A cookie is taken back, where the connection has made it and it is unused. An error leaves
    /// all as it was.
    pub(crate) fn cancel(
        &mut self,
        no: ConnNo,
        frame: &Frame,
        cookie: Cookie,
    ) -> Result<Reply, NoMemory>
        requires sound { IsSound self.old }
        requires there { IsSome (map.get self.old.connections no.0) }
        ensures reply { (x : state.Connection) → IfOk result (λ r. r
            ≡ (requests.cancel self.old no x frame.now cookie
            (cancellable self.old.cookies cookie no)).0) }
        ensures state { (x : state.Connection) → map.get self.old.connections no.0 ≡ Some x
            → OnOk result (self.new ≡ (requests.cancel self.old no x frame.now cookie
            (cancellable self.old.cookies cookie no)).1) }
        ensures err { OnErr result (self.new ≡ self.old) }
    {
        let Some(unused) = self.cookies.cancellable(cookie, no) else {
            return Ok(Reply::Nothing);
        };
        let mut connection = Connection::blank(self.alloc);
        self.connections.swap(no.0 as u64, &mut connection);
        let result = connection.cancelled(frame.number, unused.kind);
        self.connections.swap(no.0 as u64, &mut connection);
        result?;
        self.take_back(no, cookie);
        Ok(Reply::Done)
    }
}
