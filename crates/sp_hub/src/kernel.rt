ghost use Rattle.std.specs.Prelude.{◌≡◌, Some, false, IfOk, OnErr, IsSome};
ghost use Rattle.sp_base.specs.Table.{at, lowest_unused};
ghost use Rattle.sp_base.specs.declared.limits.TheConstants.{FIRST_PROCESS};
ghost use Rattle.sp_fork.specs.Jar.{IsJar, is_full};
ghost use Rattle.kern_model.specs.Journal.{next_entry, state_after};
ghost use Rattle.kern_model.specs.declared.journal.Who.TheVariants.{Request};
ghost use Rattle.kern_model.specs.declared.operation.Op.TheVariants as op;
ghost use Rattle.sp_hub.specs.Kernel.{Attaches};
ghost use Rattle.sp_hub.specs.Handing.{Forks, IsHanding};
ghost use Rattle.sp_hub.specs.Room.{HasExitRoom};
ghost use Rattle.sp_hub.specs.Work.{Appends};
ghost use Rattle.hub_model.specs.Journal.{nothing_read, with_entry};
ghost use Rattle.hub_model.specs.Requests.{no_process};

use kern_calls::{Acted, Kernel};
use kern_model::{Ins, Op, Who};
use sp_base::{ConnNo, Cookie, FIRST_PROCESS, Items, NoMemory, Pid, Place, ReqNo};
use sp_fork::{CookieFault, CookieKind, Cookies};

/// Ends a process, in the room that is kept for it; takes no memory.
pub(crate) fn exit(kernel: &mut Kernel, who: Who, pid: Pid)
    requires live { IsSome (at (state_after kernel.old.items).processes pid.0) }
    requires room { HasExitRoom kernel.old }
    ensures journal { kernel.new.items ≡ with_entry kernel.old.items
        (next_entry kernel.old.items pid who op.Exit nothing_read) }
    ensures room { HasExitRoom kernel.new }
{
    let ins = Ins::Given(Items::none(kernel.alloc()));
    match kernel.act(pid, who, Op::Exit, ins) {
        Acted::Done(_) => {}
        Acted::NotReady => {}
        Acted::NoMemory => unreachable!(),
    }
}

/// Makes the process of a connection, and keeps room for its exit. An error leaves the journal as
/// it was.
pub(crate) fn attach(kernel: &mut Kernel, no: ConnNo, number: ReqNo) -> Result<Pid, NoMemory>
    requires room { HasExitRoom kernel.old }
    ensures ok { IfOk result (λ pid. Attaches kernel.old.items
        (next_entry kernel.old.items no_process (Request no number) op.Attach nothing_read)
        pid kernel.new.items) }
    ensures err { OnErr result (kernel.new.items ≡ kernel.old.items) }
    ensures room { HasExitRoom kernel.new }
{
    kernel.reserve(kernel.processes() + 1)?;
    let ins = Ins::Given(Items::none(kernel.alloc()));
    match kernel.act(Pid(0), Who::Request(no, number), Op::Attach, ins) {
        Acted::Done(_) => match kernel.journal().last() {
            Some(entry) => Ok(Pid(entry.outcome.ret0 as u32)),
            None => unreachable!(),
        },
        Acted::NotReady => unreachable!(),
        Acted::NoMemory => Err(NoMemory),
    }
}

/// The number that the next process gets.
pub(crate) fn next_process(kernel: &Kernel) -> Pid
    requires { IsSome (lowest_unused (state_after kernel.now.items).processes FIRST_PROCESS) }
    ensures { lowest_unused (state_after kernel.now.items).processes FIRST_PROCESS
        ≡ Some result.0 }
{
    let mut number = FIRST_PROCESS as u32;
    while kernel.is_live(Pid(number)) {
        number += 1;
    }
    Pid(number)
}

/// Performs a fork or an exec, of a process that is live, and keeps room for each process's exit.
/// An error leaves the journal as it was.
pub(crate) fn hand_over(
    kernel: &mut Kernel,
    op: Op,
    pid: Pid,
    no: ConnNo,
    number: ReqNo,
) -> Result<Place, NoMemory>
    requires kind { IsHanding op }
    requires live { IsSome (at (state_after kernel.old.items).processes pid.0) }
    requires room { HasExitRoom kernel.old }
    ensures ok { IfOk result (λ place. Appends kernel.old.items
        (next_entry kernel.old.items pid (Request no number) op nothing_read)
        place.0 kernel.new.items) }
    ensures err { OnErr result (kernel.new.items ≡ kernel.old.items) }
    ensures room { HasExitRoom kernel.new }
{
    kernel.reserve(kernel.processes() + 1)?;
    let ins = Ins::Given(Items::none(kernel.alloc()));
    match kernel.act(pid, Who::Request(no, number), op, ins) {
        Acted::Done(place) => Ok(place),
        Acted::NotReady => unreachable!(),
        Acted::NoMemory => Err(NoMemory),
    }
}

/// A fork that was performed: the cookie that hands the child over, the fork's place, and the
/// child.
#[derive(Clone, Copy)]
pub(crate) struct Forked {
    pub(crate) cookie: Cookie,
    pub(crate) place: Place,
    pub(crate) child: Pid,
}

/// Performs a fork of a process, and makes the cookie that hands its child over.
///
/// An error leaves the journal and the cookies as they were.
pub(crate) fn fork(
    kernel: &mut Kernel,
    cookies: &mut Cookies,
    pid: Pid,
    no: ConnNo,
    number: ReqNo,
    salt: u64,
) -> Result<Forked, NoMemory>
    requires live { IsSome (at (state_after kernel.old.items).processes pid.0) }
    requires room { HasExitRoom kernel.old }
    requires jar { IsJar cookies.old }
    requires cookies { is_full cookies.old ≡ false }
    requires number { IsSome
        (lowest_unused (state_after kernel.old.items).processes FIRST_PROCESS) }
    ensures ok { IfOk result (λ forked. Forks kernel.old.items cookies.old no salt
        (next_entry kernel.old.items pid (Request no number) op.Fork nothing_read)
        forked kernel.new.items cookies.new) }
    ensures err { OnErr result (kernel.new.items ≡ kernel.old.items) }
    ensures err_cookies { OnErr result (cookies.new ≡ cookies.old) }
    ensures room { HasExitRoom kernel.new }
{
    let child = next_process(kernel);
    let cookie = match cookies.make(child, no, salt, CookieKind::Fork) {
        Ok(cookie) => cookie,
        Err(CookieFault::NoMemory) => return Err(NoMemory),
        Err(CookieFault::Full) => unreachable!(),
    };
    match hand_over(kernel, Op::Fork, pid, no, number) {
        Ok(place) => Ok(Forked {
            cookie,
            place,
            child,
        }),
        Err(NoMemory) => {
            cookies.unmake();
            Err(NoMemory)
        }
    }
}
