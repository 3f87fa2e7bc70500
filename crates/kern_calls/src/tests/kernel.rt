// What the kernel tells of itself, and the room for its journal.
use crate::tests::{can_ask, fits};
use crate::{Kernel, Tried};
use kern_model::{Ins, Op, Who};
use sp_base::{Call, Items, Pid, Place};
use std::alloc::Global;
use std::test::Fail;

/// Tries an operation of process 2 that gathers nothing.
fn try_alone(kernel: &mut Kernel, op: Op) -> Result<Tried, Fail> {
    let ins = Ins::Given(Items::none(kernel.alloc()));
    if !can_ask(kernel, Pid(2), &op) || !fits(&op, &ins) {
        return Err(Fail::new("an operation that no caller could ask for"));
    }
    Ok(kernel.try_act(Pid(2), Who::Host(0, 0), op, ins))
}

/// A kernel that has process 2 alone, with room for so many entries.
fn kernel_with_room(alloc: Global, count: u32) -> Result<Kernel, Fail> {
    let mut kernel = Kernel::fresh(alloc)?;
    let Tried::Done(Place(0)) = try_alone(&mut kernel, Op::Attach)? else {
        return Err(Fail::new("no process"));
    };
    kernel.reserve(count)?;
    Ok(kernel)
}

#[test]
fn room(rt: HostRuntime) -> Result<(), Fail> {
    let mut kernel = kernel_with_room(rt.alloc(), 2)?;
    assert_eq!(rt; kernel.spare(), 2);
    let asked = try_alone(&mut kernel, Op::Sys(Call::Getpid))?;
    assert!(rt; matches!(asked, Tried::Done(Place(1))));
    assert_eq!(rt; kernel.spare(), 2);
    let closed = try_alone(&mut kernel, Op::Sys(Call::Close { fd: 0 }))?;
    assert!(rt; matches!(closed, Tried::Done(Place(2))));
    assert_eq!(rt; kernel.spare(), 1);
    kernel.reserve(1)?;
    assert_eq!(rt; kernel.spare(), 1);
    let ended = try_alone(&mut kernel, Op::Exit)?;
    assert!(rt; matches!(ended, Tried::Done(Place(3))));
    assert_eq!(rt; kernel.spare(), 0);
    assert_eq!(rt; kernel.journal().len(), 4);
    Ok(())
}

#[test]
fn processes(rt: HostRuntime) -> Result<(), Fail> {
    let mut kernel = kernel_with_room(rt.alloc(), 0)?;
    let forked = try_alone(&mut kernel, Op::Fork)?;
    assert!(rt; matches!(forked, Tried::Done(Place(1))));
    assert_eq!(rt; kernel.processes(), 2);
    let ended = try_alone(&mut kernel, Op::Exit)?;
    assert!(rt; matches!(ended, Tried::Done(Place(2))));
    assert_eq!(rt; kernel.processes(), 1);
    assert!(rt; !kernel.is_live(Pid(2)));
    assert!(rt; kernel.is_live(Pid(3)));
    assert!(rt; !kernel.is_full());
    Ok(())
}

#[test]
fn waiting(rt: HostRuntime) -> Result<(), Fail> {
    let mut kernel = kernel_with_room(rt.alloc(), 1)?;
    let nothing = Ins::Given(Items::none(rt.alloc()));
    assert!(rt; !kernel.ready(Pid(2), &Op::Sys(Call::Pipe), &nothing));
    assert!(rt; kernel.ready(Pid(2), &Op::Sys(Call::Getpid), &nothing));
    let Tried::NotReady(op, ins) = try_alone(&mut kernel, Op::Sys(Call::Pipe))? else {
        return Err(Fail::new("a call that isn't built"));
    };
    assert!(rt; matches!(op, Op::Sys(Call::Pipe)));
    assert!(rt; matches!(ins, Ins::Given(_)));
    assert_eq!(rt; kernel.journal().len(), 1);
    assert_eq!(rt; kernel.spare(), 1);
    Ok(())
}
