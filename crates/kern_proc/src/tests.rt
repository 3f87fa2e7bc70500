use crate::Procs;
use sp_base::{Fd, FileNo, NodeNo, Pid};
use std::test::Fail;

#[test]
fn a_child_has_the_rows_of_its_parent(rt: HostRuntime) -> Result<(), Fail> {
    let mut procs = Procs::fresh(rt.alloc())?;
    let parent = procs.attach(NodeNo(1))?;
    assert_eq!(rt; parent, Pid(2));
    assert!(rt; procs.is_live(parent));
    assert_eq!(rt; procs.install(parent, 0, FileNo(7), true), Some(Fd(0)));
    assert!(rt; procs.is_live(parent));
    let child = procs.fork(parent)?;
    assert_eq!(rt; (child, procs.count()), (Pid(3), 2));
    assert!(rt; procs.is_live(child));
    assert_eq!(rt; procs.lookup(child, 0), Some(FileNo(7)));
    assert_eq!(rt; procs.cloexec(child, 0), Some(true));
    Ok(())
}
