use crate::Opens;
use kern_model::{Access, Object, OpenFile};
use sp_base::{Fd, Pid};
use std::test::Fail;

/// An open file of the root directory.
fn directory() -> OpenFile {
    OpenFile {
        object: Object::Node(1),
        access: Access::Reading,
        append: false,
        nonblock: false,
        offset: 0,
    }
}

#[test]
fn an_open_file_goes_with_its_last_row(rt: HostRuntime) -> Result<(), Fail> {
    let mut opens = Opens::fresh(rt.alloc())?;
    let parent = opens.attach()?;
    assert_eq!(rt; parent, Pid(2));
    opens.reserve(1)?;
    assert!(rt; opens.is_live(parent));
    assert_eq!(rt; opens.lowest_unused(parent, 0), Some(Fd(0)));
    let fd = opens.open(parent, directory(), false);
    assert_eq!(rt; fd, Fd(0));
    assert!(rt; opens.is_live(parent));
    let child = opens.fork(parent)?;
    assert!(rt; opens.is_live(parent));
    assert_eq!(rt; opens.close(parent, 0), None);
    assert!(rt; opens.is_live(child));
    assert_eq!(rt; opens.file(child, 0), Some(directory()));
    assert_eq!(rt; opens.close(child, 0), Some(directory()));
    assert_eq!(rt; opens.file(child, 0), None);
    Ok(())
}
