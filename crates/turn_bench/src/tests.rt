// That many threads play, and that jobs which are handed back are played by their starter.
use crate::{players, under_mutex};
use sp_io::{MemSpawner, ThreadSpawner};
use std::test::Fail;

#[test]
fn many_threads(rt: HostRuntime) -> Result<(), Fail> {
    let mut spawner = ThreadSpawner::over(rt);
    assert_eq!(rt;
        players::total(&rt, rt.alloc(), &mut spawner, 32, 5000)?,
        5000
    );
    assert_eq!(rt;
        under_mutex::total(&rt, rt.alloc(), &mut spawner, 32, 5000)?,
        5000
    );
    assert_eq!(rt; players::total(&rt, rt.alloc(), &mut spawner, 0, 7)?, 7);
    Ok(())
}

#[test]
fn a_spawner_that_refuses(rt: HostRuntime) -> Result<(), Fail> {
    let mut spawner = MemSpawner::<HostRuntime>::of(rt.alloc(), &[1, 3, 4])?;
    assert_eq!(rt;
        players::total(&rt, rt.alloc(), &mut spawner, 4, 1000)?,
        1000
    );
    assert_eq!(rt;
        under_mutex::total(&rt, rt.alloc(), &mut spawner, 4, 1000)?,
        1000
    );
    Ok(())
}
