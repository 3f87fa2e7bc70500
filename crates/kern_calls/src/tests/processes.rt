// Processes: how they come and go, and what they inherit.
use crate::tests::step::{
    F_GETFD, FROM_OFFSET, FROM_START, O_CLOEXEC, O_CREAT, O_RDONLY, O_RDWR, Step,
};
use crate::tests::{Both, one_process, run, run_up};
use sp_base::Pid;
use std::process::Abort;
use std::test::Fail;

/// Each row has the process that asks.
const LIVES: &[(u32, Step, &str)] = &[
    (0, Step::Attach, "2"),
    (0, Step::Attach, "3"),
    (0, Step::Attach, "4"),
    (2, Step::Getpid, "2"),
    (4, Step::Getpid, "4"),
    (2, Step::Open("/f", O_RDWR | O_CREAT), "0"),
    (3, Step::Close(0), "EBADF"),
    (3, Step::Open("/f", O_RDONLY), "0"),
    (3, Step::Exit, "0"),
    (2, Step::Fork, "3"),
    (3, Step::Getpid, "3"),
    (2, Step::Exit, "0"),
    (0, Step::Attach, "2"),
    (2, Step::Close(0), "EBADF"),
    (2, Step::Stat("."), "0 directory, links 1, size 0, node 1"),
];

/// A child shares the open files of its parent, and has rows and a working directory of its own.
const FORKS: &[(u32, Step, &str)] = &[
    (0, Step::Attach, "2"),
    (2, Step::Mkdir("/d"), "0"),
    (2, Step::Chdir("/d"), "0"),
    (2, Step::Open("f", O_RDWR | O_CREAT | O_CLOEXEC), "0"),
    (2, Step::Write(0, "abcdefg"), "7"),
    (2, Step::Lseek(0, 0, FROM_START), "0"),
    (2, Step::Fork, "3"),
    (3, Step::Read(0, 2), "2 ab"),
    (2, Step::Read(0, 2), "2 cd"),
    (3, Step::Lseek(0, 0, FROM_OFFSET), "4"),
    (3, Step::Stat("f"), "0 file, links 1, size 7, node 3"),
    (3, Step::Fcntl(0, F_GETFD, 0), "1"),
    (3, Step::Dup(0), "1"),
    (2, Step::Read(1, 1), "EBADF"),
    (3, Step::Close(0), "0"),
    (3, Step::Read(0, 1), "EBADF"),
    (2, Step::Read(0, 1), "1 e"),
    (3, Step::Chdir("/"), "0"),
    (2, Step::Stat("f"), "0 file, links 1, size 7, node 3"),
    (3, Step::Stat("f"), "ENOENT"),
    (3, Step::Rmdir("/d"), "ENOTEMPTY"),
    (3, Step::Unlink("/d/f"), "0"),
    (3, Step::Rmdir("/d"), "EBUSY"),
    (2, Step::Exit, "0"),
    (3, Step::Rmdir("/d"), "0"),
    (3, Step::Read(1, 9), "2 fg"),
    (3, Step::Fstat(1), "0 file, links 0, size 7, node 3"),
    (3, Step::Getpid, "3"),
];

/// An exec closes the marked descriptors, and keeps the others and the working directory.
const EXECS: &[(u32, Step, &str)] = &[
    (0, Step::Attach, "2"),
    (2, Step::Mkdir("/d"), "0"),
    (2, Step::Chdir("/d"), "0"),
    (2, Step::Open("f", O_RDWR | O_CREAT | O_CLOEXEC), "0"),
    (2, Step::Write(0, "abc"), "3"),
    (2, Step::Dup(0), "1"),
    (2, Step::Open("f", O_RDONLY | O_CLOEXEC), "2"),
    (2, Step::Open("f", O_RDONLY), "3"),
    (2, Step::Fork, "3"),
    (2, Step::Exec, "0"),
    (2, Step::Read(0, 1), "EBADF"),
    (2, Step::Read(2, 1), "EBADF"),
    (2, Step::Read(3, 1), "1 a"),
    (2, Step::Lseek(1, 0, FROM_OFFSET), "3"),
    (2, Step::Fcntl(1, F_GETFD, 0), "0"),
    (2, Step::Stat("."), "0 directory, links 1, size 0, node 2"),
    (2, Step::Getpid, "2"),
    (2, Step::Dup(1), "0"),
    (3, Step::Read(2, 2), "2 ab"),
    (3, Step::Fcntl(2, F_GETFD, 0), "1"),
    (2, Step::Exec, "0"),
    (2, Step::Read(3, 1), "1 b"),
];

/// Where 256 processes live.
const FULL: &[(u32, Step, &str)] = &[
    (2, Step::Fork, "EAGAIN"),
    (257, Step::Fork, "EAGAIN"),
    (0, Step::Attach, "EAGAIN"),
    (257, Step::Getpid, "257"),
    (257, Step::Read(0, 1), "1 a"),
    (100, Step::Exit, "0"),
    (50, Step::Exit, "0"),
    (0, Step::Attach, "50"),
    (50, Step::Read(0, 1), "EBADF"),
    (2, Step::Fork, "100"),
    (100, Step::Read(0, 1), "1 b"),
    (0, Step::Attach, "EAGAIN"),
];

/// Performs the rows, each by its process.
fn run_all(rt: &impl Abort, both: &mut Both, rows: &[(u32, Step, &str)]) -> Result<(), Fail> {
    for (pid, step, want) in rows {
        run(rt, both, *pid, &[(*step, *want)])?;
    }
    Ok(())
}

#[test]
fn lives(rt: HostRuntime) -> Result<(), Fail> {
    let mut both = Both::fresh(rt.alloc())?;
    assert!(rt; !both.plain.is_live(Pid(2)) && !both.kernel.is_live(Pid(2)));
    run_all(&rt, &mut both, LIVES)?;
    for (pid, want) in [(0, false), (1, false), (2, true), (3, true), (4, true)] {
        assert_eq!(rt; both.plain.is_live(Pid(pid)), want, "process {pid}");
        assert_eq!(rt; both.kernel.is_live(Pid(pid)), want, "process {pid}");
    }
    assert!(rt; !both.kernel.is_live(Pid(5)) && !both.kernel.is_live(Pid(258)));
    assert!(rt; !both.plain.is_full() && !both.kernel.is_full());
    Ok(())
}

#[test]
fn forks(rt: HostRuntime) -> Result<(), Fail> {
    run_all(&rt, &mut Both::fresh(rt.alloc())?, FORKS)
}

#[test]
fn execs(rt: HostRuntime) -> Result<(), Fail> {
    run_all(&rt, &mut Both::fresh(rt.alloc())?, EXECS)
}

#[test]
fn all_processes(rt: HostRuntime) -> Result<(), Fail> {
    let alloc = rt.alloc();
    let mut both = one_process(alloc)?;
    let rows = [
        (Step::Open("/f", O_RDWR | O_CREAT), "0"),
        (Step::Write(0, "abc"), "3"),
        (Step::Lseek(0, 0, FROM_START), "0"),
    ];
    run(&rt, &mut both, 2, &rows)?;
    run_up(&rt, &mut both, Step::Fork, 3, 258)?;
    assert!(rt; both.plain.is_full() && both.kernel.is_full());
    run_all(&rt, &mut both, FULL)
}
