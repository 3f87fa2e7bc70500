// Descriptors, and what they share.
use crate::tests::step::{
    F_DUPFD, F_GETFD, F_GETFL, F_SETFD, F_SETFL, FROM_OFFSET, FROM_START, MINUS_1, O_APPEND,
    O_CLOEXEC, O_CREAT, O_NONBLOCK, O_RDONLY, O_RDWR, O_WRONLY, Step,
};
use crate::tests::{one_process, run, run_alone, run_up};
use std::test::Fail;

const LOWEST: &[(Step, &str)] = &[
    (Step::Getpid, "2"),
    (Step::Unknown(0), "ENOSYS"),
    (Step::Unknown(34), "ENOSYS"),
    (Step::Close(0), "EBADF"),
    (Step::Dup(0), "EBADF"),
    (Step::Open("/f", O_RDWR | O_CREAT), "0"),
    (Step::Open("/f", O_RDWR), "1"),
    (Step::Open("/f", O_RDWR), "2"),
    (Step::Close(1), "0"),
    (Step::Close(1), "EBADF"),
    (Step::Dup(2), "1"),
    (Step::Dup(2), "3"),
    (Step::Close(0), "0"),
    (Step::Close(2), "0"),
    (Step::Open("/f", O_RDWR), "0"),
    (Step::Dup(0), "2"),
    (Step::Close(4), "EBADF"),
    (Step::Close(128), "EBADF"),
    (Step::Close(MINUS_1), "EBADF"),
];

/// A duplicate shares the offset; another open of the file has its own.
const SHARING: &[(Step, &str)] = &[
    (Step::Open("/f", O_RDWR | O_CREAT), "0"),
    (Step::Write(0, "abcdefg"), "7"),
    (Step::Dup(0), "1"),
    (Step::Open("/f", O_RDONLY), "2"),
    (Step::Lseek(1, 2, FROM_START), "2"),
    (Step::Read(0, 1), "1 c"),
    (Step::Read(1, 1), "1 d"),
    (Step::Read(2, 1), "1 a"),
    (Step::Close(0), "0"),
    (Step::Read(1, 1), "1 e"),
    (Step::Dup2(2, 1), "1"),
    (Step::Read(1, 1), "1 b"),
    (Step::Read(2, 1), "1 c"),
    (Step::Read(0, 1), "EBADF"),
];

const DUP2: &[(Step, &str)] = &[
    (Step::Open("/f", O_RDWR | O_CREAT | O_CLOEXEC), "0"),
    (Step::Open("/g", O_RDWR | O_CREAT), "1"),
    (Step::Dup2(0, 5), "5"),
    (Step::Dup2(0, 127), "127"),
    (Step::Dup2(0, 128), "EBADF"),
    (Step::Dup2(0, MINUS_1), "EBADF"),
    (Step::Dup2(9, 0), "EBADF"),
    (Step::Dup2(9, 9), "EBADF"),
    (Step::Dup2(9, 200), "EBADF"),
    (Step::Fcntl(5, F_GETFD, 0), "0"),
    (Step::Dup2(0, 0), "0"),
    (Step::Fcntl(0, F_GETFD, 0), "1"),
    (Step::Fcntl(5, F_SETFD, 1), "0"),
    (Step::Dup2(0, 5), "5"),
    (Step::Fcntl(5, F_GETFD, 0), "0"),
    (Step::Unlink("/g"), "0"),
    (Step::Fstat(1), "0 file, links 0, size 0, node 3"),
    (Step::Dup2(0, 1), "1"),
    (Step::Fstat(1), "0 file, links 1, size 0, node 2"),
    (Step::Dup(0), "2"),
];

const FCNTL: &[(Step, &str)] = &[
    (
        Step::Open("/f", O_RDWR | O_CREAT | O_APPEND | O_NONBLOCK),
        "0",
    ),
    (Step::Fcntl(0, F_DUPFD, 0), "1"),
    (Step::Fcntl(0, F_DUPFD, 10), "10"),
    (Step::Fcntl(0, F_DUPFD, 10), "11"),
    (Step::Fcntl(0, F_DUPFD, 127), "127"),
    (Step::Fcntl(0, F_DUPFD, 127), "EMFILE"),
    (Step::Fcntl(0, F_DUPFD, 128), "EINVAL"),
    (Step::Fcntl(0, F_DUPFD, MINUS_1), "EINVAL"),
    (Step::Fcntl(0, F_GETFD, 0), "0"),
    (Step::Fcntl(0, F_SETFD, 3), "0"),
    (Step::Fcntl(0, F_GETFD, 7), "1"),
    (Step::Fcntl(1, F_GETFD, 0), "0"),
    (Step::Fcntl(0, F_DUPFD, 20), "20"),
    (Step::Fcntl(20, F_GETFD, 0), "0"),
    (Step::Fcntl(0, F_SETFD, 2), "0"),
    (Step::Fcntl(0, F_GETFD, 0), "0"),
    (Step::Fcntl(0, F_GETFL, 0), "14"),
    (Step::Fcntl(1, F_SETFL, 0), "0"),
    (Step::Fcntl(0, F_GETFL, 9), "2"),
    (Step::Write(0, "ab"), "2"),
    (Step::Lseek(0, 0, FROM_START), "0"),
    (Step::Write(0, "A"), "1"),
    (Step::Fcntl(0, F_SETFL, O_APPEND | O_WRONLY | O_CREAT), "0"),
    (Step::Fcntl(1, F_GETFL, 0), "10"),
    (Step::Write(1, "c"), "1"),
    (Step::Lseek(0, 0, FROM_OFFSET), "3"),
    (Step::Pread(0, 9, 0), "3 Abc"),
    (Step::Fcntl(0, F_SETFL, MINUS_1), "0"),
    (Step::Fcntl(0, F_GETFL, 0), "14"),
    (Step::Fcntl(0, 5, 0), "EINVAL"),
    (Step::Fcntl(0, MINUS_1, 0), "EINVAL"),
    (Step::Fcntl(0, 1 << 32, 0), "EINVAL"),
    (Step::Fcntl(9, 5, 0), "EBADF"),
    (Step::Fcntl(9, F_DUPFD, 128), "EBADF"),
    (Step::Open("/f", O_WRONLY), "2"),
    (Step::Fcntl(2, F_GETFL, 0), "1"),
    (Step::Open("/", O_RDONLY | O_NONBLOCK | O_CLOEXEC), "3"),
    (Step::Fcntl(3, F_GETFL, 0), "4"),
    (Step::Fcntl(3, F_GETFD, 0), "1"),
];

/// Where a process has descriptors 0 to 127.
const FULL: &[(Step, &str)] = &[
    (Step::Open("/", O_RDONLY), "EMFILE"),
    (Step::Open("/no", O_RDONLY), "EMFILE"),
    (Step::Open("/new", O_RDWR | O_CREAT), "EMFILE"),
    (Step::Open("/no", 3), "EINVAL"),
    (Step::Dup(0), "EMFILE"),
    (Step::Dup(128), "EBADF"),
    (Step::Fcntl(0, F_DUPFD, 0), "EMFILE"),
    (Step::Fcntl(0, F_DUPFD, 128), "EINVAL"),
    (Step::Dup2(0, 127), "127"),
    (Step::Stat("/new"), "ENOENT"),
    (Step::Close(64), "0"),
    (Step::Fcntl(0, F_DUPFD, 65), "EMFILE"),
    (Step::Dup(0), "64"),
    (Step::Dup(0), "EMFILE"),
];

#[test]
fn lowest_descriptors(rt: HostRuntime) -> Result<(), Fail> {
    run_alone(&rt, rt.alloc(), LOWEST)
}

#[test]
fn duplicates(rt: HostRuntime) -> Result<(), Fail> {
    run_alone(&rt, rt.alloc(), SHARING)?;
    run_alone(&rt, rt.alloc(), DUP2)
}

#[test]
fn flags(rt: HostRuntime) -> Result<(), Fail> {
    run_alone(&rt, rt.alloc(), FCNTL)
}

#[test]
fn all_descriptors(rt: HostRuntime) -> Result<(), Fail> {
    let mut both = one_process(rt.alloc())?;
    run_up(&rt, &mut both, Step::Open("/", O_RDONLY), 0, 128)?;
    run(&rt, &mut both, 2, FULL)
}
