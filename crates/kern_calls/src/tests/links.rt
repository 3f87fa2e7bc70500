// Names that come, go and move.
use crate::tests::run_alone;
use crate::tests::step::{O_CREAT, O_RDONLY, O_RDWR, Step};
use std::test::Fail;

const REFUSED: &[(Step, &str)] = &[
    (Step::Mkdir("/d"), "0"),
    (Step::Rename("/d", "/d/e"), "EINVAL"),
    (Step::Unlink("/d"), "EPERM"),
    (Step::Rmdir("/"), "EBUSY"),
    (Step::Link("/d", "/e"), "EPERM"),
    (Step::Stat("/d"), "0 directory, links 1, size 0, node 2"),
];

const LINKS: &[(Step, &str)] = &[
    (Step::Open("/f", O_RDWR | O_CREAT), "0"),
    (Step::Write(0, "abc"), "3"),
    (Step::Link("/f", "/g"), "0"),
    (Step::Stat("/f"), "0 file, links 2, size 3, node 2"),
    (Step::Stat("/g"), "0 file, links 2, size 3, node 2"),
    (Step::Link("/f", "/g"), "EEXIST"),
    (Step::Link("/f", "/f"), "EEXIST"),
    (Step::Link("/f", "/"), "EEXIST"),
    (Step::Link("/f", "/h/"), "ENOENT"),
    (Step::Link("/f", "/no/x"), "ENOENT"),
    (Step::Link("/f", "/g/x"), "ENOTDIR"),
    (Step::Link("/f", "/g/"), "ENOTDIR"),
    (Step::Link("/f", ""), "ENOENT"),
    (Step::Link("", "/h"), "ENOENT"),
    (Step::Link("/no", "/h"), "ENOENT"),
    (Step::Link("/no", "/g"), "ENOENT"),
    (Step::Link("/no/", "/h"), "ENOENT"),
    (Step::Link("/f/", "/h"), "ENOTDIR"),
    (Step::Link("/", "/no/x"), "EPERM"),
    (Step::Mkdir("/d"), "0"),
    (Step::Link("/g", "/d/h"), "0"),
    (Step::Fstat(0), "0 file, links 3, size 3, node 2"),
    (Step::Unlink("/f"), "0"),
    (Step::Stat("/g"), "0 file, links 2, size 3, node 2"),
    (Step::Unlink("/f"), "ENOENT"),
    (Step::Unlink("/no/"), "ENOENT"),
    (Step::Unlink(""), "ENOENT"),
    (Step::Unlink("/g/"), "ENOTDIR"),
    (Step::Unlink("/g/x"), "ENOTDIR"),
    (Step::Unlink("/"), "EPERM"),
    (Step::Unlink("/d/."), "EPERM"),
    (Step::Unlink("/d/.."), "EPERM"),
    (Step::Unlink("/d/h"), "0"),
    (Step::Unlink("g"), "0"),
    (Step::Fstat(0), "0 file, links 0, size 3, node 2"),
    (Step::Open("/f", O_RDWR | O_CREAT), "1"),
    (Step::Fstat(1), "0 file, links 1, size 0, node 4"),
];

const DIRECTORIES: &[(Step, &str)] = &[
    (Step::Mkdir("/d"), "0"),
    (Step::Mkdir("/d/e"), "0"),
    (Step::Open("/f", O_RDWR | O_CREAT), "0"),
    (Step::Rmdir("/no"), "ENOENT"),
    (Step::Rmdir("/no/"), "ENOENT"),
    (Step::Rmdir(""), "ENOENT"),
    (Step::Rmdir("/f"), "ENOTDIR"),
    (Step::Rmdir("/f/"), "ENOTDIR"),
    (Step::Rmdir("/"), "EBUSY"),
    (Step::Rmdir("/."), "EBUSY"),
    (Step::Rmdir("/d/.."), "EBUSY"),
    (Step::Rmdir("/d/."), "EINVAL"),
    (Step::Rmdir("/d/e/."), "EINVAL"),
    (Step::Rmdir("/d/e/.."), "EINVAL"),
    (Step::Rmdir("/d"), "ENOTEMPTY"),
    (Step::Rmdir("/d/e/"), "0"),
    (Step::Stat("/d/e"), "ENOENT"),
    (Step::Open("/d", O_RDONLY), "1"),
    (Step::Rmdir("/d"), "0"),
    (Step::Stat("/d"), "ENOENT"),
    (Step::Fstat(1), "0 directory, links 1, size 0, node 2"),
    (Step::Rmdir("/d"), "ENOENT"),
    (Step::Mkdir("/d"), "0"),
    (Step::Stat("/d"), "0 directory, links 1, size 0, node 5"),
];

const RENAMES: &[(Step, &str)] = &[
    (Step::Open("/f", O_RDWR | O_CREAT), "0"),
    (Step::Write(0, "one"), "3"),
    (Step::Open("/g", O_RDWR | O_CREAT), "1"),
    (Step::Write(1, "two!"), "4"),
    (Step::Rename("/f", "/f"), "0"),
    (Step::Rename("/f", "//./f"), "0"),
    (Step::Rename("/f", "/h"), "0"),
    (Step::Stat("/f"), "ENOENT"),
    (Step::Stat("/h"), "0 file, links 1, size 3, node 2"),
    (Step::Rename("/h", "/g"), "0"),
    (Step::Stat("/h"), "ENOENT"),
    (Step::Stat("/g"), "0 file, links 1, size 3, node 2"),
    (Step::Fstat(1), "0 file, links 0, size 4, node 3"),
    (Step::Pread(1, 9, 0), "4 two!"),
    (Step::Link("/g", "/k"), "0"),
    (Step::Rename("/g", "/k"), "0"),
    (Step::Stat("/g"), "ENOENT"),
    (Step::Stat("/k"), "0 file, links 1, size 3, node 2"),
    (Step::Rename("/no", "/m"), "ENOENT"),
    (Step::Rename("/no/", "/m"), "ENOENT"),
    (Step::Rename("", "/m"), "ENOENT"),
    (Step::Rename("/no", "/k/x"), "ENOENT"),
    (Step::Rename("/k/", "/no/x"), "ENOTDIR"),
    (Step::Rename("/k", ""), "ENOENT"),
    (Step::Rename("/k", "/m/"), "ENOENT"),
    (Step::Rename("/k", "/no/x"), "ENOENT"),
    (Step::Rename("/k", "/k/"), "ENOTDIR"),
    (Step::Rename("/k", "/k/x"), "ENOTDIR"),
    (Step::Rename("/", "/k/x"), "ENOTDIR"),
    (Step::Rename("/", "/"), "EBUSY"),
    (Step::Rename("/", "/m"), "EBUSY"),
    (Step::Rename("/k", "/"), "EBUSY"),
    (Step::Rename("/k", "/."), "EBUSY"),
    (Step::Rename("/", "/k"), "EBUSY"),
    (Step::Mkdir("/d"), "0"),
    (Step::Rename("/d/..", "/m"), "EBUSY"),
    (Step::Rename("/k", "/d/.."), "EBUSY"),
    (Step::Rename("/d/.", "/m"), "EINVAL"),
    (Step::Rename("/d/.", "/d"), "EINVAL"),
    (Step::Rename("/d", "/d/."), "EINVAL"),
    (Step::Rename("/k", "/d/."), "EINVAL"),
    (Step::Rename("/k", "/d"), "EISDIR"),
    (Step::Rename("/k", "/d/"), "EISDIR"),
    (Step::Rename("/d", "/k"), "ENOTDIR"),
    (Step::Rename("/d", "/k/"), "ENOTDIR"),
    (Step::Rename("/k", "/d/k"), "0"),
    (Step::Stat("/d/k"), "0 file, links 1, size 3, node 2"),
    (Step::Rename("/d/k", "/d/../d/k"), "0"),
    (Step::Rename("/d/k", "/k"), "0"),
    (Step::Stat("/k"), "0 file, links 1, size 3, node 2"),
    (Step::Rmdir("/d"), "0"),
];

/// Directories that move with all that they hold.
const MOVES: &[(Step, &str)] = &[
    (Step::Mkdir("/a"), "0"),
    (Step::Mkdir("/a/b"), "0"),
    (Step::Open("/a/b/f", O_RDWR | O_CREAT), "0"),
    (Step::Write(0, "deep"), "4"),
    (Step::Mkdir("/ab"), "0"),
    (Step::Rename("/a", "/c/"), "0"),
    (Step::Stat("/a"), "ENOENT"),
    (Step::Stat("/a/b/f"), "ENOENT"),
    (Step::Stat("/c"), "0 directory, links 1, size 0, node 2"),
    (Step::Stat("/c/b"), "0 directory, links 1, size 0, node 3"),
    (Step::Stat("/c/b/f"), "0 file, links 1, size 4, node 4"),
    (Step::Stat("/ab"), "0 directory, links 1, size 0, node 5"),
    (Step::Open("/c/b/f", O_RDONLY), "1"),
    (Step::Read(1, 9), "4 deep"),
    (Step::Rename("/c", "/c/b/x"), "EINVAL"),
    (Step::Rename("/c", "/c/b/x/"), "EINVAL"),
    (Step::Rename("/c", "/c/b"), "EINVAL"),
    (Step::Rename("/c", "/c/b/f"), "EINVAL"),
    (Step::Rename("/c/b", "/c"), "ENOTEMPTY"),
    (Step::Rename("/ab", "/c"), "ENOTEMPTY"),
    (Step::Rename("/c/b/f", "/c"), "EISDIR"),
    (Step::Rename("/c", "/ab"), "0"),
    (Step::Stat("/c"), "ENOENT"),
    (Step::Stat("/ab"), "0 directory, links 1, size 0, node 2"),
    (Step::Stat("/ab/b/f"), "0 file, links 1, size 4, node 4"),
    (Step::Rename("/ab/b", "/b"), "0"),
    (Step::Stat("/b/f"), "0 file, links 1, size 4, node 4"),
    (Step::Stat("/b/.."), "0 directory, links 1, size 0, node 1"),
    (Step::Rename("/ab/../b/", "/ab/"), "0"),
    (Step::Stat("/ab"), "0 directory, links 1, size 0, node 3"),
    (Step::Stat("/ab/f"), "0 file, links 1, size 4, node 4"),
    (Step::Stat("/b"), "ENOENT"),
    (Step::Rename("/ab/", "/ab/"), "0"),
    (Step::Rename("/ab", "/../ab"), "0"),
    (Step::Pread(0, 9, 0), "4 deep"),
];

#[test]
fn refused(rt: HostRuntime) -> Result<(), Fail> {
    run_alone(&rt, rt.alloc(), REFUSED)
}

#[test]
fn links(rt: HostRuntime) -> Result<(), Fail> {
    run_alone(&rt, rt.alloc(), LINKS)
}

#[test]
fn directories(rt: HostRuntime) -> Result<(), Fail> {
    run_alone(&rt, rt.alloc(), DIRECTORIES)
}

#[test]
fn renames(rt: HostRuntime) -> Result<(), Fail> {
    run_alone(&rt, rt.alloc(), RENAMES)
}

#[test]
fn moves(rt: HostRuntime) -> Result<(), Fail> {
    run_alone(&rt, rt.alloc(), MOVES)
}
