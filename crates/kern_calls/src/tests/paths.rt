// How paths are walked.
use crate::tests::run_alone;
use crate::tests::step::{O_CREAT, O_RDONLY, O_RDWR, Step};
use std::test::Fail;

const WALKS: &[(Step, &str)] = &[
    (Step::Mkdir("/d"), "0"),
    (Step::Mkdir("/d/e"), "0"),
    (Step::Mkdir("/d/e/"), "EEXIST"),
    (Step::Mkdir("/"), "EEXIST"),
    (Step::Mkdir("//"), "EEXIST"),
    (Step::Mkdir("/d/."), "EEXIST"),
    (Step::Mkdir("/d/.."), "EEXIST"),
    (Step::Mkdir("."), "EEXIST"),
    (Step::Mkdir("/no/x"), "ENOENT"),
    (Step::Mkdir("/no/."), "ENOENT"),
    (Step::Mkdir("/no/.."), "ENOENT"),
    (Step::Mkdir("/no//"), "0"),
    (Step::Stat("/no"), "0 directory, links 1, size 0, node 4"),
    (Step::Mkdir(""), "ENOENT"),
    (Step::Open("/f", O_RDWR | O_CREAT), "0"),
    (Step::Mkdir("/f"), "EEXIST"),
    (Step::Mkdir("/f/"), "ENOTDIR"),
    (Step::Mkdir("/f/x"), "ENOTDIR"),
    (Step::Stat("/f"), "0 file, links 1, size 0, node 5"),
    (Step::Stat("/f/"), "ENOTDIR"),
    (Step::Stat("/f/."), "ENOTDIR"),
    (Step::Stat("/f/.."), "ENOTDIR"),
    (Step::Stat("/f/x/y"), "ENOTDIR"),
    (Step::Stat("/x"), "ENOENT"),
    (Step::Stat("/x/"), "ENOENT"),
    (Step::Stat("/x/."), "ENOENT"),
    (Step::Stat("/x/.."), "ENOENT"),
    (Step::Stat("/x/y"), "ENOENT"),
    (Step::Stat(""), "ENOENT"),
    (Step::Stat("/"), "0 directory, links 1, size 0, node 1"),
    (Step::Stat("/d/"), "0 directory, links 1, size 0, node 2"),
    (
        Step::Stat("//d///e//"),
        "0 directory, links 1, size 0, node 3",
    ),
    (
        Step::Stat("/d/../d/./e/."),
        "0 directory, links 1, size 0, node 3",
    ),
    (Step::Stat("/.."), "0 directory, links 1, size 0, node 1"),
    (
        Step::Stat("/../../d"),
        "0 directory, links 1, size 0, node 2",
    ),
    (
        Step::Stat("/d/e/../.."),
        "0 directory, links 1, size 0, node 1",
    ),
    (Step::Stat("/d/../f"), "0 file, links 1, size 0, node 5"),
    (Step::Stat("d/e"), "0 directory, links 1, size 0, node 3"),
    (Step::Stat("."), "0 directory, links 1, size 0, node 1"),
    (Step::Stat(".."), "0 directory, links 1, size 0, node 1"),
    (Step::Stat("/..."), "ENOENT"),
    (Step::Mkdir("/..."), "0"),
    (
        Step::Stat("/.../.."),
        "0 directory, links 1, size 0, node 1",
    ),
    (Step::Stat("/D"), "ENOENT"),
];

const LONG_NAMES: &[(Step, &str)] = &[
    (Step::MkdirLong("/", 256), "ENAMETOOLONG"),
    (Step::MkdirLong("/", 255), "0"),
    (Step::MkdirLong("/", 255), "EEXIST"),
    (
        Step::StatLong("", 255, "/"),
        "0 directory, links 1, size 0, node 2",
    ),
    (Step::StatLong("/", 256, ""), "ENAMETOOLONG"),
    (Step::StatLong("/", 256, "/.."), "ENAMETOOLONG"),
    (Step::StatLong("/", 1022, ""), "ENAMETOOLONG"),
    (Step::StatLong("/no/", 255, ""), "ENOENT"),
    (Step::StatLong("/no/", 256, ""), "ENAMETOOLONG"),
    (Step::Open("/f", O_RDWR | O_CREAT), "0"),
    (Step::StatLong("/f/", 255, "/"), "ENOTDIR"),
    (Step::StatLong("/f/", 256, "/"), "ENAMETOOLONG"),
    (Step::MkdirLong("/f/", 256), "ENAMETOOLONG"),
];

const WORKING_DIRECTORIES: &[(Step, &str)] = &[
    (Step::Mkdir("/d"), "0"),
    (Step::Mkdir("/d/e"), "0"),
    (Step::Open("/d/f", O_RDWR | O_CREAT), "0"),
    (Step::Chdir("/d"), "0"),
    (Step::Stat("."), "0 directory, links 1, size 0, node 2"),
    (Step::Stat("f"), "0 file, links 1, size 0, node 4"),
    (Step::Stat(".."), "0 directory, links 1, size 0, node 1"),
    (Step::Stat("e/../f"), "0 file, links 1, size 0, node 4"),
    (Step::Stat("/f"), "ENOENT"),
    (Step::Open("f", O_RDONLY), "1"),
    (Step::Chdir("f"), "ENOTDIR"),
    (Step::Chdir("f/"), "ENOTDIR"),
    (Step::Chdir("f/x"), "ENOTDIR"),
    (Step::Chdir("no"), "ENOENT"),
    (Step::Chdir("no/"), "ENOENT"),
    (Step::Chdir(""), "ENOENT"),
    (Step::Chdir("e/"), "0"),
    (Step::Stat("../f"), "0 file, links 1, size 0, node 4"),
    (Step::Rename("/d", "/g"), "0"),
    (Step::Stat("../f"), "0 file, links 1, size 0, node 4"),
    (Step::Stat("/d"), "ENOENT"),
    (Step::Stat("."), "0 directory, links 1, size 0, node 3"),
    (Step::Rmdir("/g/e"), "EBUSY"),
    (Step::Rmdir("../e"), "EBUSY"),
    (Step::Rmdir("."), "EINVAL"),
    (Step::Rmdir(".."), "EINVAL"),
    (Step::Rename("/g/e", "/e"), "0"),
    (Step::Stat("."), "0 directory, links 1, size 0, node 3"),
    (Step::Stat(".."), "0 directory, links 1, size 0, node 1"),
    (Step::Mkdir("/h"), "0"),
    (Step::Rename("/h", "/e"), "EBUSY"),
    (Step::Mkdir("x"), "0"),
    (Step::Rename("/h", "/e"), "ENOTEMPTY"),
    (Step::Rmdir("/e"), "ENOTEMPTY"),
    (Step::Rmdir("x"), "0"),
    (Step::Chdir("/"), "0"),
    (Step::Rename("/h", "/e"), "0"),
    (Step::Stat("e"), "0 directory, links 1, size 0, node 5"),
];

#[test]
fn walks(rt: HostRuntime) -> Result<(), Fail> {
    run_alone(&rt, rt.alloc(), WALKS)
}

#[test]
fn long_names(rt: HostRuntime) -> Result<(), Fail> {
    run_alone(&rt, rt.alloc(), LONG_NAMES)
}

#[test]
fn working_directories(rt: HostRuntime) -> Result<(), Fail> {
    run_alone(&rt, rt.alloc(), WORKING_DIRECTORIES)
}
