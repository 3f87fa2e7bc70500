// Open, and what is read, written and told of files.
use crate::tests::step::{
    FROM_END, FROM_OFFSET, FROM_START, MINUS_1, O_APPEND, O_CREAT, O_EXCL, O_NONBLOCK, O_RDONLY,
    O_RDWR, O_TRUNC, O_WRONLY, Step,
};
use crate::tests::{one_process, run, run_alone};
use sp_base::Errno;
use std::test::Fail;

/// The largest offset, and the word behind it, which is the lowest negative one.
const LAST_OFFSET: u64 = (1 << 63) - 1;

const LOWEST: u64 = 1 << 63;

/// 16 MiB, the most that a file has.
const FULL: u64 = 1 << 24;

const OPENING: &[(Step, &str)] = &[
    (Step::Open("/f", O_RDONLY), "ENOENT"),
    (Step::Open("/f", O_RDWR | O_EXCL), "ENOENT"),
    (Step::Open("/f", O_RDWR | O_TRUNC), "ENOENT"),
    (Step::Open("/f/", O_RDWR | O_CREAT), "ENOENT"),
    (Step::Open("/no/f", O_RDWR | O_CREAT), "ENOENT"),
    (Step::Open("", O_RDWR | O_CREAT), "ENOENT"),
    (Step::Open("/f", O_RDWR | O_CREAT | O_EXCL), "0"),
    (Step::Open("/f", O_RDWR | O_CREAT | O_EXCL), "EEXIST"),
    (Step::Open("/f", O_RDWR | O_CREAT), "1"),
    (Step::Open("/f", O_RDONLY | O_EXCL), "2"),
    (Step::Write(0, "hello"), "5"),
    (Step::Open("/f", O_RDONLY | O_TRUNC), "EINVAL"),
    (Step::Open("/no", O_RDONLY | O_TRUNC), "EINVAL"),
    (Step::Open("/f", 3), "EINVAL"),
    (Step::Open("/no/f", 3 | O_CREAT), "EINVAL"),
    (Step::Open("/f", 16), "EINVAL"),
    (Step::Open("/f", 1 << 32), "EINVAL"),
    (Step::Open("/f", 1 << 63), "EINVAL"),
    (Step::Stat("/f"), "0 file, links 1, size 5, node 2"),
    (Step::Open("/f", O_WRONLY | O_TRUNC), "3"),
    (Step::Stat("/f"), "0 file, links 1, size 0, node 2"),
    (Step::Write(0, "!"), "1"),
    (Step::Pread(0, 99, 0), "6 \0\0\0\0\0!"),
    (Step::Open("/f", O_RDWR | O_TRUNC | O_CREAT), "4"),
    (Step::Stat("/f"), "0 file, links 1, size 0, node 2"),
    (Step::Open("/", O_RDONLY), "5"),
    (Step::Open("/", O_RDONLY | O_NONBLOCK), "6"),
    (Step::Open("/", O_WRONLY), "EISDIR"),
    (Step::Open("/", O_RDWR | O_TRUNC), "EISDIR"),
    (Step::Open("/", O_RDONLY | O_CREAT), "EISDIR"),
    (Step::Open("/", O_RDWR | O_CREAT | O_EXCL), "EEXIST"),
    (Step::Open("/f/", O_RDONLY), "ENOTDIR"),
    (Step::Open("/f/", O_RDWR | O_CREAT | O_EXCL), "ENOTDIR"),
    (Step::Open("/f/g", O_RDWR | O_CREAT), "ENOTDIR"),
    (Step::Open("/g", O_RDONLY | O_CREAT), "7"),
    (Step::Fstat(7), "0 file, links 1, size 0, node 3"),
    (Step::Write(7, "x"), "EBADF"),
    (Step::Read(7, 5), "0"),
];

const FAULTS: &[(Step, &str)] = &[
    (Step::OpenFault(Errno::Efault), "EFAULT"),
    (Step::OpenFault(Errno::Enametoolong), "ENAMETOOLONG"),
    (Step::WriteFault(9, 5), "EFAULT"),
    (Step::Write(9, ""), "EBADF"),
    (Step::Open("/f", O_RDWR | O_CREAT), "0"),
    (Step::WriteFault(0, 1), "EFAULT"),
    (Step::Fstat(0), "0 file, links 1, size 0, node 2"),
];

const READING: &[(Step, &str)] = &[
    (Step::Open("/f", O_RDWR | O_CREAT), "0"),
    (Step::Write(0, "hello"), "5"),
    (Step::Read(0, 9), "0"),
    (Step::Lseek(0, 0, FROM_START), "0"),
    (Step::Read(0, 2), "2 he"),
    (Step::Read(0, 0), "0"),
    (Step::Read(0, MINUS_1), "3 llo"),
    (Step::Read(0, 9), "0"),
    (Step::Lseek(0, 9, FROM_START), "9"),
    (Step::Read(0, 1), "0"),
    (Step::Lseek(0, 0, FROM_OFFSET), "9"),
    (Step::Open("/f", O_WRONLY), "1"),
    (Step::Read(1, 1), "EBADF"),
    (Step::Read(1, 0), "EBADF"),
    (Step::Open("/", O_RDONLY), "2"),
    (Step::Read(2, 1), "EISDIR"),
    (Step::Read(2, 0), "EISDIR"),
    (Step::Read(3, 1), "EBADF"),
    (Step::Read(128, 1), "EBADF"),
    (Step::Read(MINUS_1, 1), "EBADF"),
    (Step::Pread(0, 3, 1), "3 ell"),
    (Step::Pread(0, 9, 4), "1 o"),
    (Step::Pread(0, 9, 5), "0"),
    (Step::Pread(0, 9, LAST_OFFSET), "0"),
    (Step::Pread(0, 9, LOWEST), "EINVAL"),
    (Step::Pread(0, 0, MINUS_1), "EINVAL"),
    (Step::Lseek(0, 0, FROM_OFFSET), "9"),
    (Step::Pread(1, 1, 0), "EBADF"),
    (Step::Pread(1, 1, MINUS_1), "EINVAL"),
    (Step::Pread(2, 1, 0), "EISDIR"),
    (Step::Pread(2, 1, MINUS_1), "EINVAL"),
    (Step::Pread(3, 1, MINUS_1), "EBADF"),
];

const WRITING: &[(Step, &str)] = &[
    (Step::Open("/f", O_RDWR | O_CREAT), "0"),
    (Step::Write(0, "hello"), "5"),
    (Step::Lseek(0, 1, FROM_START), "1"),
    (Step::Write(0, "EY"), "2"),
    (Step::Lseek(0, 0, FROM_OFFSET), "3"),
    (Step::Pread(0, 9, 0), "5 hEYlo"),
    (Step::Lseek(0, 8, FROM_START), "8"),
    (Step::Write(0, ""), "0"),
    (Step::Fstat(0), "0 file, links 1, size 5, node 2"),
    (Step::Write(0, "z"), "1"),
    (Step::Pread(0, 99, 0), "9 hEYlo\0\0\0z"),
    (Step::Lseek(0, 0, FROM_OFFSET), "9"),
    (Step::Open("/f", O_RDONLY), "1"),
    (Step::Write(1, "x"), "EBADF"),
    (Step::Write(1, ""), "EBADF"),
    (Step::Open("/", O_RDONLY), "2"),
    (Step::Write(2, "x"), "EBADF"),
    (Step::Write(3, "x"), "EBADF"),
    (Step::Pwrite(0, "H", 0), "1"),
    (Step::Pwrite(0, "end", 10), "3"),
    (Step::Lseek(0, 0, FROM_OFFSET), "9"),
    (Step::Pread(0, 99, 0), "13 HEYlo\0\0\0z\0end"),
    (Step::Pwrite(0, "x", MINUS_1), "EINVAL"),
    (Step::Pwrite(0, "", MINUS_1), "EINVAL"),
    (Step::Pwrite(0, "", LAST_OFFSET), "0"),
    (Step::Pwrite(1, "x", MINUS_1), "EINVAL"),
    (Step::Pwrite(1, "x", 0), "EBADF"),
    (Step::Pwrite(3, "x", MINUS_1), "EBADF"),
];

const APPENDING: &[(Step, &str)] = &[
    (Step::Open("/f", O_RDWR | O_CREAT | O_APPEND), "0"),
    (Step::Write(0, "one"), "3"),
    (Step::Lseek(0, 0, FROM_START), "0"),
    (Step::Read(0, 1), "1 o"),
    (Step::Write(0, "two"), "3"),
    (Step::Lseek(0, 0, FROM_OFFSET), "6"),
    (Step::Pread(0, 9, 0), "6 onetwo"),
    (Step::Lseek(0, 20, FROM_START), "20"),
    (Step::Write(0, ""), "0"),
    (Step::Lseek(0, 0, FROM_OFFSET), "20"),
    (Step::Write(0, "3"), "1"),
    (Step::Pread(0, 9, 0), "7 onetwo3"),
    (Step::Pwrite(0, "O", 0), "1"),
    (Step::Pread(0, 9, 0), "7 Onetwo3"),
    (Step::Lseek(0, 0, FROM_OFFSET), "7"),
];

const SEEKING: &[(Step, &str)] = &[
    (Step::Open("/f", O_RDWR | O_CREAT), "0"),
    (Step::Write(0, "hello"), "5"),
    (Step::Lseek(0, 2, FROM_START), "2"),
    (Step::Lseek(0, 1, FROM_OFFSET), "3"),
    (Step::Lseek(0, MINUS_1 - 1, FROM_OFFSET), "1"),
    (Step::Lseek(0, MINUS_1 - 1, FROM_OFFSET), "EINVAL"),
    (Step::Lseek(0, 0, FROM_OFFSET), "1"),
    (Step::Lseek(0, MINUS_1 - 4, FROM_END), "0"),
    (Step::Lseek(0, MINUS_1 - 5, FROM_END), "EINVAL"),
    (Step::Lseek(0, 1, FROM_END), "6"),
    (Step::Lseek(0, MINUS_1, FROM_START), "EINVAL"),
    (Step::Lseek(0, 0, 3), "EINVAL"),
    (Step::Lseek(0, 0, MINUS_1), "EINVAL"),
    (Step::Lseek(0, 0, 1 << 32), "EINVAL"),
    (
        Step::Lseek(0, LAST_OFFSET, FROM_START),
        "9223372036854775807",
    ),
    (Step::Read(0, 1), "0"),
    (Step::Write(0, "x"), "EFBIG"),
    (Step::Lseek(0, 1, FROM_OFFSET), "EINVAL"),
    (Step::Lseek(0, LOWEST, FROM_OFFSET), "EINVAL"),
    (Step::Lseek(0, LOWEST + 1, FROM_OFFSET), "0"),
    (Step::Lseek(0, LAST_OFFSET, FROM_END), "EINVAL"),
    (Step::Open("/", O_RDONLY), "1"),
    (Step::Lseek(1, 0, FROM_END), "0"),
    (Step::Lseek(1, 7, FROM_END), "7"),
    (Step::Lseek(1, 0, FROM_OFFSET), "7"),
    (Step::Lseek(2, 0, 9), "EBADF"),
];

const LENGTHS: &[(Step, &str)] = &[
    (Step::Open("/f", O_RDWR | O_CREAT), "0"),
    (Step::Write(0, "hello"), "5"),
    (Step::Ftruncate(0, 2), "0"),
    (Step::Pread(0, 9, 0), "2 he"),
    (Step::Ftruncate(0, 4), "0"),
    (Step::Pread(0, 9, 0), "4 he\0\0"),
    (Step::Lseek(0, 0, FROM_OFFSET), "5"),
    (Step::Write(0, "!"), "1"),
    (Step::Pread(0, 9, 0), "6 he\0\0\0!"),
    (Step::Open("/f", O_WRONLY), "1"),
    (Step::Ftruncate(1, 1), "0"),
    (Step::Pread(0, 9, 0), "1 h"),
    (Step::Open("/f", O_RDONLY), "2"),
    (Step::Ftruncate(2, 0), "EINVAL"),
    (Step::Ftruncate(2, MINUS_1), "EINVAL"),
    (Step::Open("/", O_RDONLY), "3"),
    (Step::Ftruncate(3, 0), "EINVAL"),
    (Step::Ftruncate(4, 0), "EBADF"),
    (Step::Ftruncate(0, FULL + 1), "EFBIG"),
    (Step::Ftruncate(0, MINUS_1), "EFBIG"),
    (Step::Fstat(0), "0 file, links 1, size 1, node 2"),
    (Step::Ftruncate(0, FULL), "0"),
    (Step::Fstat(0), "0 file, links 1, size 16777216, node 2"),
    (Step::Lseek(0, 0, FROM_END), "16777216"),
    (Step::Write(0, "x"), "EFBIG"),
    (Step::Write(0, ""), "0"),
    (Step::Pwrite(0, "x", FULL), "EFBIG"),
    (Step::Pwrite(0, "abc", FULL - 2), "2"),
    (Step::Pread(0, 9, FULL - 3), "3 \0ab"),
    (Step::Lseek(0, MINUS_1, FROM_OFFSET), "16777215"),
    (Step::Write(0, "xyz"), "1"),
    (Step::Lseek(0, 0, FROM_OFFSET), "16777216"),
    (Step::Ftruncate(0, 0), "0"),
    (Step::Fstat(0), "0 file, links 1, size 0, node 2"),
    (Step::Lseek(0, 0, FROM_OFFSET), "16777216"),
];

/// A file without a name, which goes with its last descriptor; no number comes again.
const NAMELESS: &[(Step, &str)] = &[
    (Step::Open("/f", O_RDWR | O_CREAT), "0"),
    (Step::Write(0, "hello"), "5"),
    (Step::Unlink("/f"), "0"),
    (Step::Stat("/f"), "ENOENT"),
    (Step::Fstat(0), "0 file, links 0, size 5, node 2"),
    (Step::Pread(0, 9, 0), "5 hello"),
    (Step::Write(0, "!"), "1"),
    (Step::Fstat(0), "0 file, links 0, size 6, node 2"),
    (Step::Open("/f", O_RDWR | O_CREAT | O_EXCL), "1"),
    (Step::Fstat(1), "0 file, links 1, size 0, node 3"),
    (Step::Close(0), "0"),
    (Step::Fstat(0), "EBADF"),
    (Step::Unlink("/f"), "0"),
    (Step::Close(1), "0"),
    (Step::Open("/f", O_RDWR | O_CREAT), "0"),
    (Step::Fstat(0), "0 file, links 1, size 0, node 4"),
    (Step::Fstat(128), "EBADF"),
];

/// Where sixteen files have 16 MiB each: all that there can be.
const NO_SPACE: &[(Step, &str)] = &[
    (Step::Open("/last", O_RDWR | O_CREAT), "0"),
    (Step::Write(0, ""), "0"),
    (Step::Write(0, "x"), "ENOSPC"),
    (Step::Pwrite(0, "x", 0), "ENOSPC"),
    (Step::Pwrite(0, "x", FULL), "EFBIG"),
    (Step::Ftruncate(0, 1), "ENOSPC"),
    (Step::Ftruncate(0, FULL + 1), "EFBIG"),
    (Step::Ftruncate(0, 0), "0"),
    (Step::Fstat(0), "0 file, links 1, size 0, node 18"),
    (Step::Open("/p", O_RDWR), "1"),
    (Step::Write(1, "in place"), "8"),
    (Step::Ftruncate(1, FULL), "0"),
    (Step::Ftruncate(1, FULL - 1), "0"),
    (Step::Write(0, "xy"), "ENOSPC"),
    (Step::Write(0, "x"), "1"),
    (Step::Pwrite(1, "yz", FULL - 1), "ENOSPC"),
    (Step::Ftruncate(0, 0), "0"),
    (Step::Pwrite(1, "yz", FULL - 1), "1"),
    (Step::Unlink("/p"), "0"),
    (Step::Write(0, "x"), "ENOSPC"),
    (Step::Close(1), "0"),
    (Step::Write(0, "x"), "1"),
];

#[test]
fn opening(rt: HostRuntime) -> Result<(), Fail> {
    run_alone(&rt, rt.alloc(), OPENING)?;
    run_alone(&rt, rt.alloc(), FAULTS)
}

#[test]
fn reading(rt: HostRuntime) -> Result<(), Fail> {
    run_alone(&rt, rt.alloc(), READING)
}

#[test]
fn writing(rt: HostRuntime) -> Result<(), Fail> {
    run_alone(&rt, rt.alloc(), WRITING)?;
    run_alone(&rt, rt.alloc(), APPENDING)
}

#[test]
fn offsets_and_lengths(rt: HostRuntime) -> Result<(), Fail> {
    run_alone(&rt, rt.alloc(), SEEKING)?;
    run_alone(&rt, rt.alloc(), LENGTHS)
}

#[test]
fn files_without_a_name(rt: HostRuntime) -> Result<(), Fail> {
    run_alone(&rt, rt.alloc(), NAMELESS)
}

#[test]
fn no_space(rt: HostRuntime) -> Result<(), Fail> {
    let names = [
        "/a", "/b", "/c", "/d", "/e", "/f", "/g", "/h", "/i", "/j", "/k", "/l", "/m", "/n", "/o",
        "/p",
    ];
    let mut both = one_process(rt.alloc())?;
    for name in names {
        let rows = [
            (Step::Open(name, O_RDWR | O_CREAT), "0"),
            (Step::Ftruncate(0, FULL), "0"),
            (Step::Close(0), "0"),
        ];
        run(&rt, &mut both, 2, &rows)?;
    }
    run(&rt, &mut both, 2, NO_SPACE)
}
