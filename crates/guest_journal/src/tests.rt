// The text of journals, worked out by hand.
use crate::{journal_text, put_entry};
use guest_rows::SideName;
use kern_model::{Entry, Ins, Op, OutPiece, Outcome, Who};
use sp_base::{Call, ConnNo, Errno, Items, Octets, Pid, Place, ReqNo, Words};
use std::alloc::Global;
use std::test::Fail;

/// The number and the words of a call, what was gathered for it, and its text.
const GATHERED: [(u32, &[u64], &[&[u8]], &str); 58] = [
    (1, &[], &[], "getpid"),
    (2, &[16, 0], &[b"/f"], r#"open "/f" O_RDONLY"#),
    (2, &[16, 0x202], &[b"/f"], r#"open "/f" O_RDWR|O_CREAT"#),
    (
        2,
        &[16, 0x400e0f],
        &[b"a"],
        r#"open "a" O_WRONLY|O_RDWR|O_NONBLOCK|O_APPEND|O_CREAT|O_TRUNC|O_EXCL|O_CLOEXEC"#,
    ),
    (2, &[16, 0x11], &[b"/f"], "call 2 16 17"),
    (3, &[3], &[], "close 3"),
    (4, &[3, 16, 5], &[], "read 3 5"),
    (5, &[3, 16, 2], &[b"hi"], r#"write 3 "hi""#),
    (5, &[3, 16, 4], &[b"\"\\\n\xff"], r#"write 3 "\"\\\n\xff""#),
    (5, &[3, 16, 0], &[], r#"write 3 """#),
    (6, &[3, 16, 2, u64::MAX], &[], "pread 3 2 -1"),
    (7, &[3, 16, 1, 7], &[b"\x00"], r#"pwrite 3 "\x00" 7"#),
    (8, &[3, u64::MAX - 1, 2], &[], "lseek 3 -2 end"),
    (8, &[3, 1, 0], &[], "lseek 3 1 set"),
    (8, &[3, 1, 3], &[], "call 8 3 1 3"),
    (9, &[3, 9], &[], "ftruncate 3 9"),
    (10, &[3, 16], &[], "fstat 3"),
    (11, &[16, 32], &[b"/f"], r#"stat "/f""#),
    (12, &[16, 32], &[b"/a", b"/b"], r#"link "/a" "/b""#),
    (13, &[16], &[b""], r#"unlink """#),
    (14, &[16, 32], &[b"a", b"b"], r#"rename "a" "b""#),
    (15, &[16], &[b"/d"], r#"mkdir "/d""#),
    (16, &[16], &[b"/d"], r#"rmdir "/d""#),
    (17, &[16], &[b"/d"], r#"chdir "/d""#),
    (18, &[1], &[], "dup 1"),
    (19, &[1, 2], &[], "dup2 1 2"),
    (20, &[1, 0, 5], &[], "fcntl 1 dupfd 5"),
    (20, &[1, 3, 0], &[], "fcntl 1 getfl 0"),
    (20, &[1, 3, 4], &[], "call 20 1 3 4"),
    (20, &[1, 4, 4], &[], "fcntl 1 setfl 4"),
    (20, &[1, 5, 0], &[], "call 20 1 5 0"),
    (21, &[], &[], "pipe"),
    (22, &[2, 2], &[], "socket inet dgram"),
    (22, &[3, 1], &[], "call 22 3 1"),
    (23, &[1, 1], &[], "socketpair local stream"),
    (24, &[0, 16, 3], &[b"\x01/s"], r#"bind 0 local "/s""#),
    (24, &[0, 16, 0], &[], "call 24 0 16 0"),
    (24, &[0, 16, 2], &[b"\x03x"], "call 24 0 16 2"),
    (25, &[0, 4], &[], "listen 0 4"),
    (26, &[0], &[], "accept 0"),
    (
        27,
        &[0, 16, 7],
        &[b"\x02\x7f\0\0\x01\x50\0"],
        "connect 0 inet 127.0.0.1 80",
    ),
    (28, &[0, 16, 1, 32, 0], &[b"x"], r#"sendto 0 "x""#),
    (
        28,
        &[0, 16, 1, 32, 3],
        &[b"x", b"\x01/s"],
        r#"sendto 0 "x" local "/s""#,
    ),
    (
        28,
        &[0, 16, 0, 32, 3],
        &[b"\x01/s"],
        r#"sendto 0 "" local "/s""#,
    ),
    (28, &[0, 16, 1, 32, 105], &[b"x"], "call 28 0 16 1 32 105"),
    (29, &[0, 16, 5, 32, 104], &[], "recvfrom 0 5"),
    (29, &[0, 16, 5, 32, 8], &[], "call 29 0 16 5 32 8"),
    (30, &[0, 1], &[], "shutdown 0 write"),
    (30, &[0, 3], &[], "call 30 0 3"),
    (31, &[0, 16, 104], &[], "getsockname 0"),
    (32, &[0, 16, 104], &[], "getpeername 0"),
    (32, &[0, 16, 9], &[], "call 32 0 16 9"),
    (33, &[16, 0, u64::MAX], &[], "poll -1"),
    (
        33,
        &[16, 2, 0],
        &[b"\0\0\0\0\x05\0\0\0\xff\xff\xff\xff\0\0\0\0"],
        "poll 0 0:in|out -1:none",
    ),
    (
        33,
        &[16, 1, 0],
        &[b"\0\0\0\0\x01\0\x01\0"],
        "call 33 16 1 0",
    ),
    (33, &[16, 1, 0], &[b"\0\0\0\0\x02\0\0\0"], "call 33 16 1 0"),
    (33, &[16, 129, 0], &[], "call 33 16 129 0"),
    (99, &[1, 2], &[], "call 99 1 2"),
];

/// The number and the words of a call of which something couldn't be read, and its text.
const FAULTS: [(u32, &[u64], &str); 8] = [
    (2, &[16, 0], "open bad O_RDONLY"),
    (12, &[16, 32], "link bad bad"),
    (5, &[3, 16, 70_000], "write 3 bad 70000"),
    (7, &[3, 16, 1, 7], "pwrite 3 bad 1 7"),
    (24, &[0, 16, 3], "bind 0 bad"),
    (28, &[0, 16, 1, 32, 3], "sendto 0 bad 1 bad"),
    (28, &[0, 16, 1, 32, 0], "sendto 0 bad 1"),
    (33, &[16, 2, 0], "poll 0 bad 2"),
];

/// The number and the words of a call, its outcome, and how its line ends.
const OUTCOMES: [(u32, &[u64], (u32, u64, u64), &[&[u8]], &str); 9] = [
    (
        4,
        &[0, 16, 5],
        (0, 5, 0),
        &[b"hello"],
        r#"read 0 5 = 5 "hello""#,
    ),
    (4, &[0, 16, 5], (9, 0, 0), &[], "read 0 5 = -1 EBADF"),
    (4, &[0, 16, 5], (200, 0, 0), &[], "read 0 5 = -1 200"),
    (21, &[], (0, 3, 4), &[], "pipe = 3 4"),
    (
        29,
        &[0, 16, 5, 32, 8],
        (0, 1, 3),
        &[b"x", b"\x01/s"],
        r#"call 29 0 16 5 32 8 = 1 "x" local "/s""#,
    ),
    (
        10,
        &[0, 16],
        (0, 0, 0),
        &[b"\x02\0\0\0\x01\0\0\0\0\0\0\0\0\0\0\0\x01\0\0\0\0\0\0\0"],
        "fstat 0 = 0 directory 1 0 1",
    ),
    (
        31,
        &[0, 16, 104],
        (0, 1, 0),
        &[b"\x01"],
        r#"getsockname 0 = 1 local """#,
    ),
    (33, &[16, 0, 0], (0, 0, 0), &[], "poll 0 = 0"),
    (99, &[], (78, 0, 0), &[], "call 99 = -1 ENOSYS"),
];

/// What was gathered.
fn given(alloc: Global, pieces: &[&[u8]]) -> Result<Ins, Fail> {
    let mut gathered = Items::none(alloc);
    for piece in pieces {
        gathered.push(Octets::of(alloc, piece)?)?;
    }
    Ok(Ins::Given(gathered))
}

/// What was written.
fn outcome(
    alloc: Global,
    (err, ret0, ret1): (u32, u64, u64),
    pieces: &[&[u8]],
) -> Result<Outcome, Fail> {
    let mut outs = Items::none(alloc);
    for piece in pieces {
        let bytes = Octets::of(alloc, piece)?;
        outs.push(OutPiece { addr: 16, bytes })?;
    }
    Ok(Outcome {
        err,
        ret0,
        ret1,
        outs,
    })
}

/// The call of a number and words.
fn call(num: u32, words: &[u64]) -> Result<Op, Fail> {
    let mut gathered = Words::none();
    for word in words {
        if !gathered.is_full() {
            gathered.push(*word);
        }
    }
    match Call::of_words(num, &gathered) {
        Ok(call) => Ok(Op::Sys(call)),
        Err(_) => Err(Fail::new("words of another call")),
    }
}

/// The line of a request's entry at place 7.
fn line(alloc: Global, op: Op, ins: Ins, outcome: Outcome) -> Result<Octets, Fail> {
    let entry = Entry {
        pid: Pid(2),
        who: Who::Request(ConnNo(0), ReqNo(3)),
        op,
        ins,
        outcome,
    };
    let mut text = Octets::none(alloc);
    put_entry(alloc, &mut text, Place(7), &entry)?;
    Ok(text)
}

#[test]
fn lines_of_calls(rt: HostRuntime) -> Result<(), Fail> {
    let alloc = rt.alloc();
    for (num, words, pieces, told) in GATHERED {
        let ins = given(alloc, pieces)?;
        let line = line(alloc, call(num, words)?, ins, Outcome::success(alloc, 0))?;
        let want = format!(in alloc; "7 0/3 2 {told} = ")?;
        assert!(rt; line.slice().starts_with(want.as_bytes()));
    }
    for (num, words, told) in FAULTS {
        let outcome = Outcome::failure(alloc, Errno::Efault);
        let ins = Ins::Fault(Errno::Efault);
        let line = line(alloc, call(num, words)?, ins, outcome)?;
        let want = format!(in alloc; "7 0/3 2 {told} = -1 EFAULT\n")?;
        assert_eq!(rt; line.slice(), want.as_bytes());
    }
    Ok(())
}

#[test]
fn lines_of_outcomes(rt: HostRuntime) -> Result<(), Fail> {
    let alloc = rt.alloc();
    for (num, words, answer, pieces, told) in OUTCOMES {
        let outcome = outcome(alloc, answer, pieces)?;
        let line = line(alloc, call(num, words)?, given(alloc, &[])?, outcome)?;
        let want = format!(in alloc; "7 0/3 2 {told}\n")?;
        assert_eq!(rt; line.slice(), want.as_bytes());
    }
    Ok(())
}

#[test]
fn whole_journals(rt: HostRuntime) -> Result<(), Fail> {
    let alloc = rt.alloc();
    let kinds = [
        (0, Who::Request(ConnNo(4), ReqNo(1)), Op::Attach, 2),
        (2, Who::Host(1, 9), Op::Fork, 3),
        (2, Who::Request(ConnNo(5), ReqNo(1)), Op::Exec, 0),
        (3, Who::Cancelled(6), Op::Exit, 0),
        (2, Who::End(ConnNo(5)), Op::Exit, 0),
    ];
    let mut journal = Vec::new(alloc);
    for (pid, who, op, value) in kinds {
        journal.push(Entry {
            pid: Pid(pid),
            who,
            op,
            ins: given(alloc, &[])?,
            outcome: Outcome::success(alloc, value),
        })?;
    }
    let text = journal_text(alloc, SideName::Host, journal.as_slice())?;
    let lines = [
        "journal host",
        "0 4/1 0 attach = 2",
        "1 host/1/9 2 fork = 3",
        "2 5/1 2 exec = 0",
        "3 cancel/6 3 exit = 0",
        "4 end/5 2 exit = 0",
    ];
    let mut want = Octets::none(alloc);
    for line in lines {
        want.extend(line.as_bytes())?;
        want.push(b'\n')?;
    }
    assert_eq!(rt; text.slice(), want.slice());
    let empty = journal_text(alloc, SideName::Rump, &[])?;
    assert_eq!(rt; empty.slice(), b"journal rump\n".as_slice());
    Ok(())
}
