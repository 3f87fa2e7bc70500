// The text of rows, worked out by hand.
use crate::{Row, RowResult, SideName, row_text};
use kern_model::{OutPiece, Outs};
use sp_base::{Answer, Items, Octets, Pid, Place, SpError};
use std::alloc::Global;
use std::test::Fail;

/// What a call answered: error, both values, and the pieces that it wrote.
type Given = (u32, u64, u64, &'static [&'static [u8]]);

/// A line, what its call answered, and what its row tells behind the `=`.
const ANSWERS: [(&str, Given, &str); 22] = [
    ("getpid", (0, 2, 0, &[]), "2"),
    ("close 3", (9, 0, 0, &[]), "-1 EBADF"),
    ("close 3", (200, 0, 0, &[]), "-1 200"),
    ("pipe", (0, 0, 1, &[]), "0 1"),
    ("read 0 5", (0, 5, 0, &[b"hello"]), r#"5 "hello""#),
    ("& read 0 5", (0, 2, 0, &[b"\"\n"]), r#"2 "\"\n""#),
    ("read 0 bad 5", (0, 0, 0, &[]), r#"0 """#),
    ("read 0 5", (0, 5, 0, &[b"hell"]), "5"),
    ("pread 0 2 0", (0, 2, 0, &[b"\x00\x7f"]), r#"2 "\x00\x7f""#),
    ("recvfrom 0 5", (0, 1, 0, &[b"x"]), r#"1 "x""#),
    (
        "recvfrom 0 5",
        (0, 1, 3, &[b"x", b"\x01/s"]),
        r#"1 "x" local "/s""#,
    ),
    (
        "recvfrom 0 5",
        (0, 0, 7, &[b"\x02\x7f\0\0\x01\x50\0"]),
        r#"0 "" inet 127.0.0.1 80"#,
    ),
    ("recvfrom 0 5", (0, 1, 3, &[b"x"]), "1"),
    (
        "fstat 0",
        (
            0,
            0,
            0,
            &[b"\x01\0\0\0\x01\0\0\0\x05\0\0\0\0\0\0\0\x02\0\0\0\0\0\0\0"],
        ),
        "0 file 1 5 2",
    ),
    ("fstat 0", (0, 0, 0, &[b"\x01\0\0\0"]), "0"),
    ("getsockname 0", (0, 1, 0, &[b"\x01"]), r#"1 local """#),
    (
        "getpeername 0",
        (0, 7, 0, &[b"\x02\0\0\0\0\0\0"]),
        "7 inet 0.0.0.0 0",
    ),
    ("getsockname 0", (0, 2, 0, &[b"\x03x"]), "2"),
    (
        "poll 0 0:in|out -1:in",
        (
            0,
            1,
            0,
            &[b"\0\0\0\0\x05\0\x15\0\xff\xff\xff\xff\x01\0\0\0"],
        ),
        "1 0:in|out|hup -1:none",
    ),
    ("poll 0 0:in", (0, 1, 0, &[b"\0\0\0\0\x01\0\x02\0"]), "1"),
    ("poll 0", (0, 0, 0, &[]), "0"),
    ("write 0 \"x\"", (0, 1, 0, &[]), "1"),
];

/// The pieces of an answer.
fn pieces(alloc: Global, given: &[&[u8]]) -> Result<Outs, Fail> {
    let mut outs = Items::none(alloc);
    for piece in given {
        let bytes = Octets::of(alloc, piece)?;
        outs.push(OutPiece { addr: 4096, bytes })?;
    }
    Ok(outs)
}

/// The row of a line of the guest `a`, on the rump kernel at place 7.
fn row(alloc: Global, line: &str, end: RowResult) -> Result<Row, Fail> {
    Ok(Row {
        guest: Octets::of(alloc, b"a")?,
        number: 12,
        side: Some(SideName::Rump),
        both: false,
        place: Some(Place(7)),
        line: Octets::of(alloc, line.as_bytes())?,
        result: end,
    })
}

#[test]
fn rows_of_answers(rt: HostRuntime) -> Result<(), Fail> {
    for (line, (err, ret0, ret1, outs), told) in ANSWERS {
        let answer = Answer {
            err,
            ret0,
            ret1,
            place: Place(7),
        };
        let outs = pieces(rt.alloc(), outs)?;
        let row = row(rt.alloc(), line, RowResult::Gave(answer, outs))?;
        let text = row_text(rt.alloc(), &row)?;
        let want = format!(in rt.alloc(); "a.12 rump 7 {line} = {told}\n")?;
        assert_eq!(rt; text.slice(), want.as_bytes());
    }
    Ok(())
}

#[test]
fn rows_of_other_ends(rt: HostRuntime) -> Result<(), Fail> {
    let mut fork = row(rt.alloc(), "fork b", RowResult::Child(Pid(3)))?;
    assert_eq!(rt;
        row_text(rt.alloc(), &fork)?.slice(),
        b"a.12 rump 7 fork b = 3\n".as_slice()
    );
    fork.result = RowResult::Refused(SpError::Memory);
    fork.side = Some(SideName::Host);
    fork.place = None;
    let text = row_text(rt.alloc(), &fork)?;
    assert_eq!(rt;
        text.slice(),
        b"a.12 host - fork b = refused 6\n".as_slice()
    );
    fork.result = RowResult::Lost;
    fork.side = None;
    let text = row_text(rt.alloc(), &fork)?;
    assert_eq!(rt; text.slice(), b"a.12 none - fork b = lost\n".as_slice());
    fork.result = RowResult::Blocked;
    fork.both = true;
    let text = row_text(rt.alloc(), &fork)?;
    assert_eq!(rt; text.slice(), b"a.12 both - fork b = blocked\n".as_slice());
    Ok(())
}
