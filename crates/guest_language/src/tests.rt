// What scripts say, and which fault a script has, by tables.
use crate::{Script, ScriptKind, What};
use sp_base::Octets;
use std::test::Fail;

const FIRST: u64 = 0x1000_0000;

const SECOND: u64 = 0x2000_0000;

/// A line of a guest, the number and the words of its call, and how many bytes its parts have.
const CALLS: [(&str, u32, &[u64], u64); 36] = [
    ("getpid", 1, &[], 0),
    (r#"open "/f" O_RDWR|O_CREAT"#, 2, &[FIRST, 0x202], 3),
    ("close 3", 3, &[3], 0),
    ("read 3 4", 4, &[3, FIRST, 4], 4),
    ("& read 0x3 bad 5", 4, &[3, 16, 5], 0),
    ("read 3 70000", 4, &[3, FIRST, 70_000], 65_536),
    (r#"write 3 "hi""#, 5, &[3, FIRST, 2], 2),
    ("write 3 fill 70000", 5, &[3, FIRST, 70_000], 70_000),
    ("write 3 bad 3", 5, &[3, 16, 3], 0),
    (r#"write 3 """#, 5, &[3, FIRST, 0], 0),
    ("pread 3 2 -1", 6, &[3, FIRST, 2, u64::MAX], 2),
    ("pread 3 bad 2 1", 6, &[3, 16, 2, 1], 0),
    (r#"& pwrite 3 "x" 7"#, 7, &[3, FIRST, 1, 7], 1),
    ("lseek 3 -2 end", 8, &[3, u64::MAX - 1, 2], 0),
    ("ftruncate 3 9", 9, &[3, 9], 0),
    ("fstat 3", 10, &[3, FIRST], 24),
    (r#"stat "/f""#, 11, &[FIRST, SECOND], 27),
    (r#"link "/a" "/b""#, 12, &[FIRST, SECOND], 6),
    (r#"unlink "/a""#, 13, &[FIRST], 3),
    (r#"rename "a" "b""#, 14, &[FIRST, SECOND], 4),
    (r#"mkdir "/d""#, 15, &[FIRST], 3),
    ("dup 1", 18, &[1], 0),
    ("dup2 1 2", 19, &[1, 2], 0),
    ("fcntl 1 setfl 4", 20, &[1, 4, 4], 0),
    ("pipe", 21, &[], 0),
    ("socket inet dgram", 22, &[2, 2], 0),
    (r#"bind 0 local "/s""#, 24, &[0, FIRST, 3], 3),
    ("listen 0 4", 25, &[0, 4], 0),
    (r#"connect 0 inet 127.0.0.1 80"#, 27, &[0, FIRST, 7], 7),
    (
        r#"sendto 0 "m" local "s""#,
        28,
        &[0, FIRST, 1, SECOND, 2],
        3,
    ),
    (r#"sendto 0 "m""#, 28, &[0, FIRST, 1, SECOND, 0], 1),
    ("recvfrom 0 bad 5", 29, &[0, 16, 5, SECOND, 104], 104),
    ("shutdown 0 both", 30, &[0, 2], 0),
    ("getsockname 0", 31, &[0, FIRST, 104], 104),
    ("poll -1 0:in 7:out", 33, &[FIRST, 2, u64::MAX], 16),
    ("call 99 1 2", 99, &[1, 2], 0),
];

#[test]
fn lines_of_calls(rt: HostRuntime) -> Result<(), Fail> {
    for (text, num, words, bytes) in CALLS {
        let mut whole = Octets::of(rt.alloc(), b"# one guest\n\nguest a\n")?;
        whole.extend(text.as_bytes())?;
        let script = Script::read(rt.alloc(), whole.slice())?;
        assert_eq!(rt; script.sections().len(), 1);
        for line in script.sections()[0].lines.slice() {
            assert_eq!(rt; line.text.slice(), text.as_bytes());
            assert_eq!(rt; line.at, 4);
            assert_eq!(rt; line.background, text.starts_with('&'));
            let What::Run(call) = &line.what else {
                continue;
            };
            assert_eq!(rt; call.num(), num);
            assert_eq!(rt; call.words().slice(), words);
            let mem = line.memory(rt.alloc())?;
            let mut total: u64 = 0;
            for part in mem.parts() {
                total = total.wrapping_add(part.bytes.len() as u64);
            }
            assert_eq!(rt; total, bytes);
        }
    }
    Ok(())
}

/// A script, and the line and kind of its fault.
const FAULTS: [(&str, u32, ScriptKind); 33] = [
    ("guest a\n# \t\nfrob\n", 2, ScriptKind::BadByte),
    ("getpid\n", 1, ScriptKind::NoGuest),
    ("\n frob", 2, ScriptKind::NoGuest),
    ("guest A\n", 1, ScriptKind::BadName),
    ("guest a b\n", 1, ScriptKind::BadWords),
    ("guest\n", 1, ScriptKind::BadWords),
    ("guest a\nguest a\n", 2, ScriptKind::GuestTwice),
    ("guest a\nfrob 1\n", 2, ScriptKind::UnknownCall),
    ("guest a\n # x\n", 2, ScriptKind::UnknownCall),
    ("guest a\ngetpid 1\n", 2, ScriptKind::BadWords),
    ("guest a\nopen /f O_RDWR\n", 2, ScriptKind::BadWords),
    ("guest a\nopen \"/f\" O_RDWRX\n", 2, ScriptKind::BadWords),
    ("guest a\nwrite 0 fill 1048577\n", 2, ScriptKind::BadWords),
    ("guest a\npwrite 0 bad 1 0\n", 2, ScriptKind::BadWords),
    ("guest a\nfcntl 1 getfl\n", 2, ScriptKind::BadWords),
    ("guest a\nfcntl 1 getfd 1\n", 2, ScriptKind::BadWords),
    ("guest a\ncall 33\n", 2, ScriptKind::BadWords),
    ("guest a\ncall 4294967296\n", 2, ScriptKind::BadWords),
    (
        "guest a\ncall 99 1 2 3 4 5 6 7 8 9\n",
        2,
        ScriptKind::BadWords,
    ),
    ("guest a\npoll 0 2147483648:in\n", 2, ScriptKind::BadWords),
    ("guest a\n&\n", 2, ScriptKind::BadWords),
    ("guest a\n& & read 0 1\n", 2, ScriptKind::UnknownCall),
    ("guest a\n& close 0\n", 2, ScriptKind::NotInBackground),
    ("guest a\n& fork b\n", 2, ScriptKind::NotInBackground),
    ("guest a\n& join 1\n", 2, ScriptKind::BadWords),
    ("guest a\nfork b\n", 2, ScriptKind::UnknownGuest),
    ("guest a\nfork B\n", 2, ScriptKind::BadName),
    (
        "guest a\nfork b\nfork b\nguest b\n",
        3,
        ScriptKind::ForkedTwice,
    ),
    ("guest a\nfork a\n", 0, ScriptKind::Circle),
    (
        "guest a\nguest b\nfork c\nguest c\nfork b\n",
        0,
        ScriptKind::Circle,
    ),
    ("guest a\nfork a\nexec 1\n", 3, ScriptKind::BadWords),
    ("guest a\nfork c\nfrob\n", 2, ScriptKind::UnknownGuest),
    ("guest a\nread 0 1 2\nfrob\n", 2, ScriptKind::BadWords),
];

#[test]
fn faults_of_scripts(rt: HostRuntime) -> Result<(), Fail> {
    for (text, line, kind) in FAULTS {
        match Script::read(rt.alloc(), text.as_bytes()) {
            Ok(_) => assert!(rt; false),
            Err(fault) => {
                assert_eq!(rt; fault.line, line);
                assert_eq!(rt; fault.kind, kind);
            }
        }
    }
    Ok(())
}

#[test]
fn guests_and_their_children(rt: HostRuntime) -> Result<(), Fail> {
    let text = b"guest a\nfork c\nexec\nguest b\njoin\nguest c\nfork b";
    let script = Script::read(rt.alloc(), text)?;
    assert_eq!(rt; script.sections().len(), 3);
    assert_eq!(rt; script.sections()[1].name.slice(), b"b".as_slice());
    assert_eq!(rt; script.sections()[2].at, 6);
    assert_eq!(rt; script.parent(0).is_none(), true);
    assert_eq!(rt; script.parent(1).map(|p| (p.section, p.line)), Some((2, 0)));
    assert_eq!(rt; script.parent(2).map(|p| (p.section, p.line)), Some((0, 0)));
    Ok(())
}

#[test]
fn scripts_that_are_too_long(rt: HostRuntime) -> Result<(), Fail> {
    let mut text = Octets::none(rt.alloc());
    for _ in 0..100_000 {
        text.push(b'\n')?;
    }
    assert!(rt; Script::read(rt.alloc(), text.slice()).is_ok());
    text.push(b'#')?;
    let fault = Script::read(rt.alloc(), text.slice()).err();
    assert_eq!(rt;
        fault.map(|f| (f.line, f.kind)),
        Some((0, ScriptKind::TooLong))
    );
    let mut guests = Octets::none(rt.alloc());
    for _ in 0..201 {
        guests.extend(b"guest\n")?;
    }
    let fault = Script::read(rt.alloc(), guests.slice()).err();
    assert_eq!(rt;
        fault.map(|f| (f.line, f.kind)),
        Some((0, ScriptKind::TooLong))
    );
    Ok(())
}
