// What words spell, by tables.
use crate::{
    address_of, address_text, entries_of, first_word, flags_of, joined, number_of, pieces,
    put_number, put_quoted, put_signed, signed_of, small_signed_of, text_of, words_of,
};
use sp_base::Octets;
use std::test::Fail;

/// A line, and the same with single spaces.
const LINES: [(&str, &str); 7] = [
    ("getpid", "getpid"),
    ("  close   3 ", "close 3"),
    ("", ""),
    ("   ", ""),
    (r#"open  "/a b" O_RDONLY"#, r#"open "/a b" O_RDONLY"#),
    (r#"write 0  "a\"  b"x  c"#, r#"write 0 "a\"  b"x c"#),
    (r#"write 0 "a  b"#, r#"write 0 "a  b"#),
];

#[test]
fn lines_in_words(rt: HostRuntime) -> Result<(), Fail> {
    for (line, single) in LINES {
        let words = words_of(rt.alloc(), line.as_bytes())?;
        let text = joined(rt.alloc(), words.as_slice())?;
        assert_eq!(rt; text.slice(), single.as_bytes());
    }
    assert_eq!(rt; first_word(b"  guest a"), b"guest".as_slice());
    let parts = pieces(rt.alloc(), b"a||b", b'|')?;
    assert_eq!(rt; parts.len(), 3);
    Ok(())
}

/// A word, and the number that it spells with and without a sign.
const NUMBERS: [(&str, Option<u64>, Option<u64>); 13] = [
    ("0", Some(0), Some(0)),
    ("007", Some(7), Some(7)),
    ("18446744073709551615", Some(u64::MAX), Some(u64::MAX)),
    ("18446744073709551616", None, None),
    ("0xfF", Some(255), Some(255)),
    ("0x10000000000000000", None, None),
    ("0X1", None, None),
    ("0x", None, None),
    ("-1", None, Some(u64::MAX)),
    ("-0", None, Some(0)),
    ("-9223372036854775808", None, Some(1 << 63)),
    ("-9223372036854775809", None, None),
    ("-0x1", None, None),
];

#[test]
fn numbers(rt: HostRuntime) -> Result<(), Fail> {
    for (word, plain, signed) in NUMBERS {
        assert_eq!(rt; number_of(word.as_bytes()), plain);
        assert_eq!(rt; signed_of(word.as_bytes()), signed);
    }
    assert_eq!(rt; small_signed_of(b"-2147483648"), Some(0x8000_0000));
    assert_eq!(rt; small_signed_of(b"-2147483649"), None);
    assert_eq!(rt; small_signed_of(b"2147483648"), None);
    let mut out = Octets::none(rt.alloc());
    put_number(&mut out, 12)?;
    put_signed(&mut out, u64::MAX)?;
    assert_eq!(rt; out.slice(), b"12-1".as_slice());
    Ok(())
}

/// A word, and the text that it spells.
const TEXTS: [(&str, Option<&str>); 10] = [
    (r#""""#, Some("")),
    (r#""hello""#, Some("hello")),
    (r#""a\"b\\c\n\x41""#, Some("a\"b\\c\nA")),
    (r#""\x4A\x4a""#, Some("JJ")),
    (r#""a"b"#, None),
    (r#""a"#, None),
    ("a", None),
    (r#""\q""#, None),
    (r#""\x4""#, None),
    (r#""\""#, None),
];

#[test]
fn texts(rt: HostRuntime) -> Result<(), Fail> {
    for (word, text) in TEXTS {
        let found = text_of(rt.alloc(), word.as_bytes())?;
        assert_eq!(rt;
            found.as_ref().map(|t| t.slice()),
            text.map(|t| t.as_bytes())
        );
    }
    let mut out = Octets::none(rt.alloc());
    put_quoted(&mut out, b"a\"\\\n\x00\xff~")?;
    assert_eq!(rt; out.slice(), br#""a\"\\\n\x00\xff~""#.as_slice());
    Ok(())
}

/// The words of an address, its bytes, and its text.
const ADDRESSES: [(&str, &[u8], &str); 3] = [
    (r#"local "/s""#, b"\x01/s", r#"local "/s""#),
    (
        "inet 127.0.0.1 8080",
        b"\x02\x7f\0\0\x01\x90\x1f",
        "inet 127.0.0.1 8080",
    ),
    (
        "inet 0.0.0.0 0x10",
        b"\x02\0\0\0\0\x10\0",
        "inet 0.0.0.0 16",
    ),
];

/// Words that are no address.
const NO_ADDRESSES: [&str; 7] = [
    "",
    "local",
    r#"inet "/s""#,
    "inet 127.0.0 80",
    "inet 127.0.0.256 80",
    "inet 127.0.0.1 65536",
    "inet 127.0.0.0x1 80",
];

#[test]
fn addresses(rt: HostRuntime) -> Result<(), Fail> {
    for (line, bytes, text) in ADDRESSES {
        let words = words_of(rt.alloc(), line.as_bytes())?;
        let found = address_of(rt.alloc(), words.as_slice())?;
        assert_eq!(rt; found.as_ref().map(|a| a.slice()), Some(bytes));
        let told = address_text(rt.alloc(), bytes)?;
        assert_eq!(rt; told.as_ref().map(|t| t.slice()), Some(text.as_bytes()));
    }
    for line in NO_ADDRESSES {
        let words = words_of(rt.alloc(), line.as_bytes())?;
        assert!(rt; address_of(rt.alloc(), words.as_slice())?.is_none());
    }
    assert!(rt; address_text(rt.alloc(), b"\x03/s")?.is_none());
    Ok(())
}

#[test]
fn flags_and_entries(rt: HostRuntime) -> Result<(), Fail> {
    let flags = flags_of(rt.alloc(), b"O_CREAT|O_RDWR|O_CLOEXEC")?;
    assert_eq!(rt; flags, Some(0x40_0202));
    assert_eq!(rt; flags_of(rt.alloc(), b"O_CREAT|")?, None);
    let words = words_of(rt.alloc(), b"-1:in 7:in|out 0:none")?;
    let entries = entries_of(rt.alloc(), words.as_slice())?;
    let bytes = b"\xff\xff\xff\xff\x01\0\0\0\x07\0\0\0\x05\0\0\0\0\0\0\0\0\0\0\0";
    assert_eq!(rt; entries.as_ref().map(|e| e.slice()), Some(bytes.as_slice()));
    let words = words_of(rt.alloc(), b"7:out|in")?;
    assert!(rt; entries_of(rt.alloc(), words.as_slice())?.is_none());
    Ok(())
}
