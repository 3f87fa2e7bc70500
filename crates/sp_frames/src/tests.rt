// Values that no clause names: bytes and faults as the table of frames has them, and calls with ample memory.
use crate::front::Front;
use crate::header::Header;
use crate::{FrameFault, Framer, encode};
use sp_base::Octets;
use std::alloc::Global;
use std::process::Abort;
use std::test::Fail;

/// A frame of each row, as its bytes in hex digits and as it is read.
const FRAMES: [(&str, &str); 20] = [
    (
        "19000000000000000100000000000000000000000000000061",
        "Frame { number: ReqNo(1), body: Guest { name: Octets { items: [97] } } }",
    ),
    (
        "2a00000000000000010000000000000000000000010000000700000000000000ffffffffffffffff6263",
        "Frame { number: ReqNo(1), body: Join { cookie: Cookie { number: 7, salt: 18446744073709551615 }, name: Octets { items: [98, 99] } } }",
    ),
    (
        "2900000000000000010000000000000000000000020000000700000000000000ffffffffffffffff64",
        "Frame { number: ReqNo(1), body: Image { cookie: Cookie { number: 7, salt: 18446744073709551615 }, name: Octets { items: [100] } } }",
    ),
    (
        "28000000000000000201000000000000000001001300000003000000000000000500000000000080",
        "Frame { number: ReqNo(258), body: Sys { num: 19, words: Words { items: [3, 9223372036854775813] } } }",
    ),
    (
        "28000000000000000200000000000000000002000700000000100000000000000000010000000000",
        "Frame { number: ReqNo(2), body: AskBytes { index: 7, addr: 4096, len: 65536 } }",
    ),
    (
        "28000000000000000200000000000000000003000000000008000000000000000004000000000000",
        "Frame { number: ReqNo(2), body: AskText { index: 0, addr: 8, max: 1024 } }",
    ),
    (
        "22000000000000000200000000000000000004000100000000100000000000000078",
        "Frame { number: ReqNo(2), body: Put { index: 1, addr: 4096, bytes: Octets { items: [0, 120] } } }",
    ),
    (
        "180000000000000003000000000000000000050000000000",
        "Frame { number: ReqNo(3), body: Prefork }",
    ),
    (
        "2800000000000000040000000000000000000500010000000700000000000000ffffffffffffffff",
        "Frame { number: ReqNo(4), body: Cancel { cookie: Cookie { number: 7, salt: 18446744073709551615 } } }",
    ),
    (
        "180000000000000005000000000000000000060000000000",
        "Frame { number: ReqNo(5), body: Preexec }",
    ),
    (
        "1c000000000000000100000000000000010000000000000002010000",
        "Frame { number: ReqNo(1), body: Hello { pid: Pid(258) } }",
    ),
    (
        "1c000000000000000100000000000000010000000100000003000000",
        "Frame { number: ReqNo(1), body: Joined { pid: Pid(3) } }",
    ),
    (
        "240000000000000001000000000000000100000002000000030000000900000000000000",
        "Frame { number: ReqNo(1), body: Imaged { pid: Pid(3), place: Place(9) } }",
    ),
    (
        "300000000000000002000000000000000100010009000000070000000000000008000000000000000900000000000000",
        "Frame { number: ReqNo(2), body: Answered(Answer { err: 9, ret0: 7, ret1: 8, place: Place(9) }) }",
    ),
    (
        "1e0000000000000002000000000000000100020007000000000000000065",
        "Frame { number: ReqNo(2), body: GotBytes { index: 7, err: 0, bytes: Octets { items: [0, 101] } } }",
    ),
    (
        "1c00000000000000020000000000000001000300000000003f000000",
        "Frame { number: ReqNo(2), body: GotText { index: 0, err: 63, bytes: Octets { items: [] } } }",
    ),
    (
        "3800000000000000030000000000000001000500000000000700000000000000ffffffffffffffff0500000000000000ffffffff00000000",
        "Frame { number: ReqNo(3), body: Forked { cookie: Cookie { number: 7, salt: 18446744073709551615 }, place: Place(5), pid: Pid(4294967295) } }",
    ),
    (
        "180000000000000004000000000000000100050001000000",
        "Frame { number: ReqNo(4), body: Cancelled }",
    ),
    (
        "2800000000000000050000000000000001000600000000000700000000000000ffffffffffffffff",
        "Frame { number: ReqNo(5), body: ExecReady { cookie: Cookie { number: 7, salt: 18446744073709551615 } } }",
    ),
    (
        "180000000000000006000000000000000200050004000000",
        "Frame { number: ReqNo(6), body: Refused { kind: 5, why: ProcFull } }",
    ),
];

/// Whole frames in hex digits, whose content is outside their rows, with what is wrong.
const CONTENTS: [(&str, &str); 8] = [
    (
        "1a00000000000000010000000000000000000000000000006100",
        "a zero in a name",
    ),
    (
        "2900000000000000010000000000000000000000010000000700000000000000ffffffffffffffff00",
        "a zero in a name behind a cookie",
    ),
    (
        "1c00000000000000010000000000000001000200000000003f000000",
        "an error that no bytes have",
    ),
    (
        "1d00000000000000010000000000000001000200000000000e00000078",
        "bytes after an error",
    ),
    (
        "1c000000000000000100000000000000010003000000000002000000",
        "an error that no text has",
    ),
    (
        "1d00000000000000010000000000000001000300000000003f00000078",
        "a text after an error",
    ),
    (
        "1e0000000000000001000000000000000100030000000000000000007800",
        "a zero in a text",
    ),
    (
        "3800000000000000010000000000000001000500000000000700000000000000ffffffffffffffff05000000000000000000000001000000",
        "a process of 2^32",
    ),
];

/// Headers by length, class, type and word, each with the fault that is named, the first of those that it has.
const FAULTS: [(u64, u16, u16, u32, FrameFault); 33] = [
    (0, 9, 9, 9, FrameFault::TooShort(0)),
    (23, 9, 9, 9, FrameFault::TooShort(23)),
    (131_073, 9, 9, 9, FrameFault::TooLong(131_073)),
    (u64::MAX, 0, 0, 0, FrameFault::TooLong(u64::MAX)),
    (131_072, 3, 9, 9, FrameFault::Class(3)),
    (24, 65_535, 0, 0, FrameFault::Class(65_535)),
    (24, 0, 7, 9, FrameFault::Kind(7)),
    (24, 1, 4, 0, FrameFault::Kind(4)),
    (24, 2, 4, 9, FrameFault::Kind(4)),
    (24, 2, 2, 1, FrameFault::Kind(2)),
    (24, 0, 0, 3, FrameFault::Word { kind: 0, word: 3 }),
    (24, 0, 2, 8, FrameFault::Word { kind: 2, word: 8 }),
    (24, 0, 6, 1, FrameFault::Word { kind: 6, word: 1 }),
    (24, 1, 0, 3, FrameFault::Word { kind: 0, word: 3 }),
    (24, 1, 5, 2, FrameFault::Word { kind: 5, word: 2 }),
    (24, 2, 0, 0, FrameFault::Word { kind: 0, word: 0 }),
    (24, 2, 6, 8, FrameFault::Word { kind: 6, word: 8 }),
    (24, 0, 0, 0, FrameFault::Payload { kind: 0, len: 24 }),
    (280, 0, 0, 0, FrameFault::Payload { kind: 0, len: 280 }),
    (40, 0, 0, 1, FrameFault::Payload { kind: 0, len: 40 }),
    (296, 0, 0, 2, FrameFault::Payload { kind: 0, len: 296 }),
    (96, 0, 1, 1, FrameFault::Payload { kind: 1, len: 96 }),
    (25, 0, 1, 1, FrameFault::Payload { kind: 1, len: 25 }),
    (32, 0, 2, 7, FrameFault::Payload { kind: 2, len: 32 }),
    (32, 0, 4, 0, FrameFault::Payload { kind: 4, len: 32 }),
    (25, 0, 5, 0, FrameFault::Payload { kind: 5, len: 25 }),
    (27, 1, 0, 0, FrameFault::Payload { kind: 0, len: 27 }),
    (37, 1, 0, 2, FrameFault::Payload { kind: 0, len: 37 }),
    (49, 1, 1, 0, FrameFault::Payload { kind: 1, len: 49 }),
    (27, 1, 2, 0, FrameFault::Payload { kind: 2, len: 27 }),
    (1052, 1, 3, 0, FrameFault::Payload { kind: 3, len: 1052 }),
    (55, 1, 5, 0, FrameFault::Payload { kind: 5, len: 55 }),
    (25, 2, 0, 1, FrameFault::Payload { kind: 0, len: 25 }),
];

/// Each fault as text.
const TEXTS: [(FrameFault, &str); 7] = [
    (FrameFault::TooShort(23), "a length of 23 is below 24"),
    (
        FrameFault::TooLong(131_073),
        "a length of 131073 is above 131072",
    ),
    (FrameFault::Class(3), "no class 3"),
    (FrameFault::Kind(7), "no type 7 in this class"),
    (
        FrameFault::Word { kind: 5, word: 2 },
        "type 5 has no word 2",
    ),
    (
        FrameFault::Payload { kind: 0, len: 24 },
        "a frame of type 0 with 24 bytes is outside its row",
    ),
    (FrameFault::NoMemory, "out of memory"),
];

#[test]
fn faults_as_text(rt: HostRuntime) -> Result<(), Fail> {
    for (fault, text) in TEXTS {
        let shown = format!(in rt.alloc(); "{fault}")?;
        assert_eq!(rt; shown.as_str(), text);
    }
    Ok(())
}

#[test]
fn frames_are_read_and_spelled(rt: HostRuntime) -> Result<(), Fail> {
    for (digits, text) in FRAMES {
        let bytes = hex::decode(rt.alloc(), digits)?;
        let mut framer = Framer::fresh(rt.alloc());
        framer.feed(&bytes)?;
        let frame = framer.next().ok_or("a frame is ready")?;
        let read = format!(in rt.alloc(); "{frame:?}")?;
        assert_eq!(rt; read.as_str(), text);
        let mut spelled = Octets::none(rt.alloc());
        encode(rt.alloc(), &frame, &mut spelled)?;
        assert_eq!(rt; spelled.slice(), bytes.as_slice());
        assert!(rt; framer.next().is_none(), "one frame was fed");
        assert!(rt; !framer.inside(), "nothing is left");
    }
    Ok(())
}

#[test]
fn a_frame_is_ready_at_its_last_byte(rt: HostRuntime) -> Result<(), Fail> {
    for (digits, _) in FRAMES {
        let bytes = hex::decode(rt.alloc(), digits)?;
        let mut framer = Framer::fresh(rt.alloc());
        for byte in &bytes {
            assert!(rt; framer.next().is_none(), "the frame is not whole");
            framer.feed(&[*byte])?;
            assert!(rt;
                framer.inside() || framer.next().is_some(),
                "bytes or a frame are held"
            );
        }
        assert!(rt; !framer.inside(), "the frame is whole");
    }
    Ok(())
}

#[test]
fn cuts_do_not_matter(rt: HostRuntime) -> Result<(), Fail> {
    let mut stream = Octets::none(rt.alloc());
    for (digits, _) in FRAMES {
        stream.extend(&hex::decode(rt.alloc(), digits)?)?;
    }
    let stream = stream.slice();
    for cut in 0..stream.len() {
        let (front, back) = stream.split_at(cut);
        let mut framer = Framer::fresh(rt.alloc());
        framer.feed(front)?;
        framer.feed(back)?;
        for (_, text) in FRAMES {
            let frame = framer.next().ok_or("a frame is ready")?;
            let read = format!(in rt.alloc(); "{frame:?}")?;
            assert_eq!(rt; read.as_str(), text, "cut at {cut}");
        }
        assert!(rt; framer.next().is_none() && !framer.inside(), "cut at {cut}");
    }
    Ok(())
}

/// A framer that was fed bytes but the last, and then the last, answers a fault, and goes on so.
fn refuses(rt: &impl Abort, alloc: Global, bytes: &[u8], fault: FrameFault) -> Result<(), Fail> {
    let (last, front) = bytes.split_last().ok_or("no bytes")?;
    let mut framer = Framer::fresh(alloc);
    framer.feed(front)?;
    assert_eq!(rt; framer.feed(&[*last]), Err(fault));
    assert_eq!(rt; framer.feed(&[0]), Err(fault));
    assert_eq!(rt; framer.feed(&[]), Err(fault));
    assert!(rt;
        framer.next().is_none() && framer.inside(),
        "the bytes are no frame"
    );
    Ok(())
}

#[test]
fn a_header_names_its_first_fault(rt: HostRuntime) -> Result<(), Fail> {
    for (len, class, kind, word, fault) in FAULTS {
        let mut bytes = Octets::none(rt.alloc());
        let header = Header {
            len,
            number: 1,
            class,
            kind,
            word,
        };
        put_header(&mut bytes, &header)?;
        refuses(&rt, rt.alloc(), bytes.slice(), fault)?;
    }
    Ok(())
}

#[test]
fn a_content_is_judged_when_it_is_whole(rt: HostRuntime) -> Result<(), Fail> {
    for (digits, wrong) in CONTENTS {
        let bytes = hex::decode(rt.alloc(), digits)?;
        let kind = u16::from(*bytes.get(18).ok_or(wrong)?);
        let len = bytes.len() as u64;
        refuses(&rt, rt.alloc(), &bytes, FrameFault::Payload { kind, len })?;
    }
    Ok(())
}

/// Puts a header behind bytes.
fn put_header(bytes: &mut Octets, header: &Header) -> Result<(), Fail> {
    let mut front = Front::none();
    front.put_header(header);
    bytes.extend(front.slice())?;
    Ok(())
}

/// The bytes of a Put with so many bytes to write, all zeros.
fn put_of(alloc: Global, count: u32) -> Result<Octets, Fail> {
    let mut bytes = Octets::none(alloc);
    let header = Header {
        len: 32 + u64::from(count),
        number: 1,
        class: 0,
        kind: 4,
        word: 0,
    };
    put_header(&mut bytes, &header)?;
    for _ in 0..8 + u64::from(count) {
        bytes.push(0)?;
    }
    Ok(bytes)
}

#[test]
fn the_largest_put_is_a_frame(rt: HostRuntime) -> Result<(), Fail> {
    let mut framer = Framer::fresh(rt.alloc());
    framer.feed(put_of(rt.alloc(), 131_040)?.slice())?;
    assert!(rt;
        framer.next().is_some() && !framer.inside(),
        "131,072 bytes are a frame"
    );
    let longer = put_of(rt.alloc(), 131_041)?;
    assert_eq!(rt;
        framer.feed(longer.slice()),
        Err(FrameFault::TooLong(131_073))
    );
    Ok(())
}
