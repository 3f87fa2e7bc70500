// Which parts are a memory, what is read at the edges of parts, and where a write or a delivery fits.
ghost use Rattle.std.specs.Prelude.{◌<◌, ◌^◌, length};

use crate::{
    CopyFault, Delivery, Mem, MemFault, NotWritable, Part, Placed, Right, deliver, gather,
};
use sp_base::{Answer, Call, Errno, Items, Need, Octets, Place};
use std::alloc::Global;
use std::test::Fail;

/// A part: its address, what may be done with it, and its bytes.
type PartRow = (u64, Right, &'static str);

/// The memory of the rows.
fn memory(alloc: Global, rows: &[PartRow]) -> Result<Result<Mem, MemFault>, Fail>
    requires { length rows.now < 2 ^ 32 }
{
    let mut parts = Items::none(alloc);
    for row in rows {
        let (base, right, text) = *row;
        let bytes = Octets::of(alloc, text.as_bytes())?;
        parts.push(Part { base, right, bytes })?;
    }
    Ok(Mem::new(alloc, parts))
}

const EIGHT: &str = "12345678";

/// Two parts, and the fault that they have.
const PAIRS: [(PartRow, PartRow, Option<MemFault>); 10] = [
    ((4096, Right::Both, EIGHT), (4104, Right::Both, EIGHT), None),
    ((4104, Right::Both, EIGHT), (4096, Right::Both, EIGHT), None),
    (
        (4096, Right::Both, EIGHT),
        (4100, Right::Both, EIGHT),
        Some(MemFault::Overlap(0, 1)),
    ),
    (
        (4096, Right::Readable, "1"),
        (4096, Right::Writable, "1"),
        Some(MemFault::Overlap(0, 1)),
    ),
    ((4096, Right::Both, EIGHT), (4100, Right::Both, ""), None),
    (
        (4095, Right::Both, EIGHT),
        (4100, Right::Both, EIGHT),
        Some(MemFault::TooLow(0)),
    ),
    (
        (4096, Right::Both, EIGHT),
        (4095, Right::Both, ""),
        Some(MemFault::TooLow(1)),
    ),
    (
        (4096, Right::Both, EIGHT),
        ((1 << 63) - 7, Right::Both, EIGHT),
        Some(MemFault::TooHigh(1)),
    ),
    (
        (4096, Right::Both, EIGHT),
        ((1 << 63) - 8, Right::Both, EIGHT),
        None,
    ),
    (
        (u64::MAX, Right::Both, ""),
        (0, Right::Both, EIGHT),
        Some(MemFault::TooHigh(0)),
    ),
];

#[test]
fn pairs_of_parts(rt: HostRuntime) -> Result<(), Fail> {
    for (first, second, fault) in PAIRS {
        let made = memory(rt.alloc(), &[first, second])?;
        assert_eq!(rt; made.err(), fault);
    }
    let three = [
        (4096, Right::Both, EIGHT),
        (5000, Right::Both, EIGHT),
        (4103, Right::Both, "123"),
    ];
    let made = memory(rt.alloc(), &three)?;
    assert_eq!(rt; made.err(), Some(MemFault::Overlap(0, 2)));
    Ok(())
}

/// A memory with a part of each right.
const PARTS: [PartRow; 4] = [
    (4096, Right::Readable, "ab\0cdef"),
    (4103, Right::Both, "ghi\0"),
    (4107, Right::Writable, "....."),
    (9000, Right::Readable, "text"),
];

const FAULT: Result<&str, CopyFault> = Err(CopyFault::Fault);

/// What a memory of these parts gives.
const READS: [(Need, Result<&str, CopyFault>); 18] = [
    (Need::Bytes(4096, 7), Ok("ab\0cdef")),
    (Need::Bytes(4096, 8), FAULT),
    (Need::Bytes(4095, 2), FAULT),
    (Need::Bytes(4103, 0), Ok("")),
    (Need::Bytes(4103, 4), Ok("ghi\0")),
    (Need::Bytes(4107, 1), FAULT),
    (Need::Bytes(8, 2), Ok("/\0")),
    (Need::Bytes(9, 1), Ok("\0")),
    (Need::Bytes(8, 3), FAULT),
    (Need::Bytes(7, 1), FAULT),
    (Need::Bytes(u64::MAX, u64::MAX), FAULT),
    (Need::Text(8, 1024), Ok("/")),
    (Need::Text(4097, 1024), Ok("b")),
    (Need::Text(4096, 2), Err(CopyFault::NoEnd)),
    (Need::Text(4096, 3), Ok("ab")),
    (Need::Text(9000, 5), FAULT),
    (Need::Text(9000, 4), Err(CopyFault::NoEnd)),
    (Need::Text(4107, 4), FAULT),
];

#[test]
fn reads_at_edges(rt: HostRuntime) -> Result<(), Fail> {
    let mem = memory(rt.alloc(), &PARTS)??;
    for (need, want) in READS {
        assert_eq!(rt; mem.look(&need), want.map(|text| text.as_bytes()));
    }
    let copy = mem.read(rt.alloc(), &Need::Bytes(9000, 4))?;
    assert_eq!(rt; copy.slice(), b"text".as_slice());
    let twin = mem.copy(rt.alloc())?;
    for (need, want) in READS {
        assert_eq!(rt; twin.look(&need), want.map(|text| text.as_bytes()));
    }
    let empty = Mem::none(rt.alloc());
    assert_eq!(rt; empty.look(&Need::Text(8, 2)), Ok(b"/".as_slice()));
    Ok(())
}

/// A write, its answer, and the bytes from 4,103 to 4,106 afterwards.
const WRITES: [(u64, &str, Result<(), NotWritable>, &str); 7] = [
    (4103, "GH", Ok(()), "GHi\0"),
    (4106, "!", Ok(()), "GHi!"),
    (4106, "??", Err(NotWritable), "GHi!"),
    (4102, "??", Err(NotWritable), "GHi!"),
    (4107, ".....", Ok(()), "GHi!"),
    (8, "x", Err(NotWritable), "GHi!"),
    (4103, "", Ok(()), "GHi!"),
];

#[test]
fn writes_at_edges(rt: HostRuntime) -> Result<(), Fail> {
    let mut mem = memory(rt.alloc(), &PARTS)??;
    for (addr, text, answer, after) in WRITES {
        assert_eq!(rt; mem.write(addr, text.as_bytes()), answer);
        assert_eq!(rt; mem.look(&Need::Bytes(4103, 4)), Ok(after.as_bytes()));
    }
    Ok(())
}

#[test]
fn what_a_call_reads(rt: HostRuntime) -> Result<(), Fail> {
    let mem = memory(rt.alloc(), &PARTS)??;
    let link = |path, new_path| Call::Link { path, new_path };
    let pieces = gather(rt.alloc(), &link(8, 4096), &mem)?;
    assert_eq!(rt; pieces.len(), 2);
    assert_eq!(rt; pieces.slice()[0].slice(), b"/".as_slice());
    assert_eq!(rt; pieces.slice()[1].slice(), b"ab".as_slice());
    let fault = gather(rt.alloc(), &link(9000, 16), &mem).err();
    assert_eq!(rt; fault, Some(CopyFault::Fault));
    assert_eq!(rt; CopyFault::Fault.errno(), Some(Errno::Efault));
    assert_eq!(rt; CopyFault::NoEnd.errno(), Some(Errno::Enametoolong));
    let none = gather(rt.alloc(), &Call::Getpid, &mem)?;
    assert!(rt; none.is_empty());
    Ok(())
}

/// A piece that is written to an address.
struct Written(u64, &'static str);

impl Placed for Written {
    ghost use Rattle.std.specs.Prelude.{string_bytes};

    ghost piece = { λ w. record { addr = w.0; bytes = w.1.now } };

    fn addr(&self) -> u64 {
        self.0
    }

    fn bytes(&self) -> &[u8] {
        self.1.as_bytes()
    }
}

const ANSWER: Answer = Answer {
    err: 0,
    ret0: 2,
    ret1: 1,
    place: Place(7),
};

#[test]
fn what_a_caller_is_left_with(rt: HostRuntime) -> Result<(), Fail> {
    let mem = memory(rt.alloc(), &PARTS)??;
    let (answer, mem) = deliver(&[Written(4103, "G"), Written(4105, "I")], ANSWER, mem);
    assert_eq!(rt; answer, ANSWER);
    assert_eq!(rt; mem.look(&Need::Bytes(4103, 4)), Ok(b"GhI\0".as_slice()));
    let (answer, mem) = deliver(&[Written(4096, "A"), Written(4104, "H")], ANSWER, mem);
    let fault = Answer {
        err: Errno::Efault.number(),
        ret0: 0,
        ret1: 0,
        place: Place(7),
    };
    assert_eq!(rt; answer, fault);
    assert_eq!(rt; mem.look(&Need::Bytes(4103, 4)), Ok(b"GHI\0".as_slice()));
    let mut delivery = Delivery::into(mem);
    delivery.put(4106, b"!");
    assert_eq!(rt; delivery.answer(ANSWER), ANSWER);
    assert_eq!(rt; delivery.mem.parts().len(), 4);
    Ok(())
}
