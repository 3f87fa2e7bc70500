// What no clause says: that calls with ample memory succeed, and that each failing call is the one told.
use crate::{
    Failed, IoFault, MemSalt, MemSink, MemSource, RandomSalt, ReadSource, Salt, Sink, Source,
    TakeFault, WriteSink, put_all, take_all,
};
use sp_base::{NoMemory, Octets};
use std::alloc::Global;
use std::cell::Cell;
use std::io::{self, ErrorKind, Read, Write};
use std::random::RandomSource;
use std::test::Fail;

/// What `take_all` gives of so many bytes, where the calls of these numbers fail: their count, or why none.
fn taken_count(
    alloc: Global,
    bytes: usize,
    fails: &[u64],
    most: u32,
) -> Result<Result<usize, TakeFault>, NoMemory> {
    let content = vec![in alloc; 7u8; bytes]?;
    let mut source = MemSource::of(alloc, &content, fails)?;
    match take_all(alloc, &mut source, most) {
        Ok(text) if text.slice() == content.as_slice() => Ok(Ok(text.len())),
        Ok(_) => Ok(Ok(usize::MAX)),
        Err(fault) => Ok(Err(fault)),
    }
}

#[test]
fn takes_whole_sources(rt: HostRuntime) -> Result<(), Fail> {
    let rows: [(usize, &[u64], u32, Result<usize, TakeFault>); 14] = [
        (0, &[], 0, Ok(0)),
        (0, &[0], 0, Err(TakeFault::Failed)),
        (1, &[], 0, Err(TakeFault::TooLong)),
        (5, &[], 5, Ok(5)),
        (5, &[0], 5, Err(TakeFault::Failed)),
        (5, &[1], 5, Err(TakeFault::Failed)),
        (5, &[2], 5, Ok(5)),
        (5, &[], 4, Err(TakeFault::TooLong)),
        (5, &[], u32::MAX, Ok(5)),
        (70_000, &[], 70_000, Ok(70_000)),
        (70_000, &[], 69_999, Err(TakeFault::TooLong)),
        (70_000, &[1], 70_000, Err(TakeFault::Failed)),
        (70_000, &[2], 70_000, Err(TakeFault::Failed)),
        (70_000, &[3], 70_000, Ok(70_000)),
    ];
    for (bytes, fails, most, wanted) in rows {
        let given = taken_count(rt.alloc(), bytes, fails, most)?;
        assert_eq!(rt; given, wanted, "{bytes} bytes, at most {most}");
    }
    Ok(())
}

#[test]
fn puts_whole_texts(rt: HostRuntime) -> Result<(), Fail> {
    let rows: [(usize, &[u64], Result<(), Failed>, usize); 6] = [
        (0, &[0], Ok(()), 0),
        (5, &[], Ok(()), 5),
        (5, &[0], Err(Failed), 0),
        (70_000, &[], Ok(()), 70_000),
        (70_000, &[1], Err(Failed), 65_536),
        (70_000, &[2], Ok(()), 70_000),
    ];
    for (bytes, fails, wanted, held) in rows {
        let content = vec![in rt.alloc(); 7u8; bytes]?;
        let mut sink = MemSink::of(rt.alloc(), fails)?;
        assert_eq!(rt; put_all(&mut sink, &content), wanted, "{bytes} bytes");
        assert_eq!(rt; sink.bytes().len(), held, "held of {bytes} bytes");
        sink.done();
    }
    let mut sink = MemSink::of(rt.alloc(), &[])?;
    assert_eq!(rt; put_all(&mut sink, b"first "), Ok(()));
    assert_eq!(rt; put_all(&mut sink, b"then"), Ok(()));
    assert_eq!(rt; sink.bytes(), b"first then".as_slice());
    Ok(())
}

/// A reader and writer whose calls move so many bytes, or fail at None; later calls find the end.
#[derive(Drop)]
struct Turns {
    turns: &'static [Option<usize>],
    calls: usize,
    written: Vec<u8>,
    flushes: bool,
}

impl Turns {
    fn of(alloc: Global, turns: &'static [Option<usize>], flushes: bool) -> Turns {
        Turns {
            turns,
            calls: 0,
            written: Vec::new(alloc),
            flushes,
        }
    }

    /// How many bytes the next call moves.
    fn next_turn(&mut self) -> io::Result<usize> {
        let turn = self.turns.get(self.calls).copied().unwrap_or(Some(0));
        self.calls = self.calls.saturating_add(1);
        turn.ok_or(io::Error::from(ErrorKind::Interrupted))
    }
}

impl Read for Turns {
    fn read(&mut self, buf: &mut [u8]) -> io::Result<usize> {
        let count = self.next_turn()?.min(buf.len());
        for byte in buf[..count].iter_mut() {
            *byte = b'x';
        }
        Ok(count)
    }
}

impl Write for Turns {
    fn write(&mut self, buf: &[u8]) -> io::Result<usize> {
        let count = self.next_turn()?.min(buf.len());
        self.written.extend_from_slice(&buf[..count])?;
        Ok(count)
    }

    fn flush(&mut self) -> io::Result<()> {
        if self.flushes {
            Ok(())
        } else {
            Err(io::Error::from(ErrorKind::TimedOut))
        }
    }
}

#[test]
fn reads_any_reader(rt: HostRuntime) -> Result<(), Fail> {
    let mut source = ReadSource::over(b"some bytes".as_slice());
    let mut piece = Octets::none(rt.alloc());
    source.take(rt.alloc(), &mut piece, 4)?;
    assert_eq!(rt; piece.slice(), b"some".as_slice());
    let rest = take_all(rt.alloc(), &mut source, 100)?;
    assert_eq!(rt; rest.slice(), b" bytes".as_slice());
    assert!(rt; source.ended);
    source.done();
    assert!(rt; source.done);

    let rows: [(&[Option<usize>], u32, Result<usize, TakeFault>, u64); 4] = [
        (&[Some(2), Some(1)], 3, Ok(3), 0),
        (&[Some(2), Some(2)], 3, Err(TakeFault::TooLong), 0),
        (&[Some(2), None], 9, Err(TakeFault::Failed), 1),
        (&[None, Some(2)], 9, Err(TakeFault::Failed), 1),
    ];
    for (turns, most, wanted, faults) in rows {
        let mut source = ReadSource::over(Turns::of(rt.alloc(), turns, true));
        let given = take_all(rt.alloc(), &mut source, most).map(|text| text.len());
        assert_eq!(rt; given, wanted, "at most {most}");
        assert_eq!(rt; source.faults.count(), faults, "at most {most}");
    }
    Ok(())
}

#[test]
fn writes_any_writer(rt: HostRuntime) {
    let rows: [(&[Option<usize>], bool, Result<(), Failed>, &[u8], u64); 6] = [
        (&[Some(9)], true, Ok(()), b"bytes", 0),
        (&[Some(2), Some(1), Some(9)], true, Ok(()), b"bytes", 0),
        (&[None], true, Err(Failed), b"", 1),
        (&[Some(3), None], true, Err(Failed), b"byt", 1),
        (&[Some(3), Some(0)], true, Err(Failed), b"byt", 1),
        (&[Some(3), Some(2)], false, Err(Failed), b"byt", 1),
    ];
    for (turns, flushes, wanted, written, faults) in rows {
        let mut sink = WriteSink::over(Turns::of(rt.alloc(), turns, flushes));
        assert_eq!(rt; put_all(&mut sink, b"bytes"), wanted);
        assert_eq!(rt; sink.inner.written.as_slice(), written);
        assert_eq!(rt; sink.faults.count(), faults);
        sink.done();
        assert!(rt; sink.done);
    }
}

#[test]
fn ends_and_errors(rt: HostRuntime) -> Result<(), Fail> {
    let mut source = MemSource::of(rt.alloc(), b"ab", &[1])?;
    let mut piece = Octets::of(rt.alloc(), b"before")?;
    source.take(rt.alloc(), &mut piece, 1)?;
    assert_eq!(rt; piece.slice(), b"a".as_slice());
    let failed = source.take(rt.alloc(), &mut piece, 1);
    assert_eq!(rt; failed, Err(IoFault::Failed));
    assert!(rt; piece.is_empty());
    source.take(rt.alloc(), &mut piece, 9)?;
    assert_eq!(rt; piece.slice(), b"b".as_slice());
    source.take(rt.alloc(), &mut piece, 9)?;
    assert!(rt; piece.is_empty());
    source.done();
    assert_eq!(rt; IoFault::from(NoMemory), IoFault::NoMemory);
    assert_eq!(rt; TakeFault::from(NoMemory), TakeFault::NoMemory);
    assert_eq!(rt; TakeFault::from(IoFault::Failed), TakeFault::Failed);
    Ok(())
}

/// What three calls of `next` answer.
fn draws<S: Salt>(salt: &mut S) -> [Result<u64, Failed>; 3] {
    [salt.next(), salt.next(), salt.next()]
}

#[test]
fn counts_up(rt: HostRuntime) -> Result<(), Fail> {
    let mut salt = MemSalt::of(rt.alloc(), u64::MAX, &[1])?;
    assert_eq!(rt; draws(&mut salt), [Ok(u64::MAX), Err(Failed), Ok(0)]);
    let mut other = salt.another(rt.alloc())?;
    assert_eq!(rt; draws(&mut other), [Ok(u64::MAX), Err(Failed), Ok(0)]);
    salt.back(other);
    assert_eq!(rt; draws(&mut salt), [Ok(1), Ok(2), Ok(3)]);
    Ok(())
}

/// A random source whose calls give bytes that tell the call and their place, and whose second call fails.
#[derive(Drop)]
struct Numbered {
    calls: Cell<u8>,
}

impl RandomSource for Numbered {
    fn fill_bytes(&self, buf: &mut [u8]) -> io::Result<()> {
        let call = self.calls.get();
        self.calls.set(call.saturating_add(1));
        if call == 1 {
            return Err(io::Error::from(ErrorKind::Interrupted));
        }
        for (place, byte) in (0u8..8).zip(buf.iter_mut()) {
            *byte = call.wrapping_mul(16).wrapping_add(place);
        }
        Ok(())
    }
}

#[test]
fn draws_of_the_random_source(rt: HostRuntime) -> Result<(), Fail> {
    let numbered = Numbered {
        calls: Cell::new(0),
    };
    let mut salt = RandomSalt::over(&numbered);
    assert_eq!(rt;
        draws(&mut salt),
        [Ok(0x0706050403020100), Err(Failed), Ok(0x2726252423222120)]
    );
    let mut other = salt.another(rt.alloc())?;
    assert_eq!(rt; other.next(), Ok(0x3736353433323130));
    salt.back(other);
    assert_eq!(rt; salt.next(), Ok(0x4746454443424140));
    Ok(())
}

#[test]
fn draws_of_the_system(rt: HostRuntime) -> Result<(), Fail> {
    let mut salt = RandomSalt::over(rt);
    let first = salt.next()?;
    let mut other = salt.another(rt.alloc())?;
    assert_ne!(rt; other.next()?, first);
    salt.back(other);
    Ok(())
}

#[test]
fn faults_as_text(rt: HostRuntime) -> Result<(), Fail> {
    let rows = [
        (TakeFault::Failed, "the read failed"),
        (TakeFault::NoMemory, "out of memory"),
        (TakeFault::TooLong, "too long"),
    ];
    for (fault, text) in rows {
        let shown = format!(in rt.alloc(); "{fault}")?;
        assert_eq!(rt; shown.as_str(), text);
    }
    for (fault, text) in [
        (IoFault::Failed, "the read failed"),
        (IoFault::NoMemory, "out of memory"),
    ] {
        let shown = format!(in rt.alloc(); "{fault}")?;
        assert_eq!(rt; shown.as_str(), text);
    }
    let shown = format!(in rt.alloc(); "{Failed}")?;
    assert_eq!(rt; shown.as_str(), "the call failed");
    Ok(())
}
