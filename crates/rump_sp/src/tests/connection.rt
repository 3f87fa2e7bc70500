// One connection over standard input and output: the bytes that are written for the bytes that come.
ghost use Rattle.std.specs.Prelude.{◌≡◌, false, None, IfOk};

use super::{Fails, NO_FAILS, Outcome, outcome_of, outcome_over};
use crate::top::rump_main;
use sp_base::{NoMemory, Octets};
use sp_io::{IoFault, MemSalt, MemSink, MemSource, Source};
use std::alloc::Global;
use std::test::Fail;

/// Bytes, as the parts that they are put together of.
type Parts = &'static [&'static [u8]];

pub const BANNER: &[u8] = b"RUMPSP-0.4\n";

/// The handshake of a guest named `a`, as request 1, and its response: process 2.
pub const HANDSHAKE: &[u8] = b"\x19\0\0\0\0\0\0\0\x01\0\0\0\0\0\0\0\0\0\0\0\0\0\0\0a";

pub const HELLO: &[u8] = b"\x1c\0\0\0\0\0\0\0\x01\0\0\0\0\0\0\0\x01\0\0\0\0\0\0\0\x02\0\0\0";

/// System call 99, without words, as request 2, and its response: ENOSYS at place 1.
pub const CALL: &[u8] = b"\x18\0\0\0\0\0\0\0\x02\0\0\0\0\0\0\0\0\0\x01\0\x63\0\0\0";

pub const ENOSYS: &[u8] = b"\x30\0\0\0\0\0\0\0\x02\0\0\0\0\0\0\0\x01\0\x01\0\x4e\0\0\0\
\0\0\0\0\0\0\0\0\0\0\0\0\0\0\0\0\x01\0\0\0\0\0\0\0";

/// A second handshake, as request 2, and its error: malformed.
const SECOND: &[u8] = b"\x19\0\0\0\0\0\0\0\x02\0\0\0\0\0\0\0\0\0\0\0\0\0\0\0b";

const MALFORMED: &[u8] = b"\x18\0\0\0\0\0\0\0\x02\0\0\0\0\0\0\0\x02\0\0\0\x07\0\0\0";

/// Headers of a frame of 23 bytes and of one of 131,073 bytes, and the error for bytes that are no frame.
const SHORT: &[u8] = b"\x17\0\0\0\0\0\0\0\x02\0\0\0\0\0\0\0\0\0\x01\0\x63\0\0\0";

const LONG: &[u8] = b"\x01\0\x02\0\0\0\0\0\x02\0\0\0\0\0\0\0\0\0\x01\0\x63\0\0\0";

const NO_FRAME: &[u8] = b"\x18\0\0\0\0\0\0\0\0\0\0\0\0\0\0\0\x02\0\0\0\x07\0\0\0";

/// First bytes of frames.
const HEADER: &[u8] = b"\x19\0\0\0\0\0\0\0\x01\0\0\0\0\0\0\0\0\0\0\0\0\0\0\0";

const BEGUN: &[u8] = b"\x18\0\0\0";

fn joined(alloc: Global, parts: &[&'static [u8]]) -> Result<Octets, NoMemory> {
    let mut bytes = Octets::none(alloc);
    for part in parts {
        bytes.extend(part)?;
    }
    Ok(bytes)
}

fn served(alloc: Global, input: &[&'static [u8]], fails: Fails) -> Result<Outcome, NoMemory> {
    let bytes = joined(alloc, input)?;
    outcome_of(alloc, &["stdio"], bytes.slice(), fails)
}

#[test]
fn answers(rt: HostRuntime) -> Result<(), Fail> {
    let rows: [(Parts, u8, Parts, &str); 10] = [
        (&[], 0, &[], ""),
        (&[HANDSHAKE], 0, &[HELLO], ""),
        (&[HANDSHAKE, CALL], 0, &[HELLO, ENOSYS], ""),
        (
            &[HEADER],
            65,
            &[],
            "rump_sp: stdio: input ends inside a frame at offset 0\n",
        ),
        (
            &[HANDSHAKE, CALL, BEGUN],
            65,
            &[HELLO, ENOSYS],
            "rump_sp: stdio: input ends inside a frame at offset 49\n",
        ),
        (&[SHORT], 65, &[], "rump_sp: stdio: bad frame at offset 0\n"),
        (
            &[HANDSHAKE, LONG, CALL],
            65,
            &[HELLO, NO_FRAME],
            "rump_sp: stdio: bad frame at offset 25\n",
        ),
        (&[HANDSHAKE, SECOND, CALL], 0, &[HELLO, MALFORMED], ""),
        (
            &[HANDSHAKE, SECOND, SHORT],
            65,
            &[HELLO, MALFORMED],
            "rump_sp: stdio: bad frame at offset 50\n",
        ),
        (
            &[HANDSHAKE, SECOND, BEGUN],
            65,
            &[HELLO, MALFORMED],
            "rump_sp: stdio: input ends inside a frame at offset 50\n",
        ),
    ];
    for (input, status, out, err) in rows {
        let got = served(rt.alloc(), input, NO_FAILS)?;
        let out = joined(rt.alloc(), out)?;
        assert_eq!(rt; got.status, status);
        assert!(rt; got.out.slice().starts_with(BANNER));
        assert_eq!(rt; &got.out.slice()[BANNER.len()..], out.slice());
        assert_eq!(rt; str::from_utf8(got.err.slice())?, err);
    }
    Ok(())
}

/// Calls of the input, of the output and of the messages fail: how much is written then.
#[test]
fn faults(rt: HostRuntime) -> Result<(), Fail> {
    let input = "rump_sp: input fault\n";
    let output = "rump_sp: output fault\n";
    let rows: [(
        &'static [u64],
        &'static [u64],
        &'static [u64],
        u8,
        Parts,
        &str,
    ); 7] = [
        (&[0], &[], &[], 74, &[BANNER], input),
        (&[1], &[], &[], 74, &[BANNER, HELLO], input),
        (&[2], &[], &[], 0, &[BANNER, HELLO], ""),
        (&[], &[0], &[], 74, &[], output),
        (&[], &[1], &[], 74, &[BANNER], output),
        (&[1], &[1], &[], 74, &[BANNER], output),
        (&[0], &[], &[0], 74, &[BANNER], ""),
    ];
    for (input, out, err, status, written, message) in rows {
        let fails = Fails { input, out, err };
        let got = served(rt.alloc(), &[HANDSHAKE], fails)?;
        let written = joined(rt.alloc(), written)?;
        assert_eq!(rt; got.status, status);
        assert_eq!(rt; got.out.slice(), written.slice());
        assert_eq!(rt; str::from_utf8(got.err.slice())?, message);
    }
    Ok(())
}

/// A fork, as request 2.
const FORK: &[u8] = b"\x18\0\0\0\0\0\0\0\x02\0\0\0\0\0\0\0\0\0\x05\0\0\0\0\0";

/// The salt of a fork fails: what came before it is answered.
#[test]
fn no_salt(rt: HostRuntime) -> Result<(), Fail> {
    let bytes = joined(rt.alloc(), &[HANDSHAKE, FORK])?;
    let mut source = MemSource::of(rt.alloc(), bytes.slice(), &[])?;
    let mut salt = MemSalt::of(rt.alloc(), 0, &[0])?;
    let mut out = MemSink::of(rt.alloc(), &[])?;
    let mut err = MemSink::of(rt.alloc(), &[])?;
    let status = rump_main(
        rt.alloc(),
        &["stdio"],
        &mut salt,
        &mut source,
        &mut out,
        &mut err,
    );
    let written = joined(rt.alloc(), &[BANNER, HELLO])?;
    assert_eq!(rt; status, 71);
    assert_eq!(rt; out.bytes(), written.slice());
    assert_eq!(rt; str::from_utf8(err.bytes())?, "rump_sp: no salt\n");
    Ok(())
}

/// The error for the call without a handshake.
const REFUSED: &[u8] = b"\x18\0\0\0\0\0\0\0\x02\0\0\0\0\0\0\0\x02\0\x01\0\x07\0\0\0";

/// The header of a Put frame of 131,072 bytes.
const PUT: &[u8] = b"\0\0\x02\0\0\0\0\0\x03\0\0\0\0\0\0\0\0\0\x04\0\0\0\0\0";

/// A source of a call without a handshake, which is malformed, and of Put frames, until more than 1 GiB came.
#[derive(Drop)]
struct Flood {
    frame: Octets,
    at: usize,
    given: u64,
    ended: bool,
    done: bool,
}

impl Flood {
    fn fresh(alloc: Global) -> Result<Flood, NoMemory>
        ensures { IfOk result (λ flood. flood.done ≡ false) }
    {
        let mut frame = Octets::of(alloc, PUT)?;
        frame.extend(&[0u8; 131_048])?;
        Ok(Flood {
            frame,
            at: 0,
            given: 0,
            ended: false,
            done: false,
        })
    }

    /// The frame that is given by now.
    fn current(&self) -> &[u8] {
        if self.given < 24 {
            CALL
        } else {
            self.frame.slice()
        }
    }
}

impl Source for Flood {
    ghost faults = { λ _. 0 };

    ghost left = { λ _. None };

    ghost passed = { λ _. None };

    ghost ended = { λ s. s.ended };

    ghost is_done = { λ s. s.done };

    fn take(&mut self, alloc: Global, piece: &mut Octets, max: u32) -> Result<(), IoFault> {
        *piece = Octets::none(alloc);
        let frame = self.current();
        let (_, rest) = frame.split_at(self.at.min(frame.len()));
        let most = if self.given > 1 << 30 { 0 } else { max };
        let (first, _) = rest.split_at(rest.len().min(most as usize));
        piece.extend(first)?;
        let (count, is_whole) = (first.len(), first.len() == rest.len());
        let at = self.at.saturating_add(count);
        self.at = if is_whole { 0 } else { at };
        self.given = self.given.saturating_add(count as u64);
        self.ended = self.ended || piece.is_empty();
        Ok(())
    }

    fn done(&mut self) {
        self.done = true;
    }
}

#[test]
fn too_long(rt: HostRuntime) -> Result<(), Fail> {
    let mut flood = Flood::fresh(rt.alloc())?;
    let got = outcome_over(rt.alloc(), &["stdio"], &mut flood, NO_FAILS)?;
    let out = joined(rt.alloc(), &[BANNER, REFUSED])?;
    assert_eq!(rt; got.status, 65);
    assert_eq!(rt; got.out.slice(), out.slice());
    assert_eq!(rt;
        str::from_utf8(got.err.slice())?,
        "rump_sp: stdio: input too long\n"
    );
    Ok(())
}
