// What is written for frames that take a salt, and how many salts are drawn for them.
use crate::{StdioEnd, serve_stdio};
use sp_base::{NoMemory, Octets};
use sp_io::{MemSalt, MemSink, MemSource, Salt};
use std::alloc::Global;
use std::test::Fail;

/// Bytes, as the parts that they are put together of.
type Parts = &'static [&'static [u8]];

const BANNER: &[u8] = b"RUMPSP-0.4\n";

/// The handshake of a guest named `a`, as request 1, and its response: process 2.
const HANDSHAKE: &[u8] = b"\x19\0\0\0\0\0\0\0\x01\0\0\0\0\0\0\0\0\0\0\0\0\0\0\0a";

const HELLO: &[u8] = b"\x1c\0\0\0\0\0\0\0\x01\0\0\0\0\0\0\0\x01\0\0\0\0\0\0\0\x02\0\0\0";

/// A fork, as request 2, and its response: cookie 1 with the salt 7, place 1 and process 3.
const FORK: &[u8] = b"\x18\0\0\0\0\0\0\0\x02\0\0\0\0\0\0\0\0\0\x05\0\0\0\0\0";

const FORKED: &[u8] = b"\x38\0\0\0\0\0\0\0\x02\0\0\0\0\0\0\0\x01\0\x05\0\0\0\0\0\
\x01\0\0\0\0\0\0\0\x07\0\0\0\0\0\0\0\x01\0\0\0\0\0\0\0\x03\0\0\0\0\0\0\0";

/// The error for that fork without a handshake: malformed.
const MALFORMED: &[u8] = b"\x18\0\0\0\0\0\0\0\x02\0\0\0\0\0\0\0\x02\0\x05\0\x07\0\0\0";

/// The request to run another program, as request 3, and its response: cookie 2 with the salt 8.
const EXEC: &[u8] = b"\x18\0\0\0\0\0\0\0\x03\0\0\0\0\0\0\0\0\0\x06\0\0\0\0\0";

const READY: &[u8] = b"\x28\0\0\0\0\0\0\0\x03\0\0\0\0\0\0\0\x01\0\x06\0\0\0\0\0\
\x02\0\0\0\0\0\0\0\x08\0\0\0\0\0\0\0";

fn joined(alloc: Global, parts: &[&'static [u8]]) -> Result<Octets, NoMemory> {
    let mut bytes = Octets::none(alloc);
    for part in parts {
        bytes.extend(part)?;
    }
    Ok(bytes)
}

/// How a connection is served whose salts count up from 7, what is written, and the salt that comes next.
#[derive(Drop)]
struct Outcome {
    end: StdioEnd,
    text: Octets,
    next: Option<u64>,
}

/// What these frames are answered, where these calls of the salt fail.
fn served(alloc: Global, input: Parts, fails: &[u64]) -> Result<Outcome, NoMemory> {
    let bytes = joined(alloc, input)?;
    let mut source = MemSource::of(alloc, bytes.slice(), &[])?;
    let mut sink = MemSink::of(alloc, &[])?;
    let mut salt = MemSalt::of(alloc, 7, fails)?;
    let end = serve_stdio(alloc, &mut source, &mut sink, &mut salt);
    let text = Octets::of(alloc, sink.bytes())?;
    let next = salt.next().ok();
    Ok(Outcome { end, text, next })
}

#[test]
fn salts(rt: HostRuntime) -> Result<(), Fail> {
    let rows: [(Parts, &[u64], StdioEnd, Parts, u64); 6] = [
        (&[HANDSHAKE], &[], StdioEnd::Clean, &[BANNER, HELLO], 7),
        (
            &[HANDSHAKE, FORK, EXEC],
            &[],
            StdioEnd::Clean,
            &[BANNER, HELLO, FORKED, READY],
            9,
        ),
        (&[FORK], &[], StdioEnd::Clean, &[BANNER, MALFORMED], 8),
        (&[FORK, EXEC], &[], StdioEnd::Clean, &[BANNER, MALFORMED], 9),
        (
            &[HANDSHAKE, FORK, EXEC],
            &[0],
            StdioEnd::SaltFault,
            &[BANNER, HELLO],
            7,
        ),
        (
            &[HANDSHAKE, FORK, EXEC],
            &[1],
            StdioEnd::SaltFault,
            &[BANNER, HELLO, FORKED],
            8,
        ),
    ];
    for (input, fails, end, text, next) in rows {
        let got = served(rt.alloc(), input, fails)?;
        let text = joined(rt.alloc(), text)?;
        assert_eq!(rt; got.end, end);
        assert_eq!(rt; got.text.slice(), text.slice());
        assert_eq!(rt; got.next, Some(next));
    }
    Ok(())
}
