// What calls on channels come to, and what channels give, worked out by hand.
use crate::Chans;
use crate::rulings::{least_of_pipe, least_of_stream, put_ruling, take_ruling};
use socket_model::{Address, ChanNo, How, LETTERS, Letter, Ruling, SockKind};
use sp_base::{Errno, Octets};
use std::alloc::Global;
use std::test::Fail;

const BROKEN: Ruling = Ruling::Refused(Errno::Epipe);

/// Whether there is no reader, how many bytes fit, whether the call may wait, how many bytes are to be
/// written; what it comes to at a pipe, and at a stream.
const PUTS: [(bool, u32, bool, u64, Ruling, Ruling); 12] = [
    (true, 100, true, 0, BROKEN, BROKEN),
    (false, 0, false, 0, Ruling::Goes(0), Ruling::Goes(0)),
    (
        false,
        16_384,
        true,
        16_384,
        Ruling::Goes(16_384),
        Ruling::Goes(16_384),
    ),
    (
        false,
        16_384,
        true,
        20_000,
        Ruling::Goes(16_384),
        Ruling::Goes(16_384),
    ),
    (false, 16_383, true, 20_000, Ruling::Waits, Ruling::Waits),
    (false, 99, true, 100, Ruling::Waits, Ruling::Waits),
    (false, 100, true, 100, Ruling::Goes(100), Ruling::Goes(100)),
    (false, 511, false, 512, Ruling::Waits, Ruling::Goes(511)),
    (false, 512, false, 512, Ruling::Goes(512), Ruling::Goes(512)),
    (false, 1, false, 513, Ruling::Goes(1), Ruling::Goes(1)),
    (false, 0, false, 513, Ruling::Waits, Ruling::Waits),
    (false, 0, false, 1, Ruling::Waits, Ruling::Waits),
];

/// How many bytes are held, whether there is no writer, how many are to be read at the most; what it
/// comes to.
const TAKES: [(u32, bool, u32, Ruling); 7] = [
    (0, false, 0, Ruling::Goes(0)),
    (7, false, 0, Ruling::Goes(0)),
    (7, false, 3, Ruling::Goes(3)),
    (7, true, 9, Ruling::Goes(7)),
    (0, true, 9, Ruling::Goes(0)),
    (0, false, 9, Ruling::Waits),
    (0, true, 0, Ruling::Goes(0)),
];

#[test]
fn rulings_of_bytes(rt: HostRuntime) -> Result<(), Fail> {
    for (unread, free, may_wait, len, pipe, stream) in PUTS {
        let least = least_of_pipe(may_wait, len);
        assert_eq!(rt; put_ruling(unread, free, least, len), pipe);
        let least = least_of_stream(may_wait, len);
        assert_eq!(rt; put_ruling(unread, free, least, len), stream);
    }
    for (count, unwritten, max, ruling) in TAKES {
        assert_eq!(rt; take_ruling(count, unwritten, max), ruling);
    }
    Ok(())
}

/// What is put, how much is taken at the most, what comes, and how many bytes are held then.
const MOVES: [(&str, u32, &str, u32); 6] = [
    ("hello", 3, "hel", 2),
    (", you", 4, "lo, ", 3),
    ("", 0, "", 3),
    ("!", 9, "you!", 0),
    ("", 9, "", 0),
    ("again", 5, "again", 0),
];

#[test]
fn bytes_come_in_order(rt: HostRuntime) -> Result<(), Fail> {
    let mut chans = Chans::fresh(rt.alloc());
    let c = chans.stream(rt.alloc())?;
    for (text, max, given, left) in MOVES {
        assert!(rt; chans.holds_bytes(c));
        assert_eq!(rt; chans.put(c, text.as_bytes()) as usize, text.len());
        assert!(rt; chans.holds_bytes(c));
        let bytes = chans.take(rt.alloc(), c, max)?;
        assert_eq!(rt; bytes.slice(), given.as_bytes());
        assert!(rt; chans.holds_bytes(c));
        assert_eq!(rt; (chans.held(c), chans.fits(c)), (left, 16_384 - left));
    }
    Ok(())
}

#[test]
fn a_channel_goes_with_its_second_end(rt: HostRuntime) -> Result<(), Fail> {
    let mut chans = Chans::fresh(rt.alloc());
    assert_eq!(rt; chans.stream(rt.alloc())?, ChanNo(0));
    let (c, d) = chans.pair(rt.alloc(), SockKind::Stream)?;
    assert_eq!(rt; (c, d), (ChanNo(1), ChanNo(2)));
    assert!(rt; chans.holds_bytes(c));
    assert_eq!(rt; chans.shut_ends(c), (false, false));
    chans.shut(c, How::Reading);
    assert!(rt; chans.holds_bytes(c));
    assert_eq!(rt; chans.shut_ends(c), (true, false));
    assert_eq!(rt; chans.pipe_put_ruling(c, true, 0), BROKEN);
    chans.shut(c, How::Writing);
    assert!(rt; !chans.holds_bytes(c) && chans.holds_bytes(d));
    chans.shut(d, How::Both);
    assert!(rt; !chans.holds_bytes(d) && !chans.holds_letters(d));
    assert_eq!(rt; chans.letters(rt.alloc())?, ChanNo(3));
    Ok(())
}

/// A letter of one byte.
fn letter(alloc: Global, byte: u8) -> Result<Letter, Fail> {
    Ok(Letter {
        sender: Address::Inet([127, 0, 0, 1], u16::from(byte)),
        bytes: Octets::of(alloc, &[byte])?,
    })
}

#[test]
fn sixty_four_letters_wait(rt: HostRuntime) -> Result<(), Fail> {
    let mut chans = Chans::fresh(rt.alloc());
    let c = chans.letters(rt.alloc())?;
    for byte in 0..LETTERS as u8 {
        assert!(rt; chans.holds_letters(c));
        assert!(rt; chans.post(c, letter(rt.alloc(), byte)?).is_none());
    }
    assert!(rt; chans.holds_letters(c));
    let back = chans.post(c, letter(rt.alloc(), 64)?);
    assert!(rt;
        matches!(
            back,
            Some(Letter {
                sender: Address::Inet(_, 64),
                ..
            })
        )
    );
    for byte in 0..LETTERS as u8 {
        assert!(rt; chans.holds_letters(c));
        let Some(letter) = chans.fetch(c) else {
            return Err(Fail::from("no letter came"));
        };
        assert_eq!(rt; letter.bytes.slice().first().copied(), Some(byte));
    }
    assert!(rt; chans.holds_letters(c));
    assert!(rt; chans.fetch(c).is_none());
    Ok(())
}
