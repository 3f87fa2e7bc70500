//! The lines of calls whose words are numbers and names alone.
ghost use Rattle.std.specs.Prelude.{◌≡◌, map};
ghost use Rattle.guest_language.specs.Made.{bare_line, command_of, family_of, fcntl_line, how_of, kind_of, lseek_line, one_number, out_slot, out_words, pread_line, pread_made, read_line, recvfrom_line, shutdown_line, socket_words, takes_argument, two_numbers, whence_of};

use crate::slot::{BAD, FIRST, Made, SECOND, Slot};
use script_words::{number_of, signed_of};
use sp_base::{ADDRESS, Call, TRANSFER};

/// `getpid`, `pipe`.
pub fn bare_line(call: Call, words: &[&[u8]]) -> Option<Made>
    ensures { result ≡ bare_line call (map (λ w. w.now) words.now) }
{
    if words.is_empty() {
        Some(Made::plain(call))
    } else {
        None
    }
}

/// `FD`.
pub fn one_number(words: &[&[u8]]) -> Option<u64>
    ensures { result ≡ one_number (map (λ w. w.now) words.now) }
{
    let [n] = words else {
        return None;
    };
    number_of(n)
}

/// `FD LEN`, `FD FD`, `FD BACKLOG`.
pub fn two_numbers(words: &[&[u8]]) -> Option<(u64, u64)>
    ensures { result ≡ two_numbers (map (λ w. w.now) words.now) }
{
    let [n, m] = words else {
        return None;
    };
    let Some(n) = number_of(n) else {
        return None;
    };
    let Some(m) = number_of(m) else {
        return None;
    };
    Some((n, m))
}

/// `LEN`, or `bad LEN`: where a call is to write, and how much.
fn out_words(words: &[&[u8]]) -> Option<(u64, u64)>
    ensures { result ≡ out_words (map (λ w. w.now) words.now) }
{
    match words {
        [len] => {
            let Some(n) = number_of(len) else {
                return None;
            };
            Some((FIRST, n))
        }
        [word, len] => {
            if *word != b"bad".as_slice() {
                return None;
            }
            let Some(n) = number_of(len) else {
                return None;
            };
            Some((BAD, n))
        }
        _ => None,
    }
}

/// What lies where a call is to write.
#[tactic(auto, unfolding(crate::specs::Made::out_slot))]
fn out_slot(out: (u64, u64)) -> Slot
    ensures { result ≡ out_slot out }
{
    if out.0 == BAD {
        return Slot::Nothing;
    }
    Slot::Blank(out.1.min(TRANSFER))
}

/// `read FD [bad] LEN`.
pub fn read_line(words: &[&[u8]]) -> Option<Made>
    ensures { result ≡ read_line (map (λ w. w.now) words.now) }
{
    let [fd, rest @ ..] = words else {
        return None;
    };
    let Some(fd) = number_of(fd) else {
        return None;
    };
    let Some(out) = out_words(rest) else {
        return None;
    };
    let call = Call::Read {
        fd,
        out: out.0,
        len: out.1,
    };
    Some(Made::with_first(call, out_slot(out)))
}

/// `recvfrom FD [bad] LEN`.
pub fn recvfrom_line(words: &[&[u8]]) -> Option<Made>
    ensures { result ≡ recvfrom_line (map (λ w. w.now) words.now) }
{
    let [fd, rest @ ..] = words else {
        return None;
    };
    let Some(fd) = number_of(fd) else {
        return None;
    };
    let Some(out) = out_words(rest) else {
        return None;
    };
    let call = Call::Recvfrom {
        fd,
        out: out.0,
        len: out.1,
        address: SECOND,
        address_max: ADDRESS,
    };
    Some(Made::with_both(call, out_slot(out), Slot::Blank(ADDRESS)))
}

/// The pread of a descriptor, of where and how much, and of an offset.
fn pread_made(fd: &[u8], words: &[&[u8]], offset: &[u8]) -> Option<Made>
    ensures { result ≡ pread_made fd.now (map (λ w. w.now) words.now) offset.now }
{
    let Some(fd) = number_of(fd) else {
        return None;
    };
    let Some(out) = out_words(words) else {
        return None;
    };
    let Some(offset) = signed_of(offset) else {
        return None;
    };
    let call = Call::Pread {
        fd,
        out: out.0,
        len: out.1,
        offset,
    };
    Some(Made::with_first(call, out_slot(out)))
}

/// `pread FD [bad] LEN OFF`.
pub fn pread_line(words: &[&[u8]]) -> Option<Made>
    ensures { result ≡ pread_line (map (λ w. w.now) words.now) }
{
    match words {
        [fd, len, offset] => pread_made(fd, &[*len], offset),
        [fd, word, len, offset] => pread_made(fd, &[*word, *len], offset),
        _ => None,
    }
}

/// From where an offset counts.
#[tactic(auto, unfolding(crate::specs::Made::whence_of))]
fn whence_of(word: &[u8]) -> Option<u64>
    ensures { result ≡ whence_of word.now }
{
    if word == b"set".as_slice() {
        return Some(0);
    }
    if word == b"cur".as_slice() {
        return Some(1);
    }
    if word == b"end".as_slice() {
        return Some(2);
    }
    None
}

/// `lseek FD OFF set|cur|end`.
pub fn lseek_line(words: &[&[u8]]) -> Option<Made>
    ensures { result ≡ lseek_line (map (λ w. w.now) words.now) }
{
    let [fd, offset, whence] = words else {
        return None;
    };
    let Some(fd) = number_of(fd) else {
        return None;
    };
    let Some(offset) = signed_of(offset) else {
        return None;
    };
    let Some(whence) = whence_of(whence) else {
        return None;
    };
    Some(Made::plain(Call::Lseek { fd, offset, whence }))
}

/// The command of an fcntl.
#[tactic(auto, unfolding(crate::specs::Made::command_of))]
fn command_of(word: &[u8]) -> Option<u64>
    ensures { result ≡ command_of word.now }
{
    if word == b"dupfd".as_slice() {
        return Some(0);
    }
    if word == b"getfd".as_slice() {
        return Some(1);
    }
    if word == b"setfd".as_slice() {
        return Some(2);
    }
    if word == b"getfl".as_slice() {
        return Some(3);
    }
    if word == b"setfl".as_slice() {
        return Some(4);
    }
    None
}

/// Whether a command goes with an argument: one that has no use for it with 0 alone.
#[tactic(auto, unfolding(crate::specs::Made::takes_argument))]
fn takes_argument(command: u64, argument: u64) -> bool
    ensures { result ≡ takes_argument command argument }
{
    !(command == 1 || command == 3) || argument == 0
}

/// `fcntl FD COMMAND ARG`.
pub fn fcntl_line(words: &[&[u8]]) -> Option<Made>
    ensures { result ≡ fcntl_line (map (λ w. w.now) words.now) }
{
    let [fd, command, argument] = words else {
        return None;
    };
    let Some(fd) = number_of(fd) else {
        return None;
    };
    let Some(command) = command_of(command) else {
        return None;
    };
    let Some(argument) = number_of(argument) else {
        return None;
    };
    if !takes_argument(command, argument) {
        return None;
    }
    Some(Made::plain(Call::Fcntl {
        fd,
        command,
        argument,
    }))
}

/// The family of a socket.
#[tactic(auto, unfolding(crate::specs::Made::family_of))]
fn family_of(word: &[u8]) -> Option<u64>
    ensures { result ≡ family_of word.now }
{
    if word == b"local".as_slice() {
        return Some(1);
    }
    if word == b"inet".as_slice() {
        return Some(2);
    }
    None
}

/// The kind of a socket.
#[tactic(auto, unfolding(crate::specs::Made::kind_of))]
fn kind_of(word: &[u8]) -> Option<u64>
    ensures { result ≡ kind_of word.now }
{
    if word == b"stream".as_slice() {
        return Some(1);
    }
    if word == b"dgram".as_slice() {
        return Some(2);
    }
    None
}

/// `local|inet stream|dgram`.
pub fn socket_words(words: &[&[u8]]) -> Option<(u64, u64)>
    ensures { result ≡ socket_words (map (λ w. w.now) words.now) }
{
    let [family, kind] = words else {
        return None;
    };
    let Some(family) = family_of(family) else {
        return None;
    };
    let Some(kind) = kind_of(kind) else {
        return None;
    };
    Some((family, kind))
}

/// What a shutdown ends.
#[tactic(auto, unfolding(crate::specs::Made::how_of))]
fn how_of(word: &[u8]) -> Option<u64>
    ensures { result ≡ how_of word.now }
{
    if word == b"read".as_slice() {
        return Some(0);
    }
    if word == b"write".as_slice() {
        return Some(1);
    }
    if word == b"both".as_slice() {
        return Some(2);
    }
    None
}

/// `shutdown FD read|write|both`.
pub fn shutdown_line(words: &[&[u8]]) -> Option<Made>
    ensures { result ≡ shutdown_line (map (λ w. w.now) words.now) }
{
    let [fd, how] = words else {
        return None;
    };
    let Some(fd) = number_of(fd) else {
        return None;
    };
    let Some(how) = how_of(how) else {
        return None;
    };
    Some(Made::plain(Call::Shutdown { fd, how }))
}
