//! The call that a line spells.
ghost use Rattle.std.specs.Prelude.{◌≡◌, IfOk, map};
ghost use Rattle.guest_language.specs.Made.{made_of, on_one, on_two, one_line, socket_line, two_line};

use crate::number_lines::{
    bare_line, fcntl_line, lseek_line, one_number, pread_line, read_line, recvfrom_line,
    shutdown_line, socket_words, two_numbers,
};
use crate::slot::{FIRST, Made, SECOND, Slot};
use crate::text_lines::{
    bind_line, connect_line, open_line, path_line, poll_line, pwrite_line, sendto_line, stat_line,
    two_paths_line, write_line,
};
use crate::unknown_line::number_line;
use crate::verb::Verb;
use sp_base::{ADDRESS, Call, NoMemory, STAT};
use std::alloc::Global;

/// The call of a verb on one descriptor.
fn on_one(verb: Verb, fd: u64) -> Option<Made>
    ensures { result ≡ on_one verb fd }
{
    let out = FIRST;
    let max = ADDRESS;
    match verb {
        Verb::Close => Some(Made::plain(Call::Close { fd })),
        Verb::Dup => Some(Made::plain(Call::Dup { fd })),
        Verb::Accept => Some(Made::plain(Call::Accept { fd })),
        Verb::Fstat => {
            let call = Call::Fstat { fd, out };
            Some(Made::with_first(call, Slot::Blank(STAT)))
        }
        Verb::Getsockname => {
            let call = Call::Getsockname { fd, out, max };
            Some(Made::with_first(call, Slot::Blank(max)))
        }
        Verb::Getpeername => {
            let call = Call::Getpeername { fd, out, max };
            Some(Made::with_first(call, Slot::Blank(max)))
        }
        _ => None,
    }
}

/// The call of a verb on two numbers.
fn on_two(verb: Verb, numbers: (u64, u64)) -> Option<Made>
    ensures { result ≡ on_two verb numbers }
{
    let (fd, len) = numbers;
    let (family, kind) = numbers;
    let call = match verb {
        Verb::Ftruncate => Call::Ftruncate { fd, len },
        Verb::Dup2 => Call::Dup2 { fd, new_fd: len },
        Verb::Listen => Call::Listen { fd, backlog: len },
        Verb::Socket => Call::Socket { family, kind },
        Verb::Socketpair => Call::Socketpair { family, kind },
        _ => return None,
    };
    Some(Made::plain(call))
}

/// The line of a verb on one descriptor.
fn one_line(verb: Verb, words: &[&[u8]]) -> Option<Made>
    ensures { result ≡ one_line verb (map (λ w. w.now) words.now) }
{
    match one_number(words) {
        Some(fd) => on_one(verb, fd),
        None => None,
    }
}

/// The line of a verb on two numbers.
fn two_line(verb: Verb, words: &[&[u8]]) -> Option<Made>
    ensures { result ≡ two_line verb (map (λ w. w.now) words.now) }
{
    match two_numbers(words) {
        Some(numbers) => on_two(verb, numbers),
        None => None,
    }
}

/// The line of a verb that makes sockets.
fn socket_line(verb: Verb, words: &[&[u8]]) -> Option<Made>
    ensures { result ≡ socket_line verb (map (λ w. w.now) words.now) }
{
    match socket_words(words) {
        Some(numbers) => on_two(verb, numbers),
        None => None,
    }
}

/// The call that a verb and the words behind it spell, with what lies at its addresses; none where
/// the words aren't those of the verb. The only error is want of memory.
pub fn made_of(alloc: Global, verb: Verb, words: &[&[u8]]) -> Result<Option<Made>, NoMemory>
    ensures { IfOk result (λ found. found ≡ made_of verb (map (λ w. w.now) words.now)) }
{
    let path = FIRST;
    let new_path = SECOND;
    match verb {
        Verb::Getpid => Ok(bare_line(Call::Getpid, words)),
        Verb::Pipe => Ok(bare_line(Call::Pipe, words)),
        Verb::Close
        | Verb::Dup
        | Verb::Accept
        | Verb::Fstat
        | Verb::Getsockname
        | Verb::Getpeername => Ok(one_line(verb, words)),
        Verb::Ftruncate | Verb::Dup2 | Verb::Listen => Ok(two_line(verb, words)),
        Verb::Socket | Verb::Socketpair => Ok(socket_line(verb, words)),
        Verb::Unlink => path_line(alloc, Call::Unlink { path }, words),
        Verb::Mkdir => path_line(alloc, Call::Mkdir { path }, words),
        Verb::Rmdir => path_line(alloc, Call::Rmdir { path }, words),
        Verb::Chdir => path_line(alloc, Call::Chdir { path }, words),
        Verb::Link => two_paths_line(alloc, Call::Link { path, new_path }, words),
        Verb::Rename => two_paths_line(alloc, Call::Rename { path, new_path }, words),
        Verb::Stat => stat_line(alloc, words),
        Verb::Open => open_line(alloc, words),
        Verb::Read => Ok(read_line(words)),
        Verb::Pread => Ok(pread_line(words)),
        Verb::Recvfrom => Ok(recvfrom_line(words)),
        Verb::Write => write_line(alloc, words),
        Verb::Pwrite => pwrite_line(alloc, words),
        Verb::Sendto => sendto_line(alloc, words),
        Verb::Bind => bind_line(alloc, words),
        Verb::Connect => connect_line(alloc, words),
        Verb::Lseek => Ok(lseek_line(words)),
        Verb::Fcntl => Ok(fcntl_line(words)),
        Verb::Shutdown => Ok(shutdown_line(words)),
        Verb::Poll => poll_line(alloc, words),
        Verb::Number => Ok(number_line(words)),
    }
}
