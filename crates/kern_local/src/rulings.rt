ghost use Rattle.std.specs.Prelude.{◌≡◌, min};
ghost use Rattle.socket_model.specs.Rulings.{IfGoes, put_ruling, least_of_pipe, least_of_stream, take_ruling};

use socket_model::{PIPE_WHOLE, Ruling, STREAM_BYTES};
use sp_base::Errno;

/// What it comes to that so many bytes are to be written where `free` fit, and `least` of them must.
#[tactic(auto, unfolding(socket_model::specs::Rulings::put_ruling))]
pub(crate) fn put_ruling(unread: bool, free: u32, least: u64, len: u64) -> Ruling
    ensures rules { result ≡ put_ruling unread free least len }
    ensures fits { IfGoes result (λ n. n ≡ min len free) }
{
    if unread {
        return Ruling::Refused(Errno::Epipe);
    }
    if len == 0 {
        return Ruling::Goes(0);
    }
    if least <= u64::from(free) {
        Ruling::Goes(len.min(u64::from(free)) as u32)
    } else {
        Ruling::Waits
    }
}

/// How many of so many bytes must fit before any goes into a pipe.
#[tactic(auto, unfolding(socket_model::specs::Rulings::least_of_pipe))]
pub(crate) fn least_of_pipe(may_wait: bool, len: u64) -> u64
    ensures { result ≡ least_of_pipe may_wait len }
{
    if may_wait {
        len.min(STREAM_BYTES)
    } else if len <= PIPE_WHOLE {
        len
    } else {
        1
    }
}

/// How many of so many bytes must fit before any goes into a stream.
#[tactic(auto, unfolding(socket_model::specs::Rulings::least_of_stream))]
pub(crate) fn least_of_stream(may_wait: bool, len: u64) -> u64
    ensures { result ≡ least_of_stream may_wait len }
{
    if may_wait { len.min(STREAM_BYTES) } else { 1 }
}

/// What it comes to that at most so many bytes are to be read where `count` are held.
#[tactic(auto, unfolding(socket_model::specs::Rulings::take_ruling))]
pub(crate) fn take_ruling(count: u32, unwritten: bool, max: u32) -> Ruling
    ensures rules { result ≡ take_ruling count unwritten max }
    ensures fits { IfGoes result (λ n. n ≡ min max count) }
{
    if max == 0 {
        return Ruling::Goes(0);
    }
    if count != 0 {
        return Ruling::Goes(max.min(count));
    }
    if unwritten {
        Ruling::Goes(0)
    } else {
        Ruling::Waits
    }
}
