//! What a call on a pipe comes to, and what a poll tells of its ends.

ghost use Rattle.std.specs.Prelude.{◌≡◌, length, min};
ghost use Rattle.sp_base.specs.Table.{at};
ghost use Rattle.socket_model.specs.Channel.{held, room, bytes_in, IsBytes};
ghost use Rattle.socket_model.specs.Rulings.{IfGoes, pipe_put_ruling, pipe_take_ruling, pipe_reading, pipe_writing};

use crate::chans::Chans;
use crate::rulings::{least_of_pipe, put_ruling, take_ruling};
use socket_model::{ChanNo, PIPE_WHOLE, Ready, Ruling};

#[tactic(auto, using(crate::proofs::ChannelLemmas::channel_rules))]
impl Chans {
    /// What a write of so many bytes to a pipe comes to. Where it goes, `put` puts exactly as many.
    pub fn pipe_put_ruling(&self, c: ChanNo, may_wait: bool, len: u64) -> Ruling
        requires { IsBytes (at self.now c.0) }
        ensures rules { result ≡ pipe_put_ruling (bytes_in (at self.now c.0)) may_wait len }
        ensures fits { IfGoes result (λ n. n ≡ min len (room (bytes_in (at self.now c.0)))) }
    {
        let (unread, _) = self.shut_ends(c);
        put_ruling(unread, self.fits(c), least_of_pipe(may_wait, len), len)
    }

    /// What a read of at most so many bytes from a pipe comes to. Where it goes, `take` takes exactly
    /// as many.
    pub fn pipe_take_ruling(&self, c: ChanNo, max: u32) -> Ruling
        requires { IsBytes (at self.now c.0) }
        ensures rules { result ≡ pipe_take_ruling (bytes_in (at self.now c.0)) max }
        ensures fits { IfGoes result (λ n. n ≡ min max (length (held (bytes_in (at self.now c.0))))) }
    {
        let (_, unwritten) = self.shut_ends(c);
        take_ruling(self.held(c), unwritten, max)
    }

    /// What a poll tells of the end of a pipe that is read from.
    pub fn pipe_reading(&self, c: ChanNo) -> Ready
        requires { IsBytes (at self.now c.0) }
        ensures { result ≡ pipe_reading (bytes_in (at self.now c.0)) }
    {
        let (_, unwritten) = self.shut_ends(c);
        Ready {
            readable: self.held(c) != 0,
            writable: false,
            error: false,
            hangup: unwritten,
        }
    }

    /// What a poll tells of the end of a pipe that is written to.
    pub fn pipe_writing(&self, c: ChanNo) -> Ready
        requires { IsBytes (at self.now c.0) }
        ensures { result ≡ pipe_writing (bytes_in (at self.now c.0)) }
    {
        let (unread, _) = self.shut_ends(c);
        Ready {
            readable: false,
            writable: u64::from(self.fits(c)) >= PIPE_WHOLE,
            error: unread,
            hangup: false,
        }
    }
}
