ghost use Rattle.std.specs.Prelude.{◌≡◌, IsSome};
ghost use Rattle.sp_base.specs.Table.{at};
ghost use Rattle.socket_model.specs.declared.address.SockKind.TheVariants as kind;
ghost use Rattle.socket_model.specs.Socket.{socket_of};
ghost use Rattle.socket_model.specs.Does.{Tells};
ghost use Rattle.socket_model.specs.Calls.{shutdown, shut_link, left_channels, without_reading, without_writing, without_socket, close, close_all};

use crate::chans::Chans;
use crate::sock::Sock;
use crate::sock_rulings::shutdown_ruling;
use crate::socks::Socks;
use circular_buffer::HeapCircularBuffer;
use socket_model::{ChanNo, How, Ruling, SockFault, SockKind, SockNo};

#[tactic(auto, using(crate::proofs::TableLemmas::at_set_here, crate::proofs::EndLemmas::close_rules), unfolding(socket_model::specs::SocketRulings::shutdown_ruling))]
impl Socks {
    /// Shuts an end of a stream, or both.
    pub fn shutdown(&mut self, s: SockNo, how: How) -> Result<(), SockFault>
        requires { IsSome (at self.old.sockets s.0) }
        ensures { Tells result (shutdown self.old s.0 how) self.old self.new }
    {
        match shutdown_ruling(self.sock(s)) {
            Ruling::Refused(e) => return Err(SockFault::Errno(e)),
            Ruling::Waits => return Err(SockFault::NotReady),
            Ruling::Goes(_) => {}
        }
        match how {
            How::Reading => self.stop_reading(s),
            How::Writing => self.stop_writing(s),
            How::Both => {
                self.stop_reading(s);
                self.stop_writing(s);
            }
        }
        Ok(())
    }

    /// A stream no longer reads.
    fn stop_reading(&mut self, s: SockNo)
        requires live { IsSome (at self.old.sockets s.0) }
        requires stream { (socket_of self.old s.0).kind ≡ kind.Stream }
        ensures stopped { self.new ≡ without_reading self.old s.0 }
        ensures live { IsSome (at self.new.sockets s.0) }
        ensures stream { (socket_of self.new s.0).kind ≡ kind.Stream }
    {
        let link = self.socks.value_mut(s.0).stop_reading();
        shut_link(&mut self.chans, link, How::Reading);
    }

    /// A stream no longer writes.
    fn stop_writing(&mut self, s: SockNo)
        requires live { IsSome (at self.old.sockets s.0) }
        requires stream { (socket_of self.old s.0).kind ≡ kind.Stream }
        ensures { self.new ≡ without_writing self.old s.0 }
    {
        let link = self.socks.value_mut(s.0).stop_writing();
        shut_link(&mut self.chans, link, How::Writing);
    }

    /// Closes a socket. Its peer is told, and the connections that wait at it are closed too.
    pub fn close(&mut self, s: SockNo)
        requires { IsSome (at self.old.sockets s.0) }
        ensures { self.new ≡ close self.old s.0 }
    {
        let Some(sock) = self.socks.take(s.0) else {
            unreachable!();
        };
        leave(&mut self.chans, &sock);
        self.close_waiting(sock.queue);
    }

    /// Closes the sockets that wait to be accepted.
    fn close_waiting(&mut self, mut queue: HeapCircularBuffer<u64>)
        ensures { self.new ≡ close_all self.old queue.items }
    {
        while let Some(waiting) = queue.pop_front() {
            self.close_one(waiting);
        }
    }

    /// Closes a socket at which none waits, if it is there.
    fn close_one(&mut self, s: u64)
        ensures { self.new ≡ without_socket self.old s (at self.old.sockets s) }
    {
        if self.socks.get(s).is_none() {
            return;
        }
        let Some(sock) = self.socks.take(s) else {
            unreachable!();
        };
        leave(&mut self.chans, &sock);
    }
}

/// Shuts an end, or both, of the channel that a socket has, if it has one.
fn shut_link(chans: &mut Chans, link: Option<u64>, how: How)
    ensures { chans.new ≡ shut_link chans.old link how }
{
    if let Some(c) = link {
        chans.shut(ChanNo(c), how);
    }
}

/// Gives up the channels of a socket that is gone.
fn leave(chans: &mut Chans, sock: &Sock)
    ensures { chans.new ≡ left_channels chans.old sock.now.kind sock.now.reads sock.now.writes }
{
    match sock.kind {
        SockKind::Stream => {
            shut_link(chans, sock.reads, How::Reading);
            shut_link(chans, sock.writes, How::Writing);
        }
        SockKind::Datagram => shut_link(chans, sock.reads, How::Both),
    }
}
