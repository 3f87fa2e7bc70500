ghost use Rattle.std.specs.Prelude.{◌≡◌, IsSome};
ghost use Rattle.sp_base.specs.Table.{at};
ghost use Rattle.socket_model.specs.declared.address.SockKind.TheVariants as kind;
ghost use Rattle.socket_model.specs.Socket.{socket_of};
ghost use Rattle.socket_model.specs.Does.{Tells};
ghost use Rattle.socket_model.specs.Calls.{listen, accept, connect};
ghost use Rattle.kern_local.specs.SocketNumbers.{TellsNumber};

use crate::sock_rulings::{
    accept_ruling, connect_letters_ruling, connect_stream_ruling, listen_ruling,
};
use crate::socks::Socks;
use socket_model::{Ruling, SockFault, SockKind, SockNo};
use std::alloc::Global;

impl Socks {
    /// Lets a socket listen, with so many connections that may wait: at least one, at most 16.
    pub fn listen(&mut self, s: SockNo, backlog: u64) -> Result<(), SockFault>
        requires { IsSome (at self.old.sockets s.0) }
        ensures { Tells result (listen self.old s.0 backlog) self.old self.new }
    {
        match listen_ruling(self.sock(s)) {
            Ruling::Refused(e) => Err(SockFault::Errno(e)),
            Ruling::Waits => Err(SockFault::NotReady),
            Ruling::Goes(_) => {
                self.socks.value_mut(s.0).listen(backlog);
                Ok(())
            }
        }
    }

    /// Takes the oldest connection that waits at a listening socket.
    pub fn accept(&mut self, s: SockNo) -> Result<SockNo, SockFault>
        requires { IsSome (at self.old.sockets s.0) }
        ensures { TellsNumber result (accept self.old s.0) self.old self.new }
    {
        match accept_ruling(self.sock(s)) {
            Ruling::Refused(e) => Err(SockFault::Errno(e)),
            Ruling::Waits => Err(SockFault::NotReady),
            Ruling::Goes(_) => match self.socks.value_mut(s.0).take_waiting() {
                Some(waiting) => Ok(SockNo(waiting)),
                None => Err(SockFault::NotReady),
            },
        }
    }

    /// Connects a socket to another one. A stream's connection waits at the listening socket as a
    /// socket of its own; a datagram socket from now on sends there.
    pub fn connect(&mut self, alloc: Global, s: SockNo, to: SockNo) -> Result<(), SockFault>
        requires live { IsSome (at self.old.sockets s.0) }
        requires there { IsSome (at self.old.sockets to.0) }
        ensures { Tells result (connect self.old s.0 to.0) self.old self.new }
    {
        match self.sock(s).kind {
            SockKind::Stream => self.connect_stream(alloc, s, to),
            SockKind::Datagram => self.connect_letters(alloc, s, to),
        }
    }

    /// Connects a stream.
    fn connect_stream(&mut self, alloc: Global, s: SockNo, to: SockNo) -> Result<(), SockFault>
        requires live { IsSome (at self.old.sockets s.0) }
        requires there { IsSome (at self.old.sockets to.0) }
        requires kind { (socket_of self.old s.0).kind ≡ kind.Stream }
        ensures { Tells result (connect self.old s.0 to.0) self.old self.new }
    {
        match connect_stream_ruling(self.sock(s), self.sock(to)) {
            Ruling::Refused(e) => return Err(SockFault::Errno(e)),
            Ruling::Waits => return Err(SockFault::NotReady),
            Ruling::Goes(_) => {}
        }
        let peer = self.sock(to).address.copy(alloc)?;
        let mut accepted = self.sock(to).accepted(alloc, self.sock(s))?;
        self.socks.reserve(1)?;
        let (c, d) = self.chans.pair(alloc, SockKind::Stream)?;
        accepted.set_ends(Some(c.0), Some(d.0));
        let waiting = self.socks.add(accepted);
        self.socks.value_mut(to.0).queue_up(waiting);
        self.socks.value_mut(s.0).open(peer, Some(d.0), Some(c.0));
        Ok(())
    }

    /// Connects a datagram socket.
    fn connect_letters(&mut self, alloc: Global, s: SockNo, to: SockNo) -> Result<(), SockFault>
        requires live { IsSome (at self.old.sockets s.0) }
        requires there { IsSome (at self.old.sockets to.0) }
        requires kind { (socket_of self.old s.0).kind ≡ kind.Datagram }
        ensures { Tells result (connect self.old s.0 to.0) self.old self.new }
    {
        match connect_letters_ruling(self.sock(s), self.sock(to)) {
            Ruling::Refused(e) => return Err(SockFault::Errno(e)),
            Ruling::Waits => return Err(SockFault::NotReady),
            Ruling::Goes(_) => {}
        }
        let peer = self.sock(to).address.copy(alloc)?;
        let writes = self.sock(to).reads;
        self.socks.value_mut(s.0).send_to(peer, writes);
        Ok(())
    }
}
