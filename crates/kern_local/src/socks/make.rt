ghost use Rattle.std.specs.Prelude.{◌≡◌, ◌+◌, length, IfOk, OnErr, IsSome};
ghost use Rattle.sp_base.specs.Table.{at};
ghost use Rattle.socket_model.specs.declared.address.SockKind.TheVariants as kind;
ghost use Rattle.socket_model.specs.Socket.{socket_of, with_socket};
ghost use Rattle.socket_model.specs.Calls.{make_socket, make_pair};

use crate::sock::Sock;
use crate::socks::Socks;
use socket_model::{Address, Family, SockKind, SockNo};
use sp_base::NoMemory;
use std::alloc::Global;

impl Socks {
    /// A new socket. An error leaves all as it was: want of memory, or of numbers, which end at
    /// 2^64 - 1.
    pub fn make(
        &mut self,
        alloc: Global,
        family: Family,
        kind: SockKind,
    ) -> Result<SockNo, NoMemory>
        ensures number { IfOk result (λ s. s.0 ≡ length self.old.sockets) }
        ensures made { IfOk result (λ _. self.new ≡ make_socket self.old family kind) }
        ensures err { OnErr result (self.new ≡ self.old) }
    {
        match kind {
            SockKind::Stream => self.make_stream(alloc, family),
            SockKind::Datagram => self.make_datagram(alloc, family),
        }
    }

    /// A new stream. An error leaves all as it was.
    fn make_stream(&mut self, alloc: Global, family: Family) -> Result<SockNo, NoMemory>
        ensures number { IfOk result (λ s. s.0 ≡ length self.old.sockets) }
        ensures made { IfOk result (λ _. self.new ≡ make_socket self.old family kind.Stream) }
        ensures err { OnErr result (self.new ≡ self.old) }
    {
        let sock = Sock::new(alloc, family, SockKind::Stream)?;
        self.socks.reserve(1)?;
        Ok(SockNo(self.socks.add(sock)))
    }

    /// A new datagram socket. An error leaves all as it was.
    fn make_datagram(&mut self, alloc: Global, family: Family) -> Result<SockNo, NoMemory>
        ensures number { IfOk result (λ s. s.0 ≡ length self.old.sockets) }
        ensures made { IfOk result (λ _. self.new ≡ make_socket self.old family kind.Datagram) }
        ensures err { OnErr result (self.new ≡ self.old) }
    {
        let mut sock = Sock::new(alloc, family, SockKind::Datagram)?;
        self.socks.reserve(1)?;
        let own = self.chans.letters(alloc)?;
        sock.set_ends(Some(own.0), None);
        Ok(SockNo(self.socks.add(sock)))
    }

    /// Two new local sockets that are connected to each other. An error leaves all as it was: want of
    /// memory, or of numbers, which end at 2^64 - 1.
    pub fn pair(&mut self, alloc: Global, kind: SockKind) -> Result<(SockNo, SockNo), NoMemory>
        ensures numbers { IfOk result (λ pair. (pair.0.0 ≡ length self.old.sockets)
            × (pair.1.0 ≡ length self.old.sockets + 1)) }
        ensures made { IfOk result (λ _. self.new ≡ make_pair self.old kind) }
        ensures err { OnErr result (self.new ≡ self.old) }
    {
        let mut first = Sock::paired(alloc, kind)?;
        let mut second = Sock::paired(alloc, kind)?;
        self.socks.reserve(2)?;
        let (c, d) = self.chans.pair(alloc, kind)?;
        first.set_ends(Some(c.0), Some(d.0));
        second.set_ends(Some(d.0), Some(c.0));
        let first = self.socks.add(first);
        let second = self.socks.add(second);
        Ok((SockNo(first), SockNo(second)))
    }

    /// Gives a socket an address.
    pub fn set_address(&mut self, s: SockNo, address: Address)
        requires { IsSome (at self.old.sockets s.0) }
        ensures { self.new ≡ with_socket self.old s.0
            (record (socket_of self.old s.0) { address = address }) }
    {
        self.socks.value_mut(s.0).bind(address);
    }
}
