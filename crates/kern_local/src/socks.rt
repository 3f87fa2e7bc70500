ghost use Rattle.std.specs.Prelude.{◌≡◌, [], option_copied, is_some, IsSome, IsTrue, ◌↔◌, Some};
ghost use Rattle.sp_base.specs.Table.{at};
ghost use Rattle.socket_model.specs.Socket.{socket_of};
ghost use Rattle.socket_model.specs.SocketRulings.{send_refusal, receive_ruling, accept_ruling, connect_refusal, socket_ready};

mod connect;
mod end;
mod make;
mod receive;
mod send;
mod waits;

use crate::chans::Chans;
use crate::ledger::Ledger;
use crate::sock::Sock;
use crate::sock_rulings;
use socket_model::{Address, Family, Ready, Ruling, SockKind, SockNo};
use sp_base::Errno;
use std::alloc::Global;
use std::marker::Model;

/// Sockets by number, with the channels between them. A new one has as its number how many were made
/// before, so that no number comes again.
#[derive(Drop)]
pub struct Socks {
    socks: Ledger<Sock>,
    chans: Chans,
}

impl Model for Socks {
    ghost use Rattle.socket_model.specs.Socket.{Sockets};
    ghost use Rattle.socket_model.specs.Sound.{IsSound, ends_at};

    ghost Value = { Sockets };

    ghost view = { λ s. record { sockets = s.socks.items; channels = s.chans } };

    ghost invariant = { λ s. IsSound (ends_at s.socks.items) s.chans };
}

impl Socks {
    /// No socket; takes no memory.
    pub fn fresh(alloc: Global) -> Socks
        ensures { result ≡ record { sockets = []; channels = [] } }
    {
        Socks {
            socks: Ledger::new(alloc),
            chans: Chans::fresh(alloc),
        }
    }

    /// Whether there is a socket of this number.
    pub fn is_live(&self, s: SockNo) -> bool
        ensures { IsTrue result ↔ IsSome (at self.now.sockets s.0) }
    {
        self.socks.get(s.0).is_some()
    }

    /// A socket that is there.
    fn sock(&self, s: SockNo) -> &Sock
        requires { IsSome (at self.now.sockets s.0) }
        ensures { at self.now.sockets s.0 ≡ Some result.now }
    {
        match self.socks.get(s.0) {
            Some(sock) => sock,
            None => unreachable!(),
        }
    }

    /// A socket's address, `Unnamed` where it isn't bound.
    pub fn address(&self, s: SockNo) -> &Address
        requires { IsSome (at self.now.sockets s.0) }
        ensures { result.now ≡ (socket_of self.now s.0).address }
    {
        &self.sock(s).address
    }

    /// The address of a socket's peer; None where it isn't connected.
    pub fn peer(&self, s: SockNo) -> Option<&Address>
        requires { IsSome (at self.now.sockets s.0) }
        ensures { option_copied result ≡ (socket_of self.now s.0).peer }
    {
        self.sock(s).peer.as_ref()
    }

    /// A socket's family and kind, and whether it listens.
    pub fn shape(&self, s: SockNo) -> (Family, SockKind, bool)
        requires { IsSome (at self.now.sockets s.0) }
        ensures family { result.0 ≡ (socket_of self.now s.0).family }
        ensures kind { result.1 ≡ (socket_of self.now s.0).kind }
        ensures listens { result.2 ≡ is_some (socket_of self.now s.0).backlog }
    {
        let sock = self.sock(s);
        (sock.family, sock.kind, sock.backlog.is_some())
    }

    /// What a poll tells of a socket.
    pub fn ready(&self, s: SockNo) -> Ready
        requires { IsSome (at self.now.sockets s.0) }
        ensures { result ≡ socket_ready self.now.channels (socket_of self.now s.0) }
    {
        sock_rulings::socket_ready(self.sock(s), &self.chans)
    }

    /// Why a send of so many bytes fails, whatever its target; an address may be named.
    pub fn send_refusal(&self, s: SockNo, named: bool, len: u64) -> Option<Errno>
        requires { IsSome (at self.now.sockets s.0) }
        ensures { result ≡ send_refusal (socket_of self.now s.0) named len }
    {
        sock_rulings::send_refusal(self.sock(s), named, len)
    }

    /// What a receive of at most so many bytes comes to.
    pub fn receive_ruling(&self, s: SockNo, max: u32) -> Ruling
        requires { IsSome (at self.now.sockets s.0) }
        ensures { result ≡ receive_ruling self.now.channels (socket_of self.now s.0) max }
    {
        sock_rulings::receive_ruling(self.sock(s), &self.chans, max)
    }

    /// What an accept comes to.
    pub fn accept_ruling(&self, s: SockNo) -> Ruling
        requires { IsSome (at self.now.sockets s.0) }
        ensures { result ≡ accept_ruling (socket_of self.now s.0) }
    {
        sock_rulings::accept_ruling(self.sock(s))
    }

    /// Why a connect fails, whatever its target.
    pub fn connect_refusal(&self, s: SockNo) -> Option<Errno>
        requires { IsSome (at self.now.sockets s.0) }
        ensures { result ≡ connect_refusal (socket_of self.now s.0) }
    {
        sock_rulings::connect_refusal(self.sock(s))
    }
}
