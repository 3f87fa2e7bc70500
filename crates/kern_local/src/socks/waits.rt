ghost use Rattle.std.specs.Prelude.{◌≡◌, ℕ, List, length, ◌↔◌, IsSome, IsTrue};
ghost use Rattle.sp_base.specs.Table.{at};
ghost use Rattle.socket_model.specs.declared.ruling.Ruling.TheVariants.{Waits};
ghost use Rattle.socket_model.specs.Socket.{socket_of};
ghost use Rattle.socket_model.specs.SocketRulings.{send_ruling, listen_ruling, shutdown_ruling};
ghost use Rattle.socket_model.specs.Does.{Waiting};
ghost use Rattle.socket_model.specs.Calls.{send, receive, accept};
ghost use Rattle.kern_local.specs.SocketNumbers.{number_of, IsThere};

use crate::sock_rulings;
use crate::socks::Socks;
use crate::socks::send::target;
use socket_model::{Ruling, SockKind, SockNo};

/// Whether it waits.
fn waits(ruling: Ruling) -> bool
    ensures { IsTrue result ↔ (ruling ≡ Waits) }
{
    match ruling {
        Ruling::Waits => true,
        _ => false,
    }
}

impl Socks {
    /// What a send of so many bytes comes to, to another socket where an address is named. Takes no
    /// memory.
    #[tactic(auto, using(crate::proofs::SocketLemmas::named_number), unfolding(socket_model::specs::SocketRulings::letter_ruling))]
    pub fn send_ruling(&self, s: SockNo, to: Option<SockNo>, may_wait: bool, len: u64) -> Ruling
        requires live { IsSome (at self.now.sockets s.0) }
        requires there { IsThere self.now.sockets to }
        ensures { result ≡ send_ruling self.now (socket_of self.now s.0) (number_of to)
            may_wait len }
    {
        let sock = self.sock(s);
        let named = to.is_some();
        match sock.kind {
            SockKind::Stream => {
                sock_rulings::send_stream_ruling(sock, &self.chans, named, may_wait, len)
            }
            SockKind::Datagram => {
                let (to_stream, channel) = target(&self.socks, sock, to);
                sock_rulings::send_letter_ruling(sock, &self.chans, named, to_stream, channel, len)
            }
        }
    }

    /// What a listen comes to. Takes no memory.
    pub fn listen_ruling(&self, s: SockNo) -> Ruling
        requires { IsSome (at self.now.sockets s.0) }
        ensures { result ≡ listen_ruling (socket_of self.now s.0) }
    {
        sock_rulings::listen_ruling(self.sock(s))
    }

    /// What a shutdown comes to. Takes no memory.
    pub fn shutdown_ruling(&self, s: SockNo) -> Ruling
        requires { IsSome (at self.now.sockets s.0) }
        ensures { result ≡ shutdown_ruling (socket_of self.now s.0) }
    {
        sock_rulings::shutdown_ruling(self.sock(s))
    }

    /// Whether an accept would wait. Takes no memory.
    pub fn accept_waits(&self, s: SockNo) -> bool
        requires { IsSome (at self.now.sockets s.0) }
        ensures { IsTrue result ↔ (accept self.now s.0 ≡ Waiting) }
    {
        waits(self.accept_ruling(s))
    }

    /// Whether a receive of at most so many bytes would wait. Takes no memory.
    pub fn receive_waits(&self, s: SockNo, max: u32) -> bool
        requires { IsSome (at self.now.sockets s.0) }
        ensures { IsTrue result ↔ (receive self.now s.0 max ≡ Waiting) }
    {
        waits(self.receive_ruling(s, max))
    }

    /// Whether a send of so many bytes would wait, to another socket where an address is named. Takes
    /// no memory.
    pub fn send_waits(&self, s: SockNo, len: u64, to: Option<SockNo>, may_wait: bool) -> bool
        requires live { IsSome (at self.now.sockets s.0) }
        requires there { IsThere self.now.sockets to }
        ensures { (bytes : List ℕ) → length bytes ≡ len → (IsTrue result
            ↔ (send self.now s.0 bytes (number_of to) may_wait ≡ Waiting)) }
    {
        waits(self.send_ruling(s, to, may_wait, len))
    }
}
