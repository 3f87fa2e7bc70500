ghost use Rattle.std.specs.Prelude.{◌≡◌, List, Option, take, IsSome};
ghost use Rattle.sp_base.specs.Table.{at};
ghost use Rattle.socket_model.specs.declared.address.SockKind.TheVariants as kind;
ghost use Rattle.socket_model.specs.Socket.{Socket};
ghost use Rattle.socket_model.specs.Does.{Tells};
ghost use Rattle.socket_model.specs.Calls.{receive, received_bytes, received_letter};
ghost use Rattle.socket_model.specs.Sound.{ReadsFrom, LinkedAt, ends_at};
ghost use Rattle.kern_local.specs.Keeps.{Keeps};

use crate::chans::Chans;
use crate::ledger::Ledger;
use crate::sock::Sock;
use crate::sock_rulings::receive_ruling;
use crate::socks::Socks;
use socket_model::{Address, ChanNo, Letter, Ruling, SockFault, SockKind, SockNo};
use sp_base::Octets;
use std::alloc::Global;

impl Socks {
    /// Receives at most so many bytes: the oldest ones of a stream, without a sender, or the oldest
    /// letter, whose other bytes are lost.
    pub fn receive(&mut self, alloc: Global, s: SockNo, max: u32) -> Result<Letter, SockFault>
        requires { IsSome (at self.old.sockets s.0) }
        ensures { Tells result (receive self.old s.0 max) self.old self.new }
    {
        receive_in(alloc, &self.socks, &mut self.chans, s, max)
    }
}

/// Receives among sockets.
fn receive_in(
    alloc: Global,
    socks: &Ledger<Sock>,
    chans: &mut Chans,
    s: SockNo,
    max: u32,
) -> Result<Letter, SockFault>
    requires live { IsSome (at socks.now.items s.0) }
    requires linked { LinkedAt chans.old (ends_at socks.now.items s.0) }
    ensures tells { Tells result
        (receive (record { sockets = socks.now.items; channels = chans.old }) s.0 max)
        (record { sockets = socks.now.items; channels = chans.old })
        (record { sockets = socks.now.items; channels = chans.new }) }
    ensures keeps { Keeps chans.old chans.new }
{
    let Some(sock) = socks.get(s.0) else {
        unreachable!();
    };
    let n = match receive_ruling(sock, chans, max) {
        Ruling::Refused(e) => return Err(SockFault::Errno(e)),
        Ruling::Waits => return Err(SockFault::NotReady),
        Ruling::Goes(n) => n,
    };
    match sock.kind {
        SockKind::Stream => receive_bytes(alloc, chans, sock.reads, n),
        SockKind::Datagram => receive_letter(alloc, chans, sock.reads, max),
    }
}

/// Takes bytes of a stream.
#[tactic(auto, using(crate::proofs::SoundLemmas::keeps, crate::proofs::SoundLemmas::read_is_bytes))]
fn receive_bytes(
    alloc: Global,
    chans: &mut Chans,
    reads: Option<u64>,
    n: u32,
) -> Result<Letter, SockFault>
    requires { ReadsFrom chans.old kind.Stream reads }
    ensures tells { (sockets : List (Option Socket)) → Tells result
        (received_bytes (record { sockets = sockets; channels = chans.old }) reads n)
        (record { sockets = sockets; channels = chans.old })
        (record { sockets = sockets; channels = chans.new }) }
    ensures keeps { Keeps chans.old chans.new }
{
    let bytes = match reads {
        None => Octets::none(alloc),
        Some(c) => match chans.take(alloc, ChanNo(c), n) {
            Ok(bytes) => bytes,
            Err(_) => return Err(SockFault::NoMemory),
        },
    };
    Ok(Letter {
        sender: Address::Unnamed,
        bytes,
    })
}

/// Takes a letter.
#[tactic(auto, using(crate::proofs::SoundLemmas::keeps))]
fn receive_letter(
    alloc: Global,
    chans: &mut Chans,
    reads: Option<u64>,
    max: u32,
) -> Result<Letter, SockFault>
    requires { ReadsFrom chans.old kind.Datagram reads }
    ensures tells { (sockets : List (Option Socket)) → Tells result
        (received_letter (record { sockets = sockets; channels = chans.old }) reads max)
        (record { sockets = sockets; channels = chans.old })
        (record { sockets = sockets; channels = chans.new }) }
    ensures keeps { Keeps chans.old chans.new }
{
    let Some(c) = reads else {
        return Ok(Letter {
            sender: Address::Unnamed,
            bytes: Octets::none(alloc),
        });
    };
    match chans.fetch(ChanNo(c)) {
        None => Err(SockFault::NotReady),
        Some(letter) => Ok(cut(letter, max)),
    }
}

/// A letter with its first bytes, at most so many.
fn cut(letter: Letter, max: u32) -> Letter
    ensures { result ≡ record letter { bytes = take max letter.bytes } }
{
    let mut bytes = letter.bytes.into_vec();
    bytes.truncate(max as usize);
    Letter {
        sender: letter.sender,
        bytes: Octets::from_vec(bytes),
    }
}
