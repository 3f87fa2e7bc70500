ghost use Rattle.std.specs.Prelude.{◌≡◌, List, Option, length, if◌then◌else◌, IfOk, IsSome};
ghost use Rattle.sp_base.specs.Table.{at};
ghost use Rattle.socket_model.specs.declared.address.SockKind.TheVariants as kind;
ghost use Rattle.sp_base.specs.declared.errno.Errno.TheVariants.{Eprototype};
ghost use Rattle.socket_model.specs.declared.ruling.Ruling.TheVariants.{Refused};
ghost use Rattle.socket_model.specs.Rulings.{by_refusal};
ghost use Rattle.socket_model.specs.Socket.{Socket};
ghost use Rattle.socket_model.specs.SocketRulings.{stream_refusal, letter_refusal, stream_ruling, letter_through, is_to_stream, letter_channel};
ghost use Rattle.socket_model.specs.Does.{by_ruling, Tells};
ghost use Rattle.socket_model.specs.Calls.{send, sent_bytes, sent_letter};
ghost use Rattle.socket_model.specs.Sound.{WritesTo, LinkedAt, ends_at};
ghost use Rattle.kern_local.specs.SocketNumbers.{number_of, IsThere};
ghost use Rattle.kern_local.specs.Keeps.{Keeps};

use crate::chans::Chans;
use crate::ledger::Ledger;
use crate::sock::Sock;
use crate::sock_rulings::{send_letter_ruling, send_stream_ruling};
use crate::socks::Socks;
use socket_model::{ChanNo, Letter, Ruling, SockFault, SockKind, SockNo};
use sp_base::{NoMemory, Octets};
use std::alloc::Global;

impl Socks {
    /// Sends bytes, to another socket where an address is named. `may_wait` says that the call may
    /// wait until all bytes fit, at most 16,384; else what fits goes. Answers how many bytes went.
    pub fn send(
        &mut self,
        alloc: Global,
        s: SockNo,
        bytes: &[u8],
        to: Option<SockNo>,
        may_wait: bool,
    ) -> Result<u32, SockFault>
        requires live { IsSome (at self.old.sockets s.0) }
        requires there { IsThere self.old.sockets to }
        ensures { Tells result (send self.old s.0 bytes.now (number_of to) may_wait)
            self.old self.new }
    {
        send_in(alloc, &self.socks, &mut self.chans, s, bytes, to, may_wait)
    }
}

/// Sends bytes among sockets.
fn send_in(
    alloc: Global,
    socks: &Ledger<Sock>,
    chans: &mut Chans,
    s: SockNo,
    bytes: &[u8],
    to: Option<SockNo>,
    may_wait: bool,
) -> Result<u32, SockFault>
    requires live { IsSome (at socks.now.items s.0) }
    requires there { IsThere socks.now.items to }
    requires linked { LinkedAt chans.old (ends_at socks.now.items s.0) }
    ensures tells { Tells result
        (send (record { sockets = socks.now.items; channels = chans.old }) s.0 bytes.now
        (number_of to) may_wait)
        (record { sockets = socks.now.items; channels = chans.old })
        (record { sockets = socks.now.items; channels = chans.new }) }
    ensures keeps { Keeps chans.old chans.new }
{
    let Some(sock) = socks.get(s.0) else {
        unreachable!();
    };
    match sock.kind {
        SockKind::Stream => send_bytes(sock, chans, bytes, to.is_some(), may_wait),
        SockKind::Datagram => {
            let (to_stream, channel) = target(socks, sock, to);
            send_letter(alloc, sock, chans, bytes, to.is_some(), to_stream, channel)
        }
    }
}

/// Whether the target that is named is a stream, and the channel that a letter goes to.
pub(crate) fn target(socks: &Ledger<Sock>, sock: &Sock, to: Option<SockNo>) -> (bool, Option<u64>)
    requires { IsThere socks.now.items to }
    ensures stream { result.0 ≡ is_to_stream socks.now.items (number_of to) }
    ensures channel { result.1 ≡ letter_channel socks.now.items sock.now (number_of to) }
{
    let Some(to) = to else {
        return (false, sock.writes);
    };
    match socks.get(to.0) {
        Some(there) => (there.kind == SockKind::Stream, there.reads),
        None => unreachable!(),
    }
}

/// Sends bytes through a stream.
#[tactic(auto, using(crate::proofs::SoundLemmas::keeps, crate::proofs::SoundLemmas::write_is_bytes))]
fn send_bytes(
    sock: &Sock,
    chans: &mut Chans,
    bytes: &[u8],
    named: bool,
    may_wait: bool,
) -> Result<u32, SockFault>
    requires { WritesTo chans.old kind.Stream sock.now.writes }
    ensures tells { (sockets : List (Option Socket)) → Tells result
        (by_ruling (by_refusal (stream_refusal sock.now named)
        (stream_ruling chans.old sock.now.writes may_wait (length bytes.now)))
        (sent_bytes (record { sockets = sockets; channels = chans.old }) sock.now.writes bytes.now))
        (record { sockets = sockets; channels = chans.old })
        (record { sockets = sockets; channels = chans.new }) }
    ensures keeps { Keeps chans.old chans.new }
{
    match send_stream_ruling(sock, chans, named, may_wait, bytes.len() as u64) {
        Ruling::Refused(e) => Err(SockFault::Errno(e)),
        Ruling::Waits => Err(SockFault::NotReady),
        Ruling::Goes(n) => {
            if let Some(c) = sock.writes {
                chans.put(ChanNo(c), bytes);
            }
            Ok(n)
        }
    }
}

/// A copy of the bytes, with the sender's address. The only error is want of memory.
fn letter(alloc: Global, sock: &Sock, bytes: &[u8]) -> Result<Letter, NoMemory>
    ensures { IfOk result (λ letter.
        letter ≡ record { sender = sock.now.address; bytes = bytes.now }) }
{
    Ok(Letter {
        sender: sock.address.copy(alloc)?,
        bytes: Octets::of(alloc, bytes)?,
    })
}

/// Sends a letter to a channel.
#[tactic(auto, using(crate::proofs::SoundLemmas::keeps))]
fn send_letter(
    alloc: Global,
    sock: &Sock,
    chans: &mut Chans,
    bytes: &[u8],
    named: bool,
    to_stream: bool,
    channel: Option<u64>,
) -> Result<u32, SockFault>
    ensures tells { (sockets : List (Option Socket)) → Tells result
        (by_ruling (by_refusal (letter_refusal sock.now named (length bytes.now))
        (if to_stream then Refused Eprototype
        else letter_through chans.old channel (length bytes.now)))
        (sent_letter (record { sockets = sockets; channels = chans.old }) channel
        (record { sender = sock.now.address; bytes = bytes.now })))
        (record { sockets = sockets; channels = chans.old })
        (record { sockets = sockets; channels = chans.new }) }
    ensures keeps { Keeps chans.old chans.new }
{
    match send_letter_ruling(sock, chans, named, to_stream, channel, bytes.len() as u64) {
        Ruling::Refused(e) => Err(SockFault::Errno(e)),
        Ruling::Waits => Err(SockFault::NotReady),
        Ruling::Goes(n) => {
            let Some(c) = channel else {
                unreachable!();
            };
            let Ok(letter) = letter(alloc, sock, bytes) else {
                return Err(SockFault::NoMemory);
            };
            match chans.post(ChanNo(c), letter) {
                None => Ok(n),
                Some(_) => unreachable!(),
            }
        }
    }
}
