//! What a call on a socket comes to.

ghost use Rattle.std.specs.Prelude.{◌≡◌, ℕ, ◌<◌, ◌≤◌, length, min, if◌then◌else◌, None};
ghost use Rattle.sp_base.specs.Table.{at};
ghost use Rattle.socket_model.specs.declared.limits.TheConstants.{LETTERS as MOST_LETTERS, LETTER_BYTES as MOST_BYTES};
ghost use Rattle.sp_base.specs.declared.errno.Errno.TheVariants.{Eprototype};
ghost use Rattle.socket_model.specs.declared.address.SockKind.TheVariants as kind;
ghost use Rattle.socket_model.specs.declared.ruling.Ruling.TheVariants.{Refused};
ghost use Rattle.socket_model.specs.Channel.{IsLetters, held, letters_in, room, bytes_in};
ghost use Rattle.socket_model.specs.Rulings.{IfGoes, by_refusal, post_ruling, fetch_ruling};
ghost use Rattle.socket_model.specs.SocketRulings.{stream_refusal, letter_refusal, send_refusal, stream_ruling, stream_room, letter_into, letter_through, bytes_ruling, letters_ruling, stream_receive_ruling, receive_ruling, listen_ruling, accept_ruling, connect_refusal, backlog_ruling, target_ruling, connect_ruling, shutdown_ruling, is_readable, is_writable, has_letter, stream_ready, socket_ready};
ghost use Rattle.socket_model.specs.Sound.{ReadsFrom, WritesTo};
ghost use Rattle.kern_local.specs.Queues.{IsQueueable, HasPlace};

use crate::chans::Chans;
use crate::rulings::{least_of_stream, put_ruling, take_ruling};
use crate::sock::Sock;
use socket_model::{Address, ChanNo, LETTER_BYTES, LETTERS, Ready, Ruling, SockKind};
use sp_base::Errno;

/// Why a stream doesn't send, whatever its channel.
#[tactic(auto, unfolding(socket_model::specs::SocketRulings::stream_refusal))]
fn stream_refusal(sock: &Sock, named: bool) -> Option<Errno>
    ensures { result ≡ stream_refusal sock.now named }
{
    if named && sock.peer.is_some() {
        return Some(Errno::Eisconn);
    }
    if sock.peer.is_none() {
        return Some(Errno::Enotconn);
    }
    None
}

/// Why a letter isn't sent, whatever its target.
#[tactic(auto, unfolding(socket_model::specs::SocketRulings::letter_refusal))]
fn letter_refusal(sock: &Sock, named: bool, len: u64) -> Option<Errno>
    ensures refusal { result ≡ letter_refusal sock.now named len }
    ensures small { result ≡ None → len ≤ MOST_BYTES }
{
    if named && sock.peer.is_some() {
        return Some(Errno::Eisconn);
    }
    if !named && sock.peer.is_none() {
        return Some(Errno::Edestaddrreq);
    }
    if len > LETTER_BYTES {
        return Some(Errno::Emsgsize);
    }
    None
}

/// Why a socket doesn't send so many bytes, whatever the target.
pub(crate) fn send_refusal(sock: &Sock, named: bool, len: u64) -> Option<Errno>
    ensures { result ≡ send_refusal sock.now named len }
{
    match sock.kind {
        SockKind::Stream => stream_refusal(sock, named),
        SockKind::Datagram => letter_refusal(sock, named, len),
    }
}

/// What it comes to that so many bytes are to go through a connected stream.
#[tactic(auto, using(crate::proofs::ChannelLemmas::channel_rules))]
fn stream_ruling(chans: &Chans, writes: Option<u64>, may_wait: bool, len: u64) -> Ruling
    requires { WritesTo chans.now kind.Stream writes }
    ensures rules { result ≡ stream_ruling chans.now writes may_wait len }
    ensures fits { IfGoes result (λ n. n ≡ min len (stream_room chans.now writes)) }
{
    match writes {
        None => Ruling::Refused(Errno::Epipe),
        Some(c) => {
            let (unread, _) = chans.shut_ends(ChanNo(c));
            let free = chans.fits(ChanNo(c));
            put_ruling(unread, free, least_of_stream(may_wait, len), len)
        }
    }
}

/// What a send of so many bytes through a stream comes to.
pub(crate) fn send_stream_ruling(
    sock: &Sock,
    chans: &Chans,
    named: bool,
    may_wait: bool,
    len: u64,
) -> Ruling
    requires { WritesTo chans.now kind.Stream sock.now.writes }
    ensures rules { result ≡ by_refusal (stream_refusal sock.now named)
        (stream_ruling chans.now sock.now.writes may_wait len) }
    ensures fits { IfGoes result (λ n. n ≡ min len (stream_room chans.now sock.now.writes)) }
{
    match stream_refusal(sock, named) {
        Some(e) => Ruling::Refused(e),
        None => stream_ruling(chans, sock.writes, may_wait, len),
    }
}

/// What it comes to that a letter of so many bytes is to go to a channel.
#[tactic(auto, using(crate::proofs::ChannelLemmas::channel_rules), unfolding(socket_model::specs::Rulings::post_ruling))]
fn letter_through(chans: &Chans, channel: Option<u64>, len: u64) -> Ruling
    requires { len ≤ MOST_BYTES }
    ensures rules { result ≡ letter_through chans.now channel len }
    ensures place { IfGoes result (λ n. (n ≡ len) × HasPlace chans.now channel) }
{
    let Some(c) = channel else {
        return Ruling::Refused(Errno::Econnrefused);
    };
    if !chans.holds_letters(ChanNo(c)) {
        return Ruling::Refused(Errno::Econnrefused);
    }
    if u64::from(chans.held(ChanNo(c))) >= LETTERS {
        return Ruling::Waits;
    }
    Ruling::Goes(len as u32)
}

/// What a send of a letter of so many bytes comes to. `to_stream` says that an address was named and
/// is a stream's.
pub(crate) fn send_letter_ruling(
    sock: &Sock,
    chans: &Chans,
    named: bool,
    to_stream: bool,
    channel: Option<u64>,
    len: u64,
) -> Ruling
    ensures rules { result ≡ by_refusal (letter_refusal sock.now named len)
        (if to_stream then Refused Eprototype else letter_through chans.now channel len) }
    ensures place { IfGoes result (λ n. (n ≡ len) × HasPlace chans.now channel) }
{
    match letter_refusal(sock, named, len) {
        Some(e) => Ruling::Refused(e),
        None => {
            if to_stream {
                return Ruling::Refused(Errno::Eprototype);
            }
            letter_through(chans, channel, len)
        }
    }
}

/// What a receive of at most so many bytes from a stream comes to.
#[tactic(auto, using(crate::proofs::ChannelLemmas::channel_rules), unfolding(socket_model::specs::SocketRulings::stream_receive_ruling))]
fn stream_receive_ruling(sock: &Sock, chans: &Chans, max: u32) -> Ruling
    requires { ReadsFrom chans.now kind.Stream sock.now.reads }
    ensures { result ≡ stream_receive_ruling chans.now sock.now max }
{
    if sock.peer.is_none() {
        return Ruling::Refused(Errno::Enotconn);
    }
    match sock.reads {
        None => Ruling::Goes(0),
        Some(c) => {
            let (_, unwritten) = chans.shut_ends(ChanNo(c));
            take_ruling(chans.held(ChanNo(c)), unwritten, max)
        }
    }
}

/// What a receive of a letter comes to.
#[tactic(auto, using(crate::proofs::ChannelLemmas::channel_rules), unfolding(socket_model::specs::Rulings::fetch_ruling))]
fn letters_ruling(chans: &Chans, reads: Option<u64>) -> Ruling
    requires { ReadsFrom chans.now kind.Datagram reads }
    ensures { result ≡ letters_ruling chans.now reads }
{
    match reads {
        None => Ruling::Goes(0),
        Some(c) => {
            if chans.held(ChanNo(c)) == 0 {
                Ruling::Waits
            } else {
                Ruling::Goes(0)
            }
        }
    }
}

/// What a receive comes to.
pub(crate) fn receive_ruling(sock: &Sock, chans: &Chans, max: u32) -> Ruling
    requires { ReadsFrom chans.now sock.now.kind sock.now.reads }
    ensures { result ≡ receive_ruling chans.now sock.now max }
{
    match sock.kind {
        SockKind::Stream => stream_receive_ruling(sock, chans, max),
        SockKind::Datagram => letters_ruling(chans, sock.reads),
    }
}

/// What a listen comes to.
#[tactic(auto, unfolding(socket_model::specs::SocketRulings::listen_ruling))]
pub(crate) fn listen_ruling(sock: &Sock) -> Ruling
    ensures { result ≡ listen_ruling sock.now }
{
    if sock.kind != SockKind::Stream {
        return Ruling::Refused(Errno::Eopnotsupp);
    }
    match sock.address {
        Address::Unnamed => Ruling::Refused(Errno::Edestaddrreq),
        _ => {
            if sock.peer.is_some() {
                return Ruling::Refused(Errno::Einval);
            }
            Ruling::Goes(0)
        }
    }
}

/// What an accept comes to.
#[tactic(auto, unfolding(socket_model::specs::SocketRulings::accept_ruling))]
pub(crate) fn accept_ruling(sock: &Sock) -> Ruling
    ensures { result ≡ accept_ruling sock.now }
{
    if sock.kind != SockKind::Stream {
        return Ruling::Refused(Errno::Eopnotsupp);
    }
    if sock.backlog.is_none() {
        return Ruling::Refused(Errno::Einval);
    }
    if sock.queue.len() == 0 {
        Ruling::Waits
    } else {
        Ruling::Goes(0)
    }
}

/// Why a socket isn't connected, whatever the target.
#[tactic(auto, unfolding(socket_model::specs::SocketRulings::connect_refusal))]
pub(crate) fn connect_refusal(sock: &Sock) -> Option<Errno>
    ensures refusal { result ≡ connect_refusal sock.now }
    ensures idle { result ≡ None → sock.now.backlog ≡ None }
{
    if sock.backlog.is_some() {
        return Some(Errno::Eopnotsupp);
    }
    if sock.kind == SockKind::Stream && sock.peer.is_some() {
        return Some(Errno::Eisconn);
    }
    None
}

/// What it comes to that a stream is to be connected to a target.
#[tactic(auto, unfolding(socket_model::specs::SocketRulings::target_ruling))]
fn listener_ruling(to: &Sock) -> Ruling
    ensures rules { result ≡ target_ruling kind.Stream to.now }
    ensures room { IfGoes result (λ _. IsQueueable to.now.backlog (length to.now.queue)) }
{
    if to.kind != SockKind::Stream {
        return Ruling::Refused(Errno::Eprototype);
    }
    match to.backlog {
        None => Ruling::Refused(Errno::Econnrefused),
        Some(most) => {
            if most <= to.queue.len() as u64 {
                return Ruling::Refused(Errno::Econnrefused);
            }
            Ruling::Goes(0)
        }
    }
}

/// What a connect of a stream comes to.
pub(crate) fn connect_stream_ruling(sock: &Sock, to: &Sock) -> Ruling
    ensures rules { result ≡ by_refusal (connect_refusal sock.now)
        (target_ruling kind.Stream to.now) }
    ensures room { IfGoes result (λ _. IsQueueable to.now.backlog (length to.now.queue)) }
    ensures idle { IfGoes result (λ _. sock.now.backlog ≡ None) }
{
    match connect_refusal(sock) {
        Some(e) => Ruling::Refused(e),
        None => listener_ruling(to),
    }
}

/// What a connect of a datagram socket comes to.
#[tactic(auto, unfolding(socket_model::specs::SocketRulings::target_ruling))]
pub(crate) fn connect_letters_ruling(sock: &Sock, to: &Sock) -> Ruling
    ensures { result ≡ by_refusal (connect_refusal sock.now)
        (target_ruling kind.Datagram to.now) }
{
    match connect_refusal(sock) {
        Some(e) => Ruling::Refused(e),
        None => {
            if to.kind == SockKind::Stream {
                return Ruling::Refused(Errno::Eprototype);
            }
            Ruling::Goes(0)
        }
    }
}

/// What a shutdown comes to.
#[tactic(auto, unfolding(socket_model::specs::SocketRulings::shutdown_ruling))]
pub(crate) fn shutdown_ruling(sock: &Sock) -> Ruling
    ensures { result ≡ shutdown_ruling sock.now }
{
    if sock.kind != SockKind::Stream {
        return Ruling::Refused(Errno::Eopnotsupp);
    }
    if sock.peer.is_none() {
        return Ruling::Refused(Errno::Enotconn);
    }
    Ruling::Goes(0)
}

/// Whether there are bytes to read, or reading has ended.
#[tactic(auto, using(crate::proofs::ChannelLemmas::channel_rules))]
fn is_readable(chans: &Chans, reads: Option<u64>) -> bool
    requires { ReadsFrom chans.now kind.Stream reads }
    ensures { result ≡ is_readable chans.now reads }
{
    match reads {
        None => true,
        Some(c) => chans.held(ChanNo(c)) != 0 || chans.shut_ends(ChanNo(c)).1,
    }
}

/// Whether a byte fits, or writing has ended.
#[tactic(auto, using(crate::proofs::ChannelLemmas::channel_rules))]
fn is_writable(chans: &Chans, writes: Option<u64>) -> bool
    requires { WritesTo chans.now kind.Stream writes }
    ensures { result ≡ is_writable chans.now writes }
{
    match writes {
        None => true,
        Some(c) => chans.fits(ChanNo(c)) != 0 || chans.shut_ends(ChanNo(c)).0,
    }
}

/// Whether a letter waits.
#[tactic(auto, using(crate::proofs::ChannelLemmas::channel_rules))]
fn has_letter(chans: &Chans, reads: Option<u64>) -> bool
    requires { ReadsFrom chans.now kind.Datagram reads }
    ensures { result ≡ has_letter chans.now reads }
{
    match reads {
        None => false,
        Some(c) => chans.held(ChanNo(c)) != 0,
    }
}

/// What a poll tells of a stream.
#[tactic(auto, unfolding(socket_model::specs::SocketRulings::stream_ready))]
fn stream_ready(sock: &Sock, chans: &Chans) -> Ready
    requires reads { ReadsFrom chans.now kind.Stream sock.now.reads }
    requires writes { WritesTo chans.now kind.Stream sock.now.writes }
    ensures { result ≡ stream_ready chans.now sock.now }
{
    let mut ready = Ready {
        readable: false,
        writable: false,
        error: false,
        hangup: false,
    };
    if sock.backlog.is_some() {
        ready.readable = sock.queue.len() != 0;
    } else if sock.peer.is_some() {
        ready.readable = is_readable(chans, sock.reads);
        ready.writable = is_writable(chans, sock.writes);
    }
    ready
}

/// What a poll tells of a socket.
pub(crate) fn socket_ready(sock: &Sock, chans: &Chans) -> Ready
    requires reads { ReadsFrom chans.now sock.now.kind sock.now.reads }
    requires writes { WritesTo chans.now sock.now.kind sock.now.writes }
    ensures { result ≡ socket_ready chans.now sock.now }
{
    match sock.kind {
        SockKind::Stream => stream_ready(sock, chans),
        SockKind::Datagram => Ready {
            readable: has_letter(chans, sock.reads),
            writable: true,
            error: false,
            hangup: false,
        },
    }
}
