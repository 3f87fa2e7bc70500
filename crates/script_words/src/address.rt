ghost use Rattle.std.specs.Prelude.{◌≡◌, ◌<◌, ◌^◌, ◌++◌, IfOk, IfSome, MatchOption, None, OnOk, Some, map};
ghost use Rattle.script_words.specs.Addresses.{address_of, address_text, byte_of, host_of, inet_bytes, inet_text, local_bytes, local_text, port_of};

use crate::number::{number_of, numeral};
use crate::spelling::{put_number, put_quoted};
use crate::splitting::pieces;
use crate::text::text_of;
use sp_base::{NoMemory, Octets};
use std::alloc::Global;

/// One of the four numbers of a host.
#[tactic(auto, unfolding(crate::specs::Addresses::byte_of))]
fn byte_of(word: &[u8]) -> Option<u8>
    ensures { result ≡ byte_of word.now }
{
    match numeral(10, word) {
        Some(n) if n < 256 => Some(n as u8),
        _ => None,
    }
}

/// The number of a port.
#[tactic(auto, unfolding(crate::specs::Addresses::port_of))]
fn port_of(word: &[u8]) -> Option<u16>
    ensures { result ≡ port_of word.now }
{
    match number_of(word) {
        Some(n) if n < 65_536 => Some(n as u16),
        _ => None,
    }
}

/// The four bytes of a host, as four decimal numbers joined by dots.
fn host_of(alloc: Global, word: &[u8]) -> Result<Option<[u8; 4]>, NoMemory>
    ensures { IfOk result (λ found. found ≡ host_of word.now) }
{
    let parts = pieces(alloc, word, b'.')?;
    let [a, b, c, d] = parts.as_slice() else {
        return Ok(None);
    };
    match (byte_of(a), byte_of(b), byte_of(c), byte_of(d)) {
        (Some(a), Some(b), Some(c), Some(d)) => Ok(Some([a, b, c, d])),
        _ => Ok(None),
    }
}

/// The bytes of an address in the file system.
fn local_bytes(alloc: Global, path: &[u8]) -> Result<Octets, NoMemory>
    ensures { IfOk result (λ bytes. bytes ≡ local_bytes path.now) }
{
    let mut bytes = Octets::none(alloc);
    bytes.push(1)?;
    bytes.extend(path)?;
    Ok(bytes)
}

/// The bytes of an address by host and port.
#[tactic(auto, unfolding(crate::specs::Addresses::inet_bytes))]
fn inet_bytes(alloc: Global, host: [u8; 4], port: u16) -> Result<Octets, NoMemory>
    ensures { IfOk result (λ bytes. bytes ≡ inet_bytes host port) }
{
    let mut bytes = Octets::none(alloc);
    bytes.push(2)?;
    bytes.extend(&host)?;
    bytes.extend(&port.to_le_bytes())?;
    Ok(bytes)
}

/// The bytes of the address that words spell: `local TEXT` with at most 103 bytes, or
/// `inet A.B.C.D PORT`. The only error is want of memory.
pub fn address_of(alloc: Global, words: &[&[u8]]) -> Result<Option<Octets>, NoMemory>
    ensures { IfOk result (λ found. found ≡ address_of (map (λ w. w.now) words.now)) }
{
    match words {
        [kind, text] => {
            if *kind != b"local".as_slice() {
                return Ok(None);
            }
            let Some(path) = text_of(alloc, text)? else {
                return Ok(None);
            };
            if path.len() > 103 {
                return Ok(None);
            }
            let bytes = local_bytes(alloc, path.slice())?;
            Ok(Some(bytes))
        }
        [kind, host, port] => {
            if *kind != b"inet".as_slice() {
                return Ok(None);
            }
            let Some(host) = host_of(alloc, host)? else {
                return Ok(None);
            };
            let Some(port) = port_of(port) else {
                return Ok(None);
            };
            let bytes = inet_bytes(alloc, host, port)?;
            Ok(Some(bytes))
        }
        _ => Ok(None),
    }
}

/// The text of an address in the file system.
#[tactic(auto, unfolding(crate::specs::Addresses::local_text))]
fn local_text(alloc: Global, path: &[u8]) -> Result<Octets, NoMemory>
    ensures { IfOk result (λ text. text ≡ local_text path.now) }
{
    let mut out = Octets::none(alloc);
    out.extend(b"local ")?;
    put_quoted(&mut out, path)?;
    Ok(out)
}

/// The text of an address by host and port.
#[tactic(auto, unfolding(crate::specs::Addresses::inet_text))]
fn inet_text(alloc: Global, host: [u8; 4], port: [u8; 2]) -> Result<Octets, NoMemory>
    ensures { IfOk result (λ text. text ≡ inet_text host port) }
{
    let [a, b, c, d] = host;
    let mut out = Octets::none(alloc);
    out.extend(b"inet ")?;
    put_number(&mut out, u64::from(a))?;
    out.push(b'.')?;
    put_number(&mut out, u64::from(b))?;
    out.push(b'.')?;
    put_number(&mut out, u64::from(c))?;
    out.push(b'.')?;
    put_number(&mut out, u64::from(d))?;
    out.push(b' ')?;
    put_number(&mut out, u64::from(u16::from_le_bytes(port)))?;
    Ok(out)
}

/// The text of an address's bytes; none where they are no address. The only error is want of memory.
pub fn address_text(alloc: Global, bytes: &[u8]) -> Result<Option<Octets>, NoMemory>
    ensures { IfOk result (λ found. found ≡ address_text bytes.now) }
{
    match bytes {
        [1, path @ ..] => {
            if path.len() > 103 {
                return Ok(None);
            }
            let text = local_text(alloc, path)?;
            Ok(Some(text))
        }
        [2, a, b, c, d, low, high] => {
            let text = inet_text(alloc, [*a, *b, *c, *d], [*low, *high])?;
            Ok(Some(text))
        }
        _ => Ok(None),
    }
}
