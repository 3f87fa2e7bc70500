//! The forms that calls have in scripts.
ghost use Rattle.std.specs.Prelude.{◌≡◌, [], ◌∷◌, IfOk};
ghost use Rattle.guest_journal.specs.Forms.{address_form, asking_form, fcntl_form, has_argument, lseek_form, open_form, path_form, paths_form, poll_form, pread_form, pwrite_form, sendto_form, shutdown_form, socket_form, words_form, write_form};

use crate::flags::flags_text;
use crate::gathered::{asked_entries, bytes_word, own_address, path_word, target_address};
use crate::name::{command_name, family_name, how_name, kind_name, whence_name};
use crate::word::{number_word, numbers_form, signed_word, words_form};
use kern_model::Ins;
use script_words::joined;
use sp_base::{ADDRESS, NoMemory, Octets};
use std::alloc::Global;

/// A call's text, where it has the form of a script's line.
pub type Form = Result<Option<Octets>, NoMemory>;

/// A name and a path.
pub fn path_form(alloc: Global, name: &[u8], ins: &Ins) -> Form
    ensures { IfOk result (λ text. text ≡ path_form name.now ins.now) }
{
    let Some(path) = path_word(alloc, ins, 0)? else {
        return Ok(None);
    };
    words_form(alloc, &[name, path.slice()])
}

/// A name and two paths.
pub fn paths_form(alloc: Global, name: &[u8], ins: &Ins) -> Form
    ensures { IfOk result (λ text. text ≡ paths_form name.now ins.now) }
{
    let Some(path) = path_word(alloc, ins, 0)? else {
        return Ok(None);
    };
    let Some(other) = path_word(alloc, ins, 1)? else {
        return Ok(None);
    };
    words_form(alloc, &[name, path.slice(), other.slice()])
}

/// `open TEXT FLAGS`.
pub fn open_form(alloc: Global, flags: u64, ins: &Ins) -> Form
    ensures { IfOk result (λ text. text ≡ open_form flags ins.now) }
{
    let Some(path) = path_word(alloc, ins, 0)? else {
        return Ok(None);
    };
    let Some(names) = flags_text(alloc, flags)? else {
        return Ok(None);
    };
    words_form(alloc, &[b"open".as_slice(), path.slice(), names.slice()])
}

/// `write FD TEXT`.
pub fn write_form(alloc: Global, fd: u64, len: u64, ins: &Ins) -> Form
    ensures { IfOk result (λ text. text ≡ write_form fd len ins.now) }
{
    let Some(bytes) = bytes_word(alloc, ins, len)? else {
        return Ok(None);
    };
    let fd = number_word(alloc, fd)?;
    words_form(alloc, &[b"write".as_slice(), fd.slice(), bytes.slice()])
}

/// `pread FD LEN OFF`.
pub fn pread_form(alloc: Global, fd: u64, len: u64, offset: u64) -> Form
    ensures { IfOk result (λ text. text ≡ pread_form fd len offset) }
{
    let fd = number_word(alloc, fd)?;
    let len = number_word(alloc, len)?;
    let offset = signed_word(alloc, offset)?;
    words_form(
        alloc,
        &[b"pread".as_slice(), fd.slice(), len.slice(), offset.slice()],
    )
}

/// `pwrite FD TEXT OFF`.
pub fn pwrite_form(alloc: Global, fd: u64, len: u64, offset: u64, ins: &Ins) -> Form
    ensures { IfOk result (λ text. text ≡ pwrite_form fd len offset ins.now) }
{
    let Some(bytes) = bytes_word(alloc, ins, len)? else {
        return Ok(None);
    };
    let fd = number_word(alloc, fd)?;
    let offset = signed_word(alloc, offset)?;
    words_form(
        alloc,
        &[
            b"pwrite".as_slice(),
            fd.slice(),
            bytes.slice(),
            offset.slice(),
        ],
    )
}

/// `lseek FD OFF set|cur|end`.
pub fn lseek_form(alloc: Global, fd: u64, offset: u64, whence: u64) -> Form
    ensures { IfOk result (λ text. text ≡ lseek_form fd offset whence) }
{
    let Some(name) = whence_name(whence) else {
        return Ok(None);
    };
    let fd = number_word(alloc, fd)?;
    let offset = signed_word(alloc, offset)?;
    words_form(
        alloc,
        &[b"lseek".as_slice(), fd.slice(), offset.slice(), name],
    )
}

/// Whether a command that has no use for its argument has one.
#[tactic(auto, unfolding(crate::specs::Forms::has_argument))]
fn has_argument(command: u64, argument: u64) -> bool
    ensures { result ≡ has_argument command argument }
{
    (command == 1 || command == 3) && argument > 0
}

/// `fcntl FD COMMAND ARG`.
pub fn fcntl_form(alloc: Global, fd: u64, command: u64, argument: u64) -> Form
    ensures { IfOk result (λ text. text ≡ fcntl_form fd command argument) }
{
    if has_argument(command, argument) {
        return Ok(None);
    }
    let Some(name) = command_name(command) else {
        return Ok(None);
    };
    let fd = number_word(alloc, fd)?;
    let argument = number_word(alloc, argument)?;
    words_form(
        alloc,
        &[b"fcntl".as_slice(), fd.slice(), name, argument.slice()],
    )
}

/// Three words.
fn three_words<'a>(alloc: Global, first: &'a [u8], second: &'a [u8], third: &'a [u8]) -> Form
    ensures { IfOk result (λ text. text ≡ words_form (first.now ∷ second.now ∷ third.now ∷ [])) }
{
    words_form(alloc, &[first, second, third])
}

/// A name, a family and a kind of sockets.
pub fn socket_form(alloc: Global, name: &[u8], family: u64, kind: u64) -> Form
    ensures { IfOk result (λ text. text ≡ socket_form name.now family kind) }
{
    let Some(family) = family_name(family) else {
        return Ok(None);
    };
    let Some(kind) = kind_name(kind) else {
        return Ok(None);
    };
    three_words(alloc, name, family, kind)
}

/// A name, a descriptor and an address of so many bytes.
pub fn address_form(alloc: Global, name: &[u8], fd: u64, len: u64, ins: &Ins) -> Form
    ensures { IfOk result (λ text. text ≡ address_form name.now fd len ins.now) }
{
    let Some(address) = own_address(alloc, ins, len)? else {
        return Ok(None);
    };
    let fd = number_word(alloc, fd)?;
    words_form(alloc, &[name, fd.slice(), address.slice()])
}

/// `sendto FD TEXT [ADDR]`.
pub fn sendto_form(alloc: Global, fd: u64, len: u64, address_len: u64, ins: &Ins) -> Form
    ensures { IfOk result (λ text. text ≡ sendto_form fd len address_len ins.now) }
{
    let Some(bytes) = bytes_word(alloc, ins, len)? else {
        return Ok(None);
    };
    let Some(address) = target_address(alloc, ins, len, address_len)? else {
        return Ok(None);
    };
    let fd = number_word(alloc, fd)?;
    let mut text = joined(alloc, &[b"sendto".as_slice(), fd.slice(), bytes.slice()])?;
    text.extend(address.slice())?;
    Ok(Some(text))
}

/// A name and numbers of a call that asks for `most` bytes of an address.
pub fn asking_form(alloc: Global, name: &[u8], numbers: &[u64], most: u64) -> Form
    ensures { IfOk result (λ text. text ≡ asking_form name.now numbers.now most) }
{
    if most == ADDRESS {
        numbers_form(alloc, name, numbers)
    } else {
        Ok(None)
    }
}

/// `shutdown FD read|write|both`.
pub fn shutdown_form(alloc: Global, fd: u64, how: u64) -> Form
    ensures { IfOk result (λ text. text ≡ shutdown_form fd how) }
{
    let Some(name) = how_name(how) else {
        return Ok(None);
    };
    let fd = number_word(alloc, fd)?;
    words_form(alloc, &[b"shutdown".as_slice(), fd.slice(), name])
}

/// `poll TIMEOUT FD:EVENTS ..`.
pub fn poll_form(alloc: Global, count: u64, timeout: u64, ins: &Ins) -> Form
    ensures { IfOk result (λ text. text ≡ poll_form count timeout ins.now) }
{
    let Some(entries) = asked_entries(alloc, ins, count)? else {
        return Ok(None);
    };
    let timeout = signed_word(alloc, timeout)?;
    let mut text = joined(alloc, &[b"poll".as_slice(), timeout.slice()])?;
    text.extend(entries.slice())?;
    Ok(Some(text))
}
