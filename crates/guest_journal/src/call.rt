//! The calls of a journal, in the form of scripts.
ghost use Rattle.std.specs.Prelude.{◌≡◌, IfOk};
ghost use Rattle.guest_journal.specs.Forms.{call_text, file_form, form_of, named_form, net_form, number_text};

use crate::form::{
    Form, address_form, asking_form, fcntl_form, lseek_form, open_form, path_form, paths_form,
    poll_form, pread_form, pwrite_form, sendto_form, shutdown_form, socket_form, write_form,
};
use crate::word::{numbers_form, put_numbers};
use kern_model::Ins;
use script_words::put_number;
use sp_base::{Call, NoMemory, Octets};
use std::alloc::Global;

/// A call on open files or on processes.
fn file_form(alloc: Global, call: &Call, ins: &Ins) -> Form
    ensures { IfOk result (λ text. text ≡ file_form call.now ins.now) }
{
    match call {
        Call::Getpid => numbers_form(alloc, b"getpid", &[]),
        Call::Close { fd } => numbers_form(alloc, b"close", &[*fd]),
        Call::Read { fd, len, .. } => numbers_form(alloc, b"read", &[*fd, *len]),
        Call::Write { fd, len, .. } => write_form(alloc, *fd, *len, ins),
        Call::Pread {
            fd,
            len,
            offset,
            ..
        } => pread_form(alloc, *fd, *len, *offset),
        Call::Pwrite {
            fd,
            len,
            offset,
            ..
        } => pwrite_form(alloc, *fd, *len, *offset, ins),
        Call::Lseek { fd, offset, whence } => lseek_form(alloc, *fd, *offset, *whence),
        Call::Ftruncate { fd, len } => numbers_form(alloc, b"ftruncate", &[*fd, *len]),
        Call::Fstat { fd, .. } => numbers_form(alloc, b"fstat", &[*fd]),
        Call::Dup { fd } => numbers_form(alloc, b"dup", &[*fd]),
        Call::Dup2 { fd, new_fd } => numbers_form(alloc, b"dup2", &[*fd, *new_fd]),
        Call::Fcntl {
            fd,
            command,
            argument,
        } => fcntl_form(alloc, *fd, *command, *argument),
        Call::Pipe => numbers_form(alloc, b"pipe", &[]),
        Call::Poll { count, timeout, .. } => poll_form(alloc, *count, *timeout, ins),
        _ => Ok(None),
    }
}

/// A call on paths.
fn named_form(alloc: Global, call: &Call, ins: &Ins) -> Form
    ensures { IfOk result (λ text. text ≡ named_form call.now ins.now) }
{
    match call {
        Call::Open { flags, .. } => open_form(alloc, *flags, ins),
        Call::Stat { .. } => path_form(alloc, b"stat", ins),
        Call::Link { .. } => paths_form(alloc, b"link", ins),
        Call::Unlink { .. } => path_form(alloc, b"unlink", ins),
        Call::Rename { .. } => paths_form(alloc, b"rename", ins),
        Call::Mkdir { .. } => path_form(alloc, b"mkdir", ins),
        Call::Rmdir { .. } => path_form(alloc, b"rmdir", ins),
        Call::Chdir { .. } => path_form(alloc, b"chdir", ins),
        _ => Ok(None),
    }
}

/// A call on sockets.
fn net_form(alloc: Global, call: &Call, ins: &Ins) -> Form
    ensures { IfOk result (λ text. text ≡ net_form call.now ins.now) }
{
    match call {
        Call::Socket { family, kind } => socket_form(alloc, b"socket", *family, *kind),
        Call::Socketpair { family, kind } => socket_form(alloc, b"socketpair", *family, *kind),
        Call::Bind {
            fd,
            address_len,
            ..
        } => { address_form(alloc, b"bind", *fd, *address_len, ins) }
        Call::Listen { fd, backlog } => numbers_form(alloc, b"listen", &[*fd, *backlog]),
        Call::Accept { fd } => numbers_form(alloc, b"accept", &[*fd]),
        Call::Connect {
            fd,
            address_len,
            ..
        } => { address_form(alloc, b"connect", *fd, *address_len, ins) }
        Call::Sendto {
            fd,
            len,
            address_len,
            ..
        } => { sendto_form(alloc, *fd, *len, *address_len, ins) }
        Call::Recvfrom {
            fd,
            len,
            address_max,
            ..
        } => { asking_form(alloc, b"recvfrom", &[*fd, *len], *address_max) }
        Call::Shutdown { fd, how } => shutdown_form(alloc, *fd, *how),
        Call::Getsockname { fd, max, .. } => asking_form(alloc, b"getsockname", &[*fd], *max),
        Call::Getpeername { fd, max, .. } => asking_form(alloc, b"getpeername", &[*fd], *max),
        _ => Ok(None),
    }
}

/// A call in the form of scripts; none where a word or a piece is outside that form.
fn form_of(alloc: Global, call: &Call, ins: &Ins) -> Form
    ensures { IfOk result (λ text. text ≡ form_of call.now ins.now) }
{
    if let Some(text) = file_form(alloc, call, ins)? {
        return Ok(Some(text));
    }
    if let Some(text) = named_form(alloc, call, ins)? {
        return Ok(Some(text));
    }
    net_form(alloc, call, ins)
}

/// A call by its number and its words.
#[tactic(auto, unfolding(crate::specs::Forms::number_text))]
fn number_text(alloc: Global, call: &Call) -> Result<Octets, NoMemory>
    ensures { IfOk result (λ text. text ≡ number_text call.now) }
{
    let mut text = Octets::of(alloc, b"call ")?;
    put_number(&mut text, u64::from(call.num()))?;
    let words = call.words();
    put_numbers(&mut text, words.slice())?;
    Ok(text)
}

/// A call of a journal, with what was gathered for it.
#[tactic(auto, unfolding(crate::specs::Forms::call_text))]
pub fn call_text(alloc: Global, call: &Call, ins: &Ins) -> Result<Octets, NoMemory>
    ensures { IfOk result (λ text. text ≡ call_text call.now ins.now) }
{
    match form_of(alloc, call, ins)? {
        Some(text) => Ok(text),
        None => number_text(alloc, call),
    }
}
