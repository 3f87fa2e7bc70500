ghost use Rattle.std.specs.Prelude.{◌≡◌};
ghost use Rattle.guest_language.specs.Verbs.{file_verb, path_verb, socket_verb, verb_of};

/// The first word of a call's line.
#[derive(Clone, Copy, Debug, PartialEq, Eq)]
pub enum Verb {
    Getpid,
    Open,
    Close,
    Read,
    Write,
    Pread,
    Pwrite,
    Lseek,
    Ftruncate,
    Fstat,
    Stat,
    Link,
    Unlink,
    Rename,
    Mkdir,
    Rmdir,
    Chdir,
    Dup,
    Dup2,
    Fcntl,
    Pipe,
    Socket,
    Socketpair,
    Bind,
    Listen,
    Accept,
    Connect,
    Sendto,
    Recvfrom,
    Shutdown,
    Getsockname,
    Getpeername,
    Poll,
    /// `call`, a call outside the table by its number.
    Number,
}

/// The calls on open files and on processes.
#[tactic(auto, unfolding(crate::specs::Verbs::file_verb))]
fn file_verb(word: &[u8]) -> Option<Verb>
    ensures { result ≡ file_verb word.now }
{
    if word == b"getpid".as_slice() {
        return Some(Verb::Getpid);
    }
    if word == b"close".as_slice() {
        return Some(Verb::Close);
    }
    if word == b"read".as_slice() {
        return Some(Verb::Read);
    }
    if word == b"write".as_slice() {
        return Some(Verb::Write);
    }
    if word == b"pread".as_slice() {
        return Some(Verb::Pread);
    }
    if word == b"pwrite".as_slice() {
        return Some(Verb::Pwrite);
    }
    if word == b"lseek".as_slice() {
        return Some(Verb::Lseek);
    }
    if word == b"ftruncate".as_slice() {
        return Some(Verb::Ftruncate);
    }
    if word == b"fstat".as_slice() {
        return Some(Verb::Fstat);
    }
    if word == b"dup".as_slice() {
        return Some(Verb::Dup);
    }
    if word == b"dup2".as_slice() {
        return Some(Verb::Dup2);
    }
    if word == b"fcntl".as_slice() {
        return Some(Verb::Fcntl);
    }
    None
}

/// The calls on paths, and those on pipes and by number.
#[tactic(auto, unfolding(crate::specs::Verbs::path_verb))]
fn path_verb(word: &[u8]) -> Option<Verb>
    ensures { result ≡ path_verb word.now }
{
    if word == b"open".as_slice() {
        return Some(Verb::Open);
    }
    if word == b"stat".as_slice() {
        return Some(Verb::Stat);
    }
    if word == b"link".as_slice() {
        return Some(Verb::Link);
    }
    if word == b"unlink".as_slice() {
        return Some(Verb::Unlink);
    }
    if word == b"rename".as_slice() {
        return Some(Verb::Rename);
    }
    if word == b"mkdir".as_slice() {
        return Some(Verb::Mkdir);
    }
    if word == b"rmdir".as_slice() {
        return Some(Verb::Rmdir);
    }
    if word == b"chdir".as_slice() {
        return Some(Verb::Chdir);
    }
    if word == b"pipe".as_slice() {
        return Some(Verb::Pipe);
    }
    if word == b"poll".as_slice() {
        return Some(Verb::Poll);
    }
    if word == b"call".as_slice() {
        return Some(Verb::Number);
    }
    None
}

/// The calls on sockets.
#[tactic(auto, unfolding(crate::specs::Verbs::socket_verb))]
fn socket_verb(word: &[u8]) -> Option<Verb>
    ensures { result ≡ socket_verb word.now }
{
    if word == b"socket".as_slice() {
        return Some(Verb::Socket);
    }
    if word == b"socketpair".as_slice() {
        return Some(Verb::Socketpair);
    }
    if word == b"bind".as_slice() {
        return Some(Verb::Bind);
    }
    if word == b"listen".as_slice() {
        return Some(Verb::Listen);
    }
    if word == b"accept".as_slice() {
        return Some(Verb::Accept);
    }
    if word == b"connect".as_slice() {
        return Some(Verb::Connect);
    }
    if word == b"sendto".as_slice() {
        return Some(Verb::Sendto);
    }
    if word == b"recvfrom".as_slice() {
        return Some(Verb::Recvfrom);
    }
    if word == b"shutdown".as_slice() {
        return Some(Verb::Shutdown);
    }
    if word == b"getsockname".as_slice() {
        return Some(Verb::Getsockname);
    }
    if word == b"getpeername".as_slice() {
        return Some(Verb::Getpeername);
    }
    None
}

/// The call that a line's first word names; none where it names none.
pub fn verb_of(word: &[u8]) -> Option<Verb>
    ensures { result ≡ verb_of word.now }
{
    if let Some(verb) = file_verb(word) {
        return Some(verb);
    }
    if let Some(verb) = path_verb(word) {
        return Some(verb);
    }
    socket_verb(word)
}
