ghost use Rattle.std.specs.Prelude.{◌≡◌};
ghost use Rattle.hijack_split.specs.Calls.{kind_of};

use sp_base::Call;

/// What decides where a call goes.
#[derive(Clone, Copy, Debug, PartialEq, Eq)]
pub enum Kind {
    /// It goes to the host.
    Host,
    /// A descriptor.
    Descriptor(u64),
    /// The address of a path.
    Path(u64),
    /// The addresses of two paths.
    Paths(u64, u64),
    /// The family of a socket.
    Family(u64),
    /// The two descriptors of dup2.
    Dup2(u64, u64),
    /// The entries, count and timeout of a poll.
    Poll(u64, u64, u64),
}

/// What decides where a call goes.
pub fn kind_of(call: &Call) -> Kind
    ensures { result ≡ kind_of call.now }
{
    match call {
        Call::Open { path, .. }
        | Call::Stat { path, .. }
        | Call::Unlink { path }
        | Call::Mkdir { path }
        | Call::Rmdir { path }
        | Call::Chdir { path } => Kind::Path(*path),
        Call::Link { path, new_path } | Call::Rename { path, new_path } => {
            Kind::Paths(*path, *new_path)
        }
        Call::Close { fd }
        | Call::Read { fd, .. }
        | Call::Write { fd, .. }
        | Call::Pread { fd, .. }
        | Call::Pwrite { fd, .. }
        | Call::Lseek { fd, .. }
        | Call::Ftruncate { fd, .. }
        | Call::Fstat { fd, .. }
        | Call::Dup { fd }
        | Call::Fcntl { fd, .. }
        | Call::Bind { fd, .. }
        | Call::Listen { fd, .. }
        | Call::Accept { fd }
        | Call::Connect { fd, .. }
        | Call::Sendto { fd, .. }
        | Call::Recvfrom { fd, .. }
        | Call::Shutdown { fd, .. }
        | Call::Getsockname { fd, .. }
        | Call::Getpeername { fd, .. } => Kind::Descriptor(*fd),
        Call::Socket { family, .. } | Call::Socketpair { family, .. } => Kind::Family(*family),
        Call::Dup2 { fd, new_fd } => Kind::Dup2(*fd, *new_fd),
        Call::Poll {
            entries,
            count,
            timeout,
        } => Kind::Poll(*entries, *count, *timeout),
        Call::Getpid | Call::Pipe | Call::Unknown { .. } => Kind::Host,
    }
}
