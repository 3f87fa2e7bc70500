ghost use Rattle.std.specs.Prelude.{◌≡◌};

use crate::call::Call;

/// The same call, by the rows of the table: a call with the words that it takes.
macro_rules! same_call {
    ($given:expr; $($call:ident($($word:ident),*),)*) => {
        match $given {
            $(Call::$call { $($word),* } => Call::$call { $($word: *$word),* },)*
            Call::Unknown { num, words } => Call::Unknown {
                num: *num,
                words: words.copy(),
            },
        }
    };
}

impl Call {
    /// The same call once more; takes no memory.
    pub fn copy(&self) -> Call
        ensures { result ≡ self.now }
    {
        same_call!(self;
            Getpid(),
            Open(path, flags),
            Close(fd),
            Read(fd, out, len),
            Write(fd, input, len),
            Pread(fd, out, len, offset),
            Pwrite(fd, input, len, offset),
            Lseek(fd, offset, whence),
            Ftruncate(fd, len),
            Fstat(fd, out),
            Stat(path, out),
            Link(path, new_path),
            Unlink(path),
            Rename(path, new_path),
            Mkdir(path),
            Rmdir(path),
            Chdir(path),
            Dup(fd),
            Dup2(fd, new_fd),
            Fcntl(fd, command, argument),
            Pipe(),
            Socket(family, kind),
            Socketpair(family, kind),
            Bind(fd, address, address_len),
            Listen(fd, backlog),
            Accept(fd),
            Connect(fd, address, address_len),
            Sendto(fd, input, len, address, address_len),
            Recvfrom(fd, out, len, address, address_max),
            Shutdown(fd, how),
            Getsockname(fd, out, max),
            Getpeername(fd, out, max),
            Poll(entries, count, timeout),
        )
    }
}
