ghost use Rattle.std.specs.Prelude.{◌≡◌, IfOk};

use sp_base::{NoMemory, Octets};
use std::alloc::Global;

/// Where a socket's addresses are: local ones are paths, inet ones have a port.
#[derive(Clone, Copy, Debug, PartialEq, Eq)]
pub enum Family {
    Local,
    Inet,
}

/// How a socket moves bytes: a stream in one order to one peer, a datagram socket letter by letter.
#[derive(Clone, Copy, Debug, PartialEq, Eq)]
pub enum SockKind {
    Stream,
    Datagram,
}

/// A socket's address.
#[derive(Debug, Drop)]
pub enum Address {
    /// That of a socket that isn't bound.
    Unnamed,
    /// A local one: a path, as it was given.
    Path(Octets),
    /// An inet one: four bytes and a port.
    Inet([u8; 4], u16),
}

impl Address {
    /// The same address once more. The only error is want of memory.
    pub fn copy(&self, alloc: Global) -> Result<Address, NoMemory>
        ensures { IfOk result (λ address. address ≡ self.now) }
    {
        match self {
            Address::Unnamed => Ok(Address::Unnamed),
            Address::Path(path) => Ok(Address::Path(Octets::of(alloc, path.slice())?)),
            Address::Inet(bytes, port) => Ok(Address::Inet(*bytes, *port)),
        }
    }
}
