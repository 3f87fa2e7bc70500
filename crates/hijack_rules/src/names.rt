ghost use Rattle.std.specs.Prelude.{◌≡◌};
ghost use Rattle.hijack_rules.specs.declared.names.RuleFault.TheVariants as fault;

use sp_base::{NoMemory, Octets};

/// One of the two kernels.
#[derive(Clone, Copy, Debug, PartialEq, Eq)]
pub enum SideName {
    /// The rump kernel, which the server serves.
    Rump,
    /// The host kernel.
    Host,
}

/// Why a text is no rules: the first item that has a fault, whole, with its key.
#[derive(Debug, Drop)]
pub enum RuleFault {
    /// The item begins with no key that there is.
    Unknown(Octets),
    /// A path doesn't begin with `/`, or ends with it.
    Path(Octets),
    /// A word is none of those for families of sockets.
    Family(Octets),
    /// The offset is no decimal number from 32 to 4,096.
    Offset(Octets),
    /// An earlier item has the same key.
    Twice(Octets),
    /// Memory was refused.
    NoMemory,
}

impl From<NoMemory> for RuleFault {
    ghost from_gives = { λ _ made. made ≡ fault.NoMemory };

    fn from(_e: NoMemory) -> RuleFault {
        RuleFault::NoMemory
    }
}

/// Where a path goes.
#[derive(Clone, Copy, Debug, PartialEq, Eq)]
pub enum Routed {
    /// To the rump kernel, with so many bytes in front cut off.
    Rump(u32),
    /// To the rump kernel, as the path of its root.
    RumpRoot,
    /// To the host, unchanged.
    Host,
}
