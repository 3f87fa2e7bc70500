ghost use Rattle.std.specs.Prelude.{◌≡◌};
ghost use Rattle.kern_nodes.specs.declared.fault.TreeFault.TheVariants as fault;

use sp_base::{Errno, NoMemory};

/// Why a call on nodes or names fails.
#[derive(Clone, Copy, Debug, PartialEq, Eq)]
pub enum TreeFault {
    /// What the guest is answered.
    Errno(Errno),
    /// Memory was refused.
    NoMemory,
}

impl From<NoMemory> for TreeFault {
    ghost from_gives = { λ _ made. made ≡ fault.NoMemory };

    fn from(_e: NoMemory) -> TreeFault {
        TreeFault::NoMemory
    }
}
