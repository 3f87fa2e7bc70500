ghost use Rattle.std.specs.Prelude.{⊤, ◌≡◌, ◌==◌, ◌↔◌, [], ◌∷◌, codes, IsSome, IsTrue};
ghost use Rattle.std.specs.Int.RustNames.{bit_and};
ghost use Rattle.kern_model.specs.Descriptors.{has_bit};
ghost use Rattle.kern_model.specs.Files.{access_of, creates, truncates, is_known};

use crate::node::Access;
use bitflags::{Flag, Flags, bitflag_items};

/// What an open is asked for: the bits of its word, as open(2) of NetBSD numbers them.
#[derive(Clone, Copy, Debug, PartialEq, Eq)]
pub struct OpenFlags(pub u64);

bitflag_items! {
    impl OpenFlags: u64 {
        const WRONLY = 1;
        const RDWR = 2;
        const NONBLOCK = 4;
        const APPEND = 8;
        const CREAT = 0x200;
        const TRUNC = 0x400;
        const EXCL = 0x800;
        const CLOEXEC = 0x400000;
    }
}

impl Flags for OpenFlags {
    type Bits = u64;

    ghost exact = { ⊤ };

    ghost table = { (codes "WRONLY", 1) ∷ (codes "RDWR", 2) ∷ (codes "NONBLOCK", 4) ∷ (codes "APPEND", 8) ∷ (codes "CREAT", 512) ∷ (codes "TRUNC", 1024) ∷ (codes "EXCL", 2048) ∷ (codes "CLOEXEC", 4194304) ∷ [] };

    ghost set_of = { λ p. p.0 };

    fn flags<'a>() -> &'a [Flag<OpenFlags>] {
        OpenFlags::FLAGS
    }

    fn bits(&self) -> u64 {
        self.0
    }

    fn from_bits_retain(bits: u64) -> OpenFlags {
        OpenFlags(bits)
    }
}

impl OpenFlags {
    /// Whether each bit has a name.
    #[tactic(auto, unfolding(bitflags::proofs::OnLiterals::bitflags_on_literals))]
    pub fn is_known(self) -> bool
        ensures { result ≡ is_known self.0 }
    {
        OpenFlags::from_bits(self.0).is_some()
    }

    /// The access that is asked for; none for 3.
    pub fn access(self) -> Option<Access>
        ensures { result ≡ access_of self.0 }
    {
        match self.0 & 3 {
            0 => Some(Access::Reading),
            1 => Some(Access::Writing),
            2 => Some(Access::Both),
            _ => None,
        }
    }

    /// Whether what is missing is made.
    #[tactic(auto, unfolding(bitflags::proofs::OnLiterals::bitflags_on_literals))]
    pub fn creates(self) -> bool
        ensures { result ≡ creates self.0 }
    {
        self.contains(OpenFlags::CREAT)
    }

    /// Whether what is found is emptied.
    #[tactic(auto, unfolding(bitflags::proofs::OnLiterals::bitflags_on_literals))]
    pub fn truncates(self) -> bool
        ensures { result ≡ truncates self.0 }
    {
        self.contains(OpenFlags::TRUNC)
    }

    /// Whether it may only be made, together with O_CREAT.
    #[tactic(auto, unfolding(bitflags::proofs::OnLiterals::bitflags_on_literals))]
    pub fn excludes(self) -> bool
        ensures { result ≡ has_bit self.0 2048 }
    {
        self.contains(OpenFlags::EXCL)
    }

    /// Whether writes go to the end.
    #[tactic(auto, unfolding(bitflags::proofs::OnLiterals::bitflags_on_literals))]
    pub fn appends(self) -> bool
        ensures { result ≡ has_bit self.0 8 }
    {
        self.contains(OpenFlags::APPEND)
    }

    /// Whether calls that would wait answer EAGAIN.
    #[tactic(auto, unfolding(bitflags::proofs::OnLiterals::bitflags_on_literals))]
    pub fn never_waits(self) -> bool
        ensures { result ≡ has_bit self.0 4 }
    {
        self.contains(OpenFlags::NONBLOCK)
    }

    /// Whether an exec closes the descriptor.
    #[tactic(auto, unfolding(bitflags::proofs::OnLiterals::bitflags_on_literals))]
    pub fn closes_on_exec(self) -> bool
        ensures { result ≡ has_bit self.0 4194304 }
    {
        self.contains(OpenFlags::CLOEXEC)
    }
}
