use hijack_rules::SideName;

/// A descriptor of the guest, below 32, that stands for one of the rump kernel's.
#[derive(Clone, Copy, Debug, PartialEq, Eq)]
pub struct Alias {
    /// The rump kernel's descriptor.
    pub rump: u64,
    /// Whether the next exec closes it.
    pub cloexec: bool,
}

/// What a descriptor of the guest names.
#[derive(Clone, Copy, Debug, PartialEq, Eq)]
pub enum Named {
    /// A descriptor of the rump kernel.
    Rump(u64),
    /// A descriptor of the host.
    Host(u64),
    /// No descriptor.
    Nothing,
}

/// How a view changes with a reply.
#[derive(Clone, Copy, Debug, PartialEq, Eq)]
pub enum Change {
    /// Not at all.
    Stays,
    /// The working directory is now on this side.
    Sits(SideName),
    /// A descriptor's alias, if it has one, has this flag.
    Marks(u64, bool),
    /// A descriptor has no alias.
    Drops(u64),
    /// A descriptor is an alias of this rump descriptor, with the flag clear.
    Sets(u64, u64),
}
