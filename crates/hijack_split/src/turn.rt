use crate::change::{Change, Named};
use hijack_rules::SideName;
use sp_base::{Answer, Call};

/// Why a call is made on a kernel.
#[derive(Clone, Copy, Debug, PartialEq, Eq)]
pub enum Stage {
    /// It is the guest's own call.
    Main,
    /// A new descriptor is duplicated above all aliases.
    Raise,
    /// The duplicate gets close-on-exec.
    Flag,
    /// A new descriptor is closed that the guest doesn't get under its number.
    Shed,
    /// What a descriptor named before a dup2 is closed.
    ShedOld,
}

/// How many descriptors a call makes.
#[derive(Clone, Copy, Debug, PartialEq, Eq)]
pub enum Made {
    /// None.
    Nothing,
    /// One, the first value of its answer.
    One,
    /// Two, both values of its answer.
    Two,
}

/// What comes next for a guest's call, with all that its reply brings.
#[derive(Debug, Drop)]
pub enum Turn {
    /// This call is made on a kernel.
    Ask(SideName, Call, Stage),
    /// The guest is answered. The answer is that of a kernel, or the splitter's own, and the view
    /// changes so.
    Reply(Option<SideName>, Answer, Change),
    /// Both kernels are polled.
    Poll,
}

/// What comes next for a guest's call.
#[derive(Debug, Drop)]
pub enum Plan {
    /// The guest is answered.
    Reply(Answer),
    /// This call is made on a kernel.
    Step(SideName, Call, Stage),
    /// Both kernels are polled.
    Poll,
}

/// Where a guest's call goes, and what its descriptor or its paths are there.
#[derive(Clone, Copy, Debug, PartialEq, Eq)]
pub enum Route {
    /// To the rump kernel, unchanged, and so is its answer.
    Raw,
    /// To this kernel, with its own words.
    Whole(SideName),
    /// To the kernel of its descriptor.
    Descriptor(Named),
    /// To the kernel of its path, with the path at this address.
    Path((SideName, u64)),
    /// To the kernel of its two paths, with the paths at these addresses.
    Paths((SideName, u64), (SideName, u64)),
    /// By the table of dup2: the first descriptor onto the second.
    Dup2(u64, u64),
    /// To both kernels, as a poll.
    Divided,
}
