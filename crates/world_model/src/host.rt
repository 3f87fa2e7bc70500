use kern_model::{Ins, Op};
use sp_base::{Caller, Pid};

/// An operation of the host's kernel that waits.
#[derive(Debug, Drop)]
pub struct HostCall {
    /// The number of the guest that asked for it.
    pub guest: u32,
    /// Who of the guest asked.
    pub caller: Caller,
    /// The process that is to perform it.
    pub pid: Pid,
    /// What is to be performed.
    pub op: Op,
    /// What was read of the caller's memory for it.
    pub ins: Ins,
}
