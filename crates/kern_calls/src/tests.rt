// Tables of operations and their outcomes, worked out by hand from what the calls are said to do. The plain kernel and the real one
// perform each of them.
ghost use Rattle.std.specs.Prelude.{IsTrue};
ghost use Rattle.kern_model.specs.declared.operation.Op.{Op};
ghost use Rattle.kern_model.specs.Journal.{CanAsk, state_after};
ghost use Rattle.sp_base.specs.Needs.{IsPiece, ArePieces};
ghost use Rattle.kern_model.specs.Needs.{FitsIns, IsFaultOf};

mod descriptors;
mod files;
mod kernel;
mod links;
mod paths;
mod processes;
mod step;

use crate::tests::step::{OUT, Step};
use crate::{Acted, Kernel};
use kern_model::{Ins, Op, OutPiece, Outcome, Plain, Who};
use sp_base::{Call, Errno, Need, NoMemory, Octets, Pid};
use std::alloc::Global;
use std::process::Abort;
use std::test::Fail;

/// The plain kernel and the real one, which are to tell the same of each operation.
#[derive(Drop)]
pub struct Both {
    alloc: Global,
    plain: Plain,
    kernel: Kernel,
}

/// What each of the two kernels gave, as text.
#[derive(Drop)]
struct Told {
    plain: String,
    kernel: String,
}

/// Whether a piece is what a need asks for.
fn is_piece(need: Need, piece: &[u8]) -> bool
    ensures { IsTrue result → IsPiece need piece.now }
{
    let len = piece.len() as u64;
    match need {
        Need::Bytes(_, count) => len == count,
        Need::Text(_, limit) => len < limit && piece.iter().all(|byte| *byte != 0),
    }
}

/// Whether there is one piece for each need.
fn are_pieces(needs: &[Need], pieces: &[Octets]) -> bool
    ensures { IsTrue result → ArePieces needs.now pieces.now }
{
    match (needs.split_first(), pieces.split_first()) {
        (None, None) => true,
        (Some((need, needs)), Some((piece, pieces))) => {
            is_piece(*need, piece.slice()) && are_pieces(needs, pieces)
        }
        _ => false,
    }
}

/// Whether an error is one that gathering can end in.
fn is_fault(needs: &[Need], error: Errno) -> bool
    ensures { IsTrue result → IsFaultOf needs.now error }
{
    match (needs, error) {
        ([_, ..], Errno::Efault) => true,
        ([Need::Text(_, _), ..], Errno::Enametoolong) => true,
        _ => false,
    }
}

/// Whether what was gathered fits a call.
fn fits_call(call: &Call, ins: &Ins) -> bool
    ensures { IsTrue result → FitsIns (Op.Sys call.now) ins.now }
{
    let needs = call.needs();
    match ins {
        Ins::Given(pieces) => are_pieces(needs.slice(), pieces.slice()),
        Ins::Fault(error) => is_fault(needs.slice(), *error),
    }
}

/// Whether what was gathered fits an operation.
fn fits(op: &Op, ins: &Ins) -> bool
    ensures { IsTrue result → FitsIns op.now ins.now }
{
    match (op, ins) {
        (Op::Sys(call), ins) => fits_call(call, ins),
        (_, Ins::Given(pieces)) => are_pieces(&[], pieces.slice()),
        _ => false,
    }
}

/// Whether the process may ask the plain kernel for the operation.
fn can_ask_plain(kernel: &Plain, pid: Pid, op: &Op) -> bool
    ensures { IsTrue result → CanAsk kernel.now pid.0 op.now }
{
    matches!(op, Op::Attach) || kernel.is_live(pid)
}

/// Whether the process may ask the kernel for the operation.
fn can_ask(kernel: &Kernel, pid: Pid, op: &Op) -> bool
    ensures { IsTrue result → CanAsk (state_after kernel.now.items) pid.0 op.now }
{
    matches!(op, Op::Attach) || kernel.is_live(pid)
}

/// Whether the kernel is ready for an operation.
fn is_ready(kernel: &Kernel, pid: Pid, op: &Op, ins: &Ins) -> bool {
    kernel.ready(pid, op, ins)
}

impl Both {
    /// Two kernels without processes.
    pub fn fresh(alloc: Global) -> Result<Both, Fail> {
        Ok(Both {
            alloc,
            plain: Plain::fresh(alloc)?,
            kernel: Kernel::fresh(alloc)?,
        })
    }

    /// What the plain kernel tells of a step.
    fn perform_plain(&mut self, pid: Pid, step: Step) -> Result<String, Fail> {
        let op = step.op();
        if !can_ask_plain(&self.plain, pid, &op) {
            return Err(Fail::new("a row that no caller could ask for"));
        }
        let Some(outcome) = self.plain.act(pid, &op, &step.ins(self.alloc)?)? else {
            return Ok(String::from_str(self.alloc, "waits")?);
        };
        shown(self.alloc, step, &outcome)
    }

    /// What the kernel tells of a step.
    fn perform_real(&mut self, pid: Pid, step: Step) -> Result<String, Fail> {
        let op = step.op();
        let ins = step.ins(self.alloc)?;
        if !can_ask(&self.kernel, pid, &op) || !fits(&op, &ins) {
            return Err(Fail::new("a row that no caller could ask for"));
        }
        let who = Who::Host(0, self.kernel.journal().len() as u64);
        let ready = is_ready(&self.kernel, pid, &op, &ins);
        match self.kernel.act(pid, who, op, ins) {
            Acted::Done(_) if ready => {}
            Acted::NotReady if !ready => return Ok(String::from_str(self.alloc, "waits")?),
            Acted::NoMemory => return Err(Fail::new("no memory")),
            _ => return Err(Fail::new("the kernel did otherwise than it was ready to")),
        }
        match self.kernel.journal().last() {
            Some(entry) => shown(self.alloc, step, &entry.outcome),
            None => Err(Fail::new("no entry")),
        }
    }

    /// Performs a step on both kernels.
    fn perform(&mut self, pid: Pid, step: Step) -> Result<Told, Fail> {
        Ok(Told {
            plain: self.perform_plain(pid, step)?,
            kernel: self.perform_real(pid, step)?,
        })
    }
}

/// The little-endian number of these bytes.
fn number(bytes: Option<&[u8]>) -> u64 {
    let mut number: u64 = 0;
    if let Some(bytes) = bytes {
        for byte in bytes.iter().rev() {
            number = number.wrapping_mul(256).wrapping_add(*byte as u64);
        }
    }
    number
}

/// What the 24 bytes of a stat say, as ` KIND, links N, size N, node N`.
fn stat_text(alloc: Global, bytes: &[u8]) -> Result<String, NoMemory> {
    let kind = match number(bytes.get(0..4)) {
        1 => "file",
        2 => "directory",
        4 => "socket",
        _ => "unknown",
    };
    let links = number(bytes.get(4..8));
    let size = number(bytes.get(8..16));
    let node = number(bytes.get(16..24));
    Ok(format!(in alloc; " {kind}, links {links}, size {size}, node {node}")?)
}

/// Appends what an operation writes: bytes as the text that they are, a stat by its fields.
fn put_piece(alloc: Global, text: &mut String, piece: &OutPiece, step: Step) -> Result<(), Fail> {
    let bytes = piece.bytes.slice();
    if piece.addr != OUT {
        let addr = piece.addr;
        text.push_str(format!(in alloc; " at {addr}")?.as_str())?;
    }
    if step.is_stat() && bytes.len() == 24 {
        text.push_str(stat_text(alloc, bytes)?.as_str())?;
        return Ok(());
    }
    text.push_str(" ")?;
    text.push_str(str::from_utf8(bytes)?)?;
    Ok(())
}

/// The head of an outcome: the first value, or the name of the error, and other values where they aren't 0.
fn head(alloc: Global, outcome: &Outcome) -> Result<String, NoMemory> {
    let mut text = String::new(alloc);
    let ret0 = outcome.ret0;
    let ret1 = outcome.ret1;
    match Errno::of_number(outcome.err) {
        Some(error) => text.push_str(error.name())?,
        None => text.push_str(format!(in alloc; "{ret0}")?.as_str())?,
    }
    if outcome.err != 0 && ret0 != 0 {
        text.push_str(format!(in alloc; " with {ret0}")?.as_str())?;
    }
    if ret1 != 0 {
        text.push_str(format!(in alloc; " and {ret1}")?.as_str())?;
    }
    Ok(text)
}

/// A whole outcome as one text.
fn shown(alloc: Global, step: Step, outcome: &Outcome) -> Result<String, Fail> {
    let mut text = head(alloc, outcome)?;
    for piece in outcome.outs.slice() {
        put_piece(alloc, &mut text, piece, step)?;
    }
    Ok(text)
}

/// Performs the steps of a process, each of which has the outcome that stands beside it.
fn run(rt: &impl Abort, both: &mut Both, pid: u32, rows: &[(Step, &str)]) -> Result<(), Fail> {
    for (i, (step, want)) in rows.iter().enumerate() {
        let told = both.perform(Pid(pid), *step)?;
        assert_eq!(rt; told.plain.as_str(), *want, "plain, at row {i}, {step:?}");
        assert_eq!(rt; told.kernel.as_str(), *want, "kernel, at row {i}, {step:?}");
    }
    Ok(())
}

/// Two kernels that have process 2 alone.
fn one_process(alloc: Global) -> Result<Both, Fail> {
    let mut both = Both::fresh(alloc)?;
    both.perform(Pid(0), Step::Attach)?;
    Ok(both)
}

/// Performs the steps of the only process.
fn run_alone(rt: &impl Abort, alloc: Global, rows: &[(Step, &str)]) -> Result<(), Fail> {
    run(rt, &mut one_process(alloc)?, 2, rows)
}

/// Performs a step again and again: it answers `first` and each number behind it, below `end`.
fn run_up(rt: &impl Abort, both: &mut Both, step: Step, first: u64, end: u64) -> Result<(), Fail> {
    for number in first..end {
        let told = both.perform(Pid(2), step)?;
        let want = format!(in both.alloc; "{number}")?;
        assert_eq!(rt; told.plain.as_str(), want.as_str(), "plain, {step:?}");
        assert_eq!(rt; told.kernel.as_str(), want.as_str(), "kernel, {step:?}");
    }
    Ok(())
}
