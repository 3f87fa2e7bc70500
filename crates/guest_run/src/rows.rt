//! The rows of a guest's lines.
ghost use Rattle.std.specs.Prelude.{◌≡◌, IfOk};
ghost use Rattle.guest_rows.specs.Rows.{row_text};
ghost use Rattle.guest_run.specs.Run.{answered_row, pieces_seen, refused_row};

use guest_language::Line;
use guest_rows::{Row, RowResult, SideName, row_text};
use kern_model::{OutPiece, Outs};
use sp_base::{Answer, Items, NoMemory, Octets, SpError};
use sp_copy::Mem;
use std::alloc::Global;

/// What stands in a memory where a call may write.
fn pieces_seen(alloc: Global, mem: &Mem) -> Result<Outs, NoMemory>
    ensures { IfOk result (λ pieces. pieces ≡ pieces_seen mem.now) }
{
    let mut pieces = Items::none(alloc);
    for part in mem.parts() {
        if part.right.can_write() {
            pieces.push(OutPiece {
                addr: part.base,
                bytes: Octets::of(alloc, part.bytes.slice())?,
            })?;
        }
    }
    Ok(pieces)
}

/// The text of the row of a line whose call was answered.
pub(crate) fn answered_row(
    alloc: Global,
    guest: &[u8],
    number: u32,
    line: &Line,
    answer: Answer,
    mem: &Mem,
) -> Result<Octets, NoMemory>
    ensures { IfOk result (λ text. text
        ≡ row_text (answered_row guest.now number line.now answer mem.now)) }
{
    let pieces = pieces_seen(alloc, mem)?;
    row_text(
        alloc,
        &Row {
            guest: Octets::of(alloc, guest)?,
            number,
            side: Some(SideName::Rump),
            both: false,
            place: Some(answer.place),
            line: Octets::of(alloc, line.text.slice())?,
            result: RowResult::Gave(answer, pieces),
        },
    )
}

/// The text of the row of a line whose call the server refused.
pub(crate) fn refused_row(
    alloc: Global,
    guest: &[u8],
    number: u32,
    line: &Line,
) -> Result<Octets, NoMemory>
    ensures { IfOk result (λ text. text ≡ row_text (refused_row guest.now number line.now)) }
{
    row_text(
        alloc,
        &Row {
            guest: Octets::of(alloc, guest)?,
            number,
            side: Some(SideName::Rump),
            both: false,
            place: None,
            line: Octets::of(alloc, line.text.slice())?,
            result: RowResult::Refused(SpError::Memory),
        },
    )
}
