ghost use Rattle.std.specs.Prelude.{◌≡◌, ◌<◌, length, IfSome};
ghost use Rattle.kern_proc.specs.Processes.{file_of, is_taken, lowest_taken};

use kern_model::Row;
use sp_base::FileNo;

/// The open file that a row is of.
pub fn file_of(row: Option<Row>) -> Option<FileNo>
    ensures { result ≡ file_of row }
{
    match row {
        Some(row) => Some(FileNo(row.file)),
        None => None,
    }
}

/// Whether an exec takes a row away, or an exit does.
fn is_taken(row: Option<Row>, marked_only: bool) -> bool
    ensures { result ≡ is_taken marked_only row }
{
    match row {
        Some(row) => row.close_on_exec || !marked_only,
        None => false,
    }
}

/// The lowest row, or the lowest that is marked.
pub fn lowest_taken(rows: &[Option<Row>], marked_only: bool) -> Option<usize>
    ensures which { result ≡ lowest_taken marked_only rows.now }
    ensures below { IfSome result (λ fd. fd < length rows.now) }
{
    for (fd, row) in rows.iter().enumerate() {
        if is_taken(*row, marked_only) {
            return Some(fd);
        }
    }
    None
}
