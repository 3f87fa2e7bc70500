//! The rows of the table of frames, as a reader meets them: class, type and word, and the length of
//! the payload.
ghost use Rattle.std.specs.Prelude.{◌≡◌, ◌-◌, ◌≤◌, true, OnOk, IfOk};
ghost use Rattle.sp_frames.specs.Reading.{allows, layout_of, is_of, has_word, has_size, row_at, has_kind, row_or, row_of};

use crate::fault::FrameFault;
use crate::frame::INDEX_LIMIT;
use crate::header::Header;
use Allowed::{Any, Below, Only, Refusable, Within, Words};

/// The rows of the table of frames.
#[derive(Clone, Copy, Debug)]
pub enum Row {
    Guest,
    Join,
    Image,
    Sys,
    AskBytes,
    AskText,
    Put,
    Prefork,
    Cancel,
    Preexec,
    Hello,
    Joined,
    Imaged,
    Answered,
    GotBytes,
    GotText,
    Forked,
    Cancelled,
    ExecReady,
    Refused,
}

/// The table's rows, that of a call first: most frames are calls.
const ROWS: [Row; 20] = [
    Row::Sys,
    Row::Guest,
    Row::Join,
    Row::Image,
    Row::AskBytes,
    Row::AskText,
    Row::Put,
    Row::Prefork,
    Row::Cancel,
    Row::Preexec,
    Row::Hello,
    Row::Joined,
    Row::Imaged,
    Row::Answered,
    Row::GotBytes,
    Row::GotText,
    Row::Forked,
    Row::Cancelled,
    Row::ExecReady,
    Row::Refused,
];

/// Which numbers a field of a header, or the length of a payload, may be.
#[derive(Clone, Copy, Debug)]
pub enum Allowed {
    Only(u64),
    /// The numbers from the first to the second, both included.
    Within(u64, u64),
    Below(u64),
    Any,
    /// The types of requests that may be refused: 0, 1, 5 and 6.
    Refusable,
    /// The lengths of up to eight words of eight bytes.
    Words,
}

impl Allowed {
    fn has(self, number: u64) -> bool
        ensures { result ≡ allows self number }
    {
        match self {
            Allowed::Only(n) => number == n,
            Allowed::Within(least, most) => least <= number && number <= most,
            Allowed::Below(limit) => number < limit,
            Allowed::Any => true,
            Allowed::Refusable => number == 0 || number == 1 || number == 5 || number == 6,
            Allowed::Words => number <= 64 && number % 8 == 0,
        }
    }
}

/// What the header of a row's frame may say, and how long its payload may be.
#[derive(Clone, Copy, Debug)]
pub struct Shape {
    pub class: u16,
    pub kinds: Allowed,
    pub words: Allowed,
    pub sizes: Allowed,
}

impl Row {
    fn shape(self) -> Shape
        ensures { result ≡ (layout_of self).shape }
    {
        let (class, kinds, words, sizes) = match self {
            Row::Guest => (0, Only(0), Only(0), Within(1, 255)),
            Row::Join => (0, Only(0), Only(1), Within(17, 271)),
            Row::Image => (0, Only(0), Only(2), Within(17, 271)),
            Row::Sys => (0, Only(1), Any, Words),
            Row::AskBytes => (0, Only(2), Below(INDEX_LIMIT), Only(16)),
            Row::AskText => (0, Only(3), Below(INDEX_LIMIT), Only(16)),
            Row::Put => (0, Only(4), Below(INDEX_LIMIT), Within(9, 131_048)),
            Row::Prefork => (0, Only(5), Only(0), Only(0)),
            Row::Cancel => (0, Only(5), Only(1), Only(16)),
            Row::Preexec => (0, Only(6), Only(0), Only(0)),
            Row::Hello => (1, Only(0), Only(0), Only(4)),
            Row::Joined => (1, Only(0), Only(1), Only(4)),
            Row::Imaged => (1, Only(0), Only(2), Only(12)),
            Row::Answered => (1, Only(1), Any, Only(24)),
            Row::GotBytes => (1, Only(2), Below(INDEX_LIMIT), Within(4, 131_048)),
            Row::GotText => (1, Only(3), Below(INDEX_LIMIT), Within(4, 1027)),
            Row::Forked => (1, Only(5), Only(0), Only(32)),
            Row::Cancelled => (1, Only(5), Only(1), Only(0)),
            Row::ExecReady => (1, Only(6), Only(0), Only(16)),
            Row::Refused => (2, Refusable, Within(1, 7), Only(0)),
        };
        Shape {
            class,
            kinds,
            words,
            sizes,
        }
    }

    /// Whether the row has this class and type.
    fn is_of(self, class: u16, kind: u16) -> bool
        ensures { result ≡ is_of class kind self }
    {
        let shape = self.shape();
        shape.class == class && shape.kinds.has(u64::from(kind))
    }

    fn has_word(self, word: u32) -> bool
        ensures { result ≡ has_word self word }
    {
        self.shape().words.has(u64::from(word))
    }

    /// Whether the row's payload may have this length.
    fn may_have(self, len: u64) -> bool
        ensures { result ≡ has_size self len }
    {
        self.shape().sizes.has(len)
    }
}

#[tactic(auto, unfolding(crate::specs::Reading::row_at))]
fn find_row(class: u16, kind: u16, word: u32) -> Option<Row>
    ensures { result ≡ row_at class kind word }
{
    ROWS.iter()
        .copied()
        .find(|row| row.is_of(class, kind) && row.has_word(word))
}

#[tactic(auto, unfolding(crate::specs::Reading::has_kind))]
fn is_kind(class: u16, kind: u16) -> bool
    ensures { result ≡ has_kind class kind }
{
    ROWS.iter().any(|row| row.is_of(class, kind))
}

fn named_row(class: u16, kind: u16, word: u32) -> Result<Row, FrameFault>
    ensures { result ≡ row_or (row_at class kind word) class kind word }
{
    match find_row(class, kind, word) {
        Some(row) => Ok(row),
        None if class > 2 => Err(FrameFault::Class(class)),
        None if is_kind(class, kind) => Err(FrameFault::Word { kind, word }),
        None => Err(FrameFault::Kind(kind)),
    }
}

/// The row of a header, or the first fault that the header has.
#[tactic(auto, unfolding(crate::specs::Reading::row_of))]
pub fn checked_row(h: &Header) -> Result<Row, FrameFault>
    ensures row { result ≡ row_of h.now }
    ensures least { OnOk result (24 ≤ h.now.len) }
    ensures most { OnOk result (h.now.len ≤ 131072) }
    ensures size { IfOk result (λ row. has_size row (h.now.len - 24) ≡ true) }
{
    if h.len < 24 {
        return Err(FrameFault::TooShort(h.len));
    }
    if h.len > 131072 {
        return Err(FrameFault::TooLong(h.len));
    }
    let row = named_row(h.class, h.kind, h.word)?;
    if row.may_have(h.len - 24) {
        Ok(row)
    } else {
        Err(FrameFault::Payload {
            kind: h.kind,
            len: h.len,
        })
    }
}
