//! The view of a text.
ghost use Rattle.std.specs.Prelude.{◌≡◌, MatchBool, None, Some, length};
ghost use Rattle.script_words.specs.Pieces.{pieces_of};
ghost use Rattle.hijack_split.specs.Text.{alias_of, plain_number, plain_offset, row_of, row_set};
ghost use Rattle.hijack_split.specs.Text.{rows_set, set_by, side_of, view_of};

use crate::change::Alias;
use crate::pieces::split_first;
use crate::view::View;
use hijack_rules::{Offset, SideName};
use script_words::numeral;

/// The number that a word writes without leading zeros.
#[tactic(auto, unfolding(crate::specs::Text::plain_number))]
fn plain_number(word: &[u8]) -> Option<u64>
    ensures { result ≡ plain_number word.now }
{
    match word {
        [] => None,
        [first, rest @ ..] => {
            if *first == b'0' && !rest.is_empty() {
                return None;
            }
            numeral(10, word)
        }
    }
}

/// The side of a name.
#[tactic(auto, unfolding(crate::specs::Text::side_of))]
fn side_of(word: &[u8]) -> Option<SideName>
    ensures { result ≡ side_of word.now }
{
    if word == b"rump".as_slice() {
        return Some(SideName::Rump);
    }
    if word == b"host".as_slice() {
        return Some(SideName::Host);
    }
    None
}

/// The offset that a word writes.
#[tactic(auto, unfolding(crate::specs::Text::plain_offset))]
fn plain_offset(word: &[u8]) -> Option<Offset>
    ensures { result ≡ plain_offset word.now }
{
    match plain_number(word) {
        Some(number) => Offset::of_number(number),
        None => None,
    }
}

/// A rump descriptor with its flag.
#[tactic(auto, unfolding(crate::specs::Text::alias_of))]
fn alias_of(word: &[u8]) -> Option<Alias>
    ensures { result ≡ alias_of word.now }
{
    match word {
        [front @ .., b'+'] => match plain_number(front) {
            Some(rump) => Some(Alias {
                rump,
                cloexec: true,
            }),
            None => None,
        },
        _ => match plain_number(word) {
            Some(rump) => Some(Alias {
                rump,
                cloexec: false,
            }),
            None => None,
        },
    }
}

/// A descriptor and its alias.
#[tactic(auto, unfolding(crate::specs::Text::row_of))]
fn row_of(piece: &[u8]) -> Option<(u64, Alias)>
    ensures { result ≡ row_of piece.now }
{
    let Some((g, r)) = split_first(piece, b'=') else {
        return None;
    };
    if split_first(r, b'=').is_some() {
        return None;
    }
    let Some(fd) = plain_number(g) else {
        return None;
    };
    let Some(alias) = alias_of(r) else {
        return None;
    };
    Some((fd, alias))
}

/// Sets a row into the aliases, and gives the least descriptor that may follow.
fn set_row(aliases: &mut [Option<Alias>], least: u64, piece: &[u8]) -> Option<u64>
    requires { length aliases.old ≡ 32 }
    ensures { row_set least aliases.old (row_of piece.now) ≡ set_by result aliases.new }
{
    let Some((g, alias)) = row_of(piece) else {
        return None;
    };
    if g < least || g >= 32 {
        return None;
    }
    aliases[g as usize] = Some(alias);
    Some(g + 1)
}

/// Sets all rows into the aliases; false where one can't be.
fn set_rows(aliases: &mut [Option<Alias>], rows: &[u8]) -> bool
    requires { length aliases.old ≡ 32 }
    ensures { let set = rows_set 0 aliases.old (pieces_of 44 rows.now) in
        MatchBool result (set ≡ Some aliases.new) (set ≡ None) }
{
    let mut least: u64 = 0;
    let mut rest = rows;
    while let Some((piece, after)) = split_first(rest, b',') {
        let Some(next) = set_row(aliases, least, piece) else {
            return false;
        };
        least = next;
        rest = after;
    }
    set_row(aliases, least, rest).is_some()
}

impl View {
    /// The view that a text is; None exactly where it is none. Takes no memory.
    pub fn read(text: &[u8]) -> Option<View>
        ensures { result ≡ view_of text.now }
    {
        let Some((offset, rest)) = split_first(text, b',') else {
            return None;
        };
        let Some(offset) = plain_offset(offset) else {
            return None;
        };
        let mut aliases: [Option<Alias>; 32] = [None; 32];
        match split_first(rest, b',') {
            Some((side, rows)) => {
                let Some(cwd) = side_of(side) else {
                    return None;
                };
                if !set_rows(&mut aliases, rows) {
                    return None;
                }
                Some(View::of(offset, cwd, aliases))
            }
            None => {
                let Some(cwd) = side_of(rest) else {
                    return None;
                };
                Some(View::of(offset, cwd, aliases))
            }
        }
    }
}
