//! The line of a call outside the table.
ghost use Rattle.std.specs.Prelude.{◌≡◌, ◌≤◌, [], length, map};
ghost use Rattle.guest_language.specs.Made.{is_outside, number_line, numbers_from};

use crate::slot::Made;
use script_words::number_of;
use sp_base::{Call, Words};

/// The numbers of up to eight words.
fn numbers_of(words: &[&[u8]]) -> Option<Words>
    requires { length words.now ≤ 8 }
    ensures { result ≡ numbers_from [] (map (λ w. w.now) words.now) }
{
    let mut numbers = Words::none();
    for word in words {
        let Some(n) = number_of(word) else {
            return None;
        };
        numbers.push(n);
    }
    Some(numbers)
}

/// Whether no call of the table has the number.
#[tactic(auto, unfolding(crate::specs::Made::is_outside))]
fn is_outside(num: u64) -> bool
    ensures { result ≡ is_outside num }
{
    num == 0 || num > 33
}

/// `call NUM ..`, with up to eight numbers.
pub fn number_line(words: &[&[u8]]) -> Option<Made>
    ensures { result ≡ number_line (map (λ w. w.now) words.now) }
{
    let [num, rest @ ..] = words else {
        return None;
    };
    if rest.len() > 8 {
        return None;
    }
    let Some(num) = number_of(num) else {
        return None;
    };
    if num > 0xffff_ffff || !is_outside(num) {
        return None;
    }
    let Some(words) = numbers_of(rest) else {
        return None;
    };
    Some(Made::plain(Call::Unknown {
        num: num as u32,
        words,
    }))
}
