//! Calls and answers, as the words of a row.

use crate::names::call_number;
use hijack_split::Answers;
use script_words::{number_of, words_of};
use sp_base::{Answer, Call, NoMemory, Place, Words};
use std::alloc::Global;

/// No call has more steps.
const MOST_STEPS: usize = 8;

/// The number that a word spells, below 2^32.
pub fn small_number(word: &[u8]) -> Option<u32> {
    match number_of(word) {
        Some(number) => u32::try_from(number).ok(),
        None => None,
    }
}

/// The call of a number and the words that spell its words.
fn numbered_call(number: u32, words: &[&[u8]]) -> Option<Call> {
    let mut given = Words::none();
    for word in words {
        let number = number_of(word)?;
        if given.is_full() {
            return None;
        }
        given.push(number);
    }
    Call::of_words(number, &given).ok()
}

/// The call that a name and its words are.
pub fn call_of(name: &str, words: &[&[u8]]) -> Option<Call> {
    match (name, words) {
        ("call", [number, words @ ..]) => numbered_call(small_number(number)?, words),
        _ => numbered_call(call_number(name)?, words),
    }
}

/// The answer that three words are: an error or 0, and two values.
fn answer_of(words: &[&[u8]]) -> Option<Answer> {
    let [err, ret0, ret1] = words else {
        return None;
    };
    Some(Answer {
        err: small_number(err)?,
        ret0: number_of(ret0)?,
        ret1: number_of(ret1)?,
        place: Place(0),
    })
}

/// The answers that the parts of a row are; None where one is none, or there are too many.
pub fn answers_of(alloc: Global, parts: &[&[u8]]) -> Result<Option<Answers>, NoMemory> {
    let mut answers = Answers::none();
    for part in parts {
        let words = words_of(alloc, part)?;
        let Some(answer) = answer_of(words.as_slice()) else {
            return Ok(None);
        };
        if answers.slice().len() >= MOST_STEPS {
            return Ok(None);
        }
        answers.push(answer);
    }
    Ok(Some(answers))
}
