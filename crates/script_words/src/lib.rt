//! The words of a script's lines, and what a word spells: numbers, texts, flags, addresses, events.
//!
//! Each is read from a word and spelled as one, and what is spelled is read as the same.
#![tactic(auto)]

mod address;
mod events;
mod flags;
mod laws;
mod number;
mod spelling;
mod splitting;
#[cfg(test)]
mod tests;
mod text;
mod word;

pub use address::{address_of, address_text};
pub use events::entries_of;
pub use flags::flags_of;
pub use laws::{
    bytes_are_read_as_spelled, numbers_are_read_as_spelled, same_words_with_single_spaces,
};
pub use number::{number_of, numeral, signed_of, small_signed_of};
pub use spelling::{put_number, put_quoted, put_signed};
pub use splitting::{byte_at, first_place, pieces};
pub use text::text_of;
pub use word::{first_word, joined, words_of};
