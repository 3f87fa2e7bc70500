//! Words of a call.
ghost use Rattle.std.specs.Prelude.{◌≡◌, ◌++◌, IfOk, OnOk, Some, map};
ghost use Rattle.std.specs.Fmt.{decimal};
ghost use Rattle.script_words.specs.Spelling.{quoted, signed};
ghost use Rattle.script_words.specs.Words.{spaced};
ghost use Rattle.guest_journal.specs.Forms.{numbers_form, words_form};

use script_words::{joined, put_number, put_quoted, put_signed};
use sp_base::{NoMemory, Octets};
use std::alloc::Global;

/// A number in decimal.
pub fn number_word(alloc: Global, n: u64) -> Result<Octets, NoMemory>
    ensures { IfOk result (λ word. word ≡ decimal n) }
{
    let mut word = Octets::none(alloc);
    put_number(&mut word, n)?;
    Ok(word)
}

/// A word that stands for a number in two's complement, in decimal.
pub fn signed_word(alloc: Global, n: u64) -> Result<Octets, NoMemory>
    ensures { IfOk result (λ word. word ≡ signed n) }
{
    let mut word = Octets::none(alloc);
    put_signed(&mut word, n)?;
    Ok(word)
}

/// Bytes in double quotes.
pub fn quoted_word(alloc: Global, bytes: &[u8]) -> Result<Octets, NoMemory>
    ensures { IfOk result (λ word. word ≡ quoted bytes.now) }
{
    let mut word = Octets::none(alloc);
    put_quoted(&mut word, bytes)?;
    Ok(word)
}

/// Appends numbers, each behind a space.
pub fn put_numbers(out: &mut Octets, numbers: &[u64]) -> Result<(), NoMemory>
    ensures { OnOk result (out.new ≡ out.old ++ spaced (map decimal numbers.now)) }
{
    for n in numbers {
        out.push(b' ')?;
        put_number(out, *n)?;
    }
    Ok(())
}

/// A name and numbers.
pub fn numbers_form(alloc: Global, name: &[u8], numbers: &[u64]) -> Result<Option<Octets>, NoMemory>
    ensures { IfOk result (λ text. text ≡ numbers_form name.now numbers.now) }
{
    let mut text = Octets::of(alloc, name)?;
    put_numbers(&mut text, numbers)?;
    Ok(Some(text))
}

/// A name and words.
pub fn words_form(alloc: Global, words: &[&[u8]]) -> Result<Option<Octets>, NoMemory>
    ensures { IfOk result (λ text. text ≡ words_form (map (λ w. w.now) words.now)) }
{
    let text = joined(alloc, words)?;
    Ok(Some(text))
}
