//! The laws of words: functions that do nothing, and whose contracts are the laws.
ghost use Rattle.std.specs.Prelude.{◌≡◌, ◌<◌, ◌^◌, ℕ, List, Some};
ghost use Rattle.std.specs.Fmt.{decimal};
ghost use Rattle.std.specs.List.{AllByRecursion};
ghost use Rattle.script_words.specs.Numbers.{number_of};
ghost use Rattle.script_words.specs.Spelling.{quoted};
ghost use Rattle.script_words.specs.Texts.{text_of};
ghost use Rattle.script_words.specs.Words.{joined, words_of};

/// Bytes in double quotes are read as these bytes.
pub fn bytes_are_read_as_spelled()
    ensures { (bytes : List ℕ) → AllByRecursion (λ b. b < 256) bytes
        → text_of (quoted bytes) ≡ Some bytes }
{}

/// A number in decimal is read as this number.
pub fn numbers_are_read_as_spelled()
    ensures { (n : ℕ) → n < 2 ^ 64 → number_of (decimal n) ≡ Some n }
{}

/// A line's words with single spaces between them are a line with the same words.
pub fn same_words_with_single_spaces()
    ensures { (line : List ℕ) → words_of (joined (words_of line)) ≡ words_of line }
{}
