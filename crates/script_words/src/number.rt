ghost use Rattle.std.specs.Prelude.{◌≡◌, ◌⊎◌, ◌<◌, ◌+◌, ◌*◌, ◌^◌, IfSome, None, Some, if◌then◌else◌, nat_lt};
ghost use Rattle.script_words.specs.Numbers.{digit_in, negated, number_of, numeral, signed_of, small_signed_of};

/// A digit's value.
#[tactic(auto, unfolding(crate::specs::Numbers::digit_in))]
pub fn digit_in(radix: u32, c: u8) -> Option<u64>
    requires { (radix ≡ 10) ⊎ (radix ≡ 16) }
    ensures value { result ≡ digit_in radix c }
    ensures below { IfSome result (λ d. d < radix) }
{
    match (c as char).to_digit(radix) {
        Some(d) => Some(u64::from(d)),
        None => None,
    }
}

/// The number with one digit more, where it is below 2^64.
fn one_more(radix: u32, n: u64, d: u64) -> Option<u64>
    ensures { let more = n * radix + d in
        result ≡ (if nat_lt more (2 ^ 64) then Some more else None) }
{
    match n.checked_mul(u64::from(radix)) {
        Some(shifted) => shifted.checked_add(d),
        None => None,
    }
}

/// The value of one digit or more in a radix; none where it isn't below 2^64.
#[tactic(auto, unfolding(crate::specs::Numbers::numeral))]
pub fn numeral(radix: u32, digits: &[u8]) -> Option<u64>
    requires { (radix ≡ 10) ⊎ (radix ≡ 16) }
    ensures { result ≡ numeral radix digits.now }
{
    if digits.is_empty() {
        return None;
    }
    let mut n: u64 = 0;
    for c in digits {
        let Some(d) = digit_in(radix, *c) else {
            return None;
        };
        let Some(next) = one_more(radix, n, d) else {
            return None;
        };
        n = next;
    }
    Some(n)
}

/// The number that a word spells: decimal, or `0x` and hexadecimal, below 2^64.
#[tactic(auto, unfolding(crate::specs::Numbers::number_of))]
pub fn number_of(word: &[u8]) -> Option<u64>
    ensures { result ≡ number_of word.now }
{
    match word {
        [b'0', b'x', digits @ ..] => numeral(16, digits),
        _ => numeral(10, word),
    }
}

/// Minus a number, in two's complement; none below -2^63.
fn negated(n: u64) -> Option<u64>
    ensures { result ≡ negated n }
{
    if n == 0 {
        return Some(0);
    }
    if n <= 0x8000_0000_0000_0000 {
        return Some(u64::MAX - n + 1);
    }
    None
}

/// The number that a word spells, perhaps with `-` before decimal digits, in two's complement.
#[tactic(auto, unfolding(crate::specs::Numbers::signed_of))]
pub fn signed_of(word: &[u8]) -> Option<u64>
    ensures { result ≡ signed_of word.now }
{
    match word {
        [b'-', digits @ ..] => match numeral(10, digits) {
            Some(n) => negated(n),
            None => None,
        },
        _ => number_of(word),
    }
}

/// The number that a word spells, from -2^31 to 2^31 - 1, in two's complement of 32 bits.
#[tactic(auto, unfolding(crate::specs::Numbers::small_signed_of))]
pub fn small_signed_of(word: &[u8]) -> Option<u32>
    ensures { result ≡ small_signed_of word.now }
{
    if let [b'-', digits @ ..] = word {
        let Some(n) = numeral(10, digits) else {
            return None;
        };
        if n == 0 {
            return Some(0);
        }
        if n <= 0x8000_0000 {
            return Some((0x1_0000_0000 - n) as u32);
        }
        return None;
    }
    let Some(n) = number_of(word) else {
        return None;
    };
    if n < 0x8000_0000 {
        Some(n as u32)
    } else {
        None
    }
}
