//! Signs and decimal digits.
ghost use Rattle.std.specs.Prelude.{◌≡◌, ℕ, ◌+◌, ◌*◌, ◌^◌, ◌<◌, [], ◌∷◌, IfSome, IfNone};
ghost use Rattle.ob_spelling.specs.Numeral.{number, capped, is_negative, after_sign, signed};
ghost use Rattle.ob_spelling.specs.DigitRun.{digits_front, after_digits};
ghost use Rattle.ob_spelling.specs.Places.{IsPair};

// Above every number that a reader needs exactly.
const CAP: u64 = 10_000_000_000_000_000_000;

/// Whether the text begins with a minus, and what follows its sign.
#[tactic(auto, unfolding(crate::specs::Numeral::is_negative, crate::specs::Numeral::after_sign))]
pub fn split_sign(text: &[u8]) -> (bool, &[u8])
    ensures negative { result.0 ≡ is_negative text.now }
    ensures rest { result.1.now ≡ after_sign text.now }
{
    match text {
        [b'-', rest @ ..] => (true, rest),
        [b'+', rest @ ..] => (false, rest),
        _ => (false, text),
    }
}

/// The number of this size and sign.
pub fn with_sign(negative: bool, size: u128) -> i128
    requires { size < 2 ^ 127 }
    ensures { result ≡ signed negative size }
{
    let size = size as i128;
    if negative { -size } else { size }
}

/// The digits that the text begins with, and what follows them.
pub fn split_digits(text: &[u8]) -> (&[u8], &[u8])
    ensures digits { result.0.now ≡ digits_front text.now }
    ensures rest { result.1.now ≡ after_digits text.now }
{
    for (len, c) in text.iter().enumerate() {
        if !c.is_ascii_digit() {
            return text.split_at(len);
        }
    }
    text.split_at(text.len())
}

// The number with one more digit.
fn with_digit(number: u64, digit: u8) -> u64
    requires { digit < 10 }
    ensures { (n : ℕ) → number ≡ capped n → result ≡ capped (n * 10 + digit) }
{
    if number < CAP / 10 {
        number * 10 + digit as u64
    } else {
        CAP
    }
}

/// The number that the digits at the front of the text write, or `10 ^ 19` where it is larger, and
/// what follows them. No digits write 0.
pub fn split_number(text: &[u8]) -> (u64, &[u8])
    ensures number { result.0 ≡ capped (number (digits_front text.now)) }
    ensures rest { result.1.now ≡ after_digits text.now }
{
    let mut all: u64 = 0;
    for (len, c) in text.iter().enumerate() {
        if !c.is_ascii_digit() {
            let (_, rest) = text.split_at(len);
            return (all, rest);
        }
        all = with_digit(all, *c - b'0');
    }
    (all, b"")
}

/// The number that two digits write, or `None` where a byte is no digit.
pub fn two_digits(tens: u8, ones: u8) -> Option<u8>
    ensures some { IfSome result (IsPair (tens ∷ ones ∷ [])) }
    ensures none { IfNone result ((n : ℕ) → ¬ (IsPair (tens ∷ ones ∷ []) n)) }
{
    if tens.is_ascii_digit() && ones.is_ascii_digit() {
        Some((tens - b'0') * 10 + (ones - b'0'))
    } else {
        None
    }
}
