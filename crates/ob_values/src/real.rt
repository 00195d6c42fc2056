//! Reals.
ghost use Rattle.std.specs.Prelude.{◌≡◌, ◌≢◌, ◌↔◌, ◌⊎◌, ◌+◌, ◌-◌, ◌*◌, ◌%◌, ◌^◌, ◌<◌, ◌≤◌, ℕ, ℤ, pos, ◌+ℤ◌, ◌-ℤ◌, Bool, List, IsTrue, IfSome, IfNone, Result};
ghost use Rattle.ob_spelling.specs.White.{trim};
ghost use Rattle.ob_spelling.specs.Numeral.{number, capped, signed};
ghost use Rattle.ob_spelling.specs.declared.fault.ValueFault.{ValueFault};
ghost use Rattle.ob_values.specs.Decimal.{IsDecimal, IsDecimalSize};
ghost use Rattle.ob_values.specs.Real.{IsExponent, IsReal, RealParts, Denotes, IsScaled, IsAsGood, IsNotFinite};
ghost use Rattle.ob_values.specs.RealReading.{Mantissa as Parts, mantissa_at, HoldsMantissa, HoldsReal};
ghost use Rattle.ob_values.specs.Readers.{ReadsDec};
ghost use Rattle.ob_values.specs.ReadsReal.{ReadsReal};

use crate::Dec;
use crate::integer::split_integer;
use crate::significand::{Significand, read_digits};
use ob_spelling::{ValueFault, split_sign, trimmed, with_sign};

// Above the size of every decimal, in units of `10 ^ -18`.
const LARGEST: u128 = 999_999_999_999_999_999_999_999_999_999_999_999;

// The digits before the point and behind it, as one number, `None` where it is too wide for a decimal;
// how many stand behind it; and what follows.
#[derive(Clone, Copy)]
struct Mantissa<'a> {
    significand: Option<Significand>,
    places: usize,
    rest: &'a [u8],
}

/// The mantissa that the text begins with.
fn read_mantissa(text: &[u8]) -> Option<Mantissa<'_>>
    ensures some { IfSome result (λ held. (m : Parts) × (mantissa_at text.now ≡ Some m) × HoldsMantissa m held) }
    ensures none { IfNone result (mantissa_at text.now ≡ None) }
{
    let (whole, rest) = read_digits(Some(Significand::zero()), text);
    match rest {
        [b'.', fraction @ ..] => {
            let (significand, rest) = read_digits(whole, fraction);
            let places = fraction.len() - rest.len();
            if places == 0 {
                return None;
            }
            Some(Mantissa {
                significand,
                places,
                rest,
            })
        }
        _ => {
            if rest.len() == text.len() {
                return None;
            }
            Some(Mantissa {
                significand: whole,
                places: 0,
                rest,
            })
        }
    }
}

/// Whether the exponent is negative, and its size, `10 ^ 19` for a larger one, where the text is one;
/// 0 for no text.
fn read_exponent(text: &[u8]) -> Option<(bool, u64)>
    ensures some { IfSome result (λ e. (digits : List ℕ) × IsExponent text.now e.0 digits × (e.1 ≡ capped (number digits))) }
    ensures none { IfNone result ((negative : Bool) (digits : List ℕ) → ¬ (IsExponent text.now negative digits)) }
{
    match text {
        [] => Some((false, 0)),
        [mark, rest @ ..] => {
            if !is_mark(*mark) {
                return None;
            }
            split_integer(rest)
        }
    }
}

// The letter that an exponent begins with.
fn is_mark(byte: u8) -> bool
    ensures { IsTrue result ↔ ((byte ≡ 101) ⊎ (byte ≡ 69)) }
{
    matches!(byte, b'e' | b'E')
}

// What a real's text writes: its sign, its digits without the point, how many of them stand behind the
// point, and its exponent.
#[derive(Clone, Copy)]
struct RealText {
    negative: bool,
    significand: Option<Significand>,
    places: usize,
    exponent_negative: bool,
    exponent: u64,
}

/// What the text writes, where it is a real's.
fn split_real(text: &[u8]) -> Option<RealText>
    ensures some { IfSome result (λ held. (parts : RealParts) × IsReal text.now parts × HoldsReal parts held) }
    ensures none { IfNone result ((parts : RealParts) → ¬ (IsReal text.now parts)) }
{
    let (negative, unsigned) = split_sign(text);
    let Some(
        Mantissa {
            significand,
            places,
            rest,
        },
    ) = read_mantissa(unsigned)
    else {
        return None;
    };
    let Some((exponent_negative, exponent)) = read_exponent(rest) else {
        return None;
    };
    Some(RealText {
        negative,
        significand,
        places,
        exponent_negative,
        exponent,
    })
}

impl RealText {
    /// The power of ten behind a significand with that many zeros, in units of `10 ^ -18`. An
    /// exponent too large to hold is as good as any other too large for a decimal.
    fn power(&self, zeros: u64) -> i128
        requires exponent { self.now.exponent ≤ 10 ^ 19 }
        requires places { self.now.places < 2 ^ 63 }
        requires zeros { zeros < self.now.places + 2 ^ 63 }
        ensures { (n : ℕ) → self.now.exponent ≡ capped n → IsAsGood (((signed self.now.exponent_negative n -ℤ pos self.now.places) +ℤ pos 18) +ℤ pos zeros) result }
    {
        let exponent = with_sign(self.exponent_negative, self.exponent as u128);
        exponent - self.places as i128 + 18 + zeros as i128
    }

    /// The decimal that the text names, where there is one.
    fn value(&self) -> Option<Dec>
        requires { (parts : RealParts) × HoldsReal parts self.now }
        ensures some { IfSome result (λ z. (parts : RealParts) → HoldsReal parts self.now → Denotes parts z) }
        ensures none { IfNone result ((parts : RealParts) → HoldsReal parts self.now → (z : ℤ) → IsDecimal z → ¬ (Denotes parts z)) }
    {
        let Some(significand) = self.significand else {
            return None;
        };
        let power = self.power(significand.zeros);
        scaled(self.negative, significand.digits, power)
    }
}

/// The decimal of that size, in units of `10 ^ -18`, and sign, where there is one.
fn scaled(negative: bool, digits: u64, power: i128) -> Option<Dec>
    requires small { digits < 10 ^ 18 }
    requires ends { (digits ≡ 0) ⊎ (digits % 10 ≢ 0) }
    ensures some { IfSome result (λ d. (n : ℕ) × IsDecimalSize n × IsScaled digits power n × (d ≡ signed negative n)) }
    ensures none { IfNone result ((n : ℕ) → IsDecimalSize n → ¬ (IsScaled digits power n)) }
{
    if digits == 0 {
        return Some(Dec::from_size(negative, 0));
    }
    if power < 0 {
        return None;
    }
    if power > 35 {
        return None;
    }
    let scale = 10u128.pow(power as u32);
    if digits as u128 > LARGEST / scale {
        return None;
    }
    Some(Dec::from_size(negative, digits as u128 * scale))
}

/// The decimal that the bytes spell: an optional sign, digits with or without a point, and an
/// optional exponent, with white space round them. NotFinite for the words `NaN`, `INF` and `-INF`,
/// NotNumber for any other form, Digits where the number has more than 18 digits, zeros at its ends
/// not counted, or more than 18 places.
pub fn read_dec(bytes: &[u8]) -> Result<Dec, ValueFault>
    ensures reads { ReadsDec bytes.now result }
    ensures only { (answer : Result ℤ ValueFault) → ReadsDec bytes.now answer → result ≡ answer }
{
    real_of(bytes)
}

// The decimal that the bytes spell.
fn real_of(bytes: &[u8]) -> Result<Dec, ValueFault>
    ensures { ReadsReal (trim bytes.now) result }
{
    let text = trimmed(bytes);
    if is_not_finite(text) {
        return Err(ValueFault::NotFinite);
    }
    let Some(real) = split_real(text) else {
        return Err(ValueFault::NotNumber);
    };
    let Some(dec) = real.value() else {
        return Err(ValueFault::Digits);
    };
    Ok(dec)
}

// One of the words for what is no number.
fn is_not_finite(text: &[u8]) -> bool
    ensures { IsTrue result ↔ IsNotFinite text.now }
{
    text == b"NaN".as_slice() || text == b"INF".as_slice() || text == b"-INF".as_slice()
}
