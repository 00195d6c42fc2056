//! Decimal fractions.
ghost use Rattle.std.specs.Prelude.{◌≡◌, ◌≢◌, ◌↔◌, ◌-◌, ◌*◌, ◌/◌, ◌%◌, ◌^◌, ◌<◌, ◌≤◌, ◌⊎◌, int_lt, unsigned_abs, IsSome, IfSome};
ghost use Rattle.ob_spelling.specs.Numeral.{signed};
ghost use Rattle.std.specs.Int.{is_negative};
ghost use Rattle.ob_values.specs.Decimal.{in_attos, FitsParts, IsShortest, IsDecimal, IsDecimalSize};

use crate::wide::Wide;
use ob_spelling::with_sign;
use std::marker::Model;

const PLACES: u32 = 18;

const LIMIT: u64 = 1_000_000_000_000_000_000;

// In units of `10 ^ -18`.
const ONE: u128 = 1_000_000_000_000_000_000;

/// A decimal fraction: a coefficient of at most 18 digits, over a power of ten up to `10 ^ 18`.
#[derive(Clone, Copy, PartialEq, Eq, PartialOrd, Ord)]
pub struct Dec {
    // In units of `10 ^ -18`.
    attos: Wide,
}

impl Model for Dec {
    ghost use Rattle.std.specs.Prelude.{ℤ};
    ghost use Rattle.ob_values.specs.Decimal.{IsDecimal};

    ghost Value = { ℤ };

    ghost view = { λ d. d.attos };

    ghost invariant = { λ d. IsDecimal d.attos };

    ghost inverse = { λ z. record { attos = z } };
}

impl Dec {
    // The decimal of that size, in units of `10 ^ -18`, and sign.
    pub(crate) fn from_size(negative: bool, size: u128) -> Dec
        requires { IsDecimalSize size }
        ensures { result ≡ signed negative size }
    {
        Dec {
            attos: Wide::new(with_sign(negative, size)),
        }
    }

    /// `c / 10 ^ s`, or `None` where c has more than 18 digits or s is above 18.
    pub fn new(c: i64, s: u8) -> Option<Dec>
        ensures some { IsSome result ↔ FitsParts c s }
        ensures value { IfSome result (λ d. d ≡ in_attos c s) }
    {
        let size = c.unsigned_abs();
        if size >= LIMIT || s as u32 > PLACES {
            return None;
        }
        let attos = size as u128 * 10u128.pow(PLACES - s as u32);
        Some(Dec::from_size(c < 0, attos))
    }

    /// Whether the decimal is below the other.
    pub fn is_below(&self, other: &Dec) -> bool
        ensures { result ≡ int_lt self.now other.now }
    {
        self.attos.get() < other.attos.get()
    }

    // Whether the decimal is negative, its whole part, and its fraction in units of `10 ^ -18`.
    pub(crate) fn around_point(&self) -> (bool, u64, u64)
        ensures negative { result.0 ≡ is_negative self.now }
        ensures whole { result.1 ≡ unsigned_abs self.now / 10 ^ 18 }
        ensures fraction { result.2 ≡ unsigned_abs self.now % 10 ^ 18 }
        ensures decimal { IsDecimal self.now }
    {
        let attos = self.attos.get();
        let size = attos.unsigned_abs();
        let whole = size / ONE;
        let fraction = size - whole * ONE;
        (attos < 0, whole as u64, fraction as u64)
    }

    /// The coefficient and the scale, with the least scale that serves.
    pub fn parts(&self) -> (i64, u8)
        ensures value { in_attos result.0 result.1 ≡ self.now }
        ensures fits { FitsParts result.0 result.1 }
        ensures shortest { IsShortest result.0 result.1 }
    {
        let attos = self.attos.get();
        let (size, scale) = stripped(attos.unsigned_abs());
        (with_sign(attos < 0, size as u128) as i64, scale)
    }
}

// The coefficient and the scale of so many units of `10 ^ -18`, with the least scale.
fn stripped(units: u128) -> (u64, u8)
    requires { IsDecimalSize units }
    ensures value { units ≡ result.0 * 10 ^ (18 - result.1) }
    ensures small { result.0 < 10 ^ 18 }
    ensures places { result.1 ≤ 18 }
    ensures shortest { (result.1 ≡ 0) ⊎ (result.0 % 10 ≢ 0) }
{
    let mut size = units;
    let mut scale: u8 = 18;
    'strip: while scale > 0 && size % 10 == 0 {
        size /= 10;
        scale -= 1;
    }
    (size as u64, scale)
}
