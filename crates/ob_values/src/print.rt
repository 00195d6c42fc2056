//! Values as text.
ghost use Rattle.std.specs.Prelude.{◌≡◌, ◌^◌, ◌<◌, ◌++◌, decimal};
ghost use Rattle.std.specs.Fmt.{signed_decimal};
ghost use Rattle.ob_spelling.specs.White.{trim};
ghost use Rattle.ob_values.specs.Integer.{IsInteger};
ghost use Rattle.ob_values.specs.Decimal.{IsDecimal};
ghost use Rattle.ob_values.specs.Real.{IsRealSpelled};
ghost use Rattle.ob_values.specs.Truth.{IsTruth};
ghost use Rattle.ob_spelling.specs.Places.{fraction_text, minus};
ghost use Rattle.ob_values.specs.Printed.{truth_text, real_text};

use crate::Dec;
use arrayvec::ArrayString;
use itoa::Buffer;
use ob_spelling::{push_decimal, push_fraction, push_sign};

/// The word `true` or `false`.
pub(crate) fn print_bool(truth: bool) -> ArrayString<64>
    ensures printed { result.bytes ≡ truth_text truth }
    ensures spelled { IsTruth (trim result.bytes) truth }
{
    let mut text = ArrayString::new();
    text.push_str(if truth { "true" } else { "false" });
    text
}

/// The digits of the number, with a minus where it is negative.
pub(crate) fn print_int(number: i64) -> ArrayString<64>
    ensures printed { result.bytes ≡ signed_decimal number }
    ensures spelled { IsInteger (trim result.bytes) number }
{
    let mut buffer = Buffer::new();
    let mut text = ArrayString::new();
    text.push_str(buffer.format(number));
    text
}

// A sign, the whole part, and the places behind a point, where there are any.
fn print_point(negative: bool, whole: u64, fraction: u64) -> ArrayString<64>
    requires { fraction < 10 ^ 18 }
    ensures { result.bytes ≡ minus negative ++ (decimal whole ++ fraction_text 18 fraction) }
{
    let mut text = ArrayString::new();
    push_sign(&mut text, negative);
    push_decimal(&mut text, whole);
    push_fraction(&mut text, 18, fraction);
    text
}

/// The shortest text of the decimal: a minus where it is negative, the whole part, and the places
/// behind a point, where there are any.
pub(crate) fn print_dec(dec: &Dec) -> ArrayString<64>
    ensures printed { result.bytes ≡ real_text dec.now }
    ensures spelled { IsRealSpelled (trim result.bytes) dec.now }
    ensures decimal { IsDecimal dec.now }
{
    let (negative, whole, fraction) = dec.around_point();
    print_point(negative, whole, fraction)
}
