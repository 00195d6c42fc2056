//! Whole numbers.
ghost use Rattle.std.specs.Prelude.{◌≡◌, ◌↔◌, ℤ, Result, IsSome, IfSome, IfNone, FitsSigned};
ghost use Rattle.std.specs.Int.{w64};
ghost use Rattle.ob_spelling.specs.Numeral.{IsNumeral, after_sign, signed};
ghost use Rattle.ob_spelling.specs.declared.fault.ValueFault.{ValueFault};
ghost use Rattle.ob_values.specs.Integer.{IsSplitInteger};
ghost use Rattle.ob_values.specs.Readers.{ReadsInteger, ReadsInt};

use ob_spelling::{ValueFault, split_number, split_sign, trimmed, with_sign};

/// The whole number that the bytes spell: an optional sign and digits, with white space round them.
/// NotNumber where they have another form, Range where the number is no `i64`.
/// Source: oBIX 1.1, int; XML Schema part 2, xs:long.
pub fn read_int(bytes: &[u8]) -> Result<i64, ValueFault>
    ensures reads { ReadsInt bytes.now result }
    ensures only { (answer : Result ℤ ValueFault) → ReadsInt bytes.now answer → result ≡ answer }
{
    integer_of(trimmed(bytes))
}

// The whole number that the text spells.
fn integer_of(text: &[u8]) -> Result<i64, ValueFault>
    ensures { ReadsInteger text.now result }
{
    let Some((negative, size)) = split_integer(text) else {
        return Err(ValueFault::NotNumber);
    };
    let Some(number) = of_size(negative, size) else {
        return Err(ValueFault::Range);
    };
    Ok(number)
}

// Whether the text begins with a minus, and the number that its digits write, where it has the form.
pub(crate) fn split_integer(text: &[u8]) -> Option<(bool, u64)>
    ensures some { IfSome result (λ r. IsSplitInteger text.now r.0 r.1) }
    ensures none { IfNone result (¬ (IsNumeral (after_sign text.now))) }
{
    let (negative, digits) = split_sign(text);
    if digits.is_empty() {
        return None;
    }
    let (size, rest) = split_number(digits);
    if !rest.is_empty() {
        return None;
    }
    Some((negative, size))
}

// The number of that sign and size, where it is an `i64`.
fn of_size(negative: bool, size: u64) -> Option<i64>
    ensures some { IsSome result ↔ FitsSigned w64 (signed negative size) }
    ensures value { IfSome result (λ z. z ≡ signed negative size) }
{
    let number = with_sign(negative, size as u128);
    if number < i64::MIN as i128 || number > i64::MAX as i128 {
        return None;
    }
    Some(number as i64)
}
