//! Numbers on the command line.
ghost use Rattle.std.specs.Prelude.{◌≡◌, ◌≤◌, IfSome};
ghost use Rattle.ob_command.specs.Number.{number_up_to, number_between};

use ob_spelling::split_number;

/// The largest number of 18 digits.
pub(crate) const LARGEST_NUMBER: u64 = 999_999_999_999_999_999;

/// The number that a text of 1 to 18 digits writes, where it is at most `most`.
fn number_up_to(text: &[u8], most: u64) -> Option<u64>
    ensures { result ≡ number_up_to most text.now }
{
    if text.is_empty() || text.len() > 18 {
        return None;
    }
    match split_number(text) {
        (number, []) if number <= most => Some(number),
        _ => None,
    }
}

/// The number that a text of 1 to 18 digits writes, where it is at least `least` and at most `most`.
pub(crate) fn number_between(text: &[u8], least: u64, most: u64) -> Option<u64>
    ensures value { result ≡ number_between least most text.now }
    ensures fits { IfSome result (λ number. number ≤ most) }
    ensures at_least { IfSome result (λ number. least ≤ number) }
{
    match number_up_to(text, most) {
        Some(number) if least <= number && number <= most => Some(number),
        _ => None,
    }
}
