//! Paths compared with others without making any.
ghost use Rattle.std.specs.Prelude.{◌≡◌, ◌<◌, ◌^◌, ◌++◌, ℕ, List, Some, false, bytes_eq};
ghost use Rattle.ob_alarms.specs.AlarmObjects.{alarm_path};

use ob_site_rules::Plan;
use ob_values::Text;

/// Whether a path is another with this behind it.
pub(crate) fn is_followed(front: &Text, tail: &str, path: &Text) -> bool
    ensures { result ≡ bytes_eq (front.now ++ tail.now) path.now }
{
    match path.as_str().strip_prefix(front.as_str()) {
        Some(rest) => tail == rest,
        None => false,
    }
}

/// Whether a path ends with a name.
pub(crate) fn is_ended(path: &Text, name: &str) -> bool
    ensures { result ≡ false → (front : List ℕ) → path.now ≡ front ++ name.now → ⊥ }
{
    path.as_str().ends_with(name)
}

/// The number that stands in a path where the path of an alarm has its own.
pub(crate) fn alarm_number(plan: &Plan, path: &Text) -> Option<u64>
    ensures { (n : ℕ) (t : List ℕ) → n < 2 ^ 64 → path.now ≡ alarm_path plan.now.root n ++ t → result ≡ Some n }
{
    let Some(below) = path.as_str().strip_prefix(plan.root.as_str()) else {
        return None;
    };
    let Some(numbered) = below.strip_prefix("alarm/") else {
        return None;
    };
    match numbered.split_once('/') {
        Some((digits, _)) => digits.parse().ok(),
        None => None,
    }
}
