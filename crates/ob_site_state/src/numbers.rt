//! What a rule looks at.
ghost use Rattle.std.specs.Prelude.{◌≡◌};
ghost use Rattle.ob_site_rules.specs.Writes.{number_in};

use ob_alarms::Num;
use ob_object::Slot;
use ob_values::Value;

/// The number that a rule looks at.
pub(crate) fn number_in(slot: &Slot) -> Option<Num>
    ensures { result ≡ number_in slot.now }
{
    match slot {
        Slot::Is(Value::Int(number)) => Some(Num::Int(*number)),
        Slot::Is(Value::Real(number)) => Some(Num::Real(*number)),
        _ => None,
    }
}
