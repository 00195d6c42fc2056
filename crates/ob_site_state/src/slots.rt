//! Slots that are one.
ghost use Rattle.std.specs.Prelude.{◌≡◌, ◌↔◌, IsTrue};
ghost use Rattle.ob_site_rules.specs.Sameness.{same_slot};

use ob_object::Slot;

/// Whether two slots are equal.
fn is_equal(slot: &Slot, other: &Slot) -> bool
    ensures { IsTrue result ↔ (slot.now ≡ other.now) }
{
    match (slot, other) {
        (Slot::Is(value), Slot::Is(other)) => value.same(other),
        (Slot::Null, Slot::Null) | (Slot::Absent, Slot::Absent) => true,
        _ => false,
    }
}

/// Whether two slots are one.
pub fn same_slot(slot: &Slot, other: &Slot) -> bool
    ensures { result ≡ same_slot slot.now other.now }
{
    is_equal(slot, other)
}
