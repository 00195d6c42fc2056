//! Records, and filters on them.
ghost use Rattle.std.specs.Prelude.{◌≡◌};
ghost use Rattle.ob_object.specs.Kinds.{has_values};
ghost use Rattle.ob_history.specs.Records.{holds_value, is_record};

use ob_object::{Kind, Slot};
use ob_values::Abstime;

/// The value that a point took at an instant.
///
/// The kind is that of the point, one of the ten that have values; the slot is Null or a value of it.
/// Source: oBIX 1.1, section 14.2 (HistoryRecord).
#[derive(Drop)]
pub struct Record {
    pub time: Abstime,
    pub kind: Kind,
    pub slot: Slot,
}

// Whether a slot is Null or a value of the kind.
fn holds_value(kind: Kind, slot: &Slot) -> bool
    ensures { result ≡ holds_value kind slot.now }
{
    match slot {
        Slot::Absent => false,
        Slot::Null => true,
        Slot::Is(value) => kind.fits_value(value),
    }
}

impl Record {
    /// Whether the kind has values, and the slot is Null or one of them, as a log asks it.
    pub fn fits(&self) -> bool
        ensures { result ≡ is_record self.now }
    {
        self.kind.has_values() && holds_value(self.kind, &self.slot)
    }
}

/// What a query asks for: so many records at most, none before `start` and none after `end`, both
/// compared as instants, whatever their offsets.
///
/// Source: oBIX 1.1, section 14.2 (HistoryFilter).
#[derive(Clone, Copy)]
pub struct Filter {
    pub limit: u64,
    pub start: Option<Abstime>,
    pub end: Option<Abstime>,
}

/// What a query of a history asks for: what its filter says, of those records alone whose number is at
/// least `from`, where it gives one. The first record that a history ever had has the number 0.
///
/// Source: this profile's own; oBIX 1.1, section 14.2 (HistoryFilter), asks by times alone.
#[derive(Clone, Copy)]
pub struct Query {
    pub filter: Filter,
    pub from: Option<u64>,
}

/// Records that stand one behind the other in a log, in two slices, and the number of the first of them.
/// Where there are none, the number says nothing.
pub struct Stretch<'a> {
    pub first: u64,
    pub front: &'a [Record],
    pub back: &'a [Record],
}
