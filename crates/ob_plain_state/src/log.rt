//! The log of a history.
ghost use Rattle.std.specs.Prelude.{IsTrue};
ghost use Rattle.std.specs.List.{list_all};
ghost use Rattle.ob_object.specs.Fits.{fits_slot};

use ob_history::Record;

/// The records of a history: how many are kept at most, if not all; how many rolled off; and the kept
/// ones, the oldest first.
pub struct OpenedLog {
    pub capacity: Option<u64>,
    pub gone: u64,
    pub kept: Vec<Record>,
    pub ghost values_fit: { IsTrue (list_all (λ r. fits_slot r.kind r.slot) kept.items) },
}

impl Drop for OpenedLog {
    // By one call, so that to drop it is one call to whoever may have to.
    fn drop(self) {
        let OpenedLog {
            capacity: _,
            gone: _,
            kept,
        } = self;
        drop(kept);
    }
}
