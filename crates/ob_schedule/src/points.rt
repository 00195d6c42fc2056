//! Where schedules may write.
ghost use Rattle.std.specs.Prelude.{◌≡◌, IfOk};
ghost use Rattle.ob_schedule.specs.PointRules.{PointRules};

use ob_object::Kind;
use ob_values::{Text, Value};
use std::alloc::AllocError;

/// The writable points of a site.
pub trait Points {
    /// What the points are, and which values may be written to each.
    ghost rules: { Self → PointRules };

    /// The kind of the values of the writable point at a path; None for every other path. It takes no memory.
    fn kind_at(&self, path: &Text) -> Option<Kind>
        ensures { result ≡ (rules self.now).kind_at path.now };

    /// Whether a Put lets a value through to the point at a path. An error only for want of memory.
    fn lets(&self, path: &Text, value: &Value) -> Result<bool, AllocError>
        ensures { IfOk result (λ yes. yes ≡ (rules self.now).lets path.now value.now) };
}
