//! Links that know whether a call failed.
ghost use Rattle.std.specs.Prelude.{◌≡◌, ◌==◌, ◌&&◌, not};

use crate::link::Link;

/// A link that knows whether one of its calls failed.
pub trait Counting: Link {
    /// Whether a read or a write has failed.
    fn has_failed(&self) -> bool
        ensures { result ≡ not ((Self.read_faults self.now == 0) && (Self.write_faults self.now == 0)) };
}
