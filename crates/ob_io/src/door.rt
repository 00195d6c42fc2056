//! What hands out links and has them back.
ghost use Rattle.std.specs.Prelude.{◌≡◌, ℕ, Bool, true, List, [], ◌∷◌, IfOk, IfSome, IfNone, IsSome, MatchResult, MatchOption};
ghost use Rattle.std.specs.declared.option.Option.{Option};
ghost use Rattle.ob_io.specs.Faults.{HasCause};
ghost use Rattle.ob_io.specs.Told.{Gains};
ghost use Rattle.ob_io.specs.Visits.{Visit, IsFresh, IsVisit, raised};

use crate::Failed;
use crate::link::Link;

/// What hands out links, one after the other, and has them back.
pub trait Door {
    type L: Link;

    /// How often it has failed.
    ghost faults: { Self → ℕ };

    /// How many links it has handed out.
    ghost handed: { Self → ℕ };

    /// How many links it has back.
    ghost returned: { Self → ℕ };

    /// Whether it is closed.
    ghost is_closed: { Self → Bool };

    /// The links that came back, where they are told.
    ghost visits: { Self → Option (List Visit) };

    /// The next link, with which nothing was done yet, or none where the door is closed.
    fn accept(&mut self) -> Result<Option<Self::L>, Failed>
        ensures fresh { IfOk result (λ next. IfSome next (λ link. IsFresh (Self.L.taken link)
            (Self.L.held link) (Self.L.read_faults link) (Self.L.write_faults link))) }
        ensures handed { MatchResult result
            (λ next. MatchOption next (handed self.new ≡ handed self.old)
            (λ link. handed self.new ≡ raised (handed self.old) 1))
            (λ _. handed self.new ≡ handed self.old) }
        ensures closed { IfOk result (λ next. IfNone next (is_closed self.new ≡ true)) }
        ensures apart { (returned self.new ≡ returned self.old) × (visits self.new ≡ visits self.old) }
        ensures cause { HasCause (faults self.old) (faults self.new) result };

    /// Takes a link back.
    fn back(&mut self, link: Self::L)
        ensures returned { returned self.new ≡ raised (returned self.old) 1 }
        ensures visit { (visit : Visit) × Gains (visits self.old) (visit ∷ []) (visits self.new)
            × (IsSome (visits self.new) → IsVisit visit (Self.L.left link) (Self.L.taken link)
            (Self.L.held link) (Self.L.read_faults link) (Self.L.write_faults link)) }
        ensures apart { (handed self.new ≡ handed self.old) × (faults self.new ≡ faults self.old)
            × (is_closed self.new ≡ is_closed self.old) };

    /// Closes it. Takes no memory.
    fn close(&mut self)
        ensures closed { is_closed self.new ≡ true }
        ensures apart { (handed self.new ≡ handed self.old) × (returned self.new ≡ returned self.old)
            × (faults self.new ≡ faults self.old) × (visits self.new ≡ visits self.old) };
}
