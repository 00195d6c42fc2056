//! What dials links and has them back.
ghost use Rattle.std.specs.Prelude.{◌≡◌, ℕ, ◌≤◌, Bool, List, [], ◌∷◌, IfOk, IsSome, IsTrue, true, false, is_err};
ghost use Rattle.std.specs.declared.option.Option.{Option};
ghost use Rattle.ob_io.specs.Faults.{HasCause, Rose};
ghost use Rattle.ob_io.specs.Told.{Gains};
ghost use Rattle.ob_io.specs.Links.{IsFresh};
ghost use Rattle.ob_io.specs.Dials.{Dial, Visit, IsVisit};

use crate::Failed;
use crate::link::Link;

/// What dials links and has them back.
pub trait Dialer {
    type L: Link;

    /// How often a dial failed, or a link came back of which a call had failed.
    ghost faults: { Self → ℕ };

    /// Whether the last call raised that count.
    ghost rose: { Self → Bool };

    /// What was dialled, where that is told.
    ghost dials: { Self → Option (List Dial) };

    /// The links that came back, where they are told.
    ghost visits: { Self → Option (List Visit) };

    /// A link to a port of a host, with which nothing was done yet.
    fn dial(&mut self, host: &str, port: u16) -> Result<Self::L, Failed>
        ensures fresh { IfOk result (λ link. IsFresh (Self.L.taken link) (Self.L.held link)
            (Self.L.read_faults link) (Self.L.write_faults link)) }
        ensures dials { Gains (dials self.old)
            (record { host = host.now; port = port; failed = is_err result } ∷ []) (dials self.new) }
        ensures cause { HasCause (faults self.old) (faults self.new) result }
        ensures rose { rose self.new ≡ is_err result }
        ensures apart { visits self.new ≡ visits self.old };

    /// The same, and all that is done until a call of the link's `within`, this dial included, may take so many milliseconds: a
    /// dial that has no link by then fails, and so does a read or a write that goes on for longer. No clause promises that.
    fn dial_within(&mut self, host: &str, port: u16, ms: u32) -> Result<Self::L, Failed>
        ensures fresh { IfOk result (λ link. IsFresh (Self.L.taken link) (Self.L.held link)
            (Self.L.read_faults link) (Self.L.write_faults link)) }
        ensures dials { Gains (dials self.old)
            (record { host = host.now; port = port; failed = is_err result } ∷ []) (dials self.new) }
        ensures cause { HasCause (faults self.old) (faults self.new) result }
        ensures rose { rose self.new ≡ is_err result }
        ensures apart { visits self.new ≡ visits self.old };

    /// Takes a link back. The count rises where one of the link's isn't 0.
    fn back(&mut self, link: Self::L)
        ensures visit { (visit : Visit) × Gains (visits self.old) (visit ∷ []) (visits self.new)
            × (IsSome (visits self.new) → IsVisit visit (Self.L.left link) (Self.L.taken link)
            (Self.L.held link) (Self.L.read_faults link) (Self.L.write_faults link)) }
        ensures whole { (Self.L.read_faults link ≡ 0) × (Self.L.write_faults link ≡ 0)
            → (faults self.new ≡ faults self.old) × (rose self.new ≡ false) }
        ensures later { faults self.old ≤ faults self.new }
        ensures broken { ¬ ((Self.L.read_faults link ≡ 0) × (Self.L.write_faults link ≡ 0))
            → Rose (faults self.old) (faults self.new) × (rose self.new ≡ true) }
        ensures apart { dials self.new ≡ dials self.old };
}
