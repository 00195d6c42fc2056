//! What listens, gives doors and has them back.
ghost use Rattle.std.specs.Prelude.{◌≡◌, ℕ, ◌≤◌, List, [], ◌∷◌, IfOk, OnOk, MatchResult, is_err};
ghost use Rattle.std.specs.declared.option.Option.{Option};
ghost use Rattle.ob_io.specs.declared.cause.Cause.{Cause};
ghost use Rattle.ob_io.specs.declared.cause.Cause.TheVariants.{Untold};
ghost use Rattle.ob_io.specs.Faults.{HasCause, Rose};
ghost use Rattle.ob_io.specs.Told.{Gains};
ghost use Rattle.ob_io.specs.Visits.{raised};
ghost use Rattle.ob_io.specs.Doors.{Listening, Doorway, IsUnused, GainsDoor};

use crate::door::Door;
use crate::{Cause, Failed};

/// What listens on a place of the network, gives doors on it, and has them back.
pub trait Port {
    type D: Door + Send;

    /// How often a call failed, or a door came back that had failed.
    ghost faults: { Self → ℕ };

    /// Why the last call that failed was refused, as far as the system told it. Of a door that comes back it isn't told.
    ghost refusal: { Self → Cause };

    /// How many doors it has given.
    ghost opened: { Self → ℕ };

    /// How many doors it has back.
    ghost returned: { Self → ℕ };

    /// The places that it was to listen on, where they are told.
    ghost listens: { Self → Option (List Listening) };

    /// The doors that came back, where they are told.
    ghost doors: { Self → Option (List Doorway) };

    /// Listens on a port of a host.
    fn listen(&mut self, host: &str, port: u16) -> Result<(), Failed>
        ensures listens { Gains (listens self.old)
            (record { host = host.now; port = port; failed = is_err result } ∷ []) (listens self.new) }
        ensures apart { (opened self.new ≡ opened self.old) × (returned self.new ≡ returned self.old)
            × (doors self.new ≡ doors self.old) }
        ensures told { OnOk result (refusal self.new ≡ refusal self.old) }
        ensures cause { HasCause (faults self.old) (faults self.new) result };

    /// Why the last call that failed was refused, as far as the system told it.
    fn last_cause(&self) -> Cause
        ensures { result ≡ refusal self.now };

    /// A door that has not failed, has handed out no link and has none back.
    fn door(&mut self) -> Result<Self::D, Failed>
        ensures unused { IfOk result (λ door. IsUnused (Self.D.faults door) (Self.D.handed door)
            (Self.D.returned door) (Self.D.visits door)) }
        ensures opened { MatchResult result (λ door. opened self.new ≡ raised (opened self.old) 1)
            (λ _. opened self.new ≡ opened self.old) }
        ensures apart { (returned self.new ≡ returned self.old) × (listens self.new ≡ listens self.old)
            × (doors self.new ≡ doors self.old) }
        ensures told { IfOk result (λ _. refusal self.new ≡ refusal self.old) }
        ensures cause { HasCause (faults self.old) (faults self.new) result };

    /// Takes a door back. The count rises where the door's isn't 0.
    fn back(&mut self, door: Self::D)
        ensures door { GainsDoor (doors self.old) (doors self.new) (Self.D.faults door)
            (Self.D.handed door) (Self.D.returned door) (Self.D.is_closed door) (Self.D.visits door) }
        ensures returned { returned self.new ≡ raised (returned self.old) 1 }
        ensures whole { Self.D.faults door ≡ 0 → faults self.new ≡ faults self.old }
        ensures later { faults self.old ≤ faults self.new }
        ensures broken { ¬ (Self.D.faults door ≡ 0) → Rose (faults self.old) (faults self.new) }
        ensures told { Self.D.faults door ≡ 0 → refusal self.new ≡ refusal self.old }
        ensures untold { ¬ (Self.D.faults door ≡ 0) → refusal self.new ≡ Untold }
        ensures apart { (opened self.new ≡ opened self.old) × (listens self.new ≡ listens self.old) };
}
