//! Where devices are opened by name.
ghost use Rattle.std.specs.Prelude.{◌≡◌, ℕ, ◌≤◌, List, [], ◌∷◌, Option, true, false, IfOk, MatchResult};
ghost use Rattle.ob_io.specs.Faults.{Rose};
ghost use Rattle.ob_io.specs.Told.{Gains};
ghost use Rattle.ob_io.specs.declared.cause.Cause.{Cause};
ghost use Rattle.ob_journal.specs.Device.{Only, HasDeviceCause, KeepsRefusal};
ghost use Rattle.ob_journal.specs.Opened.{Opened};

use crate::{Device, DeviceFault};
use ob_io::Cause;
use std::alloc::Global;

/// What opens devices by name, and has them back.
pub trait Devices {
    type D: Device;

    /// How often a device could not be opened, or came back that had failed.
    ghost faults: { Self → ℕ };

    /// Why the last call that failed was refused, or the last one of the last device that came back and had failed, as far
    /// as the system told it.
    ghost refusal: { Self → Cause };

    /// The devices that it has opened, as they were then, where they are told.
    ghost given: { Self → Option (List (Opened Self.D)) };

    /// The devices that came back, where they are told.
    ghost returned: { Self → Option (List Self.D) };

    /// The device of a name, which is made where there is none. It has not failed.
    fn open(&mut self, alloc: Global, name: &str) -> Result<Self::D, DeviceFault>
        // What a read gives is what is on the disk.
        ensures durable { IfOk result (λ device. Self.D.is_told → Only (Self.D.seen device) (Self.D.may_leave device)) }
        ensures fresh { IfOk result (λ device. Self.D.faults device ≡ 0) }
        ensures given { MatchResult result
            (λ device. Gains (given self.old) (record { name = name.now; device = device } ∷ []) (given self.new))
            (λ _. given self.new ≡ given self.old) }
        ensures apart { returned self.new ≡ returned self.old }
        ensures told { KeepsRefusal (refusal self.old) (refusal self.new) result }
        ensures cause { HasDeviceCause (faults self.old) (faults self.new) result };

    /// Why the last call that failed was refused, as far as the system told it.
    fn last_cause(&self) -> Cause
        ensures { result ≡ refusal self.now };

    /// Takes a device back, and tells whether it had failed: then the count rises.
    fn back(&mut self, device: Self::D) -> bool
        ensures returned { Gains (returned self.old) (device ∷ []) (returned self.new) }
        ensures apart { given self.new ≡ given self.old }
        ensures whole { result ≡ false → (Self.D.faults device ≡ 0) × (faults self.new ≡ faults self.old) }
        ensures kept { result ≡ false → refusal self.new ≡ refusal self.old }
        ensures told { result ≡ true → refusal self.new ≡ Self.D.refusal device }
        ensures broken { result ≡ true → ¬ (Self.D.faults device ≡ 0) × Rose (faults self.old) (faults self.new) };
}
