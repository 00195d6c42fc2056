//! A file as a journal has it: what a read gives, and what a crash may leave.
ghost use Rattle.std.specs.Prelude.{◌≡◌, ◌≤◌, List, ℕ, length, take, IfOk, OnOk};
ghost use Rattle.ob_io.specs.declared.cause.Cause.{Cause};
ghost use Rattle.ob_journal.specs.declared.device.DeviceFault.TheVariants.{Memory};
ghost use Rattle.ob_journal.specs.Device.{Only, Follows, Torn, Cut, Holds, Elapses, HasDeviceCause, KeepsRefusal};

use ob_io::Cause;
use std::alloc::{AllocError, AllocFailed, Global};
use thiserror::Error;

/// Why a call of a device was not done.
#[derive(Clone, Copy, Debug, PartialEq, Eq, Error)]
pub enum DeviceFault {
    /// The outside refused, and the device's count of faults rose.
    #[error("Failed")]
    Failed,
    /// Want of memory.
    #[error("Memory")]
    Memory,
}

impl From<AllocError> for DeviceFault {
    ghost from_gives = { λ _ e. e ≡ Memory };

    fn from(_: AllocError) -> Self {
        DeviceFault::Memory
    }
}

impl<T: Drop> From<AllocFailed<T>> for DeviceFault {
    ghost from_gives = { λ _ e. e ≡ Memory };

    fn from(_: AllocFailed<T>) -> Self {
        DeviceFault::Memory
    }
}

/// A file that is read whole, written at a place, cut and synced. What a crash may leave of it is told at each moment: so a
/// clause speaks of every moment inside a call, too.
pub trait Device {
    /// Whether what follows is told at all. A file of the disk tells nothing.
    ghost is_told: { Type 0 };

    /// The bytes that a read gives.
    ghost seen: { Self → List ℕ };

    /// The files that a crash at this moment may leave.
    ghost may_leave: { Self → List ℕ → Type 0 };

    /// The moment, as a number that doesn't fall.
    ghost moment: { Self → ℕ };

    /// The files that a crash at some moment from that one on might have left, during a call or between two.
    ghost left_since: { Self → ℕ → List ℕ → Type 0 };

    /// How often a call has failed.
    ghost faults: { Self → ℕ };

    /// Why the last call that failed was refused, as far as the system told it.
    ghost refusal: { Self → Cause };

    /// All the bytes.
    fn read(&mut self, alloc: Global) -> Result<Vec<u8>, DeviceFault>
        ensures bytes { is_told → IfOk result (λ bytes. bytes.items ≡ seen self.old) }
        ensures seen { is_told → seen self.new ≡ seen self.old }
        ensures crash { is_told → (c : List ℕ) → may_leave self.new c → may_leave self.old c }
        ensures time { is_told → Elapses (moment self.old) (moment self.new)
            (left_since self.old) (left_since self.new) (may_leave self.new) }
        ensures told { KeepsRefusal (refusal self.old) (refusal self.new) result }
        ensures cause { HasDeviceCause (faults self.old) (faults self.new) result };

    /// Writes over what is there, and past the end. Until a sync, a crash may leave any bytes in the range.
    fn write_at(&mut self, at: usize, bytes: &[u8]) -> Result<(), DeviceFault>
        requires { is_told → at ≤ length (seen self.old) }
        ensures written { is_told → OnOk result (Holds (seen self.old) at bytes.now (seen self.new)) }
        ensures crash { is_told → Follows (Torn at (length bytes.now)) (may_leave self.old) (may_leave self.new) }
        ensures time { is_told → Elapses (moment self.old) (moment self.new)
            (left_since self.old) (left_since self.new) (may_leave self.new) }
        ensures told { KeepsRefusal (refusal self.old) (refusal self.new) result }
        ensures cause { HasDeviceCause (faults self.old) (faults self.new) result };

    /// Cuts the file to a length in bytes. Until a sync, a crash may leave any longer front.
    fn cut(&mut self, len: usize) -> Result<(), DeviceFault>
        requires { is_told → len ≤ length (seen self.old) }
        ensures cut { is_told → OnOk result (seen self.new ≡ take len (seen self.old)) }
        ensures crash { is_told → Follows (Cut len) (may_leave self.old) (may_leave self.new) }
        ensures time { is_told → Elapses (moment self.old) (moment self.new)
            (left_since self.old) (left_since self.new) (may_leave self.new) }
        ensures told { KeepsRefusal (refusal self.old) (refusal self.new) result }
        ensures cause { HasDeviceCause (faults self.old) (faults self.new) result };

    /// After it, a crash leaves what a read gives.
    fn sync(&mut self) -> Result<(), DeviceFault>
        ensures durable { is_told → OnOk result (Only (seen self.old) (may_leave self.new)) }
        ensures seen { is_told → seen self.new ≡ seen self.old }
        ensures crash { is_told → (c : List ℕ) → may_leave self.new c → may_leave self.old c }
        ensures time { is_told → Elapses (moment self.old) (moment self.new)
            (left_since self.old) (left_since self.new) (may_leave self.new) }
        ensures told { KeepsRefusal (refusal self.old) (refusal self.new) result }
        ensures cause { HasDeviceCause (faults self.old) (faults self.new) result };

    /// This moment is one of those since an earlier one.
    ghost counts_now: { (file : Self) (t : ℕ) (c : List ℕ) → t ≤ moment file → may_leave file c → left_since file t c };

    /// Since this moment there is no other.
    ghost only_now: { (file : Self) (c : List ℕ) → left_since file (moment file) c → may_leave file c };
}
