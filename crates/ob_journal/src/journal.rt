//! Entries on a device, each on the disk before it is acknowledged.
ghost use Rattle.std.specs.Prelude.{◌≡◌, ◌↔◌, ◌≤◌, ◌+◌, ◌++◌, [], ◌∷◌, List, ℕ, length, OnOk, OnErr, IsErrOf};
ghost use Rattle.ob_io.specs.Faults.{Rose};
ghost use Rattle.ob_journal.specs.Device.{LeavesOnly};
ghost use Rattle.ob_journal.specs.Journal.{append_fault_of, IsTooLong, IsBeforeOrAfter, IsSettled, IsAtRest};
ghost use Rattle.ob_journal.specs.declared.journal.AppendFault.TheVariants as append_fault;

use crate::{Device, DeviceFault, Shape};
use thiserror::Error;

/// Why an entry was not appended.
#[derive(Clone, Copy, Debug, PartialEq, Eq, Error)]
pub enum AppendFault {
    /// The file would have more than 1,073,741,824 bytes. Nothing was done.
    #[error("Full")]
    Full,
    /// The outside refused, and the device's count of faults rose.
    #[error("Failed")]
    Failed,
    /// Want of memory.
    #[error("Memory")]
    Memory,
}

impl From<DeviceFault> for AppendFault {
    ghost from_gives = { λ fault e. e ≡ append_fault_of fault };

    fn from(fault: DeviceFault) -> Self {
        match fault {
            DeviceFault::Failed => AppendFault::Failed,
            DeviceFault::Memory => AppendFault::Memory,
        }
    }
}

/// How many bytes a file has at most.
pub const MAX_BYTES: usize = 1_073_741_824;

/// A device whose file is entries at rest, and the place of the closed gate behind them, in bytes.
#[derive(Drop)]
pub struct Journal<D: Device> {
    pub device: D,
    pub end: usize,
}

impl<D: Device> Journal<D> {
    /// Appends an entry, which is given with a closed gate (the byte 0) behind it.
    ///
    /// At `Ok` it is acknowledged: from then on each crash leaves a file that has it. At `Full` nothing was done. At another
    /// `Err` the file says the entries with this one or without it: nothing may be appended any more, and it is to be opened
    /// again.
    pub fn append<S: Shape>(&mut self, closed: &[u8]) -> Result<(), AppendFault>
        requires at_rest { D.is_told → IsAtRest S.is_entry D.seen D.may_leave self.old.device self.old.end }

        ensures acknowledged { D.is_told → (entries : List (List ℕ)) (e : List ℕ)
            → IsSettled S.is_entry D.seen D.may_leave entries self.old.device self.old.end
            → S.is_entry e → closed.now ≡ e ++ 0 ∷ []
            → OnOk result (IsSettled S.is_entry D.seen D.may_leave (entries ++ e ∷ []) self.new.device self.new.end) }

        // A crash at any moment of the call leaves the entries from before it, with the new one or without.
        ensures any_moment { D.is_told → (entries : List (List ℕ)) (e : List ℕ)
            → IsSettled S.is_entry D.seen D.may_leave entries self.old.device self.old.end
            → S.is_entry e → closed.now ≡ e ++ 0 ∷ []
            → LeavesOnly D.moment D.left_since self.old.device self.new.device (IsBeforeOrAfter S.is_entry entries e) }

        ensures end { OnOk result (self.new.end ≡ self.old.end + length closed.now) }
        ensures end_kept { OnErr result (self.new.end ≡ self.old.end) }
        ensures full { IsErrOf result append_fault.Full ↔ IsTooLong self.old.end closed.now }
        ensures untouched { IsErrOf result append_fault.Full → self.new ≡ self.old }
        ensures failed { IsErrOf result append_fault.Failed → Rose (D.faults self.old.device) (D.faults self.new.device) }
        ensures later { D.faults self.old.device ≤ D.faults self.new.device }
    {
        if closed.len() >= MAX_BYTES.saturating_sub(self.end) {
            return Err(AppendFault::Full);
        }
        let gate = self.end;
        self.device.write_at(gate + 1, closed)?;
        self.device.sync()?;
        self.device.write_at(gate, &[10])?;
        self.device.sync()?;
        self.end = gate + closed.len();
        Ok(())
    }
}
