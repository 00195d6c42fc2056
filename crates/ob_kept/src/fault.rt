//! Why a RECORD gives no site.
use ob_load::LoadFault;
use ob_record_journal::WritingFault;
use std::alloc::{AllocError, AllocFailed};

/// Why a RECORD gives no site.
#[derive(Drop)]
pub enum ReopenFault {
    /// The file says no run, and ceases to at this place, in bytes.
    Record { place: u64 },
    /// The reply that the entry at this place keeps, from 0, isn't the site's: the site file is another.
    Illegal { entry: u64 },
    /// The site file opens no site.
    Site(LoadFault),
    /// The device refused, and its count of faults rose.
    Device,
    /// Want of memory.
    Memory,
}

impl From<AllocError> for ReopenFault {
    ghost use Rattle.std.specs.Prelude.{◌≡◌};
    ghost use Rattle.ob_kept.specs.declared.fault.ReopenFault.TheVariants.{Memory};

    ghost from_gives = { λ _ e. e ≡ Memory };

    fn from(_: AllocError) -> ReopenFault {
        ReopenFault::Memory
    }
}

impl<T: Drop> From<AllocFailed<T>> for ReopenFault {
    ghost use Rattle.std.specs.Prelude.{◌≡◌};
    ghost use Rattle.ob_kept.specs.declared.fault.ReopenFault.TheVariants.{Memory};

    ghost from_gives = { λ _ e. e ≡ Memory };

    fn from(_: AllocFailed<T>) -> ReopenFault {
        ReopenFault::Memory
    }
}

/// Why no shorter record was written.
#[derive(Drop)]
pub enum CompactFault {
    /// The record gives no site.
    Reopen(ReopenFault),
    /// The file for the new record has more than 14 bytes: it isn't new, and it was left as it was.
    Taken,
}

impl From<ReopenFault> for CompactFault {
    ghost use Rattle.std.specs.Prelude.{◌≡◌};
    ghost use Rattle.ob_kept.specs.declared.fault.CompactFault.TheVariants.{Reopen};

    ghost from_gives = { λ fault e. e ≡ Reopen fault };

    fn from(fault: ReopenFault) -> CompactFault {
        CompactFault::Reopen(fault)
    }
}

impl From<WritingFault> for CompactFault {
    ghost use Rattle.std.specs.Prelude.{◌≡◌};
    ghost use Rattle.ob_kept.specs.Compacting.{fault_of_writing};

    ghost from_gives = { λ fault e. e ≡ fault_of_writing fault };

    fn from(fault: WritingFault) -> CompactFault {
        match fault {
            WritingFault::Taken => CompactFault::Taken,
            WritingFault::Failed => CompactFault::Reopen(ReopenFault::Device),
            WritingFault::Memory => CompactFault::Reopen(ReopenFault::Memory),
        }
    }
}
