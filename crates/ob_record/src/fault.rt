//! Why bytes are no record.
use std::alloc::{AllocError, AllocFailed};
use thiserror::Error;

/// Why bytes are no record of a run.
#[derive(Clone, Copy, PartialEq, Eq, Debug, Drop, Error)]
pub enum RecordFault {
    /// No run has the line or entry that begins at this place, in bytes from 0; all before it is the front of a record.
    #[error("Record {place}")]
    At { place: u64 },
    /// There was no memory.
    #[error("Memory")]
    Memory,
}

impl From<AllocError> for RecordFault {
    ghost use Rattle.std.specs.Prelude.{◌≡◌};
    ghost use Rattle.ob_record.specs.declared.fault.RecordFault.TheVariants.{Memory};

    ghost from_gives = { λ _ e. e ≡ Memory };

    fn from(_: AllocError) -> RecordFault {
        RecordFault::Memory
    }
}

impl<T: Drop> From<AllocFailed<T>> for RecordFault {
    ghost use Rattle.std.specs.Prelude.{◌≡◌};
    ghost use Rattle.ob_record.specs.declared.fault.RecordFault.TheVariants.{Memory};

    ghost from_gives = { λ _ e. e ≡ Memory };

    fn from(_: AllocFailed<T>) -> RecordFault {
        RecordFault::Memory
    }
}
