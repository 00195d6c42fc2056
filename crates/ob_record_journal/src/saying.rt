//! What the file of a device says of a run.
ghost use Rattle.std.specs.Prelude.{◌≡◌, ℕ, List, IfOk, IfErr};
ghost use Rattle.ob_journal.specs.Device.{LeavesOnly};
ghost use Rattle.ob_journal.specs.Journal.{Finds};
ghost use Rattle.ob_journal.specs.declared.opening.Extent.TheVariants as extent;
ghost use Rattle.ob_record.specs.Blocks.{IsBlock};
ghost use Rattle.ob_record_journal.specs.Saying.{IsSaid, Unsaid, UnsaidBy, HasPlace, HasSayingCause};

use crate::blocks::Blocks;
use crate::laws::record_at_rest;
use ob_journal::{Device, DeviceFault, Extent, find, one_meaning};
use ob_record::{RecordFault, Run, read_record, spelled_is_unbroken};
use std::alloc::{AllocError, AllocFailed, Global};
use thiserror::Error;

/// How many bytes the first line has, without its line feed.
const FIRST_LINE: usize = 13;

/// Why no run was read of a device.
#[derive(Clone, Copy, Debug, PartialEq, Eq, Drop, Error)]
pub enum SayingFault {
    /// The file says no run. The place is where it ceases to be a journal's, or that of the first line or entry that no run
    /// has, in bytes from 0.
    #[error("Record {place}")]
    Record { place: u64 },
    /// The device refused, and its count of faults rose.
    #[error("Failed")]
    Failed,
    /// Want of memory.
    #[error("Memory")]
    Memory,
}

impl From<AllocError> for SayingFault {
    ghost use Rattle.std.specs.Prelude.{◌≡◌};
    ghost use Rattle.ob_record_journal.specs.declared.saying.SayingFault.TheVariants.{Memory};

    ghost from_gives = { λ _ e. e ≡ Memory };

    fn from(_: AllocError) -> SayingFault {
        SayingFault::Memory
    }
}

impl<T: Drop> From<AllocFailed<T>> for SayingFault {
    ghost use Rattle.std.specs.Prelude.{◌≡◌};
    ghost use Rattle.ob_record_journal.specs.declared.saying.SayingFault.TheVariants.{Memory};

    ghost from_gives = { λ _ e. e ≡ Memory };

    fn from(_: AllocFailed<T>) -> SayingFault {
        SayingFault::Memory
    }
}

/// What a file says: how far its entries go, and the run that they are, where there are some.
#[derive(Drop)]
pub struct Said {
    pub extent: Extent,
    pub run: Option<Run>,
}

/// The run of the entries that end at this place.
fn run_to(alloc: Global, mut bytes: Vec<u8>, end: usize) -> Result<Option<Run>, SayingFault>
    requires { Finds IsBlock bytes.items (extent.Entries end) }
    ensures said { IfOk result (IsSaid bytes.items) }
    ensures none { IfErr result (UnsaidBy bytes.items) }
    ensures place { IfErr result (HasPlace bytes.items) }
{
    one_meaning::<Blocks>();
    record_at_rest();
    spelled_is_unbroken();
    if end == FIRST_LINE {
        return Ok(None);
    }
    bytes.truncate(end);
    bytes.push(b'\n')?;
    match read_record(alloc, bytes) {
        Ok(run) => Ok(Some(run)),
        Err(RecordFault::At { place }) => Err(SayingFault::Record { place }),
        Err(RecordFault::Memory) => Err(SayingFault::Memory),
    }
}

/// What bytes say.
fn said_by(alloc: Global, bytes: Vec<u8>) -> Result<Said, SayingFault>
    ensures extent { IfOk result (λ said. Finds IsBlock bytes.items said.extent) }
    ensures said { IfOk result (λ said. IsSaid bytes.items said.run) }
    ensures none { IfErr result (UnsaidBy bytes.items) }
    ensures place { IfErr result (HasPlace bytes.items) }
{
    let found = match find::<Blocks>(&bytes) {
        Ok(found) => found,
        Err(fault) => {
            return Err(SayingFault::Record {
                place: fault.place as u64,
            });
        }
    };
    let run = match found {
        Extent::Unmade => None,
        Extent::Entries { end } => run_to(alloc, bytes, end)?,
    };
    Ok(Said { extent: found, run })
}

/// What the file of a device says of a run. The device is read, and not changed.
///
/// `Record` comes exactly where the file says no run. Its place is where the file ceases to be a journal's; in a journal it is
/// that of the first line or entry that no run has.
pub fn read_said<D: Device>(alloc: Global, device: &mut D) -> Result<Said, SayingFault>
    ensures extent { D.is_told → IfOk result (λ said. Finds IsBlock (D.seen device.old) said.extent) }
    ensures said { D.is_told → IfOk result (λ said. IsSaid (D.seen device.old) said.run) }
    ensures none { D.is_told → IfErr result (Unsaid (D.seen device.old)) }
    ensures place { D.is_told → IfErr result (HasPlace (D.seen device.old)) }
    ensures seen { D.is_told → D.seen device.new ≡ D.seen device.old }
    ensures crash { D.is_told → (c : List ℕ) → D.may_leave device.new c → D.may_leave device.old c }
    ensures any_moment { D.is_told → LeavesOnly D.moment D.left_since device.old device.new (D.may_leave device.old) }
    ensures cause { HasSayingCause (D.faults device.old) (D.faults device.new) result }
{
    match device.read(alloc) {
        Ok(bytes) => said_by(alloc, bytes),
        Err(DeviceFault::Failed) => Err(SayingFault::Failed),
        Err(DeviceFault::Memory) => Err(SayingFault::Memory),
    }
}
