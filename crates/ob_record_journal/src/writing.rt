//! A record that is written as a whole.
ghost use Rattle.std.specs.Prelude.{◌≡◌, ◌≤◌, length, option_copied, IfOk, OnOk, IfErr};
ghost use Rattle.ob_journal.specs.Device.{Only};
ghost use Rattle.ob_record_journal.specs.Writing.{HasWritingCause, IsWhole, LeavesOld, SaysRecord, Unwritten};

use crate::laws::record_at_rest;
use ob_journal::{Device, DeviceFault};
use ob_record::{Run, one_run};
use std::alloc::{AllocError, AllocFailed, Global};
use thiserror::Error;

/// A file at rest that says no entry. No file that is longer is new.
const NO_ENTRY: &[u8] = b"obix-record 1\0";

/// Why no record was written.
#[derive(Clone, Copy, Debug, PartialEq, Eq, Drop, Error)]
pub enum WritingFault {
    /// The file has more than 14 bytes, so it isn't new; and it was left as it was.
    #[error("Taken")]
    Taken,
    /// The device refused, and its count of faults rose.
    #[error("Failed")]
    Failed,
    /// Want of memory.
    #[error("Memory")]
    Memory,
}

impl From<AllocError> for WritingFault {
    ghost use Rattle.std.specs.Prelude.{◌≡◌};
    ghost use Rattle.ob_record_journal.specs.declared.writing.WritingFault.TheVariants.{Memory};

    ghost from_gives = { λ _ e. e ≡ Memory };

    fn from(_: AllocError) -> WritingFault {
        WritingFault::Memory
    }
}

impl<T: Drop> From<AllocFailed<T>> for WritingFault {
    ghost use Rattle.std.specs.Prelude.{◌≡◌};
    ghost use Rattle.ob_record_journal.specs.declared.writing.WritingFault.TheVariants.{Memory};

    ghost from_gives = { λ _ e. e ≡ Memory };

    fn from(_: AllocFailed<T>) -> WritingFault {
        WritingFault::Memory
    }
}

impl From<DeviceFault> for WritingFault {
    ghost use Rattle.std.specs.Prelude.{◌≡◌};
    ghost use Rattle.ob_record_journal.specs.Writing.{fault_of_device};

    ghost from_gives = { λ fault e. e ≡ fault_of_device fault };

    fn from(fault: DeviceFault) -> WritingFault {
        match fault {
            DeviceFault::Failed => WritingFault::Failed,
            DeviceFault::Memory => WritingFault::Memory,
        }
    }
}

/// The bytes of a file at rest that says a run: its record, with the byte 0 in the place of the last line feed. Without a run, or
/// where it has no entry, it says none.
fn whole_text(alloc: Global, run: Option<&Run>) -> Result<Vec<u8>, AllocError>
    ensures whole { IfOk result (λ text. IsWhole (option_copied run.entry) text.items) }
    ensures long { IfOk result (λ text. 14 ≤ length text.items) }
{
    one_run();
    record_at_rest();
    let Some(run) = run else {
        return NO_ENTRY.to_vec(alloc);
    };
    run.is_record();
    if run.len() == 0 {
        return NO_ENTRY.to_vec(alloc);
    }
    let record = run.as_slice();
    let mut text = record[..record.len() - 1].to_vec(alloc)?;
    text.push(0)?;
    Ok(text)
}

/// Writes the record of a run to a new file, one of at most 14 bytes; without a run, a record of no entry. At `Ok` it is on the
/// disk, and it says the run. A crash before that may leave any bytes there.
pub fn write_whole<D: Device>(
    alloc: Global,
    device: &mut D,
    run: Option<&Run>,
) -> Result<(), WritingFault>
    ensures says { D.is_told → OnOk result (SaysRecord (D.seen device.new) (option_copied run.entry)) }
    ensures durable { D.is_told → OnOk result (Only (D.seen device.new) (D.may_leave device.new)) }
    ensures unwritten { D.is_told → IfErr result (Unwritten (D.seen device.old)) }
    ensures old { D.is_told → LeavesOld D.seen D.may_leave device.old device.new }
    ensures cause { HasWritingCause (D.faults device.old) (D.faults device.new) result }
{
    record_at_rest();
    let text = whole_text(alloc, run)?;
    let there = device.read(alloc)?;
    if there.len() > NO_ENTRY.len() {
        return Err(WritingFault::Taken);
    }
    device.write_at(0, &text)?;
    device.sync()?;
    Ok(())
}
