//! Reading a record.
ghost use Rattle.std.specs.Prelude.{◌≡◌, ◌≤◌, List, IfOk, IfErr, length, option_map};
ghost use Rattle.ob_record.specs.Broken.{BreaksOff, Breaks};
ghost use Rattle.ob_record.specs.Runs.{AreEntries, IsMeasured, IsRecord};
ghost use Rattle.ob_record.specs.declared.run.Entry.{Entry};
ghost use Rattle.ob_record.specs.Reading.{boot_at};

use crate::decode::next_entry;
use crate::fault::RecordFault;
use crate::parts::{after, take_number};
use crate::run::Run;
use ob_times::Moment;
use std::alloc::Global;

/// The first line of a record.
const FIRST_LINE: &[u8] = b"obix-record 1\n";

/// The number of the second line, and what follows; None where it has another form.
#[tactic(auto, unfolding(crate::specs::Reading::boot_at))]
pub(crate) fn take_boot(bytes: &[u8]) -> Option<(u64, &[u8])>
    ensures { option_map (λ x. (x.0, x.1.now)) result ≡ boot_at bytes.now }
{
    let rest = after(bytes, b"boot ")?;
    take_number(rest, b'\n')
}

/// How many entries the bytes are. Where they are none, the fault tells the place at which the first that is none begins, in
/// bytes from the start of a record of so many bytes, whose end they are.
fn count_entries(alloc: Global, bytes: &[u8], whole: usize) -> Result<u64, RecordFault>
    requires { length bytes.now ≤ whole }
    ensures found { IfOk result (λ len. (entries : List Entry) × AreEntries entries bytes.now × (len ≡ length entries)) }
    ensures broken { IfErr result (Breaks bytes.now whole) }
{
    let mut len: u64 = 0;
    let mut rest = bytes;
    'entries: while !rest.is_empty() {
        let Some(found) = next_entry(alloc, rest)? else {
            let place = (whole - rest.len()) as u64;
            return Err(RecordFault::At { place });
        };
        len += 1;
        rest = found.1;
    }
    Ok(len)
}

/// A record, as it was measured: its moment, where its entries begin, in bytes, and how many they are.
#[derive(Clone, Copy)]
struct Measured {
    boot: Moment,
    first: usize,
    len: u64,
}

/// The measures of the record that the bytes are.
fn measure(alloc: Global, bytes: &[u8]) -> Result<Measured, RecordFault>
    ensures run { IfOk result (λ m. IsMeasured bytes.now m.boot m.first m.len) }
    ensures broken { IfErr result (BreaksOff bytes.now) }
{
    let Some(rest) = after(bytes, FIRST_LINE) else {
        return Err(RecordFault::At { place: 0 });
    };
    let Some(head) = take_boot(rest) else {
        return Err(RecordFault::At { place: 14 });
    };
    let Some(boot) = Moment::new(head.0) else {
        return Err(RecordFault::At { place: 14 });
    };
    match count_entries(alloc, head.1, bytes.len()) {
        Ok(len) => {
            let first = bytes.len() - head.1.len();
            Ok(Measured { boot, first, len })
        }
        Err(fault) => Err(fault),
    }
}

/// The run that the bytes are the record of; it keeps them.
///
/// `At` comes exactly where they are the record of none, with the place of the first line or entry that no run has (0 and 14
/// for the first two lines): a reply's bytes may be any, while each body is read and must be canonical text. `Memory` comes
/// for want of memory alone.
pub fn read_record(alloc: Global, bytes: Vec<u8>) -> Result<Run, RecordFault>
    ensures run { IfOk result (λ run. (run ≡ bytes.items) × IsRecord bytes.items) }
    ensures broken { IfErr result (BreaksOff bytes.items) }
{
    let measured = measure(alloc, &bytes)?;
    Ok(Run {
        boot: measured.boot,
        record: bytes,
        first: measured.first,
        len: measured.len,
    })
}
