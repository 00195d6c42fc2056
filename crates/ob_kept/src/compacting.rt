//! A shorter record of a site.
ghost use Rattle.std.specs.Prelude.{◌≡◌, ℕ, List, IfOk, IfErr, OnOk, IsTrue};
ghost use Rattle.ob_journal.specs.Device.{LeavesOnly, Only};
ghost use Rattle.ob_record.specs.Runs.{Recorded, Records};
ghost use Rattle.ob_record.specs.Sifted.{IsSifted};
ghost use Rattle.ob_record_journal.specs.Writing.{LeavesOld};
ghost use Rattle.ob_kept.specs.Compacting.{HasCompactCause, IsAlike, IsCompacted, IsUncompacted, IsUntried, is_illegal, LeavesAlike, LeavesFresh, SaysCompacted};
ghost use Rattle.ob_kept.specs.Reopening.{HasFileCause, Unready};

use crate::choice::{Covered, LastPuts};
use crate::fault::{CompactFault, ReopenFault};
use crate::reopening::{Ready, of_saying, ready_redone};
use ob_documents::one_document;
use ob_io::Files;
use ob_journal::{Device, Extent};
use ob_record::{Run, one_run};
use ob_record_journal::{Said, read_said, write_whole};
use ob_site::Site;
use std::alloc::{AllocError, Global};

/// How many entries a record has, and how many the shorter one has that was written.
#[derive(Clone, Copy)]
pub struct Compacted {
    pub before: u64,
    pub after: u64,
}

/// The run without the Puts to bare nodes of the site that are covered by later ones.
fn shortened(alloc: Global, site: &Site, run: &Run) -> Result<Run, AllocError>
    ensures { IfOk result (λ part. (recorded : Recorded) → Records run.now recorded → IsSifted recorded part) }
{
    let mut last = LastPuts::new(alloc);
    drop(run.sift(alloc, &mut last)?);
    let mut covered = Covered {
        site,
        last: &last,
        place: 0,
    };
    run.sift(alloc, &mut covered)
}

/// Whether a site may go on from another one of its plan by a restart.
fn may_go_on(site: &Site, other: &Site) -> Result<bool, AllocError>
    ensures { IfOk result (λ yes. IsTrue yes → site.now.plan ≡ other.now.plan → LeavesAlike site.now other.now) }
{
    if other.next_number() < site.next_number() || site.time().ms() < other.time().ms() {
        return Ok(false);
    }
    site.has_same(other)
}

/// Whether an entry keeps another reply than the one that it gets.
fn is_illegal(fault: &ReopenFault) -> bool
    ensures { result ≡ is_illegal fault.now }
{
    matches!(fault, ReopenFault::Illegal { .. })
}

/// Whether the entries of a run, done again from what a site file opens, leave what a site may go on from, where they are legal.
fn leads_alike<F: Files>(
    alloc: Global,
    files: &mut F,
    name: &str,
    done: &Ready,
    run: &Run,
) -> Result<bool, ReopenFault>
    ensures same { (n : List ℕ) → F.content files.new n ≡ F.content files.old n }
    ensures cause { HasFileCause (F.faults files.old) (F.faults files.new) result }
    ensures alike { IfOk result (λ yes. IsTrue yes → (recorded : Recorded) → Records run.now recorded → IsAlike (F.content files.old name.now) done.now.site recorded) }
    ensures untried { IfErr result (λ fault. (recorded : Recorded) → Records run.now recorded → IsUntried (F.content files.old name.now) recorded.boot fault) }
{
    run.is_record();
    match ready_redone(alloc, files, name, Extent::Unmade, run) {
        Ok(again) => Ok(may_go_on(&done.site, &again.site)?),
        Err(fault) => {
            if is_illegal(&fault) {
                Ok(false)
            } else {
                Err(fault)
            }
        }
    }
}

/// The run of a record by which a site goes on as by this one: without the Puts that later ones cover, if what is left of it, done
/// again, is legal and leaves what lasts as it was; or else the same run.
fn compact_run<F: Files>(
    alloc: Global,
    files: &mut F,
    name: &str,
    run: &Run,
) -> Result<Run, ReopenFault>
    ensures same { (n : List ℕ) → F.content files.new n ≡ F.content files.old n }
    ensures cause { HasFileCause (F.faults files.old) (F.faults files.new) result }
    ensures compacts { IfOk result (λ new. (recorded : Recorded) → Records run.now recorded → IsCompacted (F.content files.old name.now) recorded new) }
    ensures refused { IfErr result (λ fault. (recorded : Recorded) → Records run.now recorded → Unready (F.content files.old name.now) recorded fault) }
{
    one_document();
    run.is_record();
    let done = ready_redone(alloc, files, name, Extent::Unmade, run)?;
    let shorter = shortened(alloc, &done.site, run)?;
    if leads_alike(alloc, files, name, &done, &shorter)? {
        Ok(shorter)
    } else {
        Ok(run.copy(alloc)?)
    }
}

/// Writes a record with fewer entries to a new file, one of at most 14 bytes: a site goes on by it as by the record of the device,
/// which is read and not changed. It is without each Put to a path that a later entry puts to, where that is the path of a
/// node whose values no history records and no rule looks at. What is left is done again and compared with what the whole record
/// leaves; where that is otherwise, all entries stay.
///
/// At `Ok` the new record is on the disk. A crash before that may leave any bytes of it, and the old one as it was. Where the
/// record gives no site, nothing is written.
pub fn compact<D: Device, F: Files>(
    alloc: Global,
    device: &mut D,
    files: &mut F,
    name: &str,
    fresh: &mut D,
) -> Result<Compacted, CompactFault>
    ensures same { (n : List ℕ) → F.content files.new n ≡ F.content files.old n }
    ensures says { D.is_told → IfOk result (λ c. SaysCompacted (F.content files.old name.now) (D.seen device.old) (D.seen fresh.new) c.before c.after) }
    ensures durable { D.is_told → OnOk result (Only (D.seen fresh.new) (D.may_leave fresh.new)) }
    ensures refused { IfErr result (IsUncompacted D.is_told (F.content files.old name.now) (D.seen device.old) (D.seen fresh.old)) }
    ensures fresh { IfErr result (LeavesFresh fresh.old fresh.new) }
    ensures old { D.is_told → LeavesOld D.seen D.may_leave fresh.old fresh.new }
    ensures seen { D.is_told → D.seen device.new ≡ D.seen device.old }
    ensures any_moment { D.is_told → LeavesOnly D.moment D.left_since device.old device.new (D.may_leave device.old) }
    ensures cause { HasCompactCause (D.faults device.old) (D.faults device.new) (D.faults fresh.old) (D.faults fresh.new)
        (F.faults files.old) (F.faults files.new) result }
{
    one_run();
    let Said { extent: _, run } = match read_said(alloc, device) {
        Ok(said) => said,
        Err(fault) => return Err(CompactFault::Reopen(of_saying(fault))),
    };
    let Some(run) = run else {
        write_whole(alloc, fresh, None)?;
        return Ok(Compacted {
            before: 0,
            after: 0,
        });
    };
    run.is_record();
    let shorter = compact_run(alloc, files, name, &run)?;
    write_whole(alloc, fresh, Some(&shorter))?;
    Ok(Compacted {
        before: run.len(),
        after: shorter.len(),
    })
}
