//! A site that is opened with its record.
ghost use Rattle.std.specs.Prelude.{◌≡◌, ◌≤◌, ℕ, List, [], true, false, IfOk, IfErr};
ghost use Rattle.ob_journal.specs.Device.{LeavesOnly, Only};
ghost use Rattle.ob_journal.specs.Journal.{Finds};
ghost use Rattle.ob_record.specs.Blocks.{IsBlock};
ghost use Rattle.ob_record.specs.Runs.{Recorded, Records};
ghost use Rattle.ob_site_laws.specs.SiteLaws.{IsSoundSite};
ghost use Rattle.ob_kept.specs.Reopening.{fault_of_device, fault_of_saying, HasCauses, HasFileCause, HasReopenCause, IsOpenedAt, IsRedone, Redoes, Refuses, Reopens, SaysAsBefore, Unopened, Unready};

use crate::fault::ReopenFault;
use crate::kept::Kept;
use crate::recorder::Recorder;
use crate::redone::redo;
use ob_io::Files;
use ob_journal::{Device, DeviceFault, Extent, Journal, one_meaning, repair};
use ob_load::{Loaded, load};
use ob_record::{Run, one_run};
use ob_record_journal::{Blocks, Said, SayingFault, read_said};
use ob_site::Site;
use ob_times::Moment;
use ob_values::Text;
use std::alloc::Global;
use std::snapshot::Snapshot;

/// A site that is kept, and the xmlns of its document.
pub struct Reopened<D: Device> {
    pub ns: Option<Text>,
    pub kept: Kept<D>,
}

impl<D: Device + Drop> Drop for Reopened<D> {
    fn drop(self) {
        let Reopened { ns, kept } = self;
        drop(ns);
        drop(kept);
    }
}

impl<D: Device> Reopened<D> {
    /// The xmlns of the site's document, and the site.
    pub fn into_parts(self) -> (Option<Text>, Kept<D>)
        ensures ns { result.0 ≡ self.ns }
        ensures kept { result.1 ≡ self.kept }
    {
        let Reopened { ns, kept } = self;
        (ns, kept)
    }
}

/// A site as its record leaves it, before the record is made ready for more.
pub(crate) struct Ready {
    ns: Option<Text>,
    pub(crate) site: Site,
    opening: Snapshot<Site>,
    boot: Moment,
    begun: bool,
    extent: Extent,
}

impl Drop for Ready {
    fn drop(self) {
        let Ready {
            ns,
            site,
            opening,
            boot: _,
            begun: _,
            extent: _,
        } = self;
        drop(ns);
        drop(site);
        drop(opening);
    }
}

impl Ready {
    ghost use Rattle.ob_kept.specs.Reopening.{KeepsOn, starting};

    /// The site with the record that it keeps, whose closed gate stands at this place.
    fn kept<D: Device>(
        self,
        alloc: Global,
        device: D,
        end: usize,
        opened: Snapshot<D>,
    ) -> Reopened<D>
        requires { D.is_told → KeepsOn D.seen D.may_leave D.moment D.left_since (D.moment opened.value) self.boot self.opening.value self.site device end self.begun }
        ensures ns { result.ns ≡ self.ns }
        ensures kept { result.kept ≡ starting (D.moment opened.value) self.boot self.opening.value self.site end self.begun }
    {
        let Ready {
            ns,
            site,
            opening,
            boot,
            begun,
            extent: _,
        } = self;
        let next = site.next_number();
        let recorder = Recorder {
            alloc,
            journal: Journal { device, end },
            boot,
            begun,
            next,
            failed: false,
            full: false,
        };
        let past = Vec::new(alloc);
        Reopened {
            ns,
            kept: Kept {
                site,
                recorder,
                opening,
                opened,
                past,
            },
        }
    }
}

/// The fault that one of reading a record leads to.
pub(crate) fn of_saying(fault: SayingFault) -> ReopenFault
    ensures { result ≡ fault_of_saying fault }
{
    match fault {
        SayingFault::Record { place } => ReopenFault::Record { place },
        SayingFault::Failed => ReopenFault::Device,
        SayingFault::Memory => ReopenFault::Memory,
    }
}

/// The fault that one of a device leads to.
fn of_device(fault: DeviceFault) -> ReopenFault
    ensures { result ≡ fault_of_device fault }
{
    match fault {
        DeviceFault::Failed => ReopenFault::Device,
        DeviceFault::Memory => ReopenFault::Memory,
    }
}

/// The site that a site file opens at a moment.
fn open_site<F: Files>(
    alloc: Global,
    files: &mut F,
    name: &str,
    boot: Moment,
) -> Result<Loaded, ReopenFault>
    ensures same { (n : List ℕ) → F.content files.new n ≡ F.content files.old n }
    ensures cause { HasFileCause (F.faults files.old) (F.faults files.new) result }
    ensures opened { IfOk result (λ loaded. IsOpenedAt (F.content files.old name.now) boot loaded.ns loaded.site) }
    ensures refused { IfErr result (Unopened (F.content files.old name.now) boot) }
{
    match load(alloc, files, name, boot) {
        Ok(Loaded { ns, mut site }) => {
            // A site file opens no watch; where its bytes aren't told, this says so.
            site.restart(0);
            site.sound_law();
            Ok(Loaded { ns, site })
        }
        Err(fault) => Err(ReopenFault::Site(fault)),
    }
}

/// The site of a record without an entry.
fn ready_anew<F: Files>(
    alloc: Global,
    files: &mut F,
    name: &str,
    extent: Extent,
    boot: Moment,
) -> Result<Ready, ReopenFault>
    ensures same { (n : List ℕ) → F.content files.new n ≡ F.content files.old n }
    ensures cause { HasFileCause (F.faults files.old) (F.faults files.new) result }
    ensures opened { IfOk result (λ r. IsOpenedAt (F.content files.old name.now) boot r.ns r.opening.value) }
    ensures as_opened { IfOk result (λ r. (r.site ≡ r.opening.value) × (r.boot ≡ boot) × (r.begun ≡ false) × (r.extent ≡ extent)) }
    ensures refused { IfErr result (Unopened (F.content files.old name.now) boot) }
{
    let Loaded { ns, site } = open_site(alloc, files, name, boot)?;
    let opening = Snapshot::of(&site);
    Ok(Ready {
        ns,
        site,
        opening,
        boot,
        begun: false,
        extent,
    })
}

/// The site that the entries of a run leave.
pub(crate) fn ready_redone<F: Files>(
    alloc: Global,
    files: &mut F,
    name: &str,
    extent: Extent,
    run: &Run,
) -> Result<Ready, ReopenFault>
    ensures same { (n : List ℕ) → F.content files.new n ≡ F.content files.old n }
    ensures cause { HasFileCause (F.faults files.old) (F.faults files.new) result }
    ensures opened { IfOk result (λ r. IsOpenedAt (F.content files.old name.now) r.boot r.ns r.opening.value) }
    ensures redone { IfOk result (λ r. (recorded : Recorded) → Records run.now recorded → IsRedone recorded r.boot r.opening.value r.site) }
    ensures begun { IfOk result (λ r. (r.begun ≡ true) × (r.extent ≡ extent) × IsSoundSite r.site) }
    ensures refused { IfErr result (λ fault. (recorded : Recorded) → Records run.now recorded → Unready (F.content files.old name.now) recorded fault) }
{
    run.is_record();
    let boot = run.boot();
    let Loaded { ns, site } = open_site(alloc, files, name, boot)?;
    let opening = Snapshot::of(&site);
    let site = redo(alloc, site, run)?;
    site.sound_law();
    Ok(Ready {
        ns,
        site,
        opening,
        boot,
        begun: true,
        extent,
    })
}

/// The site of a record: what the entries that its file says leave of what the site file opens at its moment; or, without an
/// entry, what the site file opens at this one. The device is read, and not changed.
fn read_site<D: Device, F: Files>(
    alloc: Global,
    device: &mut D,
    files: &mut F,
    name: &str,
    boot: Moment,
) -> Result<Ready, ReopenFault>
    ensures same { (n : List ℕ) → F.content files.new n ≡ F.content files.old n }
    ensures cause { HasFileCause (F.faults files.old) (F.faults files.new) result }
    ensures device_cause { HasReopenCause (D.faults device.old) (D.faults device.new) result }
    ensures opened { IfOk result (λ r. IsOpenedAt (F.content files.old name.now) r.boot r.ns r.opening.value) }
    ensures sound { IfOk result (λ r. IsSoundSite r.site) }
    ensures extent { D.is_told → IfOk result (λ r. Finds IsBlock (D.seen device.old) r.extent) }
    ensures redoes { D.is_told → IfOk result (λ r. Redoes (D.seen device.old) boot r.boot r.opening.value r.site r.begun) }
    ensures refused { IfErr result (Refuses D.is_told (F.content files.old name.now) (D.seen device.old) boot) }
    ensures seen { D.is_told → D.seen device.new ≡ D.seen device.old }
    ensures crash { D.is_told → (c : List ℕ) → D.may_leave device.new c → D.may_leave device.old c }
    ensures any_moment { D.is_told → LeavesOnly D.moment D.left_since device.old device.new (D.may_leave device.old) }
{
    boot.ms();
    one_meaning::<Blocks>();
    one_run();
    let Said { extent, run } = match read_said(alloc, device) {
        Ok(said) => said,
        Err(fault) => return Err(of_saying(fault)),
    };
    match run {
        Some(run) => {
            run.is_record();
            ready_redone(alloc, files, name, extent, &run)
        }
        None => ready_anew(alloc, files, name, extent, boot),
    }
}

/// Opens a site with its record: the site file, at the moment of the record, and then its entries one after the other. Without an
/// entry it is opened at the moment that is given. A file that says no run is left as it was, and so is one whose entries the
/// site file doesn't give, or where it opens no site.
///
/// The device must have been opened by `Devices::open`, so that what it reads is on the disk. At an error it comes back.
pub fn reopen<D: Device, F: Files>(
    alloc: Global,
    mut device: D,
    files: &mut F,
    name: &str,
    boot: Moment,
) -> Result<Reopened<D>, (D, ReopenFault)>
    requires durable { D.is_told → Only (D.seen device) (D.may_leave device) }
    ensures same { (n : List ℕ) → F.content files.new n ≡ F.content files.old n }
    ensures later { F.faults files.old ≤ F.faults files.new }
    ensures reopens { IfOk result (λ r. Reopens D.is_told (F.content files.old name.now) (D.seen device) (D.moment device) boot r.ns r.kept) }
    ensures refuses { IfErr result (λ r. Refuses D.is_told (F.content files.old name.now) (D.seen device) boot r.1) }
    ensures back { IfErr result (λ r. D.is_told → SaysAsBefore D.moment D.left_since (D.seen device) device r.0) }
    ensures causes { IfErr result (λ r. HasCauses (D.faults device) (D.faults r.0) (F.faults files.old) (F.faults files.new) r.1) }
{
    let opened = Snapshot::of(&device);
    let ready = match read_site(alloc, &mut device, files, name, boot) {
        Ok(ready) => ready,
        Err(fault) => return Err((device, fault)),
    };
    match repair::<D, Blocks>(&mut device, ready.extent) {
        Ok(end) => Ok(ready.kept(alloc, device, end, opened)),
        Err(fault) => Err((device, of_device(fault))),
    }
}
