//! A site that is kept.
ghost use Rattle.std.specs.Prelude.{◌≡◌, IfOk};
ghost use Rattle.ob_kept.specs.Keeping.{record_is_full};

use crate::recorder::Recorder;
use ob_journal::Device;
use ob_object::{Attributes, Kind, Obj};
use ob_site::{Machine, Site};
use ob_site_rules::Request;
use ob_times::Moment;
use ob_values::Text;
use std::alloc::{AllocError, Global};
use std::marker::Model;
use std::snapshot::Snapshot;

/// A site of which all that changes is in the file of a record, on the disk, before anyone is told.
///
/// Contracts see it as the site that it is, with what it has been since it was opened. Snapshots have no bytes, so the states that
/// it has been in cost nothing.
pub struct Kept<D: Device> {
    pub(crate) site: Site,
    pub(crate) recorder: Recorder<D>,
    /// What the site file opened at the moment of the record.
    pub(crate) opening: Snapshot<Site>,
    /// The device when the site was opened.
    pub(crate) opened: Snapshot<D>,
    /// The states that the site has been in since.
    pub(crate) past: Vec<Snapshot<Site>>,
}

impl<D: Device> Model for Kept<D> {
    ghost use Rattle.std.specs.Prelude.{◌≡◌, ◌≤◌, false};
    ghost use Rattle.ob_kept.specs.Keeping.{Keeping, keeping_code, kept_of, IsRecoverable};

    ghost Value = { Keeping };

    ghost coded = { keeping_code };

    ghost view = { λ k. kept_of D.moment k.site k.recorder k.opening k.opened k.past.items };

    ghost invariant = { λ k. (k.recorder.full ≡ false) × (k.site.world.next ≤ k.recorder.next)
        × (D.is_told → IsRecoverable D.seen D.may_leave D.moment D.left_since
        (kept_of D.moment k.site k.recorder k.opening k.opened k.past.items)
        k.recorder.journal.device k.recorder.failed) };
}

impl<D: Device + Drop> Drop for Kept<D> {
    fn drop(self) {
        let Kept {
            site,
            recorder,
            opening,
            opened,
            past,
        } = self;
        drop(site);
        drop(recorder);
        drop(opening);
        drop(opened);
        drop(past);
    }
}

/// What a request is answered for whose entry the file has no room.
fn refusal(alloc: Global) -> Result<Obj, AllocError>
    ensures { IfOk result (λ o. o ≡ record_is_full) }
{
    let words = Text::from_ascii(alloc, "limit of 1073741824 bytes of record")?;
    let mut head = Attributes::empty(alloc, Kind::Err);
    if head.put_display(Some(words)).is_err() {
        return Err(AllocError);
    }
    Ok(Obj::from_attributes(alloc, head))
}

impl<D: Device> Kept<D> {
    ghost use Rattle.ob_site_laws.specs.SiteLaws.{IsSoundSite};
    ghost use Rattle.ob_kept.specs.Keeping.{IsLeft};

    /// The state that the site is in is sound.
    pub fn sound_law(&self)
        ensures { IsSoundSite self.now.now }
    {
        self.site.sound_law();
    }

    /// The site, as it is now.
    pub fn site(&self) -> &Site
        ensures { result.now ≡ self.now.now }
    {
        &self.site
    }

    /// Whether a call of the device has failed. Then each step is refused, and the device is to be opened again.
    pub(crate) fn has_failed(&self) -> bool {
        self.recorder.failed
    }

    /// Takes the device back, and tells whether a call of it has failed. Its file leads to a state from which the site may go on
    /// from this one; or, where a call has failed, perhaps from one request more, as do all that a crash since the opening might
    /// have left. Where none has failed, the closed gate is its last byte.
    pub fn into_device(self) -> (D, bool)
        ensures { D.is_told → IsLeft D.seen D.may_leave D.moment D.left_since self result.0 result.1 }
    {
        let Kept {
            site,
            recorder,
            opening,
            opened,
            past,
        } = self;
        drop(site);
        drop(opening);
        drop(opened);
        drop(past);
        recorder.into_device()
    }
}

impl<D: Device> Machine for Kept<D> {
    ghost use Rattle.ob_kept.specs.Keeping.{kept_act};

    type Request = Request;

    type Reply = Obj;

    ghost act = { kept_act };

    /// Does one request at a moment, as the site does, and gives the reply once what changes is on the disk. Where the file has no
    /// room for that, the request is refused. An error for want of memory, and for good where a
    /// call of the device has failed. Both leave the site as it was.
    fn step(&mut self, request: &Request, moment: Moment) -> Result<Obj, AllocError> {
        if self.recorder.failed {
            return Err(AllocError);
        }
        self.site.sound_law();
        self.past.push(Snapshot::of(&self.site))?;
        match self.site.step_kept(&mut self.recorder, request, moment) {
            Ok(reply) => Ok(reply),
            Err(AllocError) => {
                let _ = self.past.pop();
                if self.recorder.take_full() {
                    return refusal(self.recorder.alloc);
                }
                Err(AllocError)
            }
        }
    }
}
