//! The file of a record, to which entries are appended.
ghost use Rattle.std.specs.Prelude.{◌≡◌, None, OnOk, OnErr, IfOk, false};
ghost use Rattle.ob_encoding.specs.Canonical.{canonical_text};
ghost use Rattle.ob_kept.specs.Redone.{kept_reply};

use crate::redone::more_numbers;
use ob_encoding::encode;
use ob_journal::{AppendFault, Device, Journal};
use ob_object::{Kind, Obj};
use ob_record_journal::{Blocks, write_closed};
use ob_requests::posts_list;
use ob_site::Keeper;
use ob_site_rules::Request;
use ob_times::Moment;
use ob_values::{Text, Verb};
use std::alloc::{AllocError, Global};

/// The file of a record at rest, and what its entries give: the moment of the record, whether it has an entry, and the number of
/// the next watch there. After a call of the device has failed nothing is appended any more. An entry for which the file had no room
/// is noted until the note is taken.
pub struct Recorder<D: Device> {
    pub(crate) alloc: Global,
    pub(crate) journal: Journal<D>,
    pub(crate) boot: Moment,
    pub(crate) begun: bool,
    pub(crate) next: u64,
    pub(crate) failed: bool,
    pub(crate) full: bool,
}

impl<D: Device + Drop> Drop for Recorder<D> {
    fn drop(self) {
        let Recorder {
            alloc: _,
            journal,
            boot: _,
            begun: _,
            next: _,
            failed: _,
            full: _,
        } = self;
        drop(journal);
    }
}

/// What is kept of a reply, as canonical text.
fn kept_text(alloc: Global, request: &Request, reply: &Obj) -> Result<Vec<u8>, AllocError>
    ensures { IfOk result (λ text. text.items ≡ canonical_text None (kept_reply request.now reply.now)) }
{
    if posts_list(request) {
        return encode(alloc, None, &Obj::new(alloc, Kind::Obj));
    }
    encode(alloc, None, reply)
}

impl<D: Device> Recorder<D> {
    ghost use Rattle.ob_times.specs.Times.{IsMoment};
    ghost use Rattle.ob_kept.specs.Recording.{IsReady, Appended, KeptNumbers, MayHave, asked_entry, numbers_entry, opening_moment};

    /// The device, and whether a call of it has failed.
    pub(crate) fn into_device(self) -> (D, bool)
        ensures { result ≡ (self.journal.device, self.failed) }
    {
        let Recorder {
            alloc: _,
            journal,
            boot: _,
            begun: _,
            next: _,
            failed,
            full: _,
        } = self;
        let Journal { device, end: _ } = journal;
        (device, failed)
    }

    /// Whether the file had no room for an entry since this was asked last.
    pub(crate) fn take_full(&mut self) -> bool
        ensures full { result ≡ self.old.full }
        ensures taken { self.new ≡ record self.old { full = false } }
    {
        let full = self.full;
        self.full = false;
        full
    }

    /// The moment of the record, where the line of its opening stands before the next entry.
    fn opening(&self) -> Option<Moment>
        ensures moment { result ≡ opening_moment self.now.boot self.now.begun }
        ensures range { IsMoment self.now.boot }
    {
        self.boot.ms();
        if self.begun { None } else { Some(self.boot) }
    }

    /// Appends an entry, and gives whether it is on the disk. Where a call of the device fails, it may be there or not, and
    /// nothing is appended any more. Where there is no room for it, that is noted, and nothing else was done; and where no record can
    /// have it, nothing was.
    fn append(&mut self, request: &Request, time: Moment, reply: &[u8]) -> Result<(), AllocError>
        requires ready { IsReady D.is_told D.seen D.may_leave D.moment D.left_since self.old }
        ensures done { OnOk result (Appended D.is_told D.seen D.may_leave D.moment D.left_since self.old self.new (asked_entry request.now time reply.now) self.old.next) }
        ensures err { OnErr result (MayHave D.is_told D.seen D.may_leave D.moment D.left_since self.old self.new (asked_entry request.now time reply.now)) }
    {
        let opening = self.opening();
        let Some(block) = write_closed(self.alloc, opening, time, request, reply)? else {
            return Err(AllocError);
        };
        match self.journal.append::<Blocks>(&block) {
            Ok(()) => {
                self.begun = true;
                Ok(())
            }
            Err(AppendFault::Full) => {
                self.full = true;
                Err(AllocError)
            }
            Err(_) => {
                self.failed = true;
                Err(AllocError)
            }
        }
    }

    /// Appends an entry of numbers of watches.
    fn append_numbers(&mut self, time: Moment) -> Result<(), AllocError>
        requires ready { IsReady D.is_told D.seen D.may_leave D.moment D.left_since self.old }
        ensures done { OnOk result (KeptNumbers D.is_told D.seen D.may_leave D.moment D.left_since self.old self.new time) }
        ensures err { OnErr result (MayHave D.is_told D.seen D.may_leave D.moment D.left_since self.old self.new (numbers_entry time)) }
    {
        let request = Request {
            verb: Verb::Get,
            target: Text::empty(),
            body: None,
        };
        let nothing = Obj::new(self.alloc, Kind::Obj);
        let text = encode(self.alloc, None, &nothing)?;
        self.append(&request, time, &text)?;
        self.next = more_numbers(self.next);
        Ok(())
    }
}

impl<D: Device> Keeper for Recorder<D> {
    ghost use Rattle.ob_kept.specs.Recording.{IsReady, HasKept, MayHaveKept};

    ghost is_ready = { IsReady D.is_told D.seen D.may_leave D.moment D.left_since };

    ghost below = { λ k. k.next };

    ghost keeps = { HasKept D.is_told D.seen D.may_leave D.moment D.left_since };

    ghost may_keep = { MayHaveKept D.is_told D.seen D.may_leave D.moment D.left_since };

    fn below(&self) -> u64 {
        self.next
    }

    fn keep(
        &mut self,
        request: &Request,
        time: Moment,
        next: u64,
        reply: &Obj,
    ) -> Result<(), AllocError> {
        if next <= self.next {
            let text = kept_text(self.alloc, request, reply)?;
            return self.append(request, time, &text);
        }
        self.append_numbers(time)
    }
}
