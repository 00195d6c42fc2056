//! A site as the entries of a RECORD step it.
ghost use Rattle.std.specs.Prelude.{◌≡◌, IfOk, IfErr, OnOk, OnErr};
ghost use Rattle.ob_record.specs.Legal.{IsLegalRun, after_entries};
ghost use Rattle.ob_record.specs.Runs.{Recorded, Records};
ghost use Rattle.ob_kept.specs.Reading.{Undone};
ghost use Rattle.ob_kept.specs.Redone as spec;

use crate::fault::ReopenFault;
use ob_object::{Kind, Obj};
use ob_record::{Run, Verdict, audit};
use ob_requests::posts_list;
use ob_site::{Machine, Site};
use ob_site_rules::Request;
use ob_times::Moment;
use ob_values::Verb;
use std::alloc::{AllocError, Global};
use std::marker::Model;

/// How many numbers of watches one entry stands for.
const AT_ONCE: u64 = 10_000;

/// One more than the last number that a watch is given.
const NO_NUMBER: u64 = 1 << 63;

/// A site of which no watch stands after a step.
pub(crate) struct Redone {
    alloc: Global,
    site: Site,
}

impl Model for Redone {
    ghost use Rattle.ob_site_rules.specs.Sites.{SiteState};
    ghost use Rattle.ob_site.specs.Codes.{site_code};

    ghost Value = { SiteState };

    ghost coded = { site_code };

    ghost view = { λ r. r.site };
}

impl Drop for Redone {
    fn drop(self) {
        let Redone { alloc: _, site } = self;
        drop(site);
    }
}

impl Redone {
    ghost use Rattle.ob_kept.specs.Redone.{numbers_noted, request_redone};
    ghost use Rattle.ob_site_laws.specs.SiteLaws.{acts};

    /// Passes over some numbers of watches.
    fn pass_numbers(&mut self)
        ensures { self.new ≡ numbers_noted self.old }
    {
        let next = self.site.next_number();
        self.site.restart(more_numbers(next));
    }

    /// Does a request, drops the watches, and gives the reply. Want of memory leaves the site as it was.
    fn again(&mut self, request: &Request, moment: Moment) -> Result<Obj, AllocError>
        ensures done { OnOk result (self.new ≡ request_redone self.old request.now moment) }
        ensures reply { IfOk result (λ reply. reply ≡ (acts self.old request.now moment).1) }
        ensures err { OnErr result (self.new ≡ self.old) }
    {
        let reply = self.site.step(request, moment)?;
        self.site.restart(0);
        Ok(reply)
    }

    /// The site.
    fn into_site(self) -> Site
        ensures { result ≡ self }
    {
        let Redone { alloc: _, site } = self;
        site
    }
}

/// The number of the next watch behind an entry of numbers, where it was this one in front of it.
pub(crate) fn more_numbers(next: u64) -> u64
    ensures { result ≡ spec.more_numbers next }
{
    next.saturating_add(AT_ONCE).min(NO_NUMBER)
}

/// What an entry keeps of a reply.
fn kept_reply(alloc: Global, request: &Request, reply: Obj) -> Obj
    ensures { result ≡ spec.kept_reply request.now reply }
{
    if posts_list(request) {
        Obj::new(alloc, Kind::Obj)
    } else {
        reply
    }
}

impl Machine for Redone {
    ghost use Rattle.ob_kept.specs.Redone.{redone};

    type Request = Request;

    type Reply = Obj;

    ghost act = { redone };

    /// Does a request again, and drops the watches; a Get stands for numbers of watches.
    fn step(&mut self, request: &Request, moment: Moment) -> Result<Obj, AllocError> {
        match request.verb {
            Verb::Get => {
                self.pass_numbers();
                Ok(Obj::new(self.alloc, Kind::Obj))
            }
            Verb::Put | Verb::Post => {
                let reply = self.again(request, moment)?;
                Ok(kept_reply(self.alloc, request, reply))
            }
        }
    }
}

/// Does the entries of a run again, from a site that was opened at its moment. `Illegal` comes exactly where an entry keeps
/// another reply than the site's.
pub(crate) fn redo(alloc: Global, site: Site, run: &Run) -> Result<Site, ReopenFault>
    ensures done { IfOk result (λ left. (recorded : Recorded) → Records run.now recorded
        → IsLegalRun spec.redone site recorded.entries × (left ≡ after_entries spec.redone site recorded.entries)) }
    ensures undone { IfErr result (λ fault. (recorded : Recorded) → Records run.now recorded → Undone site recorded.entries fault) }
{
    let mut machine = Redone { alloc, site };
    match audit(alloc, &mut machine, run) {
        Ok(Verdict::Legal { entries: _ }) => { Ok(machine.into_site()) }
        Ok(Verdict::Illegal { entry, expected: _ }) => Err(ReopenFault::Illegal { entry }),
        Err(AllocError) => Err(ReopenFault::Memory),
    }
}
