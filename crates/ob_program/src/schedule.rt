//! `schedule`: `stdio` whose site also gets the writes of the weekly schedules of a file.
ghost use Rattle.std.specs.Prelude.{◌≡◌, ◌≤◌, IfOk, IfErr, IsErrOf, IsSome};
ghost use Rattle.ob_io.specs.Faults.{Rose};
ghost use Rattle.ob_io.specs.Links.{inlet};
ghost use Rattle.ob_schedule.specs.Forms.{IsFile};
ghost use Rattle.ob_schedule.specs.Weeks.{Says};
ghost use Rattle.ob_schedule_rules.specs.Rules.{rules_of};
ghost use Rattle.ob_scheduling.specs.Fitting.{AreFitting};
ghost use Rattle.ob_scheduling.specs.Scheduled.{ServesScheduled};
ghost use Rattle.ob_server.specs.Answered.{HasEndCause};
ghost use Rattle.ob_server.specs.Complete.{ServesWhole};
ghost use Rattle.ob_server.specs.declared.end.LinkEnd.{LinkEnd};
ghost use Rattle.ob_site_laws.specs.SiteLaws.{acts, IsSoundSite};
ghost use Rattle.ob_program.specs.Outside.{streams, clock_told};
ghost use Rattle.ob_program.specs.Form.{plain};
ghost use Rattle.ob_program.specs.Schedule.{IsScheduled, IsFormless, SaysNone, ScheduleComesAt, ScheduleComes, ScheduledRan};
ghost use Rattle.ob_program.specs.Stdio.{HasCause, IsUnserved};
ghost use Rattle.ob_program.specs.Telling.{errors_told};
ghost use Rattle.ob_program.specs.declared.stdio.StdioEnd.TheVariants as plainly;
ghost use Rattle.ob_program.specs.declared.form.FormEnd.TheVariants as variants;

use crate::document::read_file;
use crate::exit::Exit;
use crate::form::FormEnd;
use crate::points::SitePoints;
use crate::stdio::{StdioEnd, moment};
use crate::telling::tell;
use ob_command::Scheduled;
use ob_io::{Clock, Files, Link, Pair, Sink, Source, Ticker};
use ob_load::{Loaded, Site, load, opened_is_not_refused};
use ob_object::Obj;
use ob_schedule::{ScheduleFault, read_schedules};
use ob_scheduling::{Timetable, files_fit, serve_scheduled};
use ob_server::{LinkEnd, TimedLink};
use ob_times::Moment;
use ob_weekly::Schedules;
use std::alloc::Global;

/// The schedules that a document says for the points of a site.
fn schedules_in(alloc: Global, root: &Obj, site: &Site) -> Result<Schedules, FormEnd>
    ensures says { IfOk result (λ schedules. IsFile (rules_of site.now) root.now × Says root.now schedules) }
    ensures fitting { IfOk result AreFitting }
    ensures none { IfErr result (IsFormless (rules_of site.now) root.now) }
{
    files_fit();
    let _head = root.head();
    match read_schedules(alloc, root, &SitePoints { site }) {
        Ok(schedules) => Ok(schedules),
        Err(ScheduleFault::Shape(offence)) => Err(FormEnd::Schedule(offence)),
        Err(ScheduleFault::Memory) => Err(FormEnd::Stdio(StdioEnd::Memory)),
    }
}

/// The schedules that a file says for the points of a site.
fn read_form<F: Files>(
    alloc: Global,
    name: &str,
    files: &mut F,
    site: &Site,
) -> Result<Schedules, FormEnd>
    ensures says { IfOk result (IsScheduled (F.content files.old name.now) site.now) }
    ensures fitting { IfOk result AreFitting }
    ensures none { IfErr result (SaysNone (F.content files.old name.now) site.now) }
    ensures later { F.faults files.old ≤ F.faults files.new }
    ensures failed { IfErr result (λ end. end ≡ variants.Stdio plainly.ReadFault → Rose (F.faults files.old) (F.faults files.new)) }
{
    ob_documents::spelled();
    let doc = match read_file(alloc, name, files) {
        Ok(doc) => doc,
        Err(fault) => return Err(FormEnd::of_document(fault)),
    };
    let (_ns, root) = doc.into_parts();
    schedules_in(alloc, &root, site)
}

/// Answers the requests of a link from a site, which also gets the writes of schedules.
fn answer_site<L: Link, C: Clock>(
    alloc: Global,
    loaded: Loaded,
    schedules: Schedules,
    boot: Moment,
    timed: &mut TimedLink<'_, '_, L, C>,
) -> LinkEnd
    requires { AreFitting schedules }
    ensures sound { IsSoundSite loaded.site }
    ensures serves { ServesScheduled acts loaded.site schedules boot loaded.ns
        (inlet (L.left timed.old.link.now) (L.taken timed.old.link.now)) (inlet (L.left timed.new.link.now) (L.taken timed.new.link.now))
        (L.held timed.old.link.now) (L.held timed.new.link.now) (C.given timed.old.clock.now) (C.given timed.new.clock.now) result }
    ensures pace { C.pace timed.new.clock.now ≡ C.pace timed.old.clock.now }
    ensures cause { HasEndCause (L.read_faults timed.old.link.now) (L.read_faults timed.new.link.now)
        (L.write_faults timed.old.link.now) (L.write_faults timed.new.link.now) (C.faults timed.old.clock.now) (C.faults timed.new.clock.now) result }
    ensures whole { ServesWhole (L.left timed.old.link.now) (L.read_faults timed.old.link.now) (L.read_faults timed.new.link.now)
        (L.write_faults timed.old.link.now) (L.write_faults timed.new.link.now) (C.faults timed.old.clock.now) (C.faults timed.new.clock.now) result }
    ensures same { (timed.new.link.ghost_name ≡ timed.old.link.ghost_name) × (timed.new.clock.ghost_name ≡ timed.old.clock.ghost_name) }
{
    let Loaded { ns, mut site } = loaded;
    site.sound_law();
    let timetable = Timetable { schedules, boot };
    serve_scheduled(alloc, &mut site, timetable, ns.as_ref(), timed)
}

/// Opens the site of a file that boots at a moment, reads the schedules of another for its points, and answers the requests of
/// a link.
fn serve_site<F: Files, L: Link, C: Clock>(
    alloc: Global,
    service: Scheduled<'_>,
    boot: Moment,
    files: &mut F,
    timed: &mut TimedLink<'_, '_, L, C>,
) -> FormEnd
    ensures comes { ScheduleComesAt (F.content files.old service.entry.site.now) (F.content files.old service.entry.file.now) boot result (L.left timed.old.link.now) (L.taken timed.old.link.now) (L.left timed.new.link.now) (L.taken timed.new.link.now) (L.held timed.old.link.now) (L.held timed.new.link.now) (C.given timed.old.clock.now) (C.given timed.new.clock.now) }
    ensures unused { IsUnserved (plain result) → timed.new.link.now ≡ timed.old.link.now }
    ensures pace { C.pace timed.new.clock.now ≡ C.pace timed.old.clock.now }
    ensures cause { HasCause (plain result) (F.faults files.old) (F.faults files.new) (L.read_faults timed.old.link.now) (L.read_faults timed.new.link.now)
        (L.write_faults timed.old.link.now) (L.write_faults timed.new.link.now) (C.faults timed.old.clock.now) (C.faults timed.new.clock.now) }
    ensures whole { (end : LinkEnd) → plain result ≡ plainly.Served end → ServesWhole (L.left timed.old.link.now) (L.read_faults timed.old.link.now) (L.read_faults timed.new.link.now)
        (L.write_faults timed.old.link.now) (L.write_faults timed.new.link.now) (C.faults timed.old.clock.now) (C.faults timed.new.clock.now) end }
    ensures same { (timed.new.link.ghost_name ≡ timed.old.link.ghost_name) × (timed.new.clock.ghost_name ≡ timed.old.clock.ghost_name) }
{
    let loaded = match load(alloc, files, service.site, boot) {
        Ok(loaded) => loaded,
        Err(fault) => return FormEnd::Stdio(StdioEnd::of_fault(fault)),
    };
    match read_form(alloc, service.file, files, &loaded.site) {
        Ok(schedules) => {
            let end = answer_site(alloc, loaded, schedules, boot, timed);
            FormEnd::Stdio(StdioEnd::Served(end))
        }
        Err(end) => end,
    }
}

/// The same. The boot and the requests are at the moments of the clock or, with `at`, at those of a clock that begins there and
/// goes by `tick` milliseconds.
fn serve_file<F: Files, L: Link, C: Clock>(
    alloc: Global,
    service: Scheduled<'_>,
    files: &mut F,
    timed: &mut TimedLink<'_, '_, L, C>,
) -> FormEnd
    ensures unasked { IsSome service.entry.at → timed.new.clock.now ≡ timed.old.clock.now }
    ensures comes { ScheduleComes (F.content files.old service.entry.site.now) (F.content files.old service.entry.file.now) service.entry.at service.entry.tick result (L.left timed.old.link.now) (L.taken timed.old.link.now) (L.left timed.new.link.now) (L.taken timed.new.link.now) (L.held timed.old.link.now) (L.held timed.new.link.now) (C.given timed.old.clock.now) (C.given timed.new.clock.now) }
    ensures unused { IsUnserved (plain result) → timed.new.link.now ≡ timed.old.link.now }
    ensures cause { HasCause (plain result) (F.faults files.old) (F.faults files.new) (L.read_faults timed.old.link.now) (L.read_faults timed.new.link.now)
        (L.write_faults timed.old.link.now) (L.write_faults timed.new.link.now) (C.faults timed.old.clock.now) (C.faults timed.new.clock.now) }
    ensures whole { (end : LinkEnd) → plain result ≡ plainly.Served end → ServesWhole (L.left timed.old.link.now) (L.read_faults timed.old.link.now) (L.read_faults timed.new.link.now)
        (L.write_faults timed.old.link.now) (L.write_faults timed.new.link.now) (C.faults timed.old.clock.now) (C.faults timed.new.clock.now) end }
    ensures same { (timed.new.link.ghost_name ≡ timed.old.link.ghost_name) × (timed.new.clock.ghost_name ≡ timed.old.clock.ghost_name) }
{
    let Some(at) = service.at else {
        let Ok(boot) = timed.clock.now() else {
            return FormEnd::Stdio(StdioEnd::ClockFault);
        };
        return serve_site(alloc, service, boot, files, timed);
    };
    let mut ticker = Ticker {
        at,
        tick: service.tick,
        k: 0,
    };
    let mut ticked = TimedLink {
        link: timed.link,
        clock: &mut ticker,
    };
    serve_site(alloc, service, moment(at), files, &mut ticked)
}

/// Opens the site of a file, answers the requests of the link's source on its sink, among which the site gets the writes of the
/// schedules of another file, and tells on `errors` what went wrong.
pub(crate) fn run_schedule<F: Files, S: Source, K: Sink, E: Sink, C: Clock>(
    alloc: Global,
    service: Scheduled<'_>,
    files: &mut F,
    timed: &mut TimedLink<'_, '_, Pair<S, K>, C>,
    errors: &mut E,
) -> Exit
    ensures ran { ScheduledRan (F.content files.old service.entry.site.now) (F.content files.old service.entry.file.now) service.entry.at service.entry.tick (F.faults files.old) (F.faults files.new)
        (streams (S.left timed.old.link.now.source) (K.held timed.old.link.now.sink) (S.faults timed.old.link.now.source) (K.faults timed.old.link.now.sink))
        (streams (S.left timed.new.link.now.source) (K.held timed.new.link.now.sink) (S.faults timed.new.link.now.source) (K.faults timed.new.link.now.sink))
        (clock_told (C.faults timed.old.clock.now) (C.given timed.old.clock.now) (C.pace timed.old.clock.now) (C.twins timed.old.clock.now))
        (clock_told (C.faults timed.new.clock.now) (C.given timed.new.clock.now) (C.pace timed.new.clock.now) (C.twins timed.new.clock.now))
        (F.refused files.new)
        (errors_told (E.held errors.old) (E.faults errors.old)) (errors_told (E.held errors.new) (E.faults errors.new)) result }
    ensures refused { result ≡ Exit.Refused → timed.new.link.now ≡ timed.old.link.now }
    ensures unasked { IsSome service.entry.at → timed.new.clock.now ≡ timed.old.clock.now }
    ensures same { (timed.new.link.ghost_name ≡ timed.old.link.ghost_name) × (timed.new.clock.ghost_name ≡ timed.old.clock.ghost_name) }
{
    opened_is_not_refused();
    ob_documents::only();
    ob_xml::one_verdict();
    let end = serve_file(alloc, service, files, timed);
    let exit = end.exit();
    let words = end.words(alloc, files.last_refused());
    tell(alloc, errors, exit, words);
    exit
}
