//! `stdio` and `record`: the requests of the source are asked of the site of a file, and their answers or their record written.
ghost use Rattle.std.specs.Prelude.{◌≡◌, ◌≤◌, min, length, option_copied, IsSome, IfOk};
ghost use Rattle.ob_io.specs.Ticks.{last_moment};
ghost use Rattle.ob_io.specs.Faults.{Rose};
ghost use Rattle.ob_io.specs.Links.{inlet};
ghost use Rattle.ob_record.specs.Recording.{RecordsRun};
ghost use Rattle.ob_site_laws.specs.Seen.{KeepsWatches};
ghost use Rattle.ob_server.specs.Alone.{ServesAlone};
ghost use Rattle.ob_server.specs.Answered.{HasEndCause};
ghost use Rattle.ob_site_laws.specs.SiteLaws.{acts, IsSoundSite};
ghost use Rattle.ob_site_rules.specs.Sites.{SiteState};
ghost use Rattle.ob_server.specs.declared.end.LinkEnd.{LinkEnd};
ghost use Rattle.ob_server.specs.Complete.{ServesWhole};
ghost use Rattle.ob_program.specs.Outside.{streams, clock_told};
ghost use Rattle.ob_program.specs.Stdio.{Comes, StdioComes, IsUnserved, HasCause, StdioRan};
ghost use Rattle.ob_program.specs.Telling.{errors_told};
ghost use Rattle.ob_program.specs.Words.{frame_words, link_words};

use crate::exit::Exit;
use crate::outside::Means;
use crate::telling::tell;
use crate::words::{file_words, load_words};
use ob_command::{Output, Stdio};
use ob_dialogue::frame_word;
use ob_http::FrameFault;
use ob_io::{Clock, Files, Link, Pair, RefusedFile, Sink, Source, Ticker};
use ob_load::{LoadFault, Loaded, load, opened_is_not_refused};
use ob_record::record_run;
use ob_server::{LinkEnd, Serving, TimedLink};
use ob_site::serve_alone;
use ob_times::Moment;
use std::alloc::{AllocError, Global};
use std::sync::Wait;

/// The last moment that there is, in milliseconds since 1970.
const LAST_MOMENT: u64 = 253_402_300_799_999;

/// How it ended, with what is printed of it.
#[derive(Drop)]
pub(crate) enum StdioEnd {
    Served(LinkEnd),
    /// The file opens no site.
    Refused(LoadFault),
    /// The file can't be read.
    ReadFault,
    /// The clock told no moment for the boot.
    ClockFault,
    Memory,
}

impl StdioEnd {
    ghost use Rattle.ob_program.specs.Stdio.{exit_of, end_of_fault};
    ghost use Rattle.ob_program.specs.Words.{stdio_words};

    /// The end that a refusal of a file leads to.
    pub(crate) fn of_fault(fault: LoadFault) -> StdioEnd
        ensures { result ≡ end_of_fault fault }
    {
        match fault {
            LoadFault::Read => StdioEnd::ReadFault,
            LoadFault::Memory => StdioEnd::Memory,
            LoadFault::Document(_)
            | LoadFault::RootHref
            | LoadFault::Href { .. }
            | LoadFault::Contract(_)
            | LoadFault::PathTwice { .. }
            | LoadFault::Rule(_)
            | LoadFault::Size => StdioEnd::Refused(fault),
        }
    }

    /// The exit that it leads to.
    pub(crate) fn exit(&self) -> Exit
        ensures { result ≡ exit_of self.now }
    {
        match self {
            StdioEnd::Served(LinkEnd::Closed) => Exit::Ok,
            StdioEnd::Served(LinkEnd::Asked) => Exit::Ok,
            StdioEnd::Served(LinkEnd::Truncated) => Exit::Truncated,
            StdioEnd::Served(LinkEnd::BadFrame(_, _)) => Exit::Frame,
            StdioEnd::Served(LinkEnd::ReadFault) => Exit::ReadFault,
            StdioEnd::Served(LinkEnd::WriteFault) => Exit::WriteFault,
            StdioEnd::Served(LinkEnd::ClockFault) => Exit::ClockFault,
            StdioEnd::Served(LinkEnd::Budget) => Exit::Budget,
            StdioEnd::Served(LinkEnd::Memory) => Exit::Memory,
            StdioEnd::Refused(_) => Exit::Refused,
            StdioEnd::ReadFault => Exit::ReadFault,
            StdioEnd::ClockFault => Exit::ClockFault,
            StdioEnd::Memory => Exit::Memory,
        }
    }

    /// The words that tell it on `errors`, where its line has some. This file could not be read last.
    pub(crate) fn words(
        &self,
        alloc: Global,
        refused: Option<&RefusedFile>,
    ) -> Result<Vec<u8>, AllocError>
        ensures { IfOk result (λ words. words.items ≡ stdio_words (option_copied refused.entry) self.now) }
    {
        match self {
            StdioEnd::Served(end) => link_words(alloc, end),
            StdioEnd::Refused(fault) => load_words(alloc, fault),
            StdioEnd::ReadFault => file_words(alloc, refused),
            StdioEnd::ClockFault | StdioEnd::Memory => Ok(Vec::new(alloc)),
        }
    }
}

/// Why bytes begin no request, and the place where that request begins.
fn frame_words(alloc: Global, fault: FrameFault, place: u64) -> Result<Vec<u8>, AllocError>
    ensures { IfOk result (λ words. words.items ≡ frame_words fault place) }
{
    let word = frame_word(fault);
    let text = format!(in alloc; "{word} at {place}")?;
    text.as_bytes().to_vec(alloc)
}

/// The words that tell the end of a link's service, where its line has some.
fn link_words(alloc: Global, end: &LinkEnd) -> Result<Vec<u8>, AllocError>
    ensures { IfOk result (λ words. words.items ≡ link_words end.now) }
{
    match end {
        LinkEnd::BadFrame(fault, place) => frame_words(alloc, *fault, *place),
        LinkEnd::Closed
        | LinkEnd::Asked
        | LinkEnd::Truncated
        | LinkEnd::ReadFault
        | LinkEnd::WriteFault
        | LinkEnd::ClockFault
        | LinkEnd::Budget
        | LinkEnd::Memory => Ok(Vec::new(alloc)),
    }
}

/// A moment, the last that there is where the number is larger.
pub(crate) fn moment(ms: u64) -> Moment
    ensures { result ≡ min ms last_moment }
{
    let Some(moment) = Moment::new(ms.min(LAST_MOMENT)) else {
        unreachable!()
    };
    moment
}

/// Answers the requests of a link from a site.
fn answer_site<R: Wait, L: Link, C: Clock>(
    means: &Means<'_, R>,
    loaded: Loaded,
    timed: &mut TimedLink<'_, '_, L, C>,
) -> LinkEnd
    ensures sound { IsSoundSite loaded.site }
    ensures serves { (alone : ServesAlone acts loaded.site loaded.ns
        (inlet (L.left timed.old.link.now) (L.taken timed.old.link.now)) (inlet (L.left timed.new.link.now) (L.taken timed.new.link.now))
        (L.held timed.old.link.now) (L.held timed.new.link.now) (C.given timed.old.clock.now) (C.given timed.new.clock.now) result) × KeepsWatches loaded.site alone.calls }
    ensures pace { C.pace timed.new.clock.now ≡ C.pace timed.old.clock.now }
    ensures cause { HasEndCause (L.read_faults timed.old.link.now) (L.read_faults timed.new.link.now)
        (L.write_faults timed.old.link.now) (L.write_faults timed.new.link.now) (C.faults timed.old.clock.now) (C.faults timed.new.clock.now) result }
    ensures whole { ServesWhole (L.left timed.old.link.now) (L.read_faults timed.old.link.now) (L.read_faults timed.new.link.now)
        (L.write_faults timed.old.link.now) (L.write_faults timed.new.link.now) (C.faults timed.old.clock.now) (C.faults timed.new.clock.now) result }
    ensures same { (timed.new.link.ghost_name ≡ timed.old.link.ghost_name) × (timed.new.clock.ghost_name ≡ timed.old.clock.ghost_name) }
{
    let Loaded { ns, site } = loaded;
    let serving = Serving {
        rt: means.rt,
        alloc: means.alloc,
        ns: ns.as_ref(),
    };
    serve_alone(&serving, site, timed)
}

/// Records the requests of a link from the boot of a site on.
fn record_site<L: Link, C: Clock>(
    alloc: Global,
    loaded: Loaded,
    boot: Moment,
    timed: &mut TimedLink<'_, '_, L, C>,
) -> LinkEnd
    ensures sound { IsSoundSite loaded.site }
    ensures records { (last : SiteState) × RecordsRun acts loaded.site last boot
        (inlet (L.left timed.old.link.now) (L.taken timed.old.link.now)) (inlet (L.left timed.new.link.now) (L.taken timed.new.link.now))
        (L.held timed.old.link.now) (L.held timed.new.link.now) (C.given timed.old.clock.now) (C.given timed.new.clock.now) result }
    ensures pace { C.pace timed.new.clock.now ≡ C.pace timed.old.clock.now }
    ensures cause { HasEndCause (L.read_faults timed.old.link.now) (L.read_faults timed.new.link.now)
        (L.write_faults timed.old.link.now) (L.write_faults timed.new.link.now) (C.faults timed.old.clock.now) (C.faults timed.new.clock.now) result }
    ensures whole { ServesWhole (L.left timed.old.link.now) (L.read_faults timed.old.link.now) (L.read_faults timed.new.link.now)
        (L.write_faults timed.old.link.now) (L.write_faults timed.new.link.now) (C.faults timed.old.clock.now) (C.faults timed.new.clock.now) result }
    ensures same { (timed.new.link.ghost_name ≡ timed.old.link.ghost_name) × (timed.new.clock.ghost_name ≡ timed.old.clock.ghost_name) }
{
    let Loaded { ns: _, mut site } = loaded;
    site.sound_law();
    record_run(alloc, &mut site, boot, timed.link, timed.clock)
}

/// Opens the site of a file that boots at a moment, and answers or records the requests of a link from it.
fn serve_site<R: Wait, F: Files, L: Link, C: Clock>(
    means: &Means<'_, R>,
    service: Stdio<'_>,
    boot: Moment,
    files: &mut F,
    timed: &mut TimedLink<'_, '_, L, C>,
) -> StdioEnd
    ensures comes { Comes service.entry.output (F.content files.old service.entry.site.now) boot result (L.left timed.old.link.now) (L.taken timed.old.link.now) (L.left timed.new.link.now) (L.taken timed.new.link.now) (L.held timed.old.link.now) (L.held timed.new.link.now) (C.given timed.old.clock.now) (C.given timed.new.clock.now) }
    ensures unused { IsUnserved result → timed.new.link.now ≡ timed.old.link.now }
    ensures pace { C.pace timed.new.clock.now ≡ C.pace timed.old.clock.now }
    ensures cause { HasCause result (F.faults files.old) (F.faults files.new) (L.read_faults timed.old.link.now) (L.read_faults timed.new.link.now)
        (L.write_faults timed.old.link.now) (L.write_faults timed.new.link.now) (C.faults timed.old.clock.now) (C.faults timed.new.clock.now) }
    ensures whole { (end : LinkEnd) → result ≡ StdioEnd.Served end → ServesWhole (L.left timed.old.link.now) (L.read_faults timed.old.link.now) (L.read_faults timed.new.link.now)
        (L.write_faults timed.old.link.now) (L.write_faults timed.new.link.now) (C.faults timed.old.clock.now) (C.faults timed.new.clock.now) end }
    ensures same { (timed.new.link.ghost_name ≡ timed.old.link.ghost_name) × (timed.new.clock.ghost_name ≡ timed.old.clock.ghost_name) }
{
    let loaded = match load(means.alloc, files, service.site, boot) {
        Ok(loaded) => loaded,
        Err(fault) => return StdioEnd::of_fault(fault),
    };
    match service.output {
        Output::Answers => StdioEnd::Served(answer_site(means, loaded, timed)),
        Output::Record => StdioEnd::Served(record_site(means.alloc, loaded, boot, timed)),
    }
}

/// Opens the site of a file, and answers or records the requests of a link from it. The boot and the requests are at the moments
/// of the clock or, with `at`, at those of a clock that begins there and goes by `tick` milliseconds.
fn stdio<R: Wait, F: Files, L: Link, C: Clock>(
    means: &Means<'_, R>,
    service: Stdio<'_>,
    files: &mut F,
    timed: &mut TimedLink<'_, '_, L, C>,
) -> StdioEnd
    ensures unasked { IsSome service.entry.at → timed.new.clock.now ≡ timed.old.clock.now }
    ensures comes { StdioComes service.entry.output (F.content files.old service.entry.site.now) service.entry.at service.entry.tick result (L.left timed.old.link.now) (L.taken timed.old.link.now) (L.left timed.new.link.now) (L.taken timed.new.link.now) (L.held timed.old.link.now) (L.held timed.new.link.now) (C.given timed.old.clock.now) (C.given timed.new.clock.now) }
    ensures unused { IsUnserved result → timed.new.link.now ≡ timed.old.link.now }
    ensures cause { HasCause result (F.faults files.old) (F.faults files.new) (L.read_faults timed.old.link.now) (L.read_faults timed.new.link.now)
        (L.write_faults timed.old.link.now) (L.write_faults timed.new.link.now) (C.faults timed.old.clock.now) (C.faults timed.new.clock.now) }
    ensures whole { (end : LinkEnd) → result ≡ StdioEnd.Served end → ServesWhole (L.left timed.old.link.now) (L.read_faults timed.old.link.now) (L.read_faults timed.new.link.now)
        (L.write_faults timed.old.link.now) (L.write_faults timed.new.link.now) (C.faults timed.old.clock.now) (C.faults timed.new.clock.now) end }
    ensures same { (timed.new.link.ghost_name ≡ timed.old.link.ghost_name) × (timed.new.clock.ghost_name ≡ timed.old.clock.ghost_name) }
{
    let Some(at) = service.at else {
        let Ok(boot) = timed.clock.now() else {
            return StdioEnd::ClockFault;
        };
        return serve_site(means, service, boot, files, timed);
    };
    let mut ticker = Ticker {
        at,
        tick: service.tick,
        k: 0,
    };
    let mut ticked = TimedLink {
        link: timed.link,
        clock: &mut ticker,
    };
    serve_site(means, service, moment(at), files, &mut ticked)
}

/// Opens the site of a file, answers the requests of the link's source on its sink or writes their record there, and tells on
/// `errors` what went wrong.
pub(crate) fn run_stdio<R: Wait, F: Files, S: Source, K: Sink, E: Sink, C: Clock>(
    means: &Means<'_, R>,
    service: Stdio<'_>,
    files: &mut F,
    timed: &mut TimedLink<'_, '_, Pair<S, K>, C>,
    errors: &mut E,
) -> Exit
    ensures ran { StdioRan service.entry.output (F.content files.old service.entry.site.now) service.entry.at service.entry.tick (F.faults files.old) (F.faults files.new)
        (streams (S.left timed.old.link.now.source) (K.held timed.old.link.now.sink) (S.faults timed.old.link.now.source) (K.faults timed.old.link.now.sink))
        (streams (S.left timed.new.link.now.source) (K.held timed.new.link.now.sink) (S.faults timed.new.link.now.source) (K.faults timed.new.link.now.sink))
        (clock_told (C.faults timed.old.clock.now) (C.given timed.old.clock.now) (C.pace timed.old.clock.now) (C.twins timed.old.clock.now))
        (clock_told (C.faults timed.new.clock.now) (C.given timed.new.clock.now) (C.pace timed.new.clock.now) (C.twins timed.new.clock.now))
        (F.refused files.new)
        (errors_told (E.held errors.old) (E.faults errors.old)) (errors_told (E.held errors.new) (E.faults errors.new)) result }
    ensures refused { result ≡ Exit.Refused → timed.new.link.now ≡ timed.old.link.now }
    ensures unasked { IsSome service.entry.at → timed.new.clock.now ≡ timed.old.clock.now }
    ensures same { (timed.new.link.ghost_name ≡ timed.old.link.ghost_name) × (timed.new.clock.ghost_name ≡ timed.old.clock.ghost_name) }
{
    opened_is_not_refused();
    let end = stdio(means, service, files, timed);
    let exit = end.exit();
    let words = end.words(means.alloc, files.last_refused());
    tell(means.alloc, errors, exit, words);
    exit
}
