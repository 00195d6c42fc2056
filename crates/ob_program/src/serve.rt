//! `serve`: the requests of links that come to a port, answered by workers from the site of a file.
ghost use Rattle.std.specs.Prelude.{◌≡◌, ◌≤◌, Some, None, option_copied, IfOk, IfSome, MatchResult, false};
ghost use Rattle.ob_program.specs.Outside.{port_told, clock_told};
ghost use Rattle.ob_program.specs.Serving.{listening_text, served_text, end_with, Prints, PrintRose, AtPlace, ServeComes, ServeRan};
ghost use Rattle.ob_program.specs.Telling.{errors_told};
ghost use Rattle.ob_site_laws.specs.Seen.{KeepsWatches};
ghost use Rattle.ob_site_laws.specs.SiteLaws.{acts};

use crate::exit::Exit;
use crate::outside::{Front, Means};
use crate::telling::tell;
use crate::words::{file_words, load_words, told_cause};
use ob_command::Serve;
use ob_io::{Cause, Clock, Door, Files, Port, RefusedFile, Sink, write_all};
use ob_load::{LoadFault, Loaded, Site, load, opened_is_not_refused};
use ob_server::{Serving, Staff, TimedPort, WorkerEnd};
use ob_site::serve_port;
use ob_values::Text;
use std::alloc::{AllocError, Global};
use std::sync::Wait;
use std::thread::Threads;

/// How it ended, with what is printed of it.
#[derive(Drop)]
pub(crate) enum ServeEnd {
    /// Every worker had its quota, or its door is closed.
    Done,
    /// The file opens no site.
    Refused(LoadFault),
    /// The file can't be read.
    ReadFault,
    WriteFault,
    /// The port can't listen or gave no door, or a door failed.
    PortFault,
    /// The clock told no moment or gave no twin, or a twin told no moment.
    ClockFault,
    Memory,
}

impl ServeEnd {
    ghost use Rattle.ob_program.specs.Serving.{exit_of_serve, end_of_load, end_of_workers};
    ghost use Rattle.ob_program.specs.Words.{serve_words};

    /// The end that a refusal of a file leads to.
    pub(crate) fn of_fault(fault: LoadFault) -> ServeEnd
        ensures { result ≡ end_of_load fault }
    {
        match fault {
            LoadFault::Read => ServeEnd::ReadFault,
            LoadFault::Memory => ServeEnd::Memory,
            LoadFault::Document(_)
            | LoadFault::RootHref
            | LoadFault::Href { .. }
            | LoadFault::Contract(_)
            | LoadFault::PathTwice { .. }
            | LoadFault::Rule(_)
            | LoadFault::Size => ServeEnd::Refused(fault),
        }
    }

    /// The end that the workers' leads to.
    fn of_workers(end: WorkerEnd) -> ServeEnd
        ensures { result ≡ end_of_workers end }
    {
        match end {
            WorkerEnd::Quota | WorkerEnd::Closed => ServeEnd::Done,
            WorkerEnd::DoorFault => ServeEnd::PortFault,
            WorkerEnd::ClockFault => ServeEnd::ClockFault,
            WorkerEnd::Memory => ServeEnd::Memory,
        }
    }

    /// The exit that it leads to.
    pub(crate) fn exit(&self) -> Exit
        ensures { result ≡ exit_of_serve self.now }
    {
        match self {
            ServeEnd::Done => Exit::Ok,
            ServeEnd::Refused(_) => Exit::Refused,
            ServeEnd::ReadFault => Exit::ReadFault,
            ServeEnd::WriteFault => Exit::WriteFault,
            ServeEnd::PortFault => Exit::PortFault,
            ServeEnd::ClockFault => Exit::ClockFault,
            ServeEnd::Memory => Exit::Memory,
        }
    }

    /// The words that tell it on `errors`, where its line has some. This file could not be read last, and this cause is the
    /// last that the port told.
    pub(crate) fn words(
        &self,
        alloc: Global,
        refused: Option<&RefusedFile>,
        port: Cause,
    ) -> Result<Vec<u8>, AllocError>
        ensures { IfOk result (λ words. words.items ≡ serve_words (option_copied refused.entry) port self.now) }
    {
        match self {
            ServeEnd::Refused(fault) => load_words(alloc, fault),
            ServeEnd::ReadFault => file_words(alloc, refused),
            ServeEnd::PortFault => told_cause(alloc, port),
            ServeEnd::Done | ServeEnd::WriteFault | ServeEnd::ClockFault | ServeEnd::Memory => Ok(
                Vec::new(alloc),
            ),
        }
    }
}

/// `listening`, the host and the port, on a line.
fn listening_line(alloc: Global, host: &str, port: u16) -> Result<Vec<u8>, AllocError>
    ensures { IfOk result (λ line. line.items ≡ listening_text host.now port) }
{
    let text = format!(in alloc; " {port}\n")?;
    let mut line = b"listening ".to_vec(alloc)?;
    line.extend_from_slice(host.as_bytes())?;
    line.extend_from_slice(text.as_bytes())?;
    Ok(line)
}

/// `served` and the number of links, on a line.
fn served_line(alloc: Global, links: u64) -> Result<Vec<u8>, AllocError>
    ensures { IfOk result (λ line. line.items ≡ served_text (Some links)) }
{
    let text = format!(in alloc; "served {links}\n")?;
    text.as_bytes().to_vec(alloc)
}

/// Prints a line, where it was to be had; why it isn't printed, if it isn't.
fn print<K: Sink>(sink: &mut K, line: Result<Vec<u8>, AllocError>) -> Option<ServeEnd>
    ensures prints { MatchResult line (λ bytes. Prints (K.held sink.old) (K.held sink.new) bytes.items (result ≡ None))
        (λ _. (K.held sink.new ≡ K.held sink.old) × (result ≡ Some ServeEnd.Memory)) }
    ensures rose { IfSome result (λ end. PrintRose end (K.faults sink.old) (K.faults sink.new)) }
    ensures later { K.faults sink.old ≤ K.faults sink.new }
{
    let Ok(line) = line else {
        return Some(ServeEnd::Memory);
    };
    match write_all(sink, &line) {
        Ok(()) => None,
        Err(_) => Some(ServeEnd::WriteFault),
    }
}

/// Prints where is listened; why it isn't printed, if it isn't.
pub(crate) fn announce<K: Sink>(
    alloc: Global,
    sink: &mut K,
    host: &str,
    port: u16,
) -> Option<ServeEnd>
    ensures prints { Prints (K.held sink.old) (K.held sink.new) (listening_text host.now port) (result ≡ None) }
    ensures rose { IfSome result (λ end. PrintRose end (K.faults sink.old) (K.faults sink.new)) }
    ensures later { K.faults sink.old ≤ K.faults sink.new }
{
    print(sink, listening_line(alloc, host, port))
}

/// Prints how many links were served, where the workers began; why it isn't printed, if it isn't.
pub(crate) fn report<K: Sink>(alloc: Global, sink: &mut K, links: Option<u64>) -> Option<ServeEnd>
    ensures prints { Prints (K.held sink.old) (K.held sink.new) (served_text links) (result ≡ None) }
    ensures rose { IfSome result (λ end. PrintRose end (K.faults sink.old) (K.faults sink.new)) }
    ensures later { K.faults sink.old ≤ K.faults sink.new }
{
    match links {
        Some(links) => print(sink, served_line(alloc, links)),
        None => None,
    }
}

/// The end of the workers, or where they ended well that of the report.
pub(crate) fn end_with(end: WorkerEnd, reported: Option<ServeEnd>) -> ServeEnd
    ensures { result ≡ end_with end reported }
{
    match ServeEnd::of_workers(end) {
        ServeEnd::Done => match reported {
            Some(fault) => fault,
            None => ServeEnd::Done,
        },
        fault => fault,
    }
}

/// Listens, says so, serves a site at the doors of the port, and says how many links there were.
fn serve_site<R: Threads + Wait + Sync, K: Sink, P: Port, C: Clock + Send>(
    means: &Means<'_, R>,
    service: Serve<'_>,
    site: Site,
    ns: Option<&Text>,
    front: &mut Front<'_, '_, '_, K, P, C>,
) -> ServeEnd
where
    <P::D as Door>::L: Send,
    ensures at { (left : _) × AtPlace P.D.faults P.D.handed P.D.returned P.D.visits P.D.is_closed C.given C.pace C.faults
        acts site (KeepsWatches site) false left (option_copied ns.entry)
        service.entry.host.now service.entry.port service.entry.workers service.entry.quota
        (K.held front.old.sink.now) (K.held front.new.sink.now) (K.faults front.old.sink.now) (K.faults front.new.sink.now)
        (port_told (P.faults front.old.port.now) (P.opened front.old.port.now) (P.returned front.old.port.now) (P.listens front.old.port.now) (P.doors front.old.port.now))
        (port_told (P.faults front.new.port.now) (P.opened front.new.port.now) (P.returned front.new.port.now) (P.listens front.new.port.now) (P.doors front.new.port.now))
        (clock_told (C.faults front.old.clock.now) (C.given front.old.clock.now) (C.pace front.old.clock.now) (C.twins front.old.clock.now))
        (clock_told (C.faults front.new.clock.now) (C.given front.new.clock.now) (C.pace front.new.clock.now) (C.twins front.new.clock.now)) result }
    ensures same { (front.new.sink.ghost_name ≡ front.old.sink.ghost_name)
        × (front.new.port.ghost_name ≡ front.old.port.ghost_name)
        × (front.new.clock.ghost_name ≡ front.old.clock.ghost_name) }
{
    if front.port.listen(service.host, service.port).is_err() {
        return ServeEnd::PortFault;
    }
    if let Some(end) = announce(means.alloc, front.sink, service.host, service.port) {
        return end;
    }
    let staff = Staff {
        workers: service.workers as u32,
        quota: service.quota,
        stays: None,
    };
    let serving = Serving {
        rt: means.rt,
        alloc: means.alloc,
        ns,
    };
    let mut timed = TimedPort {
        port: front.port,
        clock: front.clock,
    };
    let served = serve_port(&serving, site, &mut timed, staff);
    end_with(served.end, report(means.alloc, front.sink, served.links))
}

/// Opens the site of a file and serves it at a port.
fn serve_file<R: Threads + Wait + Sync, F: Files, K: Sink, P: Port, C: Clock + Send>(
    means: &Means<'_, R>,
    service: Serve<'_>,
    files: &mut F,
    front: &mut Front<'_, '_, '_, K, P, C>,
) -> ServeEnd
where
    <P::D as Door>::L: Send,
    ensures comes { ServeComes P.D.faults P.D.handed P.D.returned P.D.visits P.D.is_closed C.given C.pace C.faults (F.content files.old service.entry.site.now)
        service.entry.host.now service.entry.port service.entry.workers service.entry.quota (F.faults files.old) (F.faults files.new)
        (K.held front.old.sink.now) (K.held front.new.sink.now) (K.faults front.old.sink.now) (K.faults front.new.sink.now)
        (port_told (P.faults front.old.port.now) (P.opened front.old.port.now) (P.returned front.old.port.now) (P.listens front.old.port.now) (P.doors front.old.port.now))
        (port_told (P.faults front.new.port.now) (P.opened front.new.port.now) (P.returned front.new.port.now) (P.listens front.new.port.now) (P.doors front.new.port.now))
        (clock_told (C.faults front.old.clock.now) (C.given front.old.clock.now) (C.pace front.old.clock.now) (C.twins front.old.clock.now))
        (clock_told (C.faults front.new.clock.now) (C.given front.new.clock.now) (C.pace front.new.clock.now) (C.twins front.new.clock.now)) result }
    ensures same { (front.new.sink.ghost_name ≡ front.old.sink.ghost_name)
        × (front.new.port.ghost_name ≡ front.old.port.ghost_name)
        × (front.new.clock.ghost_name ≡ front.old.clock.ghost_name) }
{
    let Ok(boot) = front.clock.now() else {
        return ServeEnd::ClockFault;
    };
    match load(means.alloc, files, service.site, boot) {
        Ok(Loaded { ns, site }) => {
            site.sound_law();
            serve_site(means, service, site, ns.as_ref(), front)
        }
        Err(fault) => ServeEnd::of_fault(fault),
    }
}

/// Opens the site of a file and serves it at a port, and tells on `errors` what went wrong.
pub(crate) fn run_serve<
    R: Threads + Wait + Sync,
    F: Files,
    K: Sink,
    E: Sink,
    P: Port,
    C: Clock + Send,
>(
    means: &Means<'_, R>,
    service: Serve<'_>,
    files: &mut F,
    front: &mut Front<'_, '_, '_, K, P, C>,
    errors: &mut E,
) -> Exit
where
    <P::D as Door>::L: Send,
    ensures ran { ServeRan P.D.faults P.D.handed P.D.returned P.D.visits P.D.is_closed C.given C.pace C.faults (F.content files.old service.entry.site.now)
        service.entry.host.now service.entry.port service.entry.workers service.entry.quota (F.faults files.old) (F.faults files.new)
        (K.held front.old.sink.now) (K.held front.new.sink.now) (K.faults front.old.sink.now) (K.faults front.new.sink.now)
        (port_told (P.faults front.old.port.now) (P.opened front.old.port.now) (P.returned front.old.port.now) (P.listens front.old.port.now) (P.doors front.old.port.now))
        (port_told (P.faults front.new.port.now) (P.opened front.new.port.now) (P.returned front.new.port.now) (P.listens front.new.port.now) (P.doors front.new.port.now))
        (clock_told (C.faults front.old.clock.now) (C.given front.old.clock.now) (C.pace front.old.clock.now) (C.twins front.old.clock.now))
        (clock_told (C.faults front.new.clock.now) (C.given front.new.clock.now) (C.pace front.new.clock.now) (C.twins front.new.clock.now))
        (F.refused files.new) (P.refusal front.new.port.now)
        (errors_told (E.held errors.old) (E.faults errors.old)) (errors_told (E.held errors.new) (E.faults errors.new)) result }
    ensures same { (front.new.sink.ghost_name ≡ front.old.sink.ghost_name)
        × (front.new.port.ghost_name ≡ front.old.port.ghost_name)
        × (front.new.clock.ghost_name ≡ front.old.clock.ghost_name) }
{
    opened_is_not_refused();
    let end = serve_file(means, service, files, front);
    let exit = end.exit();
    let words = end.words(means.alloc, files.last_refused(), front.port.last_cause());
    tell(means.alloc, errors, exit, words);
    exit
}
