//! `keep`: a site that is served at a port and outlives the process, in the file of a record.
ghost use Rattle.std.specs.Prelude.{◌≡◌, true, IfOk, option_copied};
ghost use Rattle.ob_journal.specs.Device.{Only};
ghost use Rattle.ob_kept.specs.Fronts.{KeepsLaws};
ghost use Rattle.ob_kept.specs.Keeping.{kept_act};
ghost use Rattle.ob_program.specs.Outside.{clock_told, devices_told, port_told};
ghost use Rattle.ob_program.specs.Keeping.{KeepComes, KeepRan, KeepsDevice};
ghost use Rattle.ob_program.specs.Serving.{AtPlace};
ghost use Rattle.ob_program.specs.Telling.{errors_told};

use crate::exit::Exit;
use crate::outside::{Front, Means, Storage};
use crate::serve::{ServeEnd, announce, end_with, report};
use crate::telling::tell;
use crate::words::{told_cause, word_and_number};
use ob_command::{Keep, Serve};
use ob_io::{Cause, Clock, Door, Files, Port, RefusedFile, Sink};
use ob_journal::{Device, DeviceFault, Devices};
use ob_kept::{Kept, ReopenFault, Reopened, reopen, serve_port};
use ob_load::opened_is_not_refused;
use ob_server::{Serving, TimedPort};
use ob_times::Moment;
use ob_values::Text;
use std::alloc::{AllocError, Global};
use std::sync::Wait;
use std::thread::Threads;

/// How it ended.
#[derive(Drop)]
pub(crate) enum KeepEnd {
    /// As a service does.
    Served(ServeEnd),
    /// The record's file says no run: none has the line or entry at this place, in bytes.
    NoRecord { place: u64 },
    /// The reply that the entry at this place keeps, from 0, isn't the site's: the site file is another.
    Illegal { entry: u64 },
    /// The record's file can't be opened, or a call of its device has failed.
    RecordFault,
}

impl KeepEnd {
    ghost use Rattle.ob_program.specs.Keeping.{end_of_device, end_of_reopen, end_of_service, exit_of_keep};
    ghost use Rattle.ob_program.specs.Words.{keep_words};

    /// The end that comes where the record's file can't be opened.
    pub(crate) fn of_device(fault: DeviceFault) -> KeepEnd
        ensures { result ≡ end_of_device fault }
    {
        match fault {
            DeviceFault::Failed => KeepEnd::RecordFault,
            DeviceFault::Memory => KeepEnd::Served(ServeEnd::Memory),
        }
    }

    /// The end that comes where no site was opened with its record.
    pub(crate) fn of_reopen(fault: ReopenFault) -> KeepEnd
        ensures { result ≡ end_of_reopen fault }
    {
        match fault {
            ReopenFault::Record { place } => KeepEnd::NoRecord { place },
            ReopenFault::Illegal { entry } => KeepEnd::Illegal { entry },
            ReopenFault::Site(fault) => KeepEnd::Served(ServeEnd::of_fault(fault)),
            ReopenFault::Device => KeepEnd::RecordFault,
            ReopenFault::Memory => KeepEnd::Served(ServeEnd::Memory),
        }
    }

    /// The end that comes of a service, and of whether a call of the record's device has failed.
    fn of_service(end: ServeEnd, has_failed: bool) -> KeepEnd
        ensures { result ≡ end_of_service end has_failed }
    {
        if has_failed {
            KeepEnd::Served(ServeEnd::Memory)
        } else {
            KeepEnd::Served(end)
        }
    }

    /// The exit that it leads to.
    pub(crate) fn exit(&self) -> Exit
        ensures { result ≡ exit_of_keep self.now }
    {
        match self {
            KeepEnd::Served(end) => end.exit(),
            KeepEnd::NoRecord { .. } => Exit::Refused,
            KeepEnd::Illegal { .. } => Exit::IllegalRecord,
            KeepEnd::RecordFault => Exit::RecordFault,
        }
    }

    /// The words that tell it on `errors`, where its line has some. This file could not be read last, and these causes are the
    /// last that the port and the devices told.
    pub(crate) fn words(
        &self,
        alloc: Global,
        refused: Option<&RefusedFile>,
        port: Cause,
        device: Cause,
    ) -> Result<Vec<u8>, AllocError>
        ensures { IfOk result (λ words. words.items ≡ keep_words (option_copied refused.entry) port device self.now) }
    {
        match self {
            KeepEnd::Served(end) => end.words(alloc, refused, port),
            KeepEnd::NoRecord { place } => word_and_number(alloc, "Record", *place),
            KeepEnd::Illegal { entry } => {
                let text = format!(in alloc; "{entry}")?;
                text.as_bytes().to_vec(alloc)
            }
            KeepEnd::RecordFault => told_cause(alloc, device),
        }
    }
}

/// What a kept site boots from: the device of its record, at a moment.
#[derive(Drop)]
struct Boot<V> {
    moment: Moment,
    device: V,
}

/// Listens, says so, serves a kept site at the doors of the port, and says how many links there were. The site comes back.
fn serve_kept<R: Threads + Wait + Sync, V: Device + Send, K: Sink, P: Port, C: Clock + Send>(
    means: &Means<'_, R>,
    service: Serve<'_>,
    kept: Kept<V>,
    ns: Option<&Text>,
    front: &mut Front<'_, '_, '_, K, P, C>,
) -> (Kept<V>, ServeEnd)
where
    <P::D as Door>::L: Send,
    ensures at { AtPlace P.D.faults P.D.handed P.D.returned P.D.visits P.D.is_closed C.given C.pace C.faults
        kept_act kept (λ history. KeepsLaws kept history result.0) true result.0 (option_copied ns.entry)
        service.entry.host.now service.entry.port service.entry.workers service.entry.quota
        (K.held front.old.sink.now) (K.held front.new.sink.now) (K.faults front.old.sink.now) (K.faults front.new.sink.now)
        (port_told (P.faults front.old.port.now) (P.opened front.old.port.now) (P.returned front.old.port.now) (P.listens front.old.port.now) (P.doors front.old.port.now))
        (port_told (P.faults front.new.port.now) (P.opened front.new.port.now) (P.returned front.new.port.now) (P.listens front.new.port.now) (P.doors front.new.port.now))
        (clock_told (C.faults front.old.clock.now) (C.given front.old.clock.now) (C.pace front.old.clock.now) (C.twins front.old.clock.now))
        (clock_told (C.faults front.new.clock.now) (C.given front.new.clock.now) (C.pace front.new.clock.now) (C.twins front.new.clock.now)) result.1 }
    ensures same { (front.new.sink.ghost_name ≡ front.old.sink.ghost_name)
        × (front.new.port.ghost_name ≡ front.old.port.ghost_name)
        × (front.new.clock.ghost_name ≡ front.old.clock.ghost_name) }
{
    if front.port.listen(service.host, service.port).is_err() {
        return (kept, ServeEnd::PortFault);
    }
    if let Some(end) = announce(means.alloc, front.sink, service.host, service.port) {
        return (kept, end);
    }
    let workers = service.workers as u32;
    let serving = Serving {
        rt: means.rt,
        alloc: means.alloc,
        ns,
    };
    let mut timed = TimedPort {
        port: front.port,
        clock: front.clock,
    };
    let served = serve_port(&serving, kept, &mut timed, workers, service.quota);
    let end = end_with(served.end, report(means.alloc, front.sink, served.links));
    (served.machine, end)
}

/// Opens a site with its record and serves it at a port. What the device's file is told to be in the end leads to where the site
/// may go on. The device comes back.
fn keep_device<
    R: Threads + Wait + Sync,
    F: Files,
    V: Device + Send,
    K: Sink,
    P: Port,
    C: Clock + Send,
>(
    means: &Means<'_, R>,
    kept: Keep<'_>,
    boot: Boot<V>,
    files: &mut F,
    front: &mut Front<'_, '_, '_, K, P, C>,
) -> (V, KeepEnd)
where
    <P::D as Door>::L: Send,
    requires durable { V.is_told → Only (V.seen boot.device) (V.may_leave boot.device) }
    ensures keeps { KeepsDevice V.is_told V.seen V.may_leave V.moment V.left_since V.faults
        P.D.faults P.D.handed P.D.returned P.D.visits P.D.is_closed C.given C.pace C.faults
        (F.content files.old kept.entry.service.site.now) boot.moment
        kept.entry.service.host.now kept.entry.service.port kept.entry.service.workers kept.entry.service.quota
        (F.faults files.old) (F.faults files.new)
        (K.held front.old.sink.now) (K.held front.new.sink.now) (K.faults front.old.sink.now) (K.faults front.new.sink.now)
        (port_told (P.faults front.old.port.now) (P.opened front.old.port.now) (P.returned front.old.port.now) (P.listens front.old.port.now) (P.doors front.old.port.now))
        (port_told (P.faults front.new.port.now) (P.opened front.new.port.now) (P.returned front.new.port.now) (P.listens front.new.port.now) (P.doors front.new.port.now))
        (clock_told (C.faults front.old.clock.now) (C.given front.old.clock.now) (C.pace front.old.clock.now) (C.twins front.old.clock.now))
        (clock_told (C.faults front.new.clock.now) (C.given front.new.clock.now) (C.pace front.new.clock.now) (C.twins front.new.clock.now))
        boot.device result.0 result.1 }
    ensures same { (front.new.sink.ghost_name ≡ front.old.sink.ghost_name)
        × (front.new.port.ghost_name ≡ front.old.port.ghost_name)
        × (front.new.clock.ghost_name ≡ front.old.clock.ghost_name) }
{
    let Boot { moment, device } = boot;
    match reopen(means.alloc, device, files, kept.service.site, moment) {
        Ok(reopened) => {
            let (ns, site) = reopened.into_parts();
            let (site, end) = serve_kept(means, kept.service, site, ns.as_ref(), front);
            let (device, has_failed) = site.into_device();
            (device, KeepEnd::of_service(end, has_failed))
        }
        Err((back, fault)) => (back, KeepEnd::of_reopen(fault)),
    }
}

/// Opens the record's file, and a site with it, and serves that at a port.
fn keep_site<R: Threads + Wait + Sync, F: Files, V: Devices, K: Sink, P: Port, C: Clock + Send>(
    means: &Means<'_, R>,
    kept: Keep<'_>,
    storage: &mut Storage<'_, '_, F, V>,
    front: &mut Front<'_, '_, '_, K, P, C>,
) -> KeepEnd
where
    V::D: Send,
    <P::D as Door>::L: Send,
    ensures comes { KeepComes
        V.D.is_told V.D.seen V.D.may_leave V.D.moment V.D.left_since V.D.faults
        P.D.faults P.D.handed P.D.returned P.D.visits P.D.is_closed C.given C.pace C.faults
        (F.content storage.old.files.now kept.entry.service.site.now) kept.entry.file.now
        kept.entry.service.host.now kept.entry.service.port kept.entry.service.workers kept.entry.service.quota
        (F.faults storage.old.files.now) (F.faults storage.new.files.now)
        (devices_told (V.given storage.old.devices.now) (V.returned storage.old.devices.now) (V.faults storage.old.devices.now))
        (devices_told (V.given storage.new.devices.now) (V.returned storage.new.devices.now) (V.faults storage.new.devices.now))
        (K.held front.old.sink.now) (K.held front.new.sink.now) (K.faults front.old.sink.now) (K.faults front.new.sink.now)
        (port_told (P.faults front.old.port.now) (P.opened front.old.port.now) (P.returned front.old.port.now) (P.listens front.old.port.now) (P.doors front.old.port.now))
        (port_told (P.faults front.new.port.now) (P.opened front.new.port.now) (P.returned front.new.port.now) (P.listens front.new.port.now) (P.doors front.new.port.now))
        (clock_told (C.faults front.old.clock.now) (C.given front.old.clock.now) (C.pace front.old.clock.now) (C.twins front.old.clock.now))
        (clock_told (C.faults front.new.clock.now) (C.given front.new.clock.now) (C.pace front.new.clock.now) (C.twins front.new.clock.now)) result }
    ensures same_front { (front.new.sink.ghost_name ≡ front.old.sink.ghost_name)
        × (front.new.port.ghost_name ≡ front.old.port.ghost_name)
        × (front.new.clock.ghost_name ≡ front.old.clock.ghost_name) }
    ensures same_storage { (storage.new.files.ghost_name ≡ storage.old.files.ghost_name) × (storage.new.devices.ghost_name ≡ storage.old.devices.ghost_name) }
{
    let Ok(moment) = front.clock.now() else {
        return KeepEnd::Served(ServeEnd::ClockFault);
    };
    let device = match storage.devices.open(means.alloc, kept.file) {
        Ok(device) => device,
        Err(fault) => return KeepEnd::of_device(fault),
    };
    let boot = Boot { moment, device };
    let (device, end) = keep_device(means, kept, boot, storage.files, front);
    if storage.devices.back(device) {
        return KeepEnd::RecordFault;
    }
    end
}

/// Serves the site of a file with its record at a port, and tells on `errors` what went wrong.
pub(crate) fn run_keep<
    R: Threads + Wait + Sync,
    F: Files,
    V: Devices,
    K: Sink,
    E: Sink,
    P: Port,
    C: Clock + Send,
>(
    means: &Means<'_, R>,
    kept: Keep<'_>,
    storage: &mut Storage<'_, '_, F, V>,
    front: &mut Front<'_, '_, '_, K, P, C>,
    errors: &mut E,
) -> Exit
where
    V::D: Send,
    <P::D as Door>::L: Send,
    ensures ran { KeepRan
        V.D.is_told V.D.seen V.D.may_leave V.D.moment V.D.left_since V.D.faults
        P.D.faults P.D.handed P.D.returned P.D.visits P.D.is_closed C.given C.pace C.faults
        (F.content storage.old.files.now kept.entry.service.site.now) kept.entry.file.now
        kept.entry.service.host.now kept.entry.service.port kept.entry.service.workers kept.entry.service.quota
        (F.faults storage.old.files.now) (F.faults storage.new.files.now)
        (devices_told (V.given storage.old.devices.now) (V.returned storage.old.devices.now) (V.faults storage.old.devices.now))
        (devices_told (V.given storage.new.devices.now) (V.returned storage.new.devices.now) (V.faults storage.new.devices.now))
        (K.held front.old.sink.now) (K.held front.new.sink.now) (K.faults front.old.sink.now) (K.faults front.new.sink.now)
        (port_told (P.faults front.old.port.now) (P.opened front.old.port.now) (P.returned front.old.port.now) (P.listens front.old.port.now) (P.doors front.old.port.now))
        (port_told (P.faults front.new.port.now) (P.opened front.new.port.now) (P.returned front.new.port.now) (P.listens front.new.port.now) (P.doors front.new.port.now))
        (clock_told (C.faults front.old.clock.now) (C.given front.old.clock.now) (C.pace front.old.clock.now) (C.twins front.old.clock.now))
        (clock_told (C.faults front.new.clock.now) (C.given front.new.clock.now) (C.pace front.new.clock.now) (C.twins front.new.clock.now))
        (F.refused storage.new.files.now) (P.refusal front.new.port.now) (V.refusal storage.new.devices.now)
        (errors_told (E.held errors.old) (E.faults errors.old)) (errors_told (E.held errors.new) (E.faults errors.new)) result }
    ensures same_front { (front.new.sink.ghost_name ≡ front.old.sink.ghost_name)
        × (front.new.port.ghost_name ≡ front.old.port.ghost_name)
        × (front.new.clock.ghost_name ≡ front.old.clock.ghost_name) }
    ensures same_storage { (storage.new.files.ghost_name ≡ storage.old.files.ghost_name) × (storage.new.devices.ghost_name ≡ storage.old.devices.ghost_name) }
{
    opened_is_not_refused();
    let end = keep_site(means, kept, storage, front);
    let exit = end.exit();
    let words = end.words(
        means.alloc,
        storage.files.last_refused(),
        front.port.last_cause(),
        storage.devices.last_cause(),
    );
    tell(means.alloc, errors, exit, words);
    exit
}
