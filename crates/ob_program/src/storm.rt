//! `storm`: what a seed draws, asked of a site of its own.
ghost use Rattle.std.specs.Prelude.{◌≡◌, ◌≢◌, ◌≤◌, ◌⊎◌, length, take, string_bytes, Some, Ok, MatchResult, IfOk, IfErr, IfSome};
ghost use Rattle.ob_command.specs.Named.{storm_values};
ghost use Rattle.ob_io.specs.Faults.{Rose, HasFileCause};
ghost use Rattle.ob_io.specs.Told.{Sends};
ghost use Rattle.ob_storm.specs.Lines.{lines};
ghost use Rattle.ob_storm.specs.Site.{site_text};
ghost use Rattle.ob_program.specs.Storm.{IsOpened, IsPrinted, StormComes, StormRan};
ghost use Rattle.ob_program.specs.Telling.{errors_told};

use crate::exit::Exit;
use crate::stdio::moment;
use crate::telling::tell;
use ob_command::Storm;
use ob_io::{FileFault, Files, RefusedFile, Sink, write_all};
use ob_load::{LoadFault, Loaded, Site, load, opened_is_not_refused};
use ob_storm::{BOOT, Totals, count_storm, site_text};
use std::alloc::Global;
use std::sync::Wait;

/// How it ended, with what is printed of it.
#[derive(Drop)]
pub(crate) enum StormEnd {
    /// The lines were written.
    Done,
    WriteFault,
    Memory,
}

impl StormEnd {
    ghost use Rattle.ob_program.specs.Storm.{exit_of_storm};

    /// The exit that it leads to.
    fn exit(&self) -> Exit
        ensures { result ≡ exit_of_storm self.now }
    {
        match self {
            StormEnd::Done => Exit::Ok,
            StormEnd::WriteFault => Exit::WriteFault,
            StormEnd::Memory => Exit::Memory,
        }
    }
}

/// One text as the file of each name, which never fails.
#[derive(Drop)]
struct OwnFile {
    text: String,
}

impl Files for OwnFile {
    ghost use Rattle.std.specs.Prelude.{Some, None, string_bytes};

    ghost content = { λ s name. Some (string_bytes s.text) };

    ghost faults = { λ s. 0 };

    ghost refused = { λ s. None };

    fn read_file(&mut self, alloc: Global, _name: &str, limit: u64) -> Result<Vec<u8>, FileFault> {
        let bytes = self.text.as_bytes();
        let (front, _) = bytes.split_at(bytes.len().min(limit as usize));
        match front.to_vec(alloc) {
            Ok(front) => Ok(front),
            Err(_) => Err(FileFault::Memory),
        }
    }

    fn last_refused(&self) -> Option<&RefusedFile> {
        None
    }
}

/// The site that the text of the storm's file opens at its boot. The text opens one, so only memory may be wanting.
fn loaded(alloc: Global, text: String) -> Result<Loaded, LoadFault>
    requires { string_bytes text ≡ site_text }
    ensures opened { IfOk result (λ loaded. IsOpened loaded.site) }
    ensures unrefused { IfErr result (λ fault. fault ≡ LoadFault.Memory) }
{
    opened_is_not_refused();
    let mut file = OwnFile { text };
    load(alloc, &mut file, "", moment(BOOT))
}

/// Opens the site of the storm at its boot.
fn open(alloc: Global) -> Result<Site, LoadFault>
    ensures opened { IfOk result IsOpened }
    ensures unrefused { IfErr result (λ fault. fault ≡ LoadFault.Memory) }
{
    let text = site_text(alloc)?;
    let Loaded { ns: _, site } = loaded(alloc, text)?;
    Ok(site)
}

/// Writes the lines of what was counted.
fn print<K: Sink>(alloc: Global, totals: &Totals, sink: &mut K) -> StormEnd
    ensures printed { IsPrinted result (lines totals.now) (K.held sink.old) (K.held sink.new) }
    ensures rose { result ≡ StormEnd.WriteFault → Rose (K.faults sink.old) (K.faults sink.new) }
{
    let Ok(text) = totals.lines(alloc) else {
        return StormEnd::Memory;
    };
    match write_all(sink, &text) {
        Ok(()) => StormEnd::Done,
        Err(_) => StormEnd::WriteFault,
    }
}

/// Asks a site what is drawn, and writes what was counted.
fn ask<R: Wait, K: Sink>(rt: &R, alloc: Global, site: Site, asked: Storm, sink: &mut K) -> StormEnd
    requires { IsOpened site }
    ensures comes { StormComes result (storm_values asked) (K.held sink.old) (K.held sink.new) }
    ensures rose { result ≡ StormEnd.WriteFault → Rose (K.faults sink.old) (K.faults sink.new) }
{
    let storm = ob_storm::Storm {
        seed: asked.seed,
        clients: asked.clients,
        requests: asked.requests,
    };
    match count_storm(rt, alloc, site, &storm) {
        Ok(totals) => print(alloc, &totals, sink),
        Err(_) => StormEnd::Memory,
    }
}

/// Opens the site of the storm, asks it what is drawn, and writes what was counted.
fn storm<R: Wait, K: Sink>(rt: &R, alloc: Global, asked: Storm, sink: &mut K) -> StormEnd
    ensures comes { StormComes result (storm_values asked) (K.held sink.old) (K.held sink.new) }
    ensures rose { result ≡ StormEnd.WriteFault → Rose (K.faults sink.old) (K.faults sink.new) }
{
    match open(alloc) {
        Ok(site) => ask(rt, alloc, site, asked, sink),
        Err(_) => StormEnd::Memory,
    }
}

/// Makes a storm on a site of its own, writes what was counted, and tells on `errors` what went wrong.
pub(crate) fn run_storm<R: Wait, K: Sink, E: Sink>(
    rt: &R,
    alloc: Global,
    asked: Storm,
    sink: &mut K,
    errors: &mut E,
) -> Exit
    ensures { StormRan (storm_values asked) (K.held sink.old) (K.held sink.new) (K.faults sink.old) (K.faults sink.new)
        (errors_told (E.held errors.old) (E.faults errors.old)) (errors_told (E.held errors.new) (E.faults errors.new)) result }
{
    let end = storm(rt, alloc, asked, sink);
    let exit = end.exit();
    tell(alloc, errors, exit, Ok(Vec::new(alloc)));
    exit
}
