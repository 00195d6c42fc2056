//! `compact`: a shorter record of a site, in a new file.
ghost use Rattle.std.specs.Prelude.{◌≡◌, option_copied, IfOk};
ghost use Rattle.ob_program.specs.Compact.{CompactComes, CompactRan, CompactRose, CompactsFile, CompactsInto, compact_text};
ghost use Rattle.ob_program.specs.Outside.{devices_told};
ghost use Rattle.ob_program.specs.Telling.{errors_told};

use crate::exit::Exit;
use crate::keep::KeepEnd;
use crate::outside::Storage;
use crate::serve::ServeEnd;
use crate::telling::tell;
use ob_command::Compact;
use ob_io::{Cause, FileFault, Files, RefusedFile, Sink, write_all};
use ob_journal::Devices;
use ob_kept::{CompactFault, Compacted, compact};
use ob_load::opened_is_not_refused;
use std::alloc::{AllocError, Global};

/// How it ended.
#[derive(Drop)]
pub(crate) enum CompactEnd {
    /// The new record was written, and how many entries it and the old one have was printed.
    Written(Compacted),
    /// The new file has more than 14 bytes.
    Taken,
    /// As a kept site ends that isn't served, or the line wasn't printed.
    Ended(KeepEnd),
}

impl CompactEnd {
    ghost use Rattle.ob_program.specs.Compact.{end_of_compact, exit_of_compact};
    ghost use Rattle.ob_program.specs.Words.{compact_words};

    /// The end that comes where no record was written.
    fn of_fault(fault: CompactFault) -> CompactEnd
        ensures { result ≡ end_of_compact fault }
    {
        match fault {
            CompactFault::Reopen(fault) => CompactEnd::Ended(KeepEnd::of_reopen(fault)),
            CompactFault::Taken => CompactEnd::Taken,
        }
    }

    /// The exit that it leads to.
    fn exit(&self) -> Exit
        ensures { result ≡ exit_of_compact self.now }
    {
        match self {
            CompactEnd::Written(_) => Exit::Ok,
            CompactEnd::Taken => Exit::Refused,
            CompactEnd::Ended(end) => end.exit(),
        }
    }

    /// The words that tell it on `errors`, where its line has some. This file could not be read last, and this cause is the
    /// last that the devices told.
    fn words(
        &self,
        alloc: Global,
        refused: Option<&RefusedFile>,
        device: Cause,
    ) -> Result<Vec<u8>, AllocError>
        ensures { IfOk result (λ words. words.items ≡ compact_words (option_copied refused.entry) device self.now) }
    {
        match self {
            CompactEnd::Written(_) => Ok(Vec::new(alloc)),
            CompactEnd::Taken => b"New".to_vec(alloc),
            CompactEnd::Ended(end) => end.words(alloc, refused, Cause::Untold, device),
        }
    }
}

/// Opens the new file, writes the shorter record there, and gives the file back.
fn compact_into<F: Files, V: Devices>(
    alloc: Global,
    words: Compact<'_>,
    device: &mut V::D,
    files: &mut F,
    devices: &mut V,
) -> Result<Compacted, CompactEnd>
    ensures { CompactsInto V.D.is_told V.D.seen V.D.may_leave V.D.moment V.D.left_since V.D.faults (F.content files.old words.entry.site.now) words.entry.new.now
        (F.faults files.old) (F.faults files.new)
        (devices_told (V.given devices.old) (V.returned devices.old) (V.faults devices.old))
        (devices_told (V.given devices.new) (V.returned devices.new) (V.faults devices.new)) device.old device.new result }
{
    let mut fresh = match devices.open(alloc, words.new) {
        Ok(fresh) => fresh,
        Err(fault) => return Err(CompactEnd::Ended(KeepEnd::of_device(fault))),
    };
    let compacted = compact(alloc, device, files, words.site, &mut fresh);
    if devices.back(fresh) {
        return Err(CompactEnd::Ended(KeepEnd::RecordFault));
    }
    match compacted {
        Ok(compacted) => Ok(compacted),
        Err(fault) => Err(CompactEnd::of_fault(fault)),
    }
}

/// Opens the record's file, which there has to be, and writes the shorter one to the new file. Both files are given back.
fn compact_file<F: Files, V: Devices>(
    alloc: Global,
    words: Compact<'_>,
    files: &mut F,
    devices: &mut V,
) -> Result<Compacted, CompactEnd>
    ensures { CompactsFile V.D.is_told V.D.seen V.D.may_leave V.D.moment V.D.left_since V.D.faults (F.content files.old words.entry.site.now) words.entry.file.now words.entry.new.now
        (F.faults files.old) (F.faults files.new)
        (devices_told (V.given devices.old) (V.returned devices.old) (V.faults devices.old))
        (devices_told (V.given devices.new) (V.returned devices.new) (V.faults devices.new)) result }
{
    // To open a device makes its file; a record that isn't there is a mistake.
    match files.read_file(alloc, words.file, 1) {
        Ok(bytes) => drop(bytes),
        Err(FileFault::Failed) => return Err(CompactEnd::Ended(KeepEnd::Served(
            ServeEnd::ReadFault,
        ))),
        Err(FileFault::Memory) => return Err(CompactEnd::Ended(KeepEnd::Served(ServeEnd::Memory))),
    }
    let mut device = match devices.open(alloc, words.file) {
        Ok(device) => device,
        Err(fault) => return Err(CompactEnd::Ended(KeepEnd::of_device(fault))),
    };
    let compacted = compact_into(alloc, words, &mut device, files, devices);
    if devices.back(device) {
        return Err(CompactEnd::Ended(KeepEnd::RecordFault));
    }
    compacted
}

/// What is printed of a record that was written.
fn compacted_line(alloc: Global, compacted: Compacted) -> Result<Vec<u8>, AllocError>
    ensures { IfOk result (λ text. text.items ≡ compact_text compacted) }
{
    let after = compacted.after;
    let before = compacted.before;
    let text = format!(in alloc; "compacted {after} of {before}\n")?;
    text.as_bytes().to_vec(alloc)
}

/// Writes the shorter record, and prints how many entries it and the old one have.
fn compact_site<F: Files, V: Devices, K: Sink>(
    alloc: Global,
    words: Compact<'_>,
    files: &mut F,
    devices: &mut V,
    sink: &mut K,
) -> CompactEnd
    ensures comes { CompactComes V.D.is_told V.D.seen V.D.may_leave V.D.moment V.D.left_since V.D.faults (F.content files.old words.entry.site.now) words.entry.file.now words.entry.new.now
        (F.faults files.old) (F.faults files.new)
        (devices_told (V.given devices.old) (V.returned devices.old) (V.faults devices.old))
        (devices_told (V.given devices.new) (V.returned devices.new) (V.faults devices.new)) (K.held sink.old) (K.held sink.new) result }
    ensures rose { CompactRose result (F.faults files.old) (F.faults files.new) (V.faults devices.old) (V.faults devices.new) (K.faults sink.old) (K.faults sink.new) }
{
    let compacted = match compact_file(alloc, words, files, devices) {
        Ok(compacted) => compacted,
        Err(end) => return end,
    };
    let Ok(text) = compacted_line(alloc, compacted) else {
        return CompactEnd::Ended(KeepEnd::Served(ServeEnd::Memory));
    };
    match write_all(sink, &text) {
        Ok(()) => CompactEnd::Written(compacted),
        Err(_) => CompactEnd::Ended(KeepEnd::Served(ServeEnd::WriteFault)),
    }
}

/// Writes the shorter record, prints how many entries it has, and tells on `errors` what went wrong.
pub(crate) fn run_compact<F: Files, V: Devices, K: Sink, E: Sink>(
    alloc: Global,
    words: Compact<'_>,
    storage: &mut Storage<'_, '_, F, V>,
    sink: &mut K,
    errors: &mut E,
) -> Exit
    ensures ran { CompactRan V.D.is_told V.D.seen V.D.may_leave V.D.moment V.D.left_since V.D.faults (F.content storage.old.files.now words.entry.site.now) words.entry.file.now words.entry.new.now
        (F.faults storage.old.files.now) (F.faults storage.new.files.now)
        (devices_told (V.given storage.old.devices.now) (V.returned storage.old.devices.now) (V.faults storage.old.devices.now))
        (devices_told (V.given storage.new.devices.now) (V.returned storage.new.devices.now) (V.faults storage.new.devices.now))
        (K.held sink.old) (K.held sink.new) (K.faults sink.old) (K.faults sink.new)
        (F.refused storage.new.files.now) (V.refusal storage.new.devices.now)
        (errors_told (E.held errors.old) (E.faults errors.old)) (errors_told (E.held errors.new) (E.faults errors.new)) result }
    ensures same { (storage.new.files.ghost_name ≡ storage.old.files.ghost_name) × (storage.new.devices.ghost_name ≡ storage.old.devices.ghost_name) }
{
    opened_is_not_refused();
    let end = compact_site(alloc, words, storage.files, storage.devices, sink);
    let exit = end.exit();
    let words = end.words(
        alloc,
        storage.files.last_refused(),
        storage.devices.last_cause(),
    );
    tell(alloc, errors, exit, words);
    exit
}
