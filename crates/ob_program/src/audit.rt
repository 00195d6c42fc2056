//! `audit`: whether a record is legal from a site file.
ghost use Rattle.std.specs.Prelude.{◌≡◌, ◌≤◌, ℕ, List, option_copied, IfOk, IfErr, IfSome, IsErrOf};
ghost use Rattle.ob_io.specs.Faults.{Rose};
ghost use Rattle.ob_record.specs.Runs.{Recorded, Records, IsRecord};
ghost use Rattle.ob_program.specs.Audit.{IsRecordOf, Unread, NoRun, Judges, Unjudged, JudgesNone, IsUntold, AuditComes, AuditRose, AuditRan, verdict_text};
ghost use Rattle.ob_program.specs.Telling.{errors_told};

use crate::exit::Exit;
use crate::telling::tell;
use crate::words::{file_words, load_words, word_and_number};
use ob_command::Audit;
use ob_io::{FileFault, Files, RefusedFile, Sink, write_all};
use ob_load::{LoadFault, load, opened_is_not_refused};
use ob_record::{RecordFault, Run, Verdict, audit, read_record, spelled_is_unbroken};
use std::alloc::{AllocError, Global};

/// The most bytes of a record's file.
const MOST_BYTES: u64 = 1_073_741_824;

/// Why no run was read.
#[derive(Clone, Copy, Drop)]
pub(crate) enum RunFault {
    /// The file is no record: no run has the line or entry at this place.
    Record { place: u64 },
    /// The file can't be read.
    Failed,
    Memory,
}

/// How an audit ends.
#[derive(Drop)]
pub(crate) enum AuditEnd {
    /// The verdict was written.
    Told(Verdict),
    /// The file is no record: no run has the line or entry at this place.
    NoRecord { place: u64 },
    /// The site file opens no site.
    NoSite(LoadFault),
    ReadFault,
    WriteFault,
    Memory,
}

impl AuditEnd {
    ghost use Rattle.ob_program.specs.Audit.{exit_of_audit, end_of_load, end_of_run};
    ghost use Rattle.ob_program.specs.Words.{audit_words};

    /// The end that a refusal of a site file leads to.
    fn of_load(fault: LoadFault) -> AuditEnd
        ensures { result ≡ end_of_load fault }
    {
        match fault {
            LoadFault::Read => AuditEnd::ReadFault,
            LoadFault::Memory => AuditEnd::Memory,
            LoadFault::Document(_)
            | LoadFault::RootHref
            | LoadFault::Href { .. }
            | LoadFault::Contract(_)
            | LoadFault::PathTwice { .. }
            | LoadFault::Rule(_)
            | LoadFault::Size => AuditEnd::NoSite(fault),
        }
    }

    /// The end that comes where no run was read.
    fn of_run(fault: RunFault) -> AuditEnd
        ensures { result ≡ end_of_run fault }
    {
        match fault {
            RunFault::Record { place } => AuditEnd::NoRecord { place },
            RunFault::Failed => AuditEnd::ReadFault,
            RunFault::Memory => AuditEnd::Memory,
        }
    }

    /// The exit that it leads to.
    fn exit(&self) -> Exit
        ensures { result ≡ exit_of_audit self.now }
    {
        match self {
            AuditEnd::Told(Verdict::Legal { .. }) => Exit::Ok,
            AuditEnd::Told(Verdict::Illegal { .. }) => Exit::Illegal,
            AuditEnd::NoRecord { .. } => Exit::Refused,
            AuditEnd::NoSite(_) => Exit::Refused,
            AuditEnd::ReadFault => Exit::ReadFault,
            AuditEnd::WriteFault => Exit::WriteFault,
            AuditEnd::Memory => Exit::Memory,
        }
    }

    /// The words that tell it on `errors`, where its line has some. This file could not be read last.
    fn words(&self, alloc: Global, refused: Option<&RefusedFile>) -> Result<Vec<u8>, AllocError>
        ensures { IfOk result (λ words. words.items ≡ audit_words (option_copied refused.entry) self.now) }
    {
        match self {
            AuditEnd::NoRecord { place } => word_and_number(alloc, "Record", *place),
            AuditEnd::NoSite(fault) => load_words(alloc, fault),
            AuditEnd::ReadFault => file_words(alloc, refused),
            AuditEnd::Told(_) | AuditEnd::WriteFault | AuditEnd::Memory => Ok(Vec::new(alloc)),
        }
    }
}

/// The run of the record that bytes are.
fn run_of(alloc: Global, bytes: Vec<u8>) -> Result<Run, RunFault>
    ensures run { IfOk result (λ run. (run ≡ bytes.items) × IsRecord bytes.items) }
    ensures none { IfErr result (Unread bytes.items) }
{
    match read_record(alloc, bytes) {
        Ok(run) => Ok(run),
        Err(RecordFault::At { place }) => Err(RunFault::Record { place }),
        Err(RecordFault::Memory) => Err(RunFault::Memory),
    }
}

/// The run that the record of a file tells.
fn read_run<F: Files>(alloc: Global, name: &str, files: &mut F) -> Result<Run, RunFault>
    ensures run { IfOk result (λ run. (recorded : Recorded) × Records run recorded × IfSome (F.content files.old name.now) (IsRecordOf recorded)) }
    ensures none { IfErr result (NoRun (F.content files.old name.now)) }
    ensures same { (n : List ℕ) → F.content files.new n ≡ F.content files.old n }
    ensures later { F.faults files.old ≤ F.faults files.new }
    ensures failed { IsErrOf result RunFault.Failed → Rose (F.faults files.old) (F.faults files.new) }
{
    let bytes = match files.read_file(alloc, name, MOST_BYTES + 1) {
        Ok(bytes) => bytes,
        Err(FileFault::Failed) => return Err(RunFault::Failed),
        Err(FileFault::Memory) => return Err(RunFault::Memory),
    };
    if bytes.len() as u64 > MOST_BYTES {
        return Err(RunFault::Record { place: MOST_BYTES });
    }
    run_of(alloc, bytes)
}

/// The verdict on a run, from the site that a file opens at the run's first moment.
fn judge<F: Files>(alloc: Global, files: &mut F, name: &str, run: &Run) -> Result<Verdict, AuditEnd>
    ensures judged { IfOk result (λ verdict. (recorded : Recorded) → Records run.now recorded → Judges (F.content files.old name.now) recorded verdict) }
    ensures none { IfErr result (λ end. (recorded : Recorded) → Records run.now recorded
        → Unjudged (F.content files.old name.now) recorded.boot (F.faults files.old) (F.faults files.new) end) }
    ensures later { F.faults files.old ≤ F.faults files.new }
{
    let mut loaded = match load(alloc, files, name, run.boot()) {
        Ok(loaded) => loaded,
        Err(fault) => return Err(AuditEnd::of_load(fault)),
    };
    match audit(alloc, &mut loaded.site, run) {
        Ok(verdict) => Ok(verdict),
        Err(AllocError) => Err(AuditEnd::Memory),
    }
}

/// The verdict on the record of a file, from the site of another, which is opened behind it.
fn judge_file<F: Files>(alloc: Global, words: Audit<'_>, files: &mut F) -> Result<Verdict, AuditEnd>
    ensures judged { IfOk result (λ verdict. (run : Recorded) × IfSome (F.content files.old words.entry.file.now) (IsRecordOf run) × Judges (F.content files.old words.entry.site.now) run verdict) }
    ensures none { IfErr result (JudgesNone (F.content files.old words.entry.site.now) (F.content files.old words.entry.file.now) (F.faults files.old) (F.faults files.new)) }
{
    let run = match read_run(alloc, words.file, files) {
        Ok(run) => run,
        Err(fault) => return Err(AuditEnd::of_run(fault)),
    };
    judge(alloc, files, words.site, &run)
}

/// What is printed of a verdict.
fn verdict_line(alloc: Global, verdict: &Verdict) -> Result<Vec<u8>, AllocError>
    ensures { IfOk result (λ text. text.items ≡ verdict_text verdict.now) }
{
    let text = match verdict {
        Verdict::Legal { entries } => format!(in alloc; "legal {entries}\n")?,
        Verdict::Illegal { entry, expected: _ } => format!(in alloc; "illegal at {entry}\n")?,
    };
    text.as_bytes().to_vec(alloc)
}

/// Audits the record of a file, and prints the verdict.
fn audit_file<F: Files, K: Sink>(
    alloc: Global,
    words: Audit<'_>,
    files: &mut F,
    sink: &mut K,
) -> AuditEnd
    ensures comes { AuditComes (F.content files.old words.entry.site.now) (F.content files.old words.entry.file.now) (K.held sink.old) (K.held sink.new) result }
    ensures rose { AuditRose result (F.faults files.old) (F.faults files.new) (K.faults sink.old) (K.faults sink.new) }
    ensures unwritten { IsUntold result → sink.new ≡ sink.old }
{
    let verdict = match judge_file(alloc, words, files) {
        Ok(verdict) => verdict,
        Err(end) => return end,
    };
    let Ok(text) = verdict_line(alloc, &verdict) else {
        return AuditEnd::Memory;
    };
    match write_all(sink, &text) {
        Ok(()) => AuditEnd::Told(verdict),
        Err(_) => AuditEnd::WriteFault,
    }
}

/// Audits the record of a file, prints the verdict, and tells on `errors` what went wrong.
pub(crate) fn run_audit<F: Files, K: Sink, E: Sink>(
    alloc: Global,
    words: Audit<'_>,
    files: &mut F,
    sink: &mut K,
    errors: &mut E,
) -> Exit
    ensures ran { AuditRan (F.content files.old words.entry.site.now) (F.content files.old words.entry.file.now) (F.faults files.old) (F.faults files.new)
        (K.held sink.old) (K.held sink.new) (K.faults sink.old) (K.faults sink.new) (F.refused files.new)
        (errors_told (E.held errors.old) (E.faults errors.old)) (errors_told (E.held errors.new) (E.faults errors.new)) result }
{
    opened_is_not_refused();
    spelled_is_unbroken();
    let end = audit_file(alloc, words, files, sink);
    let exit = end.exit();
    let words = end.words(alloc, files.last_refused());
    tell(alloc, errors, exit, words);
    exit
}
