// Objects in memory. Each holds its content, counts its calls, and fails at the calls of a list of numbers and at no
// other, the first call being 0.
ghost use Rattle.std.specs.Prelude.{◌≡◌, ℕ, List, IfSome, ◌<◌, ◌≤◌, ◌+◌, ◌-◌, ◌^◌, min, [], true, false, length, drop, take, is_err, IfOk, IsErrOf, Some, None, option_map, string_bytes, option_copied};
ghost use Rattle.std.specs.List.{find};
ghost use Rattle.std.specs.Str.{bytes_eq};
ghost use Rattle.std.specs.Io.{ReadsAtMost, WritesAtMost};
ghost use Rattle.std.specs.Io.KnownBytes.{ReadConsumes};
ghost use Rattle.ob_io.specs.Causes.{TellsFile};
ghost use Rattle.ob_io.specs.Faults.{Rose, HasCause, HasFileCause, FailsAsPlanned};
ghost use Rattle.ob_io.specs.Told.{WriteGains};

use crate::{Cause, Failed, FileFault, Files, RefusedFile, Sink, Source};
use std::alloc::{AllocError, Global};

/// Calls so far, the calls that are to fail, and how many have failed.
#[derive(Drop)]
pub(crate) struct Calls {
    made: u64,
    failing: Vec<u64>,
    pub(crate) faults: u64,
}

impl Calls {
    ghost use Rattle.ob_io.specs.Memory.{next_fails, AtFirst};

    pub(crate) fn new(failing: Vec<u64>) -> Calls
        ensures { AtFirst failing result }
    {
        Calls {
            made: 0,
            failing,
            faults: 0,
        }
    }

    // Counts a call, and tells whether it is to fail.
    pub(crate) fn next(&mut self) -> bool
        ensures answer { result ≡ next_fails self.old }
        ensures counted { self.new
            ≡ record self.old { made = min (self.old.made + 1) (2 ^ 64 - 1) } }
    {
        let fails = self.failing.contains(&self.made);
        self.made = self.made.saturating_add(1);
        fails
    }

    // Counts a failure.
    pub(crate) fn fail(&mut self) -> Failed
        ensures rose { Rose self.old.faults self.new.faults }
        ensures later { self.old.faults ≤ self.new.faults }
        ensures same { (self.new.made ≡ self.old.made) × (self.new.failing ≡ self.old.failing) }
    {
        self.faults = self.faults.saturating_add(1);
        Failed
    }

    // Counts a failure of what came back, if it failed.
    pub(crate) fn fail_if(&mut self, failed: bool)
        ensures rose { failed ≡ true → Rose self.old.faults self.new.faults }
        ensures whole { failed ≡ false → self.new.faults ≡ self.old.faults }
        ensures later { self.old.faults ≤ self.new.faults }
        ensures same { (self.new.made ≡ self.old.made) × (self.new.failing ≡ self.old.failing) }
    {
        if failed {
            let _ = self.fail();
        }
    }
}

/// Bytes that are read in pieces of at most a given length.
#[derive(Drop)]
pub struct MemSource {
    bytes: Vec<u8>,
    place: usize,
    piece: usize,
    calls: Calls,
    ghost within: { place ≤ length bytes.items },
    ghost piece_some: { 0 < piece },
}

impl MemSource {
    ghost use Rattle.ob_io.specs.Memory.{source_left, AtFirst};

    /// A source that fails at the calls of these numbers, and else gives the bytes in pieces of at most `piece`.
    pub fn new(bytes: Vec<u8>, piece: usize, failing: Vec<u64>) -> MemSource
        requires { 0 < piece }
        ensures left { source_left result ≡ bytes.items }
        ensures pieces { result.piece ≡ piece }
        ensures calls { AtFirst failing result.calls }
    {
        MemSource {
            bytes,
            place: 0,
            piece,
            calls: Calls::new(failing),
        }
    }
}

impl Source for MemSource {
    ghost use Rattle.ob_io.specs.Memory.{source_left, source_fails, CountsCall};

    ghost left = { λ s. Some (source_left s) };

    ghost faults = { λ s. s.calls.faults };

    fn read(&mut self, buf: &mut [u8]) -> Result<usize, Failed>
        requires { 0 < length buf.old }
        ensures bound { ReadsAtMost result buf.new }
        ensures bytes { ReadConsumes (Some (source_left self.old))
            (Some (source_left self.new)) result buf.new }
        ensures cause { HasCause self.old.calls.faults self.new.calls.faults result }
        ensures planned { is_err result ≡ source_fails self.old }
        ensures counted { CountsCall self.old.calls self.new.calls }
    {
        if self.calls.next() {
            return Err(self.calls.fail());
        }
        let (_, rest) = self.bytes.split_at(self.place);
        let count = rest.len().min(buf.len()).min(self.piece);
        let (front, _) = rest.split_at(count);
        buf[..count].copy_from_slice(front);
        self.place += count;
        Ok(count)
    }
}

/// Bytes that are written in pieces of at most a given length. Its room grows while memory allows; a byte that finds
/// no room is taken all the same, and from then on the sink tells nothing.
#[derive(Drop)]
pub struct MemSink {
    bytes: Vec<u8>,
    is_told: bool,
    piece: usize,
    calls: Calls,
    ghost piece_some: { 0 < piece },
}

impl MemSink {
    ghost use Rattle.ob_io.specs.Memory.{sink_held, AtFirst};

    /// An empty sink that fails at the calls of these numbers, and else takes pieces of at most `piece`.
    pub fn new(alloc: Global, piece: usize, failing: Vec<u64>) -> MemSink
        requires { 0 < piece }
        ensures held { sink_held result ≡ Some [] }
        ensures pieces { result.piece ≡ piece }
        ensures calls { AtFirst failing result.calls }
    {
        MemSink {
            bytes: Vec::new(alloc),
            is_told: true,
            piece,
            calls: Calls::new(failing),
        }
    }

    /// What was written, where that is still told.
    pub fn bytes(&self) -> Option<&[u8]>
        ensures { option_map (λ bytes. bytes.now) result ≡ sink_held self.now }
    {
        if self.is_told {
            Some(self.bytes.as_slice())
        } else {
            None
        }
    }
}

impl Sink for MemSink {
    ghost use Rattle.ob_io.specs.Memory.{sink_held, sink_fails, CountsCall};

    ghost held = { λ s. sink_held s };

    ghost faults = { λ s. s.calls.faults };

    fn write(&mut self, piece: &[u8]) -> Result<usize, Failed>
        requires { 0 < length piece.now }
        ensures bound { WritesAtMost result piece.now }
        ensures progress { IfOk result (λ count. 0 < count) }
        ensures bytes { WriteGains (sink_held self.old) (sink_held self.new) result piece.now }
        ensures cause { HasCause self.old.calls.faults self.new.calls.faults result }
        ensures planned { is_err result ≡ sink_fails self.old }
        ensures counted { CountsCall self.old.calls self.new.calls }
    {
        if self.calls.next() {
            let failed = self.calls.fail();
            return Err(failed);
        }
        let count = piece.len().min(self.piece);
        let (front, _) = piece.split_at(count);
        if self.bytes.extend_from_slice(front).is_err() {
            self.is_told = false;
        }
        Ok(count)
    }
}

/// A file in memory.
#[derive(Drop)]
pub struct NamedFile {
    pub name: String,
    pub bytes: Vec<u8>,
}

/// Files by name. A name that no file has fails.
#[derive(Drop)]
pub struct MemFiles {
    files: Vec<NamedFile>,
    calls: Calls,
    // the cause that a refused call tells
    tells: Cause,
    refused: Option<RefusedFile>,
}

impl MemFiles {
    ghost use Rattle.ob_io.specs.Memory.{files_of, AtFirst};

    /// These files, which fail to be read at the calls of these numbers.
    pub fn new(files: Vec<NamedFile>, failing: Vec<u64>) -> MemFiles
        ensures files { files_of result ≡ files.items }
        ensures calls { AtFirst failing result.calls }
        ensures untold { (result.tells ≡ Cause.Untold) × (result.refused ≡ None) }
    {
        MemFiles {
            files,
            calls: Calls::new(failing),
            tells: Cause::Untold,
            refused: None,
        }
    }

    /// The files that tell this cause where a call of a number fails.
    pub fn telling(self, cause: Cause) -> MemFiles
        ensures { result ≡ record self { tells = cause } }
    {
        let mut files = self;
        files.tells = cause;
        files
    }
}

fn file_of<'a>(files: &'a [NamedFile], name: &str) -> Option<&'a NamedFile>
    ensures { option_copied result
        ≡ find (λ file. bytes_eq (string_bytes file.name) name.now) files.now }
{
    files.iter().find(|file| file.name.as_str() == name)
}

fn front_of(alloc: Global, bytes: &[u8], limit: usize) -> Result<Vec<u8>, AllocError>
    ensures { IfOk result (λ front. front.items ≡ take limit bytes.now) }
{
    let (front, _) = bytes.split_at(bytes.len().min(limit));
    front.to_vec(alloc)
}

impl Files for MemFiles {
    ghost use Rattle.ob_io.specs.Memory.{content_of, file_cause, file_fails, CountsCall};

    ghost content = { λ s name. content_of s.files.items name };

    ghost faults = { λ s. s.calls.faults };

    ghost refused = { λ s. s.refused };

    fn read_file(&mut self, alloc: Global, name: &str, limit: u64) -> Result<Vec<u8>, FileFault>
        ensures within { IfOk result (λ bytes. length bytes.items ≤ limit) }
        ensures bytes { IfOk result (λ bytes. IfSome (content_of self.old.files.items name.now)
            (λ whole. bytes.items ≡ take limit whole)) }
        ensures same { (name : List ℕ)
            → content_of self.new.files.items name ≡ content_of self.old.files.items name }
        ensures told { TellsFile self.old.refused self.new.refused name.now result }
        ensures cause { HasFileCause self.old.calls.faults self.new.calls.faults result }
        ensures why { IsErrOf result FileFault.Failed → IfSome self.new.refused (λ file. file.cause ≡ file_cause self.old) }
        ensures planned { FailsAsPlanned (file_fails self.old name.now) result }
        ensures counted { CountsCall self.old.calls self.new.calls }
    {
        let fails = self.calls.next();
        match file_of(&self.files, name) {
            Some(file) if !fails => match front_of(alloc, &file.bytes, limit as usize) {
                Ok(bytes) => Ok(bytes),
                Err(AllocError) => Err(FileFault::Memory),
            },
            _ => {
                let _ = self.calls.fail();
                let cause = if fails { self.tells } else { Cause::NoFile };
                self.refused = RefusedFile::new(alloc, name, cause);
                Err(FileFault::Failed)
            }
        }
    }

    fn last_refused(&self) -> Option<&RefusedFile> {
        self.refused.as_ref()
    }
}
