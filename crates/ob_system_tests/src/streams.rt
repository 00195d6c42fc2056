//! Streams, files and the clock over std, by readers and writers that fail.
use ob_io::{Cause, Clock, FileFault, Files, Sink, Source};
use ob_system::{DiskFiles, StdSink, StdSource, SystemClock};
use std::fs::{File, OpenOptions};
use std::io;
use std::io::{ErrorKind, Read, Write};
use std::rt::Clock as Timer;
use std::time::Duration;

/// Is interrupted once, then moves three bytes, then nothing, then fails.
#[derive(Drop)]
struct Rough {
    calls: u8,
}

impl Rough {
    fn next(&mut self) -> io::Result<usize> {
        self.calls = self.calls.saturating_add(1);
        match self.calls {
            1 => Err(io::Error::from(ErrorKind::Interrupted)),
            2 => Ok(3),
            3 => Ok(0),
            _ => Err(io::Error::from(ErrorKind::BrokenPipe)),
        }
    }
}

impl Read for Rough {
    fn read(&mut self, buf: &mut [u8]) -> io::Result<usize> {
        Ok(self.next()?.min(buf.len()))
    }
}

impl Write for Rough {
    fn write(&mut self, piece: &[u8]) -> io::Result<usize> {
        Ok(self.next()?.min(piece.len()))
    }

    fn flush(&mut self) -> io::Result<()> {
        Ok(())
    }
}

/// Whether a read that is interrupted is tried again, and one that fails is a fault.
fn reads_on() -> bool {
    let mut source = StdSource::new(Rough { calls: 0 });
    let mut piece = [0u8; 8];
    source.read(&mut piece) == Ok(3)
        && source.read(&mut piece) == Ok(0)
        && source.fault_count() == 0
        && source.read(&mut piece).is_err()
        && source.fault_count() == 1
}

/// Whether a write that is interrupted is tried again, and one that takes nothing is a fault, and one that fails.
fn writes_on() -> bool {
    let mut sink = StdSink::new(Rough { calls: 0 });
    sink.write(b"four") == Ok(3)
        && sink.fault_count() == 0
        && sink.write(b"four").is_err()
        && sink.write(b"four").is_err()
        && sink.fault_count() == 2
}

#[test]
fn an_interruption_is_no_fault(rt: HostRuntime) {
    assert!(rt; reads_on());
    assert!(rt; writes_on());
}

/// Whether the files read so many bytes of a file, of 8 at most.
fn reads_so_many(
    rt: &HostRuntime,
    files: &mut DiskFiles<'_, HostRuntime>,
    name: &str,
    length: usize,
) -> bool {
    match &files.read_file(rt.alloc(), name, 8) {
        Ok(bytes) => bytes.len() == length,
        Err(_) => false,
    }
}

/// Whether a file can't be read.
fn fails_to_read(rt: &HostRuntime, files: &mut DiskFiles<'_, HostRuntime>, name: &str) -> bool {
    matches!(
        &files.read_file(rt.alloc(), name, 8),
        Err(FileFault::Failed)
    )
}

/// Whether this is the last file that couldn't be read, for this cause.
fn is_last(files: &DiskFiles<'_, HostRuntime>, name: &str, cause: Cause) -> bool {
    match files.last_refused() {
        Some(file) => file.name.as_str() == name && file.cause == cause,
        None => false,
    }
}

#[test]
fn files_that_cannot_be_read_are_counted(rt: HostRuntime) {
    let mut files = DiskFiles::new(&rt);
    for (name, faults, cause) in [
        ("/nowhere/at/all", 1, Cause::NoFile),
        ("/dev/null/file", 2, Cause::NoFolder),
        ("/", 3, Cause::IsFolder),
    ] {
        assert!(rt; fails_to_read(&rt, &mut files, name), "{name}");
        assert!(rt; files.fault_count() == faults, "{name}");
        assert!(rt; is_last(&files, name, cause), "{name}");
    }
    for (name, length) in [("/dev/null", 0), ("/dev/zero", 8)] {
        assert!(rt; reads_so_many(&rt, &mut files, name, length), "{name}");
    }
    assert!(rt; files.fault_count() == 3);
    assert!(rt; is_last(&files, "/", Cause::IsFolder));
}

/// Whether a write to a file is a fault.
fn is_full(file: File) -> bool {
    let mut sink = StdSink::new(file);
    sink.write(b"x").is_err() && sink.fault_count() == 1
}

#[test]
fn a_disk_that_is_full_is_counted(rt: HostRuntime) {
    let Ok(full) = OpenOptions::new().write(true).open(&rt, "/dev/full") else {
        panic!(rt; "no /dev/full")
    };
    assert!(rt; is_full(full));
}

/// A system whose clock tells so many seconds since 1970.
#[derive(Clone, Copy, Drop)]
struct At(u64);

impl Timer for At {
    fn monotonic(&self) -> io::Result<Duration> {
        Ok(Duration::ZERO)
    }

    fn since_1970(&self) -> io::Result<Duration> {
        Ok(Duration::from_secs(self.0))
    }
}

/// Whether a clock tells the last moment that there is.
fn tells_last() -> bool {
    let last = At(253_402_300_799);
    let mut clock = SystemClock::new(&last);
    let is_told = match clock.now() {
        Ok(moment) => moment.ms() == 253_402_300_799_000,
        Err(_) => false,
    };
    is_told && clock.fault_count() == 0
}

#[test]
fn the_year_10000_is_a_fault(rt: HostRuntime) {
    assert!(rt; tells_last());
    let next = At(253_402_300_800);
    let mut clock = SystemClock::new(&next);
    assert!(rt; clock.now().is_err());
    assert!(rt; clock.fault_count() == 1);
}
