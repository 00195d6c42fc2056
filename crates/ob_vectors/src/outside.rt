//! The objects in memory that stand for the outside: pieces, and calls that fail.
use ob_io::{Files, MemFiles, MemSink, MemSource, NamedFile, Sink, Source, write_all};
use ob_rows::{Row, Table, push_number, push_words, text_of};
use std::alloc::{AllocError, Global};

/// `reads` are of a source of `abcde` in pieces of three whose call 1 fails, each into the same four bytes; `writes` go to a sink
/// in pieces of three whose call 2 fails; `files` are read of `a`, which has `12345`, and of `b`, and call 3 fails.
#[derive(Drop)]
pub(crate) struct Outside;

fn call(alloc: Global, number: u64) -> Result<Vec<u64>, AllocError> {
    let mut calls = Vec::new(alloc);
    calls.push(number)?;
    Ok(calls)
}

fn tell_reads(source: &mut MemSource, told: &mut String) -> Result<(), AllocError> {
    let mut buffer = [0u8; 4];
    for _ in 0..4 {
        match source.read(&mut buffer) {
            Ok(count) => push_number(told, count as u64)?,
            Err(_) => told.push_str("failed")?,
        }
        push_words(told, &["", text_of(&buffer), ";"])?;
    }
    Ok(())
}

fn read_source(alloc: Global, told: &mut String) -> Result<(), AllocError> {
    let failing = call(alloc, 1)?;
    let bytes = Vec::from_slice(alloc, b"abcde")?;
    let mut source = MemSource::new(bytes, 3, failing);
    tell_reads(&mut source, told)
}

// Tells what became of a write, and what the sink holds.
fn tell_held(sink: &MemSink, is_done: bool, told: &mut String) -> Result<(), AllocError> {
    let done = if is_done { "done," } else { "failed," };
    let held = sink.bytes().unwrap_or(b"unknown");
    push_words(told, &[done, text_of(held), ";"])
}

fn tell_writes(sink: &mut MemSink, told: &mut String) -> Result<(), AllocError> {
    let is_done = sink.write(b"abcde") == Ok(3);
    tell_held(sink, is_done, told)?;
    let is_done = write_all(sink, b"defgh").is_ok();
    tell_held(sink, is_done, told)?;
    let is_done = write_all(sink, b"ghijk").is_ok();
    tell_held(sink, is_done, told)
}

fn write_sink(alloc: Global, told: &mut String) -> Result<(), AllocError> {
    let mut sink = MemSink::new(alloc, 3, call(alloc, 2)?);
    tell_writes(&mut sink, told)
}

fn tell_files(alloc: Global, files: &mut MemFiles, told: &mut String) -> Result<(), AllocError> {
    for (name, limit) in [("a", 9), ("a", 3), ("b", 9), ("a", 9)] {
        match &files.read_file(alloc, name, limit) {
            Ok(bytes) => push_words(told, &[text_of(bytes.as_slice()), ";"])?,
            Err(_) => told.push_str("failed ; ")?,
        }
    }
    Ok(())
}

fn file(alloc: Global) -> Result<NamedFile, AllocError> {
    let name = String::from_str(alloc, "a")?;
    let bytes = Vec::from_slice(alloc, b"12345")?;
    Ok(NamedFile { name, bytes })
}

fn read_files(alloc: Global, told: &mut String) -> Result<(), AllocError> {
    let failing = call(alloc, 3)?;
    let files = vec![in alloc; file(alloc)?]?;
    let mut files = MemFiles::new(files, failing);
    tell_files(alloc, &mut files, told)
}

impl Table for Outside {
    fn answer(&mut self, alloc: Global, asked: Row, told: &mut String) -> Result<(), AllocError> {
        match asked.text {
            "reads" => read_source(alloc, told),
            "writes" => write_sink(alloc, told),
            _ => read_files(alloc, told),
        }
    }
}
