//! The program `obix`: hands `ob_program`'s `run` the words of the command line, the disk, the three standard streams, the
//! network and the system's clock, and ends with its status.
#![tactic(auto)]

use ob_io::{Pair, Sink, Source, write_all};
use ob_program::{Exit, run};
use ob_system::{
    Crowd, DiskDevices, DiskFiles, StdSink, StdSource, SystemClock, TcpDialer, TcpPort,
};
use std::alloc::{AllocGlobal, Global};
use std::env;
use std::fs::File;
use std::io::ErrorKind;
use std::net::{Net, TcpListener, TcpStream};
use std::process::ExitCode;
use std::rt::{Clock, Files};
use std::sync::Wait;
use std::thread::Threads;

/// Why the words of the command line can't be had.
#[derive(Clone, Copy)]
enum WordFault {
    /// One isn't UTF-8.
    NotText,
    Memory,
}

/// The words behind the program's name.
fn read_words(rt: &HostRuntime, alloc: Global) -> Result<Vec<String>, WordFault> {
    let given = match env::args(rt) {
        Ok(given) => given,
        Err(fault) => {
            return Err(if fault.kind() == ErrorKind::OutOfMemory {
                WordFault::Memory
            } else {
                WordFault::NotText
            });
        }
    };
    let mut words = Vec::new(alloc);
    for word in given.skip(1) {
        if words.push(word).is_err() {
            return Err(WordFault::Memory);
        }
    }
    Ok(words)
}

/// Tells on `errors` why there are no words, and gives the exit for that.
fn without_words<E: Sink>(errors: &mut E, fault: WordFault) -> Exit {
    match fault {
        WordFault::NotText => {
            let _ = write_all(errors, b"obix: usage: a word isn't UTF-8\n");
            Exit::Usage
        }
        WordFault::Memory => {
            let _ = write_all(errors, b"obix: out of memory\n");
            Exit::Memory
        }
    }
}

/// Runs the command of these words over the system, and gives its exit. `crowd` is what the doors of its port share.
fn run_words<'a, R, S: Source, K: Sink, E: Sink>(
    rt: &'a R,
    crowd: &'a Crowd,
    words: &[String],
    link: &mut Pair<S, K>,
    errors: &mut E,
) -> Exit
where
    R: Threads
        + Wait
        + Sync
        + AllocGlobal
        + Net<Listener = TcpListener, Stream = TcpStream>
        + Clock
        + Files<File = File>,
{
    let mut files = DiskFiles::new(rt);
    let mut devices = DiskDevices::new(rt);
    let mut port = TcpPort::new(rt, crowd);
    let mut dialer = TcpDialer::new(rt);
    let mut clock = SystemClock::new(rt);
    run(
        rt,
        rt.alloc(),
        words,
        &mut files,
        &mut devices,
        link,
        errors,
        &mut port,
        &mut dialer,
        &mut clock,
    )
}

fn main(rt: HostRuntime) -> ExitCode {
    let alloc = rt.alloc();
    let mut errors = StdSink::new(rt.stderr());
    let exit = match read_words(&rt, alloc) {
        Ok(words) => {
            let mut link = Pair {
                source: StdSource::new(rt.stdin()),
                sink: StdSink::new(rt.stdout()),
            };
            let crowd = Crowd::new();
            run_words(&rt, &crowd, &words, &mut link, &mut errors)
        }
        Err(fault) => without_words(&mut errors, fault),
    };
    ExitCode::from(exit.status())
}
