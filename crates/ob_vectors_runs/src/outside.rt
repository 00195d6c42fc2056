//! The outside of a run, in memory.
ghost use Rattle.std.specs.Prelude.{◌<◌};

use crate::failing::{Failing, Part, plan, twin_plans};
use crate::inputs::{Inputs, Turn, failing_call, meant, replies, turn_of};
use crate::ran::Ran;
use crate::records::{RecordFile, Records};
use crate::scarce::Scarce;
use ob_io::{
    Cause, Fresh, Gated, MemClock, MemDialer, MemDoor, MemFiles, MemLink, MemPort, MemSink,
    MemSource, NamedFile, Pair, Waiting,
};
use ob_program::run;
use std::alloc::{AllocError, Global};
use std::sync::atomic::AtomicU64;
use std::sync::{Arc, Wait};
use std::thread::Threads;

/// What is run: the most bytes that are given or taken at a call, whether there is no memory for files, the words, the bytes of
/// the file `site`, and what else comes from the outside.
#[derive(Clone, Copy)]
pub(crate) struct Case<'a> {
    pub(crate) piece: usize,
    pub(crate) is_scarce: bool,
    pub(crate) words: &'a [String],
    pub(crate) document: &'a [u8],
    pub(crate) inputs: Inputs<'a>,
}

type Word = Arc<AtomicU64, Global>;

/// The words that links look at and set: one that isn't 0, and one that isn't when a link that wakes was written to.
struct Words {
    open: Word,
    woken: Word,
}

impl Drop for Words {
    // By one call for each part.
    fn drop(self) {
        let Words { open, woken } = self;
        drop(open);
        drop(woken);
    }
}

impl Words {
    fn new(alloc: Global) -> Result<Words, AllocError> {
        let open = Arc::new(alloc, AtomicU64::new(1))?;
        let woken = Arc::new(alloc, AtomicU64::new(0))?;
        Ok(Words { open, woken })
    }

    // The word that a link of this turn looks at.
    fn gate(&self, turn: Turn) -> &Word {
        match turn {
            Turn::Free | Turn::Wakes => &self.open,
            Turn::Waits => &self.woken,
        }
    }

    // The word that a link of this turn sets.
    fn signal(&self, turn: Turn) -> &Word {
        match turn {
            Turn::Free | Turn::Waits => &self.open,
            Turn::Wakes => &self.woken,
        }
    }
}

/// The outside, all of it in memory.
struct Outside {
    files: Scarce<MemFiles>,
    records: Records,
    link: Pair<MemSource, MemSink>,
    errors: MemSink,
    port: MemPort<Gated<MemLink>>,
    dialer: MemDialer<MemLink>,
    clock: MemClock,
}

impl Drop for Outside {
    // By one call for each part.
    fn drop(self) {
        let Outside {
            files,
            records,
            link,
            errors,
            port,
            dialer,
            clock,
        } = self;
        drop(files);
        drop(records);
        drop(link);
        drop(errors);
        drop(port);
        drop(dialer);
        drop(clock);
    }
}

// The file of a name with these bytes.
fn named(alloc: Global, name: &str, bytes: &[u8]) -> Result<NamedFile, AllocError> {
    let name = String::from_str(alloc, name)?;
    let bytes = bytes.to_vec(alloc)?;
    Ok(NamedFile { name, bytes })
}

/// What makes the outside of a case, of which one call may fail. Where memory is wanting, things are left out.
#[derive(Clone, Copy)]
struct Maker<'a> {
    alloc: Global,
    case: Case<'a>,
    failing: Option<Failing>,
}

impl Maker<'_> {
    fn plan(self, part: Part) -> Vec<u64> {
        plan(self.alloc, self.failing, part)
    }

    fn piece(self) -> usize
        ensures { 0 < result }
    {
        self.case.piece.max(1)
    }

    fn files(self) -> Scarce<MemFiles> {
        let mut files = Vec::new(self.alloc);
        if let Ok(file) = named(self.alloc, "site", self.case.document) {
            let _ = files.push(file);
        }
        match self.case.inputs {
            Inputs::Record(text) => self.push_file(&mut files, "record", text),
            Inputs::Compacted { record, new: _ } => self.push_file(&mut files, "record", record),
            Inputs::Scheduled { source: _, file } => {
                self.push_file(&mut files, "schedules", file);
            }
            _ => (),
        }
        Scarce {
            files: MemFiles::new(files, self.plan(Part::Files)).telling(Cause::NotAllowed),
            is_scarce: self.case.is_scarce,
        }
    }

    // The file of these bytes, of which a call fails where this is the part that does.
    fn record_file(self, part: Part, text: &str) -> RecordFile {
        let failing = match self.failing {
            Some(failing) if failing.part == part => Some(failing.call),
            _ => None,
        };
        RecordFile {
            bytes: meant(self.alloc, text),
            failing,
        }
    }

    // The file of the record, and the new one.
    fn records(self) -> Records {
        let (record, new) = match self.case.inputs {
            Inputs::Kept { record, doors: _ } => (record, None),
            Inputs::Compacted { record, new } => (record, Some(self.record_file(Part::New, new))),
            _ => ("", None),
        };
        Records::new(self.alloc, self.record_file(Part::Record, record), new)
    }

    // The file of a name, with the bytes that a text stands for.
    fn push_file(self, files: &mut Vec<NamedFile>, name: &str, text: &str) {
        let bytes = meant(self.alloc, text);
        if let Ok(file) = named(self.alloc, name, &bytes) {
            let _ = files.push(file);
        }
    }

    fn source(self) -> MemSource {
        let bytes = match self.case.inputs {
            Inputs::Source(source)
            | Inputs::Scheduled { source, file: _ }
            | Inputs::Supervised { source, dials: _ } => meant(self.alloc, source),
            Inputs::Record(_)
            | Inputs::Doors(_)
            | Inputs::Kept { .. }
            | Inputs::Compacted { .. }
            | Inputs::Dials(_) => Vec::new(self.alloc),
        };
        MemSource::new(bytes, self.piece(), self.plan(Part::Source))
    }

    fn sink(self, part: Part) -> MemSink {
        MemSink::new(self.alloc, self.piece(), self.plan(part))
    }

    // 2026-01-05T08:00:00Z, and on by seconds.
    fn clock(self) -> MemClock {
        let failing = self.plan(Part::Clock);
        let twins = twin_plans(self.alloc, self.failing);
        MemClock::new(self.alloc, 1_767_600_000_000, 1_000, failing, twins)
    }

    // A link that comes to a door.
    fn coming(
        self,
        words: &Words,
        place: u64,
        text: &str,
    ) -> Result<Fresh<Gated<MemLink>>, AllocError> {
        let (turn, text) = turn_of(text);
        let gate = Arc::try_clone(words.gate(turn))?;
        let signal = Arc::try_clone(words.signal(turn))?;
        let bytes = meant(self.alloc, text);
        let failing = self.plan(Part::Link(place));
        let link = MemLink::new(self.alloc, bytes, self.piece(), failing);
        Ok(Fresh::new(Gated::new(link, gate, signal)))
    }

    // The links of a door, of which the first has the number `next`; afterwards that is the number behind the last.
    fn links(self, words: &Words, text: &str, next: &mut u64) -> Vec<Fresh<Gated<MemLink>>> {
        let mut links = Vec::new(self.alloc);
        for link in text.split(" | ") {
            if let Ok(link) = self.coming(words, *next, link) {
                let _ = links.push(link);
            }
            *next = next.saturating_add(1);
        }
        links
    }

    fn doors(self, words: &Words, text: &str) -> Vec<Waiting<Gated<MemLink>>> {
        let mut doors = Vec::new(self.alloc);
        let mut next = 0;
        for (place, door) in text.split(" || ").enumerate() {
            let waiting = Waiting {
                links: self.links(words, door, &mut next),
                failing: self.plan(Part::Door(place as u64)),
            };
            let _ = doors.push(waiting);
        }
        doors
    }

    fn port(self, words: &Words) -> MemPort<Gated<MemLink>> {
        let doors = match self.case.inputs {
            Inputs::Doors(text) => self.doors(words, text),
            Inputs::Kept { record: _, doors } => self.doors(words, doors),
            _ => Vec::new(self.alloc),
        };
        MemPort::new(self.alloc, doors, self.plan(Part::Port)).telling(Cause::NotAllowed)
    }

    // A link that is dialled.
    fn answering(self, place: u64, text: &str) -> Fresh<MemLink> {
        let (call, text) = failing_call(text);
        let bytes = replies(self.alloc, text);
        let mut failing = self.plan(Part::Link(place));
        if let Some(call) = call {
            let _ = failing.push(call);
        }
        Fresh::new(MemLink::new(self.alloc, bytes, self.piece(), failing))
    }

    // The links that are dialled, and behind `failing` the numbers of the dials that fail.
    fn dialled(self, text: &str, failing: &mut Vec<u64>) -> Vec<Fresh<MemLink>> {
        let mut links = Vec::new(self.alloc);
        for (place, link) in text.split(" | ").enumerate() {
            if link == "undialled" {
                let _ = failing.push(place as u64);
            } else {
                let _ = links.push(self.answering(place as u64, link));
            }
        }
        links
    }

    fn dialer(self) -> MemDialer<MemLink> {
        let mut failing = self.plan(Part::Dialer);
        let links = match self.case.inputs {
            Inputs::Dials(text)
            | Inputs::Supervised {
                source: _,
                dials: text,
            } => self.dialled(text, &mut failing),
            _ => Vec::new(self.alloc),
        };
        MemDialer::new(self.alloc, links, failing)
    }

    fn outside(self, words: &Words) -> Outside {
        Outside {
            files: self.files(),
            records: self.records(),
            link: Pair {
                source: self.source(),
                sink: self.sink(Part::Sink),
            },
            errors: self.sink(Part::Errors),
            port: self.port(words),
            dialer: self.dialer(),
            clock: self.clock(),
        }
    }
}

// Puts what was written to links behind `told`, with ` | ` between two of them. An error only for want of memory.
fn push_written(
    told: &mut Vec<u8>,
    is_first: bool,
    written: Option<&[u8]>,
) -> Result<(), AllocError> {
    if !is_first {
        told.extend_from_slice(b" | ")?;
    }
    told.extend_from_slice(written.unwrap_or(b"untold"))
}

fn push_door(told: &mut Vec<u8>, door: &MemDoor<Gated<MemLink>>) -> Result<(), AllocError> {
    let links = door.links().unwrap_or(&[]);
    for (place, link) in links.iter().enumerate() {
        push_written(told, place == 0, link.link().written())?;
    }
    Ok(())
}

impl Outside {
    fn run<R: Threads + Wait + Sync>(&mut self, rt: &R, alloc: Global, words: &[String]) -> u8 {
        let exit = run(
            rt,
            alloc,
            words,
            &mut self.files,
            &mut self.records,
            &mut self.link,
            &mut self.errors,
            &mut self.port,
            &mut self.dialer,
            &mut self.clock,
        );
        exit.status()
    }

    // What was written to the links of doors that came back, the last door first, as they come back.
    fn push_doors(&self, told: &mut Vec<u8>) -> Result<(), AllocError> {
        let doors = self.port.doors().unwrap_or(&[]);
        for (place, door) in doors.iter().rev().enumerate() {
            if place > 0 {
                told.extend_from_slice(b" || ")?;
            }
            push_door(told, door)?;
        }
        Ok(())
    }

    // What was written to the links that were dialled.
    fn push_dials(&self, told: &mut Vec<u8>) -> Result<(), AllocError> {
        let links = self.dialer.links().unwrap_or(&[]);
        for (place, link) in links.iter().enumerate() {
            push_written(told, place == 0, link.written())?;
        }
        Ok(())
    }

    // What was written to all links.
    fn links(&self, alloc: Global) -> Vec<u8> {
        let mut told = Vec::new(alloc);
        let _ = self.push_doors(&mut told);
        let _ = self.push_dials(&mut told);
        told
    }

    fn told(&self, alloc: Global, status: u8) -> Ran {
        Ran {
            status,
            line: held(alloc, &self.errors),
            output: held(alloc, &self.link.sink),
            links: self.links(alloc),
            record: copied(alloc, self.records.bytes()),
        }
    }
}

// The bytes that a sink holds.
fn held(alloc: Global, sink: &MemSink) -> Vec<u8> {
    copied(alloc, sink.bytes().unwrap_or(b"untold"))
}

// These bytes; none where memory is wanting.
fn copied(alloc: Global, told: &[u8]) -> Vec<u8> {
    let mut bytes = Vec::new(alloc);
    let _ = bytes.extend_from_slice(told);
    bytes
}

/// Runs a case, in which this call fails. An error only for want of memory.
pub(crate) fn ran<R: Threads + Wait + Sync + AllocGlobal>(
    rt: &R,
    case: Case<'_>,
    failing: Option<Failing>,
) -> Result<Ran, AllocError> {
    let alloc = rt.alloc();
    let words = Words::new(alloc)?;
    let maker = Maker {
        alloc,
        case,
        failing,
    };
    let mut outside = maker.outside(&words);
    let status = outside.run(rt, alloc, case.words);
    Ok(outside.told(alloc, status))
}
