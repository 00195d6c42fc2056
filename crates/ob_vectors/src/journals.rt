//! A journal on a file in memory: what is opened of it, wherever it was cut off, and what is appended.
ghost use Rattle.std.specs.Prelude.{[]};

use ob_journal::{
    AppendFault, Device, DeviceFault, Extent, Journal, MemDevice, NoJournal, Sized, find, repair,
};
use ob_rows::{Row, Table, number_at, push_bytes, push_meant, push_number, push_words, split_word};
use std::alloc::{AllocError, Global};

const FOREVER: u64 = 1 << 40;

/// Journals, whose entries are a byte that says how many bytes follow it:
///
/// `open FILE`: the bytes of a file once it was opened. `find FILE`: how far its entries go. `cut FILLER`: the numbers of
/// entries that were acknowledged, of two that were appended to a new file which was cut off after 0, 1, .. 29 bytes and calls,
/// where a torn write is filled up with the byte of this number. `append END FILE`: what came of appending an entry at an end
/// of a file that can't be written, the end then, and how far the entries of the file go.
#[derive(Drop)]
pub(crate) struct Journals;

// A device in memory of which nothing is told, as a file of the disk tells nothing: the rows look at what it holds.
#[derive(Drop)]
struct Untold {
    inner: MemDevice,
}

impl Untold {
    fn new(alloc: Global, bytes: &[u8], left: u64, filler: u8) -> Result<Untold, AllocError> {
        let inner = MemDevice::new(alloc, bytes.to_vec(alloc)?, left, filler);
        Ok(Untold { inner })
    }
}

impl Device for Untold {
    ghost is_told = { ⊥ };

    ghost seen = { λ f. [] };

    ghost may_leave = { λ f c. ⊥ };

    ghost moment = { λ f. 0 };

    ghost left_since = { λ f t c. ⊥ };

    ghost faults = { λ f. f.inner.faults };

    ghost refusal = { λ f. f.inner.cause };

    ghost counts_now = { λ f t c le left. left };

    ghost only_now = { λ f c left. left };

    fn read(&mut self, alloc: Global) -> Result<Vec<u8>, DeviceFault> {
        self.inner.read(alloc)
    }

    // Beyond the end a journal neither writes nor cuts.
    fn write_at(&mut self, at: usize, bytes: &[u8]) -> Result<(), DeviceFault> {
        if at > self.inner.bytes().len() {
            return Err(DeviceFault::Memory);
        }
        self.inner.write_at(at, bytes)
    }

    fn cut(&mut self, len: usize) -> Result<(), DeviceFault> {
        if len > self.inner.bytes().len() {
            return Err(DeviceFault::Memory);
        }
        self.inner.cut(len)
    }

    fn sync(&mut self) -> Result<(), DeviceFault> {
        self.inner.sync()
    }
}

// The bytes that a part of a row stands for.
fn meant(alloc: Global, said: &str) -> Result<Vec<u8>, AllocError> {
    let mut bytes = Vec::new(alloc);
    push_meant(&mut bytes, said)?;
    Ok(bytes)
}

// Opens the file of a device: where its closed gate stands, if it is a journal's.
fn reopen(alloc: Global, device: &mut Untold) -> Result<Option<usize>, DeviceFault> {
    let bytes = device.read(alloc)?;
    match find::<Sized>(&bytes) {
        Ok(extent) => Ok(Some(repair::<Untold, Sized>(device, extent)?)),
        Err(_) => Ok(None),
    }
}

// What a file is once it was opened.
fn opened(alloc: Global, bytes: &[u8]) -> Result<Vec<u8>, DeviceFault> {
    let mut device = Untold::new(alloc, bytes, FOREVER, 0)?;
    let _ = reopen(alloc, &mut device)?;
    Ok(device.inner.bytes().to_vec(alloc)?)
}

fn tell_opened(alloc: Global, said: &str, told: &mut String) -> Result<(), AllocError> {
    let file = meant(alloc, said)?;
    match &opened(alloc, file.as_slice()) {
        Ok(bytes) => push_bytes(told, bytes.as_slice()),
        Err(DeviceFault::Failed) => told.push_str("failed"),
        Err(DeviceFault::Memory) => Err(AllocError),
    }
}

// Appends two entries; how many were acknowledged.
fn append_two(journal: &mut Journal<Untold>) -> usize {
    if journal.append::<Sized>(b"\x02ab\0").is_err() {
        return 0;
    }
    if journal.append::<Sized>(b"\x01c\0").is_err() {
        return 1;
    }
    2
}

// What is left of a file that was cut off: how many entries were acknowledged, and the bytes.
#[derive(Drop)]
struct Rest {
    acknowledged: usize,
    bytes: Vec<u8>,
}

// Opens a file with no byte and appends two entries, cut off after `left` bytes and calls.
fn appended(alloc: Global, left: u64, filler: u8) -> Result<Rest, AllocError> {
    let mut device = Untold::new(alloc, b"", left, filler)?;
    let Ok(Some(end)) = reopen(alloc, &mut device) else {
        let bytes = device.inner.bytes().to_vec(alloc)?;
        return Ok(Rest {
            acknowledged: 0,
            bytes,
        });
    };
    let mut journal = Journal { device, end };
    let acknowledged = append_two(&mut journal);
    let bytes = journal.device.inner.bytes().to_vec(alloc)?;
    Ok(Rest {
        acknowledged,
        bytes,
    })
}

// Whether the file is the one that so many entries leave at rest.
fn holds(file: &[u8], entries: usize) -> bool {
    let states = [
        b"obix-record 1\0".as_slice(),
        b"obix-record 1\n\x02ab\0".as_slice(),
        b"obix-record 1\n\x02ab\n\x01c\0".as_slice(),
    ];
    match states.get(entries) {
        Some(state) => *state == file,
        None => false,
    }
}

// Whether a second opening finds the same, itself cut off at every byte and call.
fn stays(alloc: Global, bytes: &[u8], found: &[u8], filler: u8) -> Result<bool, DeviceFault> {
    for left in 0..20 {
        let mut device = Untold::new(alloc, bytes, left, filler)?;
        let _ = reopen(alloc, &mut device);
        if opened(alloc, device.inner.bytes())?.as_slice() != found {
            return Ok(false);
        }
    }
    Ok(true)
}

// Whether what was acknowledged is there, at most one entry more, and a second opening changes nothing.
fn is_kept(alloc: Global, rest: &Rest, filler: u8) -> Result<bool, DeviceFault> {
    let found = opened(alloc, &rest.bytes)?;
    let more = rest.acknowledged.saturating_add(1);
    let is_there = holds(&found, rest.acknowledged) || holds(&found, more);
    Ok(is_there && stays(alloc, &rest.bytes, &found, filler)?)
}

fn tell_rest(alloc: Global, rest: &Rest, filler: u8, told: &mut String) -> Result<(), AllocError> {
    push_number(told, rest.acknowledged as u64)?;
    match is_kept(alloc, rest, filler) {
        Ok(true) => Ok(()),
        Ok(false) => told.push_str(" otherwise "),
        Err(DeviceFault::Failed) => told.push_str(" failed "),
        Err(DeviceFault::Memory) => Err(AllocError),
    }
}

fn tell_cuts(alloc: Global, filler: u8, told: &mut String) -> Result<(), AllocError> {
    for left in 0..=29 {
        let rest = appended(alloc, left, filler)?;
        tell_rest(alloc, &rest, filler, told)?;
    }
    Ok(())
}

fn append_word(appended: Result<(), AppendFault>) -> &'static str {
    match appended {
        Ok(()) => "appended at",
        Err(AppendFault::Full) => "Full at",
        Err(AppendFault::Failed) => "Failed at",
        Err(AppendFault::Memory) => "Memory at",
    }
}

fn tell_extent(bytes: &[u8], told: &mut String) -> Result<(), AllocError> {
    match find::<Sized>(bytes) {
        Ok(Extent::Entries { end }) => write!(told, "entries to {end}"),
        Ok(Extent::Unmade) => told.push_str("unmade"),
        Err(NoJournal { place }) => write!(told, "no journal's from {place}"),
    }
}

fn tell_append(alloc: Global, said: &str, told: &mut String) -> Result<(), AllocError> {
    let (_, file) = split_word(said);
    let file = meant(alloc, file)?;
    let end = number_at(said, 0).unwrap_or(0) as usize;
    let device = Untold::new(alloc, file.as_slice(), 0, 0)?;
    let mut journal = Journal { device, end };
    let appended = journal.append::<Sized>(b"\x01a\0");
    push_words(told, &[append_word(appended)])?;
    push_number(told, journal.end as u64)?;
    told.push_str(", ")?;
    tell_extent(journal.device.inner.bytes(), told)
}

impl Table for Journals {
    fn answer(&mut self, alloc: Global, asked: Row, told: &mut String) -> Result<(), AllocError> {
        let (word, said) = split_word(asked.text);
        match word {
            "open" => tell_opened(alloc, said, told),
            "find" => tell_extent(&meant(alloc, said)?, told),
            "cut" => tell_cuts(alloc, said.parse::<u8>().unwrap_or(0), told),
            "append" => tell_append(alloc, said, told),
            _ => told.push_str("no such row"),
        }
    }
}
