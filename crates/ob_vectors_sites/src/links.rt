//! Connections: what is written on them, and how they end.
use crate::sites::{Opening, load_site, opening_of};
use ob_io::{MemLink, Ticker};
use ob_load::Loaded;
use ob_rows::{Row, Table, number_at, push_bytes};
use ob_server::{LinkEnd, Serving, TimedLink, serve_alone};
use ob_times::Moment;
use std::alloc::{AllocError, Global};
use std::sync::Wait;

/// Rows of one connection each: `open NAME` takes the site of a name, which each connection begins with; `PIECE FAILING`,
/// then `/` and the bytes that come over a connection which gives and takes at most so many bytes at a time, and whose
/// call of that number fails, the first being 0, or none for `-`. Told is the end, and behind ` / ` what was written;
/// where no call fails, also what goes otherwise by single bytes, or whole.
///
/// The moments are those of a clock that begins at 2026-01-05T08:00:00Z and goes by seconds.
#[derive(Drop)]
pub(crate) struct Links<'a, R: Wait> {
    rt: &'a R,
    documents: &'a str,
    opening: Option<Opening<'a>>,
}

// What stands behind the first bar and the blank behind it.
fn input_of(bytes: &[u8]) -> &[u8] {
    let place = bytes
        .windows(3)
        .position(|three| three == b" / ".as_slice());
    match place {
        Some(place) => bytes.get(place.saturating_add(3)..).unwrap_or(&[]),
        None => &[],
    }
}

fn tell_end(end: LinkEnd, told: &mut String) -> Result<(), AllocError> {
    match end {
        LinkEnd::Closed => told.push_str("closed"),
        LinkEnd::Asked => told.push_str("asked"),
        LinkEnd::Truncated => told.push_str("truncated"),
        LinkEnd::BadFrame(fault, place) => write!(told, "frame {fault} at {place}"),
        LinkEnd::ReadFault => told.push_str("read"),
        LinkEnd::WriteFault => told.push_str("write"),
        LinkEnd::ClockFault => told.push_str("clock"),
        LinkEnd::Budget => told.push_str("budget"),
        LinkEnd::Memory => told.push_str("memory"),
    }
}

// A link over which this input comes, which gives and takes at most so many bytes at a time, and whose calls of these numbers
// fail.
fn link_of(
    alloc: Global,
    input: &[u8],
    piece: usize,
    failing: Vec<u64>,
) -> Result<MemLink, AllocError> {
    let input = input.to_vec(alloc)?;
    Ok(MemLink::new(alloc, input, piece.max(1), failing))
}

impl<'a, R: Wait> Links<'a, R> {
    /// No site; those that are taken have their documents in this file.
    pub(crate) fn new(rt: &'a R, documents: &'a str) -> Links<'a, R> {
        Links {
            rt,
            documents,
            opening: None,
        }
    }

    fn open(&mut self, name: &str) -> &'static str {
        self.opening = opening_of(self.documents, name);
        match self.opening {
            Some(_) => "opened",
            None => "no site",
        }
    }
}

impl<R: Wait> Links<'_, R> {
    // Serves a link from the site of the document on.
    fn serve(&self, alloc: Global, link: &mut MemLink) -> Option<LinkEnd> {
        let opening = self.opening?;
        let boot = Moment::new(opening.boot)?;
        let Loaded { ns, site } = load_site(alloc, opening.document.as_bytes(), boot).ok()?;
        let mut clock = Ticker {
            at: 1_767_600_000_000,
            tick: 1_000,
            k: 0,
        };
        let serving = Serving {
            rt: self.rt,
            alloc,
            ns: ns.as_ref(),
        };
        let mut timed = TimedLink {
            link,
            clock: &mut clock,
        };
        let end = serve_alone(&serving, site, &mut timed);
        Some(end)
    }

    // Tells how a link goes.
    fn tell_link(
        &self,
        alloc: Global,
        mut link: MemLink,
        told: &mut String,
    ) -> Result<(), AllocError> {
        match self.serve(alloc, &mut link) {
            Some(end) => tell_end(end, told)?,
            None => told.push_str("no site")?,
        }
        told.push_str(" / ")?;
        push_bytes(told, link.written().unwrap_or(&[]))
    }

    // Tells how a link goes by pieces of this length, if it goes otherwise than is told.
    fn tell_odd(
        &self,
        alloc: Global,
        input: &[u8],
        piece: usize,
        told: &mut String,
    ) -> Result<(), AllocError> {
        let mut other = String::new(alloc);
        let link = link_of(alloc, input, piece, Vec::new(alloc))?;
        self.tell_link(alloc, link, &mut other)?;
        if other.as_str() == told.as_str() {
            return Ok(());
        }
        write!(told, " but by {piece}: ")?;
        told.push_str(other.as_str())
    }

    fn tell(&self, alloc: Global, asked: Row, told: &mut String) -> Result<(), AllocError> {
        let piece = number_at(asked.text, 0).unwrap_or(1) as usize;
        let input = input_of(asked.bytes);
        let mut failing = Vec::new(alloc);
        if let Some(call) = number_at(asked.text, 1) {
            failing.push(call)?;
            let link = link_of(alloc, input, piece, failing)?;
            return self.tell_link(alloc, link, told);
        }
        let link = link_of(alloc, input, piece, failing)?;
        self.tell_link(alloc, link, told)?;
        self.tell_odd(alloc, input, 1, told)?;
        self.tell_odd(alloc, input, 65_536, told)
    }
}

impl<R: Wait> Table for Links<'_, R> {
    fn answer(&mut self, alloc: Global, asked: Row, told: &mut String) -> Result<(), AllocError> {
        match asked.text.strip_prefix("open ") {
            Some(name) => told.push_str(self.open(name)),
            None => self.tell(alloc, asked, told),
        }
    }
}
