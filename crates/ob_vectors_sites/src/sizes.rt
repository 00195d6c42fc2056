//! A large site: how many parts its replies have, and requests that are asked very often.
use crate::requests::{numbered, request};
use crate::sites::{Opening, site_of};
use ob_object::Obj;
use ob_rows::{Row, Table};
use ob_site::{Machine, Site};
use ob_site_rules::Request;
use ob_times::Moment;
use std::alloc::{AllocError, Global};

/// Rows on a site that a row opens, all done at the moment of its opening:
///
/// `open MOMENT DOCUMENT`: opens a site; `REQUEST`: how many parts the reply has, or how many entries with how many parts,
/// where it has a list of values; `*COUNT REQUEST|REQUEST ..`: the same of all that is told where the requests are done in turn,
/// so many times.
#[derive(Drop)]
pub(crate) struct Sizes {
    site: Option<Site>,
    moment: Option<Moment>,
}

// How large a reply is.
#[derive(Clone, Copy, PartialEq, Eq)]
enum Size {
    Parts(u64),
    // Entries, and the parts that these have.
    Entries(u64, u64),
    NoReply,
}

fn size_of(reply: &Obj) -> Size {
    match reply.child("values") {
        Some(values) => { Size::Entries(values.len() as u64, values.parts().saturating_sub(1)) }
        None => Size::Parts(reply.parts()),
    }
}

fn tell_size(size: Size, told: &mut String) -> Result<(), AllocError> {
    match size {
        Size::Parts(parts) => write!(told, "{parts} parts"),
        Size::Entries(entries, parts) => write!(told, "{entries} entries of {parts} parts"),
        Size::NoReply => told.push_str("no reply"),
    }
}

// The requests of rows, with `|` between them. One that is none is left out.
fn requests_of(alloc: Global, rows: &str) -> Result<Vec<Request>, AllocError> {
    let mut requests = Vec::new(alloc);
    for row in rows.split('|') {
        if let Some(request) = request(alloc, row) {
            requests.push(request)?;
        }
    }
    Ok(requests)
}

fn step(site: &mut Site, request: &Request, moment: Moment) -> Size {
    match site.step(request, moment) {
        Ok(reply) => size_of(&reply),
        Err(_) => Size::NoReply,
    }
}

// Does requests in turn, so many times: the size that all replies have, or that of the first one that has another.
fn step_often(
    site: &mut Site,
    requests: &[Request],
    moment: Moment,
    count: u64,
) -> Result<Size, Size> {
    let mut size = Size::NoReply;
    for time in 0..count {
        for (place, request) in requests.iter().enumerate() {
            let next = step(site, request, moment);
            if (time > 0 || place > 0) && next != size {
                return Err(next);
            }
            size = next;
        }
    }
    Ok(size)
}

fn tell_often(sizes: Result<Size, Size>, told: &mut String) -> Result<(), AllocError> {
    match sizes {
        Ok(size) => {
            tell_size(size, told)?;
            told.push_str(" each time")
        }
        Err(size) => {
            told.push_str("otherwise: ")?;
            tell_size(size, told)
        }
    }
}

impl Sizes {
    /// No site.
    pub(crate) fn new() -> Sizes {
        Sizes {
            site: None,
            moment: None,
        }
    }

    // Opens the site of a document.
    fn open(&mut self, alloc: Global, said: &str) -> &'static str {
        let (boot, document) = numbered(said).unwrap_or((0, ""));
        self.moment = Moment::new(boot);
        self.site = site_of(alloc, Opening { document, boot });
        match &self.site {
            Some(_) => "opened",
            None => "no site",
        }
    }

    // Tells how large the reply to a request is.
    fn ask(&mut self, alloc: Global, row: &str, told: &mut String) -> Result<(), AllocError> {
        let Some(request) = request(alloc, row) else {
            return told.push_str("no such row");
        };
        match (&mut self.site, self.moment) {
            (Some(site), Some(moment)) => tell_size(step(site, &request, moment), told),
            _ => told.push_str("no site"),
        }
    }

    // Tells how large the replies to requests are that are asked so often.
    fn ask_often(&mut self, alloc: Global, row: &str, told: &mut String) -> Result<(), AllocError> {
        let (count, rows) = numbered(row).unwrap_or((0, ""));
        let requests = requests_of(alloc, rows)?;
        match (&mut self.site, self.moment) {
            (Some(site), Some(moment)) => {
                tell_often(step_often(site, &requests, moment, count), told)
            }
            _ => told.push_str("no site"),
        }
    }
}

impl Table for Sizes {
    fn answer(&mut self, alloc: Global, asked: Row, told: &mut String) -> Result<(), AllocError> {
        if let Some(said) = asked.text.strip_prefix("open ") {
            return told.push_str(self.open(alloc, said));
        }
        match asked.text.strip_prefix("*") {
            Some(row) => self.ask_often(alloc, row, told),
            None => self.ask(alloc, asked.text, told),
        }
    }
}
