//! Restarts of a site that is kept: in front of any request of a dialogue, behind its last one, and at all of these places.
use crate::requests::{numbered, request, tell_reply};
use crate::sites::{Opening, files_of, opening_of};
use ob_journal::MemDevice;
use ob_kept::{Kept, reopen};
use ob_object::Obj;
use ob_rows::{Row, Table, text_of};
use ob_site::{Machine, Site};
use ob_site_rules::Request;
use ob_times::Moment;
use std::alloc::{AllocError, Global};

/// A request, and the moment at which it is done.
#[derive(Drop)]
struct Call {
    request: Request,
    moment: Moment,
}

/// The sites of one dialogue, of each of which all its requests are asked.
#[derive(Drop)]
struct Sites<'a> {
    alloc: Global,
    opening: Opening<'a>,
    calls: Vec<Call>,
    /// It goes on from request to request.
    whole: Kept<MemDevice>,
    /// Each was restarted once, in front of the request at its place, or behind the last one.
    once: Vec<Kept<MemDevice>>,
    /// It is restarted in front of each request and behind the last one; None where it couldn't be.
    often: Option<Kept<MemDevice>>,
}

/// The rows of `Requests`, of sites that are kept, each with its record in a file in memory.
///
/// What a row asks is asked of a site that goes on, of one for each place at which a site is restarted once, in front of a request,
/// and of one that is restarted at all of these. Told is the reply of the site that goes on, which has to be that of the others
/// too, unless the row names a watch; in front of it stands each place where a site that was restarted has something else of what
/// lasts, or another reply.
#[derive(Drop)]
pub(crate) struct Restarts<'a> {
    documents: &'a str,
    sites: Option<Sites<'a>>,
    next: u64,
}

// The site of an opening with the record that a file of these bytes is.
fn open_kept(alloc: Global, opening: Opening, record: Vec<u8>) -> Option<Kept<MemDevice>> {
    let boot = Moment::new(opening.boot)?;
    let mut files = files_of(alloc, opening.document.as_bytes()).ok()?;
    let device = MemDevice::new(alloc, record, u64::MAX, b'?');
    let reopened = reopen(alloc, device, &mut files, "site", boot).ok()?;
    let (ns, kept) = reopened.into_parts();
    drop(ns);
    Some(kept)
}

// The site of an opening as it goes on after a restart, from what its file has.
fn restarted(alloc: Global, opening: Opening, kept: Kept<MemDevice>) -> Option<Kept<MemDevice>> {
    let (device, _) = kept.into_device();
    let record = device.bytes().to_vec(alloc).ok()?;
    drop(device);
    open_kept(alloc, opening, record)
}

// The site of an opening that was restarted behind these requests.
fn restarted_behind(alloc: Global, opening: Opening, calls: &[Call]) -> Option<Kept<MemDevice>> {
    let mut kept = open_kept(alloc, opening, Vec::new(alloc))?;
    for call in calls {
        let _ = kept.step(&call.request, call.moment).ok()?;
    }
    restarted(alloc, opening, kept)
}

// What is otherwise of a restarted site than of the whole one, of all that lasts but the time.
fn other_state(whole: &Site, site: &Site) -> Option<&'static str> {
    if site.next_number() < whole.next_number() {
        return Some("numbers of watches again");
    }
    match whole.has_same(site) {
        Ok(true) => None,
        Ok(false) => Some("another state"),
        Err(AllocError) => Some("no memory"),
    }
}

// What is otherwise of a site that was restarted just now. Its time may be an earlier one.
fn other_at_restart(whole: &Site, kept: &Option<Kept<MemDevice>>) -> Option<&'static str> {
    let Some(kept) = kept else {
        return Some("no site");
    };
    let site = kept.site();
    if site.time().ms() > whole.time().ms() {
        return Some("a later time");
    }
    other_state(whole, site)
}

// Asks a restarted site what the whole one was asked, and gives what is otherwise then, the reply included where one is expected.
fn other_behind(
    whole: &Site,
    kept: &mut Kept<MemDevice>,
    call: &Call,
    expected: Option<&Obj>,
) -> Option<&'static str> {
    let Ok(reply) = kept.step(&call.request, call.moment) else {
        return Some("no reply");
    };
    if let Some(expected) = expected {
        if !expected.same(&reply) {
            return Some("another reply");
        }
    }
    let site = kept.site();
    if site.time().ms() != whole.time().ms() {
        return Some("another time");
    }
    other_state(whole, site)
}

impl<'a> Sites<'a> {
    // The sites of an opening, of which nothing was asked.
    fn open(alloc: Global, opening: Opening<'a>) -> Option<Sites<'a>> {
        let whole = open_kept(alloc, opening, Vec::new(alloc))?;
        let calls = Vec::new(alloc);
        let mut once = Vec::new(alloc);
        once.push(restarted_behind(alloc, opening, &calls)?).ok()?;
        let often = restarted_behind(alloc, opening, &calls)?;
        Some(Sites {
            alloc,
            opening,
            calls,
            whole,
            once,
            often: Some(often),
        })
    }

    // Asks each site that was restarted once, and tells what is otherwise.
    fn ask_once(
        &mut self,
        call: &Call,
        expected: Option<&Obj>,
        told: &mut String,
    ) -> Result<(), AllocError> {
        for place in 0..self.once.len() {
            if let Some(kept) = self.once.get_mut(place) {
                if let Some(word) = other_behind(self.whole.site(), kept, call, expected) {
                    write!(told, "{word} where it was restarted at {place}; ")?;
                }
            }
        }
        Ok(())
    }

    // Asks the site that is restarted at each place, restarts it, and tells what is otherwise.
    fn ask_often(
        &mut self,
        call: &Call,
        expected: Option<&Obj>,
        told: &mut String,
    ) -> Result<(), AllocError> {
        let Some(mut kept) = self.often.take() else {
            return told.push_str("no site where it is restarted at each place; ");
        };
        if let Some(word) = other_behind(self.whole.site(), &mut kept, call, expected) {
            write!(told, "{word} where it was restarted at each place; ")?;
        }
        self.often = restarted(self.alloc, self.opening, kept);
        match other_at_restart(self.whole.site(), &self.often) {
            Some(word) => write!(told, "{word} where it is restarted at each place; "),
            None => Ok(()),
        }
    }

    // Restarts a site behind all requests, and tells what is otherwise.
    fn restart_behind(&mut self, told: &mut String) -> Result<(), AllocError> {
        let kept = restarted_behind(self.alloc, self.opening, &self.calls);
        if let Some(word) = other_at_restart(self.whole.site(), &kept) {
            write!(told, "{word} where it is restarted; ")?;
        }
        match kept {
            Some(kept) => Ok(self.once.push(kept)?),
            None => Ok(()),
        }
    }

    // The moment at which a request is done that is asked at this one: the site's time where that is a later one.
    fn moment(&self, asked: Moment) -> Moment {
        let time = self.whole.site().time();
        if asked.ms() < time.ms() { time } else { asked }
    }

    // Asks a request of all sites, tells what is otherwise of those that were restarted, and gives the reply.
    fn ask(
        &mut self,
        request: Request,
        asked: Moment,
        names_watch: bool,
        told: &mut String,
    ) -> Result<Obj, AllocError> {
        let moment = self.moment(asked);
        let reply = self.whole.step(&request, moment)?;
        let expected = if names_watch { None } else { Some(&reply) };
        let call = Call { request, moment };
        self.ask_once(&call, expected, told)?;
        self.ask_often(&call, expected, told)?;
        self.calls.push(call)?;
        self.restart_behind(told)?;
        Ok(reply)
    }
}

impl<'a> Restarts<'a> {
    /// No site; those that are opened have their documents in this file.
    pub(crate) fn new(documents: &'a str) -> Restarts<'a> {
        Restarts {
            documents,
            sites: None,
            next: 0,
        }
    }

    // Opens the sites of a name.
    fn open(&mut self, alloc: Global, name: &str) -> &'static str {
        self.sites = None;
        let Some(opening) = opening_of(self.documents, name) else {
            return "no site";
        };
        self.next = opening.boot;
        self.sites = Sites::open(alloc, opening);
        match self.sites {
            Some(_) => "opened",
            None => "not opened",
        }
    }

    // Asks what a row asks of the sites at the next moment. None if there is no site.
    fn step(
        &mut self,
        request: Request,
        names_watch: bool,
        told: &mut String,
    ) -> Result<Option<Obj>, AllocError> {
        let moment = Moment::new(self.next);
        self.next = self.next.saturating_add(1000);
        match (&mut self.sites, moment) {
            (Some(sites), Some(moment)) => {
                Ok(Some(sites.ask(request, moment, names_watch, told)?))
            }
            _ => Ok(None),
        }
    }

    // Tells the reply to what a row asks, or its last so many bytes, behind what is otherwise where a site was restarted.
    fn ask(
        &mut self,
        alloc: Global,
        row: &str,
        last: Option<u64>,
        told: &mut String,
    ) -> Result<(), AllocError> {
        let names_watch = row.contains("/obix/watch");
        let (moment, row) = numbered(row).unwrap_or((self.next, row));
        self.next = moment;
        let Some(request) = request(alloc, row) else {
            return told.push_str("no such row");
        };
        match self.step(request, names_watch, told)? {
            Some(reply) => tell_reply(alloc, &reply, last, told),
            None => told.push_str("no site"),
        }
    }
}

impl Table for Restarts<'_> {
    fn answer(&mut self, alloc: Global, asked: Row, told: &mut String) -> Result<(), AllocError> {
        let row = text_of(asked.bytes);
        if let Some(name) = row.strip_prefix("open ") {
            return told.push_str(self.open(alloc, name));
        }
        match row.strip_prefix("*") {
            None => self.ask(alloc, row, None, told),
            Some(rest) => match numbered(rest) {
                Some((count, row)) => self.ask(alloc, row, Some(count), told),
                None => told.push_str("no such row"),
            },
        }
    }
}
