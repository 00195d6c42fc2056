//! What a site has kept of each request.
ghost use Rattle.std.specs.Prelude.{ℕ, ⊤};

use crate::requests::{request, tell_reply};
use crate::sites::open;
use ob_object::Obj;
use ob_rows::{Row, Table, text_of};
use ob_site::{Keeper, Site};
use ob_site_rules::Request;
use ob_times::Moment;
use std::alloc::{AllocError, Global};

/// A keeper that notes what it was asked last. At a make it notes two numbers more.
#[derive(Drop)]
pub(crate) struct Book {
    below: u64,
    fails: bool,
    // The site's time, and the number of the next watch.
    last: Option<(u64, u64)>,
}

impl Keeper for Book {
    ghost is_ready = { λ k. ⊤ };

    ghost below = { λ k. k.below };

    ghost keeps = { λ k l request time next reply. ⊤ };

    ghost may_keep = { λ k l request time next reply. ⊤ };

    fn below(&self) -> u64 {
        self.below
    }

    fn keep(
        &mut self,
        _request: &Request,
        time: Moment,
        next: u64,
        _reply: &Obj,
    ) -> Result<(), AllocError> {
        if self.fails {
            return Err(AllocError);
        }
        self.last = Some((time.ms(), next));
        if next > self.below {
            self.below = next.saturating_add(2);
        }
        Ok(())
    }
}

/// Rows that a site answers, a request each second:
///
/// `open NAME`: opens a site; `VERB TARGET` or `VERB TARGET BODY`: does a request. Told is what was kept of it, the site's time in
/// milliseconds since 1970 and the number of the next watch, or `-`; and the reply. Behind `!` the keeper fails, if it is asked: then
/// `error` is told. Behind `*` the reply isn't told.
#[derive(Drop)]
pub(crate) struct Kept<'a> {
    sites: &'a str,
    site: Option<Site>,
    book: Book,
    next: u64,
}

// No number is given, and nothing was asked.
fn new_book() -> Book {
    Book {
        below: 1,
        fails: false,
        last: None,
    }
}

// Tells what was kept.
fn tell_kept(last: Option<(u64, u64)>, told: &mut String) -> Result<(), AllocError> {
    match last {
        Some((time, next)) => write!(told, "{time} {next}"),
        None => told.push_str("-"),
    }
}

impl<'a> Kept<'a> {
    /// No site, and the documents of those that are opened.
    pub(crate) fn new(sites: &'a str) -> Kept<'a> {
        Kept {
            sites,
            site: None,
            book: new_book(),
            next: 0,
        }
    }

    // Opens the site of a name.
    fn open(&mut self, alloc: Global, name: &str) -> &'static str {
        self.site = open(alloc, self.sites, name);
        self.book = new_book();
        match &self.site {
            Some(site) => {
                self.next = site.time().ms();
                "opened"
            }
            None => "no site",
        }
    }

    // Does a request on the site a second after the one before. None if there is no site, or it was not done.
    fn step(&mut self, request: &Request) -> Option<Obj> {
        self.next = self.next.saturating_add(1000);
        let moment = Moment::new(self.next)?;
        let site = self.site.as_mut()?;
        site.step_kept(&mut self.book, request, moment).ok()
    }

    // Tells what was kept of a row, and its reply.
    fn tell(
        &mut self,
        alloc: Global,
        row: &str,
        last: Option<u64>,
        told: &mut String,
    ) -> Result<(), AllocError> {
        self.book.last = None;
        let Some(request) = request(alloc, row) else {
            return told.push_str("no such row");
        };
        let Some(reply) = self.step(&request) else {
            return told.push_str("error");
        };
        tell_kept(self.book.last, told)?;
        told.push_str(" ")?;
        tell_reply(alloc, &reply, last, told)
    }
}

impl Table for Kept<'_> {
    fn answer(&mut self, alloc: Global, asked: Row, told: &mut String) -> Result<(), AllocError> {
        let row = text_of(asked.bytes);
        if let Some(name) = row.strip_prefix("open ") {
            return told.push_str(self.open(alloc, name));
        }
        self.book.fails = false;
        if let Some(row) = row.strip_prefix("!") {
            self.book.fails = true;
            return self.tell(alloc, row, None, told);
        }
        match row.strip_prefix("*") {
            Some(row) => self.tell(alloc, row, Some(0), told),
            None => self.tell(alloc, row, None, told),
        }
    }
}
