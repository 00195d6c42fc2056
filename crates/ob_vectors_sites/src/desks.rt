//! A site behind a desk, asked under two passes.
ghost use Rattle.std.specs.Prelude.{◌≡◌};
ghost use Rattle.ob_site_laws.specs.SiteLaws.{IsSoundSite};

use crate::requests::{numbered, request, tell_reply};
use crate::sites::open;
use ob_rows::{Row, Table, split_bar};
use ob_site::{Machine, Site, ask, open_desk};
use ob_site_rules::Request;
use ob_times::Moment;
use ob_turn::{Answer, Desk, Pass};
use std::alloc::{AllocError, Global};
use std::sync::Wait;

/// Rows of requests, each with its moment and with `|` between them, on the site `nested` behind a desk.
///
/// Four requests: the third one is asked under another pass than the others. The replies are told, and the site's time,
/// which it has when the desk is closed. `joined`, and two requests: the second one is asked under a pass that the pass of the
/// first was joined into, and once more of the closed desk's site. The replies are told.
#[derive(Drop)]
pub(crate) struct Desks<'a, R: Wait> {
    rt: &'a R,
    sites: &'a str,
}

// The moment and the request of a row, if it has both.
fn timed(alloc: Global, row: &str) -> Option<(Moment, Request)> {
    let (moment, row) = numbered(row)?;
    let moment = Moment::new(moment)?;
    Some((moment, request(alloc, row)?))
}

// Asks what a row asks under a pass, and tells the reply, with `|` behind it.
fn tell<R: Wait + AllocGlobal>(
    rt: &R,
    desk: &Desk<Site>,
    pass: &mut Pass<Site>,
    row: &str,
    told: &mut String,
) -> Result<(), AllocError>
    requires of { pass.old.table ≡ desk.now.table }
    requires sound { IsSoundSite desk.now.opening }
    ensures { pass.new ≡ record pass.old { seen = pass.new.seen } }
{
    let Some((moment, request)) = timed(rt.alloc(), row) else {
        return told.push_str("no request");
    };
    match ask(rt, desk, pass, &request, moment) {
        Answer::Done(reply) => {
            tell_reply(rt.alloc(), &reply, None, told)?;
            told.push_str("|")
        }
        Answer::NoMemory => Err(AllocError),
    }
}

// The replies to all rows.
fn replies<R: Wait + AllocGlobal>(
    rt: &R,
    desk: &Desk<Site>,
    first: &mut Pass<Site>,
    second: &mut Pass<Site>,
    rows: &str,
) -> Result<String, AllocError>
    requires of_first { first.old.table ≡ desk.now.table }
    requires of_second { second.old.table ≡ desk.now.table }
    requires sound { IsSoundSite desk.now.opening }
    ensures first { first.new ≡ record first.old { seen = first.new.seen } }
    ensures second { second.new ≡ record second.old { seen = second.new.seen } }
{
    let mut told = String::new(rt.alloc());
    let (row, rows) = split_bar(rows);
    tell(rt, desk, first, row, &mut told)?;
    let (row, rows) = split_bar(rows);
    tell(rt, desk, first, row, &mut told)?;
    let (row, rows) = split_bar(rows);
    tell(rt, desk, second, row, &mut told)?;
    tell(rt, desk, first, rows, &mut told)?;
    Ok(told)
}

// Asks all rows under two passes of a desk with a site, and tells what comes out.
fn tell_all<R: Wait + AllocGlobal>(
    rt: &R,
    site: Site,
    rows: &str,
    told: &mut String,
) -> Result<(), AllocError> {
    let (desk, mut first) = match open_desk(rt.alloc(), site) {
        Ok(made) => made,
        Err((site, memory)) => {
            drop(site);
            return Err(memory);
        }
    };
    let mut second = first.split(&desk, 1);
    let replies = replies(rt, &desk, &mut first, &mut second, rows);
    first.join(&desk, second);
    let site = desk.close(first);
    let time = site.time().ms();
    drop(site);
    told.push_str(replies?.as_str())?;
    write!(told, "{time}")
}

// Asks what a row asks of a site, and tells the reply.
fn tell_step(
    alloc: Global,
    site: &mut Site,
    row: &str,
    told: &mut String,
) -> Result<(), AllocError> {
    let Some((moment, request)) = timed(alloc, row) else {
        return told.push_str("no request");
    };
    let reply = site.step(&request, moment)?;
    tell_reply(alloc, &reply, None, told)
}

// Asks under a pass, then under another one into which it was joined, and then the closed desk's site; tells the replies.
fn tell_joined<R: Wait + AllocGlobal>(
    rt: &R,
    site: Site,
    rows: &str,
    told: &mut String,
) -> Result<(), AllocError> {
    let (put, get) = split_bar(rows);
    let (desk, mut first) = match open_desk(rt.alloc(), site) {
        Ok(made) => made,
        Err((site, memory)) => {
            drop(site);
            return Err(memory);
        }
    };
    let mut second = first.split(&desk, 1);
    let put_told = tell(rt, &desk, &mut first, put, told);
    second.join(&desk, first);
    let got_told = tell(rt, &desk, &mut second, get, told);
    let mut site = desk.close(second);
    put_told?;
    got_told?;
    tell_step(rt.alloc(), &mut site, get, told)
}

impl<'a, R: Wait> Desks<'a, R> {
    /// Desks of sites that have their documents in this file.
    pub(crate) fn new(rt: &'a R, sites: &'a str) -> Desks<'a, R> {
        Desks { rt, sites }
    }
}

impl<R: Wait + AllocGlobal> Table for Desks<'_, R> {
    fn answer(&mut self, alloc: Global, asked: Row, told: &mut String) -> Result<(), AllocError> {
        let Some(site) = open(alloc, self.sites, "nested") else {
            return told.push_str("no site");
        };
        match asked.text.strip_prefix("joined ") {
            Some(rows) => tell_joined(self.rt, site, rows, told),
            None => tell_all(self.rt, site, asked.text, told),
        }
    }
}
