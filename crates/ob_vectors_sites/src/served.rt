//! A site's desk that is served by hand: one worker, at a door of one link.
ghost use Rattle.std.specs.Prelude.{◌≡◌, ◌<◌, All, IfSome, length};

use crate::sites::open;
use ob_io::{Fresh, MemDoor, MemLink, MemPort, Port, Ticker, Waiting};
use ob_rows::{Tally, asked_of, push_bytes, push_meant, split_word};
use ob_server::{Served, Worker, WorkerEnd, join_workers, serve, split_passes};
use ob_site::{Site, open_desk};
use ob_turn::{Desk, Pass};
use std::alloc::{AllocError, Global};
use std::rt::Files;
use std::sync::Wait;
use std::thread::Threads;
use std::{fs, io};

// A port of one door, with one link over which these bytes come.
fn one_door(alloc: Global, bytes: Vec<u8>) -> Result<MemPort<MemLink>, AllocError> {
    let mut links = Vec::with_capacity(alloc, 1)?;
    let link = MemLink::new(alloc, bytes, 65_536, Vec::new(alloc));
    links.push_reserved(Fresh::new(link));
    let mut doors = Vec::with_capacity(alloc, 1)?;
    doors.push_reserved(Waiting {
        links,
        failing: Vec::new(alloc),
    });
    Ok(MemPort::new(alloc, doors, Vec::new(alloc)))
}

fn clock() -> Ticker {
    Ticker {
        at: 0,
        tick: 1_000,
        k: 0,
    }
}

// A worker at the next door of the port, in a list of its own.
fn one_worker(
    alloc: Global,
    desk: &Desk<Site>,
    pass: &mut Pass<Site>,
    port: &mut MemPort<MemLink>,
) -> Option<Vec<Worker<Site, MemDoor<MemLink>, Ticker>>>
    requires of { pass.old.table ≡ desk.now.table }
    requires left { 1 < length pass.old.numbers }
    ensures same { pass.new.table ≡ pass.old.table }
    ensures one { IfSome result (λ workers. length workers.items ≡ 1) }
    ensures of { IfSome result (λ workers. All (λ w. w.pass.table ≡ desk.now.table) workers.items) }
{
    let mut workers = Vec::with_capacity(alloc, 1).ok()?;
    let mut passes = split_passes(alloc, desk, pass, 1).ok()?;
    let own = passes.pop()?;
    let door = port.door().ok()?;
    workers.push_reserved(Worker {
        pass: own,
        door,
        clock: clock(),
        links: 0,
        end: WorkerEnd::Memory,
    });
    Some(workers)
}

// Whether one worker serves the one link of the port's next door; its pass and door are given back.
fn serves_one<R: Threads + Wait + Sync>(
    rt: &R,
    alloc: Global,
    desk: &Desk<Site>,
    pass: &mut Pass<Site>,
    port: &mut MemPort<MemLink>,
) -> bool
    requires of { pass.old.table ≡ desk.now.table }
    requires left { 1 < length pass.old.numbers }
    ensures same { pass.new.table ≡ pass.old.table }
{
    let Some(workers) = one_worker(alloc, desk, pass, port) else {
        return false;
    };
    let Served {
        workers,
        links,
        end,
    } = serve(rt, alloc, desk, None, workers, 1, None);
    join_workers(desk, pass, port, &mut clock(), workers);
    links == 1 && end == WorkerEnd::Quota
}

// Whether a worker that was made by hand serves its link, and the desk has all its shares again.
fn serves_site<R: Threads + Wait + Sync>(
    rt: &R,
    alloc: Global,
    site: Site,
    port: &mut MemPort<MemLink>,
) -> bool {
    let Ok((desk, mut pass)) = open_desk(alloc, site) else {
        return false;
    };
    let is_served = serves_one(rt, alloc, &desk, &mut pass, port);
    if pass.shares() != 4_294_967_296 {
        return false;
    }
    drop(desk.close(pass));
    is_served
}

// Tells how many bytes were read from the link that came back to the port's door, and what was written to it.
fn tell_link(port: &MemPort<MemLink>, told: &mut String) -> Result<(), AllocError> {
    let Some([door]) = port.doors() else {
        return told.push_str("no door");
    };
    let Some([link]) = door.links() else {
        return told.push_str("no link");
    };
    let read = link.taken().len();
    write!(told, "{read} bytes: ")?;
    push_bytes(told, link.written().unwrap_or(b"untold"))
}

// Tells how the link of a row is served.
fn tell_row<R: Threads + Wait + Sync + AllocGlobal>(
    rt: &R,
    documents: &str,
    row: &str,
    told: &mut String,
) -> Result<(), AllocError> {
    let (name, said) = split_word(row);
    let mut bytes = Vec::new(rt.alloc());
    push_meant(&mut bytes, said)?;
    let mut port = one_door(rt.alloc(), bytes)?;
    let Some(site) = open(rt.alloc(), documents, name) else {
        return told.push_str("no site");
    };
    if !serves_site(rt, rt.alloc(), site, &mut port) {
        told.push_str("not served, ")?;
    }
    tell_link(&port, told)
}

// Asks a row, and counts it unless it is a remark.
fn ask<R: Threads + Wait + Sync + Print + AllocGlobal>(
    rt: &R,
    documents: &str,
    row: &str,
    tally: &mut Tally,
) -> io::Result<()> {
    let Some(text) = asked_of(row) else {
        return Ok(());
    };
    let mut told = String::new(rt.alloc());
    tell_row(rt, documents, text, &mut told)?;
    tally.count(rt, row, told.as_str())
}

/// Asks the rows of a file, each the name of a site and the bytes that come over a link, and prints those that come out otherwise
/// and how many there are. Told is how many bytes were read, and what was written.
///
/// An `io::Error` where the file isn't there, or for want of memory.
pub(crate) fn run_served<R: Threads + Wait + Sync + Print + Files + AllocGlobal>(
    rt: &R,
    file: &str,
    documents: &str,
) -> io::Result<()> {
    let rows = fs::read_to_string(rt, file)?;
    let mut tally = Tally::new();
    for row in rows.lines() {
        ask(rt, documents, row, &mut tally)?;
    }
    tally.print(rt, file)
}
