//! Answers the rows of its tables of sites, which lie where it runs, and prints for each table how many rows it has, and each row
//! that comes out otherwise than the table says.
#![tactic(auto)]

mod audits;
mod desks;
mod dialogue;
mod dialogues;
mod ends;
mod kept;
mod limits;
mod links;
mod loads;
mod moments;
mod records;
mod requests;
mod restarts;
mod served;
mod sites;
mod sizes;

use desks::Desks;
use dialogues::Dialogues;
use ends::Ends;
use kept::Kept;
use limits::Limits;
use links::Links;
use loads::Loads;
use ob_rows::run;
use records::Records;
use requests::Requests;
use restarts::Restarts;
use served::run_served;
use sizes::Sizes;
use std::rt::Files;
use std::sync::Wait;
use std::thread::Threads;
use std::{fs, io};

fn run_sites<R: Print + Files + AllocGlobal + Threads + Wait + Sync>(rt: &R) -> io::Result<()> {
    let lines = fs::read_to_string(rt, "sites.txt")?;
    run(rt, "requests.rows", &mut Requests::new(lines.as_str()))?;
    run(rt, "limits.rows", &mut Limits::new(lines.as_str()))?;
    run(rt, "kept.rows", &mut Kept::new(lines.as_str()))?;
    run(rt, "requests.rows", &mut Restarts::new(lines.as_str()))?;
    run(rt, "desks.rows", &mut Desks::new(rt, lines.as_str()))?;
    run(rt, "sizes.rows", &mut Sizes::new())?;
    run_served(rt, "served.rows", lines.as_str())?;
    run_connections(rt, lines.as_str())?;
    run_records(rt, lines.as_str())
}

// Files of records, and the records of the dialogues that the requests are.
fn run_records<R: Print + Files + AllocGlobal>(rt: &R, documents: &str) -> io::Result<()> {
    run(rt, "ends.rows", &mut Ends)?;
    let dialogues = fs::read_to_string(rt, "requests.rows")?;
    let mut records = Records::new(rt.alloc(), dialogues.as_str(), documents);
    run(rt, "audits.rows", &mut records)
}

// The requests on sites again, as bytes over connections: whole, and byte by byte.
fn run_connections<R: Print + Files + AllocGlobal + Wait>(
    rt: &R,
    documents: &str,
) -> io::Result<()> {
    let mut whole = Dialogues::new(rt, rt.alloc(), documents, 65_536);
    run(rt, "requests.rows", &mut whole)?;
    let mut bytewise = Dialogues::new(rt, rt.alloc(), documents, 1);
    run(rt, "requests.rows", &mut bytewise)?;
    run(rt, "loads.rows", &mut Loads)?;
    run(rt, "links.rows", &mut Links::new(rt, documents))
}

fn main(rt: HostRuntime) -> io::Result<()> {
    run_sites(&rt)
}
