//! Runs the program on the rows of its tables, which lie where it runs, over an outside in memory, and prints for each table
//! how many rows it has, and each row that comes out otherwise than the table says. So it does for the calls of a client: what
//! a session answers, what a mirror holds, and both together on a site that the program serves.
#![tactic(auto)]

mod failing;
mod inputs;
mod mirrors;
mod outside;
mod polls;
mod ran;
mod records;
mod runs;
mod scarce;
mod sessions;

use mirrors::Mirrors;
use ob_rows::run;
use polls::run_polls;
use runs::run_rows;
use sessions::Sessions;
use std::{fs, io};

fn main(rt: HostRuntime) -> io::Result<()> {
    let texts = fs::read_to_string(&rt, "texts.txt")?;
    run_rows(&rt, "stdio.rows", texts.as_str())?;
    run_rows(&rt, "schedule.rows", texts.as_str())?;
    run_rows(&rt, "serve.rows", texts.as_str())?;
    run_rows(&rt, "keep.rows", texts.as_str())?;
    run_rows(&rt, "compact.rows", texts.as_str())?;
    run_rows(&rt, "clients.rows", texts.as_str())?;
    run_rows(&rt, "super.rows", texts.as_str())?;
    run(&rt, "sessions.rows", &mut Sessions)?;
    run(&rt, "mirrors.rows", &mut Mirrors::new(rt.alloc()))?;
    run_polls(&rt, "polls.rows", texts.as_str())?;
    run_rows(&rt, "records.rows", texts.as_str())
}
