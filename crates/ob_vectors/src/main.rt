//! Answers the rows of its tables, which lie where it runs, and prints for each table how many rows it has, and each row that
//! comes out otherwise than the table says.
#![tactic(auto)]

mod alarms;
mod bases;
mod calendar;
mod calls;
mod configs;
mod contracts;
mod counter;
mod documents;
mod filters;
mod firings;
mod histories;
mod hrefs;
mod journals;
mod messages;
mod minutes;
mod notes;
mod objects;
mod outside;
mod pieces;
mod schedules;
mod spelled;
mod streams;
mod supers;
mod turns;
mod values;
mod views;
mod words;

use alarms::Boards;
use bases::Bases;
use calendar::{Calendars, Days};
use calls::Calls;
use configs::Configs;
use contracts::Contracts;
use documents::Documents;
use filters::Filters;
use firings::Firings;
use histories::Histories;
use hrefs::Hrefs;
use journals::Journals;
use messages::{Messages, Replies};
use ob_rows::run;
use objects::Objects;
use outside::Outside;
use pieces::Pieces;
use schedules::ScheduleFiles;
use std::io;
use std::rt::Files;
use streams::{Heads, Limits, Streams};
use supers::Supers;
use turns::run_turns;
use values::Reading;

fn run_values<R: Print + Files + AllocGlobal>(rt: &R) -> io::Result<()> {
    run(rt, "bools.rows", &mut Reading::Bool)?;
    run(rt, "ints.rows", &mut Reading::Int)?;
    run(rt, "reals.rows", &mut Reading::Real)?;
    run(rt, "dates.rows", &mut Reading::Date)?;
    run(rt, "times.rows", &mut Reading::Time)?;
    run(rt, "abstimes.rows", &mut Reading::Abstime)?;
    run(rt, "reltimes.rows", &mut Reading::Reltime)?;
    run(rt, "texts.rows", &mut Reading::Text)?;
    run(rt, "days.rows", &mut Days)?;
    run(rt, "calendars.rows", &mut Calendars)
}

fn run_hrefs<R: Print + Files + AllocGlobal>(rt: &R) -> io::Result<()> {
    run(rt, "bases.rows", &mut Bases)?;
    match Hrefs::new(rt.alloc()) {
        Ok(mut hrefs) => run(rt, "hrefs.rows", &mut hrefs),
        Err(_) => println!(rt; "hrefs.rows: no base"),
    }
}

fn run_messages<R: Print + Files + AllocGlobal>(rt: &R) -> io::Result<()> {
    run(rt, "heads.rows", &mut Heads)?;
    run(rt, "limits.rows", &mut Limits)?;
    run(rt, "streams.rows", &mut Streams)?;
    run(rt, "replies.rows", &mut Replies)?;
    run(rt, "messages.rows", &mut Messages)
}

fn run_logs<R: Print + Files + AllocGlobal>(rt: &R) -> io::Result<()> {
    run(rt, "histories.rows", &mut Histories::new(rt.alloc()))?;
    run(rt, "filters.rows", &mut Filters)?;
    run(rt, "alarms.rows", &mut Boards::new())
}

fn run_calls<R: Print + Files + AllocGlobal>(rt: &R) -> io::Result<()> {
    run(rt, "objects.rows", &mut Objects)?;
    run(rt, "calls.rows", &mut Calls)?;
    run(rt, "outside.rows", &mut Outside)?;
    run(rt, "journals.rows", &mut Journals)
}

fn run_documents<R: Print + Files + AllocGlobal>(rt: &R) -> io::Result<()> {
    run(rt, "refused.rows", &mut Documents)?;
    run(rt, "documents.rows", &mut Documents)?;
    run(rt, "pieces.rows", &mut Pieces)
}

fn run_contracts<R: Print + Files + AllocGlobal>(rt: &R) -> io::Result<()> {
    let mut contracts = Contracts::new(rt.alloc())?;
    run(rt, "contracts.rows", &mut contracts)
}

fn run_schedules<R: Print + Files + AllocGlobal>(rt: &R) -> io::Result<()> {
    run(rt, "firings.rows", &mut Firings)?;
    run(rt, "schedules.rows", &mut ScheduleFiles)
}

fn run_supers<R: Print + Files + AllocGlobal>(rt: &R) -> io::Result<()> {
    run(rt, "configs.rows", &mut Configs)?;
    run(rt, "supers.rows", &mut Supers::new(rt.alloc()))
}

fn main(rt: HostRuntime) -> io::Result<()> {
    run_values(&rt)?;
    run_hrefs(&rt)?;
    run_messages(&rt)?;
    run_logs(&rt)?;
    run_calls(&rt)?;
    run_documents(&rt)?;
    run_contracts(&rt)?;
    run_schedules(&rt)?;
    run_supers(&rt)?;
    run_turns(&rt, "turns.rows")
}
