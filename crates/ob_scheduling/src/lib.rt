//! The service of one link by a machine that also gets the writes of schedules.
//!
//! `specs/Scheduled.antt` says what the machine is asked, and what is written for the bytes that are taken from the link.
#![tactic(auto)]

mod asking;
mod keeper;
mod laws;
mod posting;
mod serving;

pub use laws::files_fit;
pub use serving::{Timetable, serve_scheduled};
