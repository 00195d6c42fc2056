//! Weekly schedules: which value is written to which point, on which day of the week and at what time, by a zone's clock.
//!
//! `specs/Zones.antt` says when an entry fires, `specs/Firings.antt` what the firings between two moments are and which value
//! is in force. [`Schedules::firings`] and [`Schedules::in_force`] answer these.
#![tactic(auto)]

mod due;
mod firing;
mod instant;
mod laws;
mod schedule;

pub use firing::Firing;
pub use laws::{in_force_behind, once_a_date, one_in_force, one_list};
pub use schedule::{Entry, Schedule, Schedules};
