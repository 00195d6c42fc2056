//! The alarms of a site, and their events.
//!
//! A rule watches the value of one point, its source. A value outside the rule's limits raises an alarm,
//! a value inside ends it, and a person may acknowledge it; each of these is an event. The status of a
//! source is the most significant state of all its alarms. It is kept as the alarms come and go, so that
//! asking for it is a look-up.
#![tactic(auto)]

mod alarm;
mod board;
mod copying;
mod objects;
mod rule;
mod shown;
mod since;
mod tracking;
mod within;

pub use alarm::{Ack, Alarm, Event, Turn, What};
pub use board::{AckResult, Alarms, Turned};
pub use rule::{Num, Rule};

/// Alarms may go to another thread, and several may read them.
pub fn crosses_threads() {
    is_send::<Alarms>();
    is_sync::<Alarms>();
}

fn is_send<T: Send>() {}

fn is_sync<T: Sync>() {}
