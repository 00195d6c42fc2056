//! Whether two states of one site are the same.
//!
//! [`same_state`] compares what may change of a site: its own objects, and with them its library, the log of each history, the
//! alarms and their events.
#![tactic(auto)]

mod alarms;
mod records;
mod state;

pub use state::same_state;
