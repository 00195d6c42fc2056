//! The records of a history, and what a query asks of them.
//!
//! A log holds the records of one history, the oldest first, and their instants never fall. It can keep
//! the newest ones alone, and counts those that rolled off. A filter is one on instants with a limit:
//! `read_filter` reads it from an object, and `Log::range` lends what it asks for. A query is a filter,
//! which may ask from a number of a record on, too: `read_query` reads it, and `Log::query` answers it.
#![tactic(auto)]

mod ends;
mod log;
mod reading;
mod records;
mod ring;
mod slices;

pub use ends::{first_time, last_time};
pub use log::Log;
pub use reading::{read_filter, read_query};
pub use records::{Filter, Query, Record, Stretch};

/// Logs may go to another thread, and several may read them.
pub fn crosses_threads() {
    is_send::<Log>();
    is_sync::<Log>();
}

fn is_send<T: Send>() {}

fn is_sync<T: Sync>() {}
