//! The objects that a server of oBIX computes: refusals, About, watches, the children that roles derive,
//! records, alarms and their events as objects, answers to queries, and the feeds that watches report.
//!
//! Each is made by one function, whose contract is that it is the object of the definitions. The only
//! other answer is want of memory.
#![tactic(auto)]

mod alarms;
pub mod build;
mod contract;
mod fault;
mod feeds;
mod fixed;
mod paths;
mod query;
mod records;
mod roles;
mod watches;

pub use alarms::{alarm_object, alarms_out};
pub use contract::Contract;
pub use fault::refusal;
pub use feeds::{feed_entry, feed_there};
pub use fixed::{about, ack_op, ack_out, batch_op, batch_out, make_op, nil, service};
pub use paths::{ack_path, alarm_path, below};
pub use query::passes;
pub use records::{record_object, records_out};
pub use roles::{count_child, lobby_children, subject_children, write_point_op};
pub use watches::{entry, watch, watch_out, watch_part};
