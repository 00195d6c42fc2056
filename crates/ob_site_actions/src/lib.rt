//! What requests to the site itself do, in place: Puts, point writes, acknowledgements, queries and batches, with their
//! replies; the slot of a node, the library, the records and the alarms of a value, and whether it would store too much.
//!
//! Each call makes exactly the state and the reply of the definitions (`Writes.antt`, `Posts.antt` and `Actions.antt` of ob_site_rules).
#![tactic(auto)]

mod acks;
mod actions;
mod batch;
mod calls;
mod limits;
mod not_done;
mod own;
mod passing;
mod putting;
mod refusing;
mod stopping;
mod value;
mod writing;
mod written;

pub use acks::acknowledge;
pub use actions::act_at;
pub use batch::act_located;
pub use calls::call;
pub use limits::{ack_overfills, overfills};
pub use not_done::NotDone;
pub use own::put_own;
pub use passing::passes;
pub use putting::{put, write_by};
pub use stopping::write_fault;
pub use writing::{OwnNode, write, write_if_changed};
