//! The watches of a site, with a number for each watched object in place of a flag.
//!
//! An item on an object keeps the step after which it was last reported (its mark); held against the object's
//! stamp in the tree it says what the flag of the definitions says. Items of a watch stand by their hrefs, in the
//! order of their first adding, and the watches by their numbers. `specs/Tables.antt` says what each call makes of
//! them, and the law `as_the_site_says` that this is what `ob_watching` says of watches with flags.
#![tactic(auto)]

mod additions;
mod change;
mod fault;
mod feeds;
mod item;
mod items;
mod laws;
mod marks;
mod room;
mod watch;
mod watches;

pub use additions::Additions;
pub use fault::WatchFault;
pub use feeds::Feeds;
pub use item::{Item, Tracked};
pub use laws::as_the_site_says;
pub use room::Room;
pub use watch::{Due, FIRST_LEASE, LONGEST_LEASE, SHORTEST_LEASE, Watch};
pub use watches::{Watches, crosses_threads};
