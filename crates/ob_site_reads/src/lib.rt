//! What a site shows, from the state in place: of own nodes and of those that roles derive or that are computed, the
//! answers to Gets and queries, what an asked href names, watched objects, and feeds.
//!
//! Nothing of the rest of the site is made or copied, and of a log or feed the records and events alone that are asked for.
//! The only other answer of each call is want of memory.
#![tactic(auto)]

mod children;
mod dressing;
mod events;
mod feeds;
mod finding;
mod heads;
mod logs;
mod objects;
mod owners;
mod parents;
mod paths;
mod places;
mod queries;
mod reported;
mod roles;
mod shown;

pub use children::shows_child;
pub use feeds::{Since, feed_place, feed_since, whole_feed};
pub use finding::resolve_item;
pub use heads::{own_kind, own_target, shown_kind};
pub use objects::{object_at, reply_at};
pub use owners::{begins_with, shown_derived};
pub use parents::parent_path;
pub use places::{computed_place, event_place, place_at};
pub use queries::{query_alarms, query_records};
pub use reported::watched_node;
pub use roles::derived;
pub use shown::{derived_part, shown_at, shown_own};
