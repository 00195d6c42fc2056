//! What a request asks: the path that a text leads to, what paths and inputs ask of watches, and an item of a
//! batch as a request.
//!
//! Each call is a definition of the whole site (`ob_site_rules`), on texts and objects. The only other
//! answer is want of memory. The lemmas of `proofs/` on places, replies, requests and batches are for the
//! crates that do what is asked.
#![tactic(auto)]

mod asked;
mod items;
mod laws;
mod lease;
mod locating;
mod paths;
mod target;

pub use asked::{WatchInItem, asked_by, firsts, texts_of, uri_of};
pub use items::{item_request, posts_list};
pub use laws::as_the_site_says;
pub use lease::{Found, feed_with, lease_asked};
pub use locating::locate_path;
pub use paths::{OfWatch, is_of_watch, watch_part};
pub use target::{Operation, Target, target_at};
