//! The end of a step on a site: which own nodes it has changed, also by another library. Their stamps tell the watches; what
//! is to be reported of a feed is told by its own events.
//!
//! `specs/Noted.antt` says what the notes of a step tell of the nodes that it may have changed, `specs/Ending.antt` what the
//! end of a step owes an item of a watch, and `specs/Worlds.antt` what it owes all watches. What is compared of a history
//! and of an own object is in `specs/Spans.antt` and in ob_shown_laws (`same_values`).
#![tactic(auto)]

mod changes;
mod end_laws;
mod library_laws;
mod noted;
mod otherwise;
mod seen;
mod spans;
mod stamping;
mod values;

pub use changes::changed_nodes;
pub use end_laws::{notes_are_values, notes_tell, steps_end, worked_rows, worlds_end};
pub use library_laws::defaults_end;
pub use noted::{changes_values, library_before};
pub use otherwise::shown_otherwise;
pub use spans::{Span, shows_other_span};
pub use stamping::stamped_nodes;
pub use values::shows_other_values;
