//! What schedules ask of a site: where they may write, and the writes that stand between the requests of others.
//!
//! `specs/Rules.antt` has the points of a site as a file of schedules is judged by them, and `specs/Merged.antt` the order in
//! which the writes of schedules and the requests of others are asked. There is no code: what serves a link so (ob_scheduling) and
//! the laws of it cite both.
#![tactic(auto)]
