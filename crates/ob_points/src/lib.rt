//! The writable points of a site, and the values that a Put lets through to what it shows, as definitions.
//!
//! There is no code: the site that has them (ob_site), and what writes to its points by schedules, cite `specs/Points.antt`.
#![tactic(auto)]
