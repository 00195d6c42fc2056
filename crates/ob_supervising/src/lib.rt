//! The service of a link by a supervisor of several servers: before each request there is a round over them, and at the end every
//! link to them is given back.
//!
//! `specs/Supervising.antt` says what the service comes to: `SupervisesLink`.
#![tactic(auto)]

mod supervising;

pub use supervising::supervise;
