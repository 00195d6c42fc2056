//! One machine that threads share: each call is one turn, and all calls stand in one legal history.
//!
//! A [`Desk`] has the machine, and a [`Pass`] is the right to call it. What a pass has seen of the
//! history is in contracts alone. Passes are split for other threads and joined again; who has every
//! share may close the desk. [`Caller`]s are passes with jobs, done by as many threads.
#![tactic(auto)]

mod caller;
mod desk;
mod known;
mod pass;
mod turn;

pub use caller::{Caller, Job, cross_threads};
pub use desk::Desk;
pub use ob_machine::{Answer, Entry, Machine};
pub use pass::Pass;
