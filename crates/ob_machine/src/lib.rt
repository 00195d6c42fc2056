//! A machine that takes one request at a time, and the histories of its calls.
//!
//! A [`Machine`] is a state with one step; its meaning `act` is a function of the state, the request
//! and the moment. `specs/History.antt` says what a legal history of calls is, and which state
//! follows it. The site is such a machine, and `ob_turn` shares one among threads.
#![tactic(auto)]

mod call;
mod machine;

pub use call::{Answer, Entry};
pub use machine::Machine;
