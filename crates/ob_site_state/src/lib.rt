//! The state of a site in place: its own objects as a tree, the logs of its histories, its alarms and its
//! library, the roles of its plan for look-ups, and what the last step changed, so that it can be taken back.
//!
//! `specs/Kept.antt` says what a `State` stands for: the state now, and the state before the step.
#![tactic(auto)]

mod change;
mod contents;
mod ending;
mod feeds;
mod logs;
mod numbers;
mod own_contracts;
mod places;
mod recorders;
mod renewing;
mod roles;
mod slots;
mod state;
mod tally;

pub use change::Change;
pub use contents::Contents;
pub use ending::end_step;
pub use roles::RoleIndex;
pub use slots::same_slot;
pub use state::State;

/// The state of a site may go to another thread.
pub fn crosses_threads() {
    is_send::<State>();
}

fn is_send<T: Send>() {}
