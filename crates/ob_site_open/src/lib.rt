//! The state in place that a document opens: what ob_site_file opens of its root becomes a `State` of ob_site_state.
//!
//! `just_opened` of `specs/Opens.antt` says which state that is.
#![tactic(auto)]

mod board;
mod logs;
mod state;
mod time;

pub use state::state_of;
