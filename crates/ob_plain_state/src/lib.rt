//! The logs of a site as plain lists, and the paths of its nodes.
//!
//! `log_of` of `specs/States.antt` says what log of the site's definitions an `OpenedLog` is. It is what an opened
//! document gives; the state in place (ob_site_state) is made of it. Each call's contract is the definition of
//! the site's rules. The lemmas of `proofs/` are for the crates that open a site, show it and tell what its paths
//! name.
#![tactic(auto)]

mod find;
mod log;
mod paths;

pub use find::node_of;
pub use log::OpenedLog;
pub use paths::is_path;
