//! The tree of a site: every object a place of its own, each node found by its path, and where an object stands.
//!
//! A `Tree` stands for an object, the stamp of each part, and the number of steps (`specs/Trees.antt`).
//! The parts of the object are numbered in document order, from 0. Each is kept as
//! an object without children, beside the number of the part that it is in and of the first part behind it.
//! A `Standing` is what is inherited where an object stands (`specs/Standings.antt`).
#![tactic(auto)]

mod children;
mod differing;
mod fault;
mod handed;
mod instead;
mod laws;
mod laying;
mod node;
mod numbering;
mod shown;
mod spot;
mod standing;
mod telling;
mod touching;
mod tree;

pub use fault::TreeFault;
pub use handed::Handed;
pub use instead::Instead;
pub use laws::{depths_are_levels, last_touches_stamp};
pub use node::NodeId;
pub use standing::Standing;
pub use tree::Tree;

/// A tree may go to another thread, and several may read it.
pub fn crosses_threads() {
    is_send::<Tree>();
    is_sync::<Tree>();
}

fn is_send<T: Send>() {}

fn is_sync<T: Sync>() {}
