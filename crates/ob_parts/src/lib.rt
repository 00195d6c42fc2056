//! The objects of a document with their numbers, for forms that tell the first part that offends against them.
//!
//! `specs/Numbered.antt` says which number an object has, `specs/Offences.antt` how rules name the parts that offend, and which
//! of these is the first. A form is a sum of such rules: see ob_super for one.
#![tactic(auto)]

mod offence;
mod part;

pub use offence::{Offence, earlier};
pub use part::{Part, number_behind};
