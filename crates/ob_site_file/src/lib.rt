//! Site files: what a document opens, or why it opens nothing.
//!
//! Hrefs become paths, contracts enter the library, objects get their roles, and what the roles take out or derive leaves
//! the tree. The passes stand in the order of the refusals. What is opened is the definition of `ob_site_rules`.
#![tactic(auto)]

mod about;
mod bad;
mod derived;
mod document;
mod fault;
mod histories;
mod items;
mod judging;
mod nodes;
mod plan;
mod records;
mod rules;
mod size;
mod stored;

pub use document::{Opened, opening};
pub use fault::LoadFault;
