//! The library and the tree of a site, with the words that its objects tell their children, and its lists their items: these are
//! looked up once a library, and not once a child.
//!
//! A `Ground` stands for a library and a tree, and a `Told` for a library and such words (`specs/Grounds.antt`).
//! Source: oBIX 1.1, chapter 7 (Contracts).
#![tactic(auto)]

mod ground;
mod told;

pub use ground::Ground;
pub use told::Told;
