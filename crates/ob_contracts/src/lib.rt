//! Contracts: what objects take from them.
//!
//! A library maps words to contracts. An object takes defaults from the contracts of its list, an
//! earlier one winning, and from the child that it overrides: its effective object. `effective` builds
//! it, and a `View` lends each part of it without memory; each counts its steps by itself. The rules are in `specs/Inherit.antt`.
//! Source: oBIX 1.1, chapter 7 (contracts).
#![tactic(auto)]

ghost use Rattle.ob_contracts.specs.Rows.{FirstContractWins, ChildOverrides, ItemsInherit};

mod adding;
mod ancestry;
mod build;
mod completing;
mod counting;
mod fewer;
mod given;
mod inherited;
mod kin;
mod library;
mod lookup;
mod named;
mod reading;
mod remaking;
mod standard;
mod steps;
mod tellers;
mod ties;

pub use adding::LibFault;
pub use build::{effective, view};
pub use fewer::{telling, told_by};
pub use library::Library;
pub use lookup::Sources;
pub use reading::{Setting, View};
pub use steps::Steps;
pub use tellers::{Tellers, tell};
pub use ties::Ties;

/// Worked rows of the inheritance rules, computed on the definition.
pub fn worked_rows()
    ensures first { FirstContractWins }
    ensures overriding { ChildOverrides }
    ensures items { ItemsInherit }
{}

/// Libraries may go to another thread, and several may read them.
pub fn crosses_threads() {
    is_send::<Library>();
    is_sync::<Library>();
}

fn is_send<T: Send>() {}

fn is_sync<T: Sync>() {}
