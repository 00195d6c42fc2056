//! What is asked of the watches of a site: made, renewed, added to, polled, deleted; and the laws of marks: what a site finds
//! to be a watched object is one of its own nodes, and what holds of the stamps of a tree and of the items of all watches goes
//! on holding from step to step.
#![tactic(auto)]

mod adding;
mod entries;
mod making;
mod offering;
mod operations;
mod watched;

ghost use Rattle.ob_site_watches.specs.Anew.{FlagsStayAnew};
ghost use Rattle.ob_site_watches.specs.Items.{MarksStayPast, NumbersStay, OwnItemsStay, OwnNodesStay};
ghost use Rattle.ob_site_watches.specs.Stamps.{StampsArePast};
ghost use Rattle.ob_site_watches.specs.Tables.{TablesKeepMarks, TablesKeepNumbers};

pub use entries::{changes, reading, readings};
pub use making::{make, make_way};
pub use operations::{Call, on_watch};
pub use watched::{own_nodes_stay, watched_are_own};

/// No stamp of a tree is of a step to come: of one just built, after each step, and when steps are counted anew.
pub fn stamps_are_past()
    ensures { StampsArePast }
{}

/// What holds of each item of all watches holds after a watch is made, watches lapse or give way, items are changed by what
/// keeps it, a watch is replaced or deleted, and items are removed or put.
///
/// Source: oBIX 1.1, chapter 12 (Watches).
pub fn tables_keep()
    ensures marks { TablesKeepMarks }
    ensures numbers { TablesKeepNumbers }
{}

/// What holds of an item goes on holding when it is reported, and when steps are counted anew: no mark is of a step to
/// come, the item stays on its own node (in a tree with other slots, too), or on its feed.
///
/// Source: oBIX 1.1, chapter 12 (Watches).
pub fn items_keep()
    ensures marks { MarksStayPast }
    ensures nodes { OwnNodesStay }
    ensures items { OwnItemsStay }
    ensures numbers { NumbersStay }
{}

/// When steps are counted from 1 again, each watch is to be told of the same items as before.
pub fn flags_stay_anew()
    ensures { FlagsStayAnew }
{}
