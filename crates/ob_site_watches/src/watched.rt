//! What a site finds to be a watched object is one of its own nodes.
//!
//! Each function states a law by its contract and does nothing.

ghost use Rattle.ob_site_watches.specs.Watched.{AllWatchedAreOwn, OwnNodesStay};

/// Whatever text a watch asks for, what is found to be a watched object is an own node of the site, and it can be
/// watched: of every plan and every state. The nodes that roles derive are ops and feeds, which aren't watched as
/// objects.
///
/// Source: oBIX 1.1, chapter 12 (Watches).
pub fn watched_are_own()
    ensures { AllWatchedAreOwn }
{}

/// An own node that can be watched stays one, under its number, whatever slots of nodes a step sets.
pub fn own_nodes_stay()
    ensures { OwnNodesStay }
{}
