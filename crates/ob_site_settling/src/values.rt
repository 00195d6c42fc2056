//! Whether an object shows another value or another status than before.
ghost use Rattle.std.specs.Prelude.{◌≡◌, ◌&&◌, not};
ghost use Rattle.ob_contracts.specs.Shown.{shown};
ghost use Rattle.ob_tree.specs.Standings.{context};
ghost use Rattle.ob_site_rules.specs.Sameness.{same_option, same_slot, same_status};
ghost use Rattle.ob_shown_laws.specs.Changed.{head_in, same_values};
ghost use Rattle.ob_site_settling.specs.Values.{status_in};

use ob_contracts::{Steps, View};
use ob_object::{Facet, FacetRef, Obj, Slot, Status};
use ob_site_state::same_slot;
use ob_tree::Standing;
use std::sync::ledger::Ledger;

/// Whether two statuses are one, or both are absent.
pub(crate) fn same_status(status: Option<Status>, other: Option<Status>) -> bool
    ensures { result ≡ same_option same_status status other }
{
    match (status, other) {
        (Some(status), Some(other)) => status.rank() == other.rank(),
        (None, None) => true,
        _ => false,
    }
}

/// Whether a slot and a status are the same as others.
fn has_same(slot: &Slot, status: Option<Status>, other: &Slot, another: Option<Status>) -> bool
    ensures { result ≡ (same_slot slot.now other.now && same_option same_status status another) }
{
    same_slot(slot, other) && same_status(status, another)
}

/// The status that a facet is, if it is one.
fn status_in(facet: Option<FacetRef<'_>>) -> Option<Status>
    ensures { result ≡ status_in facet.entry }
{
    match facet {
        Some(FacetRef::Word(status)) => Some(status),
        Some(FacetRef::Limit(_))
        | Some(FacetRef::Number(_))
        | Some(FacetRef::Truth(_))
        | Some(FacetRef::Words(_))
        | None => None,
    }
}

/// The status that an object shows, if any.
#[tactic(auto, using(crate::proofs::Comparing::status_there))]
fn status_of(view: &View<'_>) -> Option<Status>
    ensures { result ≡ (shown view.now).head.facets.status }
{
    status_in(view.facet(Facet::Status))
}

/// Whether an object that stands so shows another value or another status than it would with what it said of itself
/// before, told by its own attributes.
///
/// Source: oBIX 1.1, chapter 7 (Contracts).
pub fn shows_other_values<'a, L: Ledger>(
    standing: &Standing<'a>,
    before: &'a Obj,
    now: &'a Obj,
    steps: &mut Steps<L>,
) -> bool
    ensures { result ≡ not
        (same_values (head_in (context standing.now) before.now.head) (head_in (context standing.now) now.now.head)) }
{
    let before = standing.view(before, steps);
    let now = standing.view(now, steps);
    let is_same = has_same(
        before.slot(),
        status_of(&before),
        now.slot(),
        status_of(&now),
    );
    !is_same
}
