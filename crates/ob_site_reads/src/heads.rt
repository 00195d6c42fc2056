//! What is told of a node by its own head, where it stands: nothing in it is shown for it.
ghost use Rattle.std.specs.Prelude.{◌≡◌, ℕ, Bool, List, Option, Some, option_map, IfOk, IfSome};
ghost use Rattle.ob_contracts.specs.Shown.{shown as shown_by};
ghost use Rattle.ob_object.specs.Facets.{facet_value, limit, truth, words};
ghost use Rattle.ob_site_rules.specs.Shown.{shown};
ghost use Rattle.ob_site_reads.specs.Targets.{target, target_head};
ghost use Rattle.ob_values.specs.declared.value.Value.{Value};

use crate::shown::shown_at;
use ob_contracts::{Steps, View};
use ob_object::{Attributes, Facet, FacetRef, Kind, Obj};
use ob_site_state::State;
use ob_values::{Text, Value};
use std::alloc::{AllocError, Global};
use std::sync::ledger::Ledger;

/// A copy of a limit that is lent.
fn limit(facet: Option<FacetRef<'_>>) -> Result<Option<Value>, AllocError>
    ensures { IfOk result (λ copy. (given : Option Value) → option_map facet_value facet.entry ≡ option_map limit given → copy ≡ given) }
{
    match facet {
        Some(FacetRef::Limit(value)) => {
            let copy = value.copy()?;
            Ok(Some(copy))
        }
        _ => Ok(None),
    }
}

/// A copy of a text that is lent.
fn words(facet: Option<FacetRef<'_>>) -> Result<Option<Text>, AllocError>
    ensures { IfOk result (λ copy. (given : Option (List ℕ)) → option_map facet_value facet.entry ≡ option_map words given → copy ≡ given) }
{
    match facet {
        Some(FacetRef::Words(text)) => {
            let copy = text.copy()?;
            Ok(Some(copy))
        }
        _ => Ok(None),
    }
}

/// Whether something is so, as it is lent.
fn truth(facet: Option<FacetRef<'_>>) -> Option<bool>
    ensures { (given : Option Bool) → option_map facet_value facet.entry ≡ option_map truth given → result ≡ given }
{
    match facet {
        Some(FacetRef::Truth(so)) => Some(so),
        _ => None,
    }
}

/// What of a view is asked when a value is to be written. An error only for want of memory.
fn target_head(alloc: Global, view: &View<'_>) -> Result<Attributes, AllocError>
    ensures { IfOk result (λ head. head ≡ target_head (shown_by view.now).head) }
{
    let mut head = Attributes::empty(alloc, view.kind());
    head.put_slot(view.slot().copy()?);
    head.put_min(limit(view.facet(Facet::Min))?);
    head.put_max(limit(view.facet(Facet::Max))?);
    let range = words(view.facet(Facet::Range))?;
    if head.put_range(range).is_err() {
        return Err(AllocError);
    }
    head.put_writable(truth(view.facet(Facet::Writable)));
    Ok(head)
}

/// What of the own node of a path is asked when a value is to be written to it, which is what is asked of what is shown
/// there. An error only for want of memory.
pub fn own_target<L: Ledger>(
    state: &State,
    path: &Text,
    steps: &mut Steps<L>,
) -> Result<Option<Obj>, AllocError>
    ensures { IfOk result (λ found. IfSome found (λ o. option_map target (shown state.now.plan state.now.now path.now) ≡ Some o)) }
{
    state.sound_law();
    let tree = state.tree();
    let Some(node) = tree.get(path) else {
        return Ok(None);
    };
    let head = target_head(state.allocator(), &state.view(node, steps))?;
    if head.fits() {
        Ok(Some(Obj::from_attributes(state.allocator(), head)))
    } else {
        Ok(None)
    }
}

/// The kind of the own node of a path, which is that of what is shown there.
pub fn own_kind(state: &State, path: &Text) -> Option<Kind>
    ensures { IfSome result (λ kind. option_map (λ o. o.head.kind) (shown state.now.plan state.now.now path.now) ≡ Some kind) }
{
    state.sound_law();
    let tree = state.tree();
    match tree.get(path) {
        Some(node) => Some(tree.own(node).kind()),
        None => None,
    }
}

/// The kind of what is shown at a path, and `None` where nothing is. Of an own node nothing is shown for it. An error only
/// for want of memory.
pub fn shown_kind<L: Ledger>(
    state: &State,
    path: &Text,
    steps: &mut Steps<L>,
) -> Result<Option<Kind>, AllocError>
    ensures { IfOk result (λ kind. kind ≡ option_map (λ o. o.head.kind) (shown state.now.plan state.now.now path.now)) }
{
    let kind = own_kind(state, path);
    if kind.is_some() {
        return Ok(kind);
    }
    match shown_at(state, path, steps)? {
        Some(object) => Ok(Some(object.kind())),
        None => Ok(None),
    }
}
