//! What an asked href names.
ghost use Rattle.std.specs.Prelude.{◌≡◌, cond, Option, option_map, IfOk};
ghost use Rattle.ob_object.specs.Object.{Object};
ghost use Rattle.ob_watching.specs.Operations.{NotFound, ObjectAt};
ghost use Rattle.ob_site_rules.specs.declared.fault.Fault.TheVariants.{NotWatchable};
ghost use Rattle.ob_site_rules.specs.declared.resource.Resource.TheVariants.{Node};
ghost use Rattle.ob_site_rules.specs.Places.{place_at};
ghost use Rattle.ob_site_rules.specs.Shown.{shown};
ghost use Rattle.ob_site_rules.specs.Locating.{locate};
ghost use Rattle.ob_site_rules.specs.Sites.{found};
ghost use Rattle.ob_site_rules.specs.Watched.{found_at, found_place, is_call_kind};
ghost use Rattle.ob_requests.specs.Calls.{found as found_of};

use crate::{computed_place, shown_kind};
use ob_contracts::Steps;
use ob_object::{Kind, Obj};
use ob_requests::{Found, WatchInItem, feed_with, is_of_watch, locate_path};
use ob_site_rules::{Fault, Resource};
use ob_site_state::State;
use ob_values::Text;
use std::alloc::AllocError;
use std::sync::ledger::Ledger;

/// What a node of a kind is to watches: all but ops and feeds are watched.
fn found_node(path: Text, kind: Kind) -> Found
    ensures { found_of result ≡ cond (is_call_kind kind) (NotFound NotWatchable) (ObjectAt path) }
{
    match kind {
        Kind::Op | Kind::Feed => Found::Nothing(Fault::NotWatchable),
        _ => Found::Object(path),
    }
}

/// What a place is to watches: nodes, and the feeds of histories and of the alarm subject.
fn found_place(path: Text, input: &Option<Obj>, place: &Resource) -> Found
    ensures { found_of result ≡ found_place path input.now place.now }
{
    match place {
        Resource::Node(node) => found_node(path, node.kind()),
        Resource::FeedOf(_) | Resource::AlarmFeed => feed_with(path, input),
        _ => Found::Nothing(Fault::NotWatchable),
    }
}

/// What a path is to watches that no computed path is the same as. An own node isn't shown for it.
#[tactic(auto, using(crate::proofs::FoundKinds::node_found, crate::proofs::FoundKinds::none_found))]
fn found_shown<L: Ledger>(
    state: &State,
    numbers: &[u64],
    path: Text,
    steps: &mut Steps<L>,
) -> Result<Found, AllocError>
    ensures { IfOk result (λ f. (input : Option Object) → found_of f ≡ found_at state.now.plan numbers.now path input (option_map Node (shown state.now.plan state.now.now path))) }
{
    match shown_kind(state, &path, steps)? {
        Some(kind) => Ok(found_node(path, kind)),
        None if is_of_watch(state.plan(), numbers, path.as_str()) => Ok(Found::Nothing(
            Fault::NotWatchable,
        )),
        None => Ok(Found::Nothing(Fault::NoSuchObject)),
    }
}

/// What a path is to watches: what it names is a computed place, or else a node.
#[tactic(auto, using(crate::proofs::FoundKinds::place_found, crate::proofs::FoundKinds::shown_found))]
fn found_at<L: Ledger>(
    state: &State,
    numbers: &[u64],
    path: Text,
    input: &Option<Obj>,
    steps: &mut Steps<L>,
) -> Result<Found, AllocError>
    ensures { IfOk result (λ f. found_of f ≡ found_at state.now.plan numbers.now path input.now (place_at state.now.plan state.now.now path)) }
{
    match computed_place(state, &path)? {
        Some(place) => Ok(found_place(path, input, &place)),
        None => found_shown(state, numbers, path, steps),
    }
}

/// What an asked href names, where the watches of these numbers stand. An error only for want of memory.
///
/// Source: oBIX 1.1, chapter 12 (Watch.add).
pub fn resolve_item<L: Ledger>(
    state: &State,
    numbers: &[u64],
    asked: &WatchInItem,
    steps: &mut Steps<L>,
) -> Result<Found, AllocError>
    ensures { IfOk result (λ f. found_of f ≡ found locate state.now.plan state.now.now numbers.now asked.now.0 asked.now.1) }
{
    if asked.0.as_str().len() > 1024 {
        return Ok(Found::Nothing(Fault::HrefTooLong));
    }
    match locate_path(state.allocator(), state.plan(), &asked.0)? {
        Some(path) => found_at(state, numbers, path, &asked.1, steps),
        None => Ok(Found::Nothing(Fault::NoSuchObject)),
    }
}
