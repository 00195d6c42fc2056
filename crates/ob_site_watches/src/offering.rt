//! What is asked for of a watch, before it is added.
ghost use Rattle.std.specs.Prelude.{◌≡◌, IfOk};
ghost use Rattle.ob_site_watches.specs.Watched.{IsOwnFound};
ghost use Rattle.ob_watch.specs.Marks.{AreStampsPast};
ghost use Rattle.ob_requests.specs.Calls.{found as found_of};
ghost use Rattle.ob_site_watches.specs.Offered.{IsFor, IsOffered, refused_entry};
ghost use Rattle.ob_site_state.specs.Stamping.{tree_of};

use crate::watched_are_own;
use ob_contracts::Steps;
use ob_object::Obj;
use ob_replies::{entry, refusal};
use ob_requests::{Found, WatchInItem};
use ob_site_reads::{feed_place, resolve_item};
use ob_site_rules::Fault;
use ob_site_state::State;
use ob_values::Text;
use ob_watch::{Feeds, Item};
use std::alloc::{AllocError, Global};
use std::sync::ledger::Ledger;

/// An href that is asked for: the item that it is to be added as, or the entry of its refusal.
#[derive(Drop)]
pub enum Offer {
    Item(Item),
    Refused(Obj),
}

/// The item that an href is to be added as, or why it isn't.
#[tactic(auto, using(crate::proofs::Found::object_for, crate::proofs::Found::feed_for))]
fn item_for(state: &State, text: Text, found: Found) -> Result<Result<Item, Fault>, AllocError>
    requires past { AreStampsPast (tree_of state.now) }
    requires own { IsOwnFound state.now.plan state.now.now.tree (found_of found) }
    ensures { IfOk result (IsFor state.now text (found_of found)) }
{
    match found {
        Found::Nothing(fault) => Ok(Err(fault)),
        Found::Object(path) => match state.tree().get(&path) {
            Some(node) => Ok(Ok(Item::object(text, path, node, state.tree().steps()))),
            None => unreachable!(),
        },
        Found::Feed(path, filter) => {
            state.feeds_law();
            match feed_place(state, &path)? {
                Some(feed) => Ok(Ok(Item::feed(text, path, feed, filter, state.ever(feed)))),
                None => unreachable!(),
            }
        }
    }
}

/// The entry of an href that is refused. An error only for want of memory.
pub(crate) fn refused(alloc: Global, text: &Text, fault: Fault) -> Result<Obj, AllocError>
    ensures { IfOk result (λ o. o ≡ refused_entry text.now fault) }
{
    let object = refusal(alloc, fault)?;
    let text = text.copy()?;
    Ok(entry(object, text))
}

/// What an href that is asked for is to be added as, among watches of these numbers; of an item nothing is read for it. An
/// error only for want of memory.
///
/// Source: oBIX 1.1, chapter 12 (Watch.add).
#[tactic(auto, using(crate::proofs::Found::item_offered, crate::proofs::Found::refusal_offered))]
pub(crate) fn offered<L: Ledger>(
    state: &State,
    numbers: &[u64],
    asked: &WatchInItem,
    steps: &mut Steps<L>,
) -> Result<Offer, AllocError>
    requires { AreStampsPast (tree_of state.now) }
    ensures { IfOk result (IsOffered state.now numbers.now asked.now) }
{
    watched_are_own();
    let found = resolve_item(state, numbers, asked, steps)?;
    let text = asked.0.copy()?;
    match item_for(state, text, found)? {
        Ok(item) => Ok(Offer::Item(item)),
        Err(fault) => {
            let entry = refused(state.allocator(), &asked.0, fault)?;
            Ok(Offer::Refused(entry))
        }
    }
}
