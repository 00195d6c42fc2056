//! The entries of WatchOut.
ghost use Rattle.std.specs.Prelude.{◌≡◌, ◌+◌, ◌++◌, map, option_to_list, true, IfOk};
ghost use Rattle.ob_watch.specs.Flags.{flag_of, flags};
ghost use Rattle.ob_watch.specs.Items.{is_due};
ghost use Rattle.ob_watch.specs.Marks.{AreStampsPast};
ghost use Rattle.ob_site_rules.specs.Replies.{content_object, entry};
ghost use Rattle.ob_site_watches.specs.Entries.{all_changes, all_readings, changes_in, object_now, reading_entry};
ghost use Rattle.ob_site_watches.specs.Known.{AreSoundItems, IsSoundItem, IsPlacedBy};
ghost use Rattle.ob_site_watches.specs.Polls.{item_steps, poll_steps, reading_steps, refresh_steps};
ghost use Rattle.ob_site_state.specs.Feeds.{feed_logs};
ghost use Rattle.ob_site_state.specs.Stamping.{tree_of};

use ob_contracts::Steps;
use ob_object::Obj;
use ob_replies::entry;
use ob_site_reads::{Since, feed_since, watched_node, whole_feed};
use ob_site_state::State;
use ob_watch::{Item, Tracked, Watch};
use std::alloc::AllocError;
use std::sync::ledger::Ledger;

/// What is read of an item now: the object, or the feed with all kept events that pass its filter. Only an object counts steps.
#[tactic(auto, using(crate::proofs::Due::placed_within))]
fn object_now<L: Ledger>(
    state: &State,
    item: &Item,
    steps: &mut Steps<L>,
) -> Result<Obj, AllocError>
    requires { IsPlacedBy state.now.now.tree item.now.path item.now.tracked }
    ensures object { IfOk result (λ o. o ≡ object_now state.now item.now) }
    ensures steps { IfOk result (λ _. steps.new ≡ steps.old + reading_steps state.now.plan state.now.now item.now.path (flag_of (tree_of state.now) item.now.tracked)) }
{
    match item.tracked() {
        Tracked::Object { node, mark: _ } => watched_node(state, *node, steps),
        Tracked::Feed {
            feed: _,
            filter,
            given: _,
        } => whole_feed(state, item.path(), filter),
    }
}

/// The entry of an item as it is now: the object, or the feed with all kept events that pass its filter. Of an object it counts
/// those round it and the parts of the entry. An error only for want of memory.
///
/// Source: oBIX 1.1, chapter 12 (Watch.pollRefresh).
pub fn reading<L: Ledger>(
    state: &State,
    item: &Item,
    steps: &mut Steps<L>,
) -> Result<Obj, AllocError>
    requires { IsPlacedBy state.now.now.tree item.now.path item.now.tracked }
    ensures entry { IfOk result (λ o. o ≡ reading_entry state.now item.now) }
    ensures steps { IfOk result (λ _. steps.new ≡ steps.old + reading_steps state.now.plan state.now.now item.now.path (flag_of (tree_of state.now) item.now.tracked)) }
{
    let object = object_now(state, item, steps)?;
    let text = item.text().copy()?;
    Ok(entry(object, text))
}

/// The entries of items as they are now. An error only for want of memory.
///
/// Source: oBIX 1.1, chapter 12 (Watch.pollRefresh).
#[tactic(auto, using(crate::proofs::Due::known_at))]
pub fn readings<L: Ledger>(
    state: &State,
    items: &[Item],
    steps: &mut Steps<L>,
) -> Result<Vec<Obj>, AllocError>
    requires { AreSoundItems state.now items.now }
    ensures entries { IfOk result (λ os. os.items ≡ all_readings state.now items.now) }
    ensures steps { IfOk result (λ _. steps.new ≡ steps.old + refresh_steps state.now.plan state.now.now (map (flags (tree_of state.now)) items.now)) }
{
    let mut entries = Vec::new(state.allocator());
    for item in items {
        entries.push(reading(state, item, steps)?)?;
    }
    Ok(entries)
}

/// What has changed of an item that is to be reported. Only an object counts steps.
#[tactic(auto, using(crate::proofs::Due::placed_within))]
fn change_due<L: Ledger>(
    state: &State,
    item: &Item,
    steps: &mut Steps<L>,
) -> Result<Option<Obj>, AllocError>
    requires placed { IsPlacedBy state.now.now.tree item.now.path item.now.tracked }
    requires due { is_due (tree_of state.now) (feed_logs state.now.now) item.now ≡ true }
    ensures content { IfOk result (λ o. option_to_list o ≡ map (λ r. content_object r.content) (changes_in state.now item.now)) }
    ensures steps { IfOk result (λ _. steps.new ≡ steps.old + item_steps state.now.plan state.now.now item.now.path (flag_of (tree_of state.now) item.now.tracked)) }
{
    match item.tracked() {
        Tracked::Object { node, mark: _ } => {
            let object = watched_node(state, *node, steps)?;
            Ok(Some(object))
        }
        Tracked::Feed {
            feed: _,
            filter,
            given,
        } => {
            let since = Since {
                filter: *filter,
                given: *given,
            };
            feed_since(state, item.path(), &since)
        }
    }
}

/// Puts the entry of what has changed of an item that is to be reported last, if something has. It stands apart, so that no place
/// is made ready for an object where an item isn't due.
#[inline(never)]
#[tactic(auto, using(crate::proofs::Due::entry_due))]
fn push_due<L: Ledger>(
    state: &State,
    item: &Item,
    entries: &mut Vec<Obj>,
    steps: &mut Steps<L>,
) -> Result<(), AllocError>
    requires known { IsSoundItem state.now item.now }
    requires due { is_due (tree_of state.now) (feed_logs state.now.now) item.now ≡ true }
    ensures entries { IfOk result (λ _. entries.new.items ≡ entries.old.items ++ map entry (changes_in state.now item.now)) }
    ensures steps { IfOk result (λ _. steps.new ≡ steps.old + item_steps state.now.plan state.now.now item.now.path (flag_of (tree_of state.now) item.now.tracked)) }
{
    let Some(content) = change_due(state, item, steps)? else {
        return Ok(());
    };
    let text = item.text().copy()?;
    entries.push(entry(content, text))?;
    Ok(())
}

/// Puts the entry of what has changed of an item last, if something has. Nothing is read of an item that isn't due.
#[tactic(auto, using(crate::proofs::Due::nothing_due))]
fn push_change<L: Ledger>(
    state: &State,
    item: &Item,
    entries: &mut Vec<Obj>,
    steps: &mut Steps<L>,
) -> Result<(), AllocError>
    requires { IsSoundItem state.now item.now }
    ensures entries { IfOk result (λ _. entries.new.items ≡ entries.old.items ++ map entry (changes_in state.now item.now)) }
    ensures steps { IfOk result (λ _. steps.new ≡ steps.old + item_steps state.now.plan state.now.now item.now.path (flag_of (tree_of state.now) item.now.tracked)) }
{
    state.feeds_law();
    if !item.is_due(state.tree(), state) {
        return Ok(());
    }
    push_due(state, item, entries, steps)
}

/// The entries of what has changed of items since it was last reported. Only the items that are due are read: for each on an
/// object it counts the objects round it and the parts of its entry, and no other step. An error only for want of memory.
///
/// Source: oBIX 1.1, chapter 12 (Watch.pollChanges).
#[tactic(auto, using(crate::proofs::Due::changes_more, crate::proofs::Due::known_at))]
pub fn changes<L: Ledger>(
    state: &State,
    items: &[Item],
    steps: &mut Steps<L>,
) -> Result<Vec<Obj>, AllocError>
    requires { AreSoundItems state.now items.now }
    ensures entries { IfOk result (λ os. os.items ≡ all_changes state.now items.now) }
    ensures steps { IfOk result (λ _. steps.new ≡ steps.old + poll_steps state.now.plan state.now.now (map (flags (tree_of state.now)) items.now)) }
{
    let mut entries = Vec::new(state.allocator());
    for item in items {
        push_change(state, item, &mut entries, steps)?;
    }
    Ok(entries)
}

/// The entries of what has changed of the items of a watch since it was last reported, and the steps counted, as `changes`
/// says. Where nothing has changed since all were reported, no object is read, and no item is looked at where none was ever on a feed.
///
/// Source: oBIX 1.1, chapter 12 (Watch.pollChanges).
#[tactic(auto, using(crate::proofs::Due::none_due))]
pub fn watch_changes<L: Ledger>(
    state: &State,
    watch: &Watch,
    steps: &mut Steps<L>,
) -> Result<Vec<Obj>, AllocError>
    requires past { AreStampsPast (tree_of state.now) }
    requires known { AreSoundItems state.now watch.now.items }
    ensures entries { IfOk result (λ os. os.items ≡ all_changes state.now watch.now.items) }
    ensures steps { IfOk result (λ _. steps.new ≡ steps.old + poll_steps state.now.plan state.now.now (map (flags (tree_of state.now)) watch.now.items)) }
{
    state.feeds_law();
    if !watch.has_due(state.tree(), state) {
        return Ok(Vec::new(state.allocator()));
    }
    changes(state, watch.items(), steps)
}
