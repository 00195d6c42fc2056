//! The mark that all items of a watch on objects have.
ghost use Rattle.std.specs.Prelude.{◌≡◌, List, IfSome, false, true};
ghost use Rattle.ob_watch.specs.declared.item.Item.{Item as KeptItem};
ghost use Rattle.ob_watch.specs.declared.item.Tracked.{Tracked as KeptTracked};
ghost use Rattle.ob_watch.specs.Items.{put_item, put_over};
ghost use Rattle.ob_watch.specs.Marked.{AreMarked, IsMarkedBy, is_feed};

use crate::change::Change;
use crate::item::{Item, Tracked};

/// The mark that each item on an object has; None where they aren't known to have one.
pub(crate) type Mark = Option<u64>;

/// The mark after an item is put in the place of the one of its href, or last.
pub(crate) fn after_put(mark: Mark, item: &Item) -> Mark
    ensures put { (before : List KeptItem) → AreMarked mark before → AreMarked result (put_item item.now before) }
    ensures over { (before : List KeptItem) → AreMarked mark before → AreMarked result (put_over item.now before) }
{
    let known = mark?;
    match item.tracked() {
        Tracked::Object { node: _, mark } => { if *mark == known { Some(known) } else { None } }
        Tracked::Feed {
            feed: _,
            filter: _,
            given: _,
        } => Some(known),
    }
}

/// Whether a change gives each object the mark that it has.
pub(crate) fn is_given_again<C: Change>(mark: Mark, change: &C) -> bool
    ensures { result ≡ true → (kept : KeptTracked) → is_feed kept ≡ false → IfSome mark (λ m. IsMarkedBy m kept) → C.made change.now kept ≡ kept }
{
    let Some(known) = mark else {
        return false;
    };
    let Some(given) = change.mark() else {
        return false;
    };
    known == given
}
