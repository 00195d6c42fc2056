//! What takes the adds of one request back.
ghost use Rattle.std.specs.Prelude.{◌≡◌, List, OnOk, OnErr};
ghost use Rattle.ob_watch.specs.declared.item.Item.{Item as KeptItem};
ghost use Rattle.ob_watch.specs.Items.{put_item};
ghost use Rattle.ob_watch.specs.Restoring.{restored};

use crate::item::Item;
use crate::items::Items;
use std::alloc::{AllocError, Global};
use std::marker::Model;

/// What takes the adds of one request back, without memory: how many items the watch had, and those that were
/// replaced.
#[derive(Drop)]
pub struct Additions {
    before: usize,
    replaced: Vec<Item>,
}

impl Model for Additions {
    ghost use Rattle.ob_watch.specs.Undo.{Undo};

    ghost Value = { Undo };

    ghost view = { λ a. record { before = a.before; replaced = a.replaced.items } };
}

impl Additions {
    ghost use Rattle.ob_watch.specs.Undo.{StillUndoes, Undoes};

    /// Nothing was added to these items yet.
    pub fn new(alloc: Global, items: &[Item]) -> Additions
        ensures { Undoes result items.now items.now }
    {
        Additions {
            before: items.len(),
            replaced: Vec::new(alloc),
        }
    }

    /// Puts an item in the place of the one of its href, or last. Want of memory leaves all as it was.
    pub(crate) fn put(
        &mut self,
        alloc: Global,
        items: &mut Items,
        item: Item,
    ) -> Result<(), AllocError>
        ensures put { OnOk result (items.new ≡ put_item item items.old) }
        ensures err { OnErr result (items.new ≡ items.old) }
        ensures back { StillUndoes self.old self.new items.old items.new }
    {
        self.replaced.reserve(1)?;
        match items.put(alloc, item)? {
            Some(old) => self.replaced.push_reserved(old),
            None => {}
        }
        Ok(())
    }

    /// Leaves the items as they were before the first was added.
    pub(crate) fn take_back(self, items: &mut Items)
        ensures { (original : List KeptItem) → Undoes self items.old original → items.new ≡ original }
    {
        let Additions {
            before,
            mut replaced,
        } = self;
        restore(items, &mut replaced);
        items.truncate(before);
    }
}

// Puts the items back in their places, the last first.
fn restore(items: &mut Items, replaced: &mut Vec<Item>)
    ensures { items.new ≡ restored replaced.old.items items.old }
{
    while let Some(item) = replaced.pop() {
        items.put_over(item);
    }
}
