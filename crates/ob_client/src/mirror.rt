//! What a client holds that replays the replies on a watch.
ghost use Rattle.std.specs.Prelude.{◌≡◌, length, option_map, option_copied, slice_get};
ghost use Rattle.ob_client.specs.Mirrors.{empty, lost, removed, found, events_under, missed_under, Adds, Changes, Refreshes};
ghost use Rattle.ob_client.specs.Shown.{shown};

use crate::entries::entries_once;
use crate::mirror_fault::MirrorFault;
use crate::news::{all_follow, all_whole, next_but_errs, whole_but_errs};
use crate::table::Table;
use ob_object::Obj;
use ob_values::Text;
use std::alloc::Global;
use std::marker::Model;

/// What a client holds of a watch: under each href as it was asked an object or an err; of a feed its events and how many
/// were missed. It is what the replies leave that it was given.
///
/// Source: oBIX 1.1, chapter 12 (Watches).
#[derive(Drop)]
pub struct Mirror {
    alloc: Global,
    table: Table,
    is_stale: bool,
}

impl Model for Mirror {
    ghost use Rattle.ob_object.specs.contracts.object.Obj.{the_row};
    ghost use Rattle.ob_client.specs.Mirrors.{Mirrored, mirrored_code};

    ghost Value = { Mirrored };

    ghost coded = { mirrored_code the_row.coded };

    ghost view = { λ m. record { held = m.table; stale = m.is_stale } };
}

impl Mirror {
    /// Nothing is held.
    pub fn new(alloc: Global) -> Mirror
        ensures { result ≡ empty }
    {
        Mirror {
            alloc,
            table: Table::new(alloc),
            is_stale: false,
        }
    }

    /// Takes the reply to a pollRefresh, which replaces all that is held. Shape where it is no WatchOut of entries with
    /// an href, each once. After a refusal all is as it was.
    pub fn on_refresh(&mut self, reply: Obj) -> Result<(), MirrorFault>
        ensures { Refreshes self.old self.new reply result }
    {
        let Some(entries) = entries_once(self.alloc, &reply)? else {
            return Err(MirrorFault::Shape);
        };
        let news = all_whole(self.alloc, entries)?;
        let mut table = Table::new(self.alloc);
        table.put_all(self.alloc, news)?;
        self.table = table;
        self.is_stale = false;
        Ok(())
    }

    /// Takes the reply to an add: each entry but an err stands in its place or last. Shape as for `on_refresh`; Stale where
    /// a reply was lost since. After a refusal all is as it was.
    pub fn on_add(&mut self, reply: Obj) -> Result<(), MirrorFault>
        ensures { Adds self.old self.new reply result }
    {
        let Some(entries) = entries_once(self.alloc, &reply)? else {
            return Err(MirrorFault::Shape);
        };
        if self.is_stale {
            return Err(MirrorFault::Stale);
        }
        let news = whole_but_errs(self.alloc, entries)?;
        self.table.put_all(self.alloc, news)?;
        Ok(())
    }

    /// Takes the reply to a pollChanges: a feed entry goes on with the feed that is held, every other one but an err
    /// stands in its place or last. Shape also where the child `dropped` of an entry that goes on is no int from 1 on, or
    /// can't be counted; Stale as for `on_add`. After a refusal all is as it was.
    pub fn on_changes(&mut self, reply: Obj) -> Result<(), MirrorFault>
        ensures { Changes self.old self.new reply result }
    {
        let Some(entries) = entries_once(self.alloc, &reply)? else {
            return Err(MirrorFault::Shape);
        };
        if !all_follow(&self.table, entries) {
            return Err(MirrorFault::Shape);
        }
        if self.is_stale {
            return Err(MirrorFault::Stale);
        }
        let news = next_but_errs(self.alloc, &self.table, entries)?;
        self.table.put_all(self.alloc, news)?;
        Ok(())
    }

    /// Takes what was removed out of what is held.
    pub fn on_remove(&mut self, texts: &[Text])
        ensures { self.new ≡ removed texts.now self.old }
    {
        self.table.remove(texts);
    }

    /// A reply was lost.
    pub fn lost(&mut self)
        ensures { self.new ≡ lost self.old }
    {
        self.is_stale = true;
    }

    /// Whether a reply was lost since the last pollRefresh that was taken.
    pub fn is_stale(&self) -> bool
        ensures { result ≡ self.now.stale }
    {
        self.is_stale
    }

    /// How many entries are held.
    pub fn len(&self) -> u64
        ensures { result ≡ length self.now.held }
    {
        self.table.len() as u64
    }

    /// What is held at a place of the list, from 0, as `get` gives it.
    pub fn at(&self, place: u64) -> Option<&Obj>
        ensures { option_copied result ≡ option_map shown (slice_get self.now.held place) }
    {
        match self.table.at(place as usize) {
            Some(kept) => Some(kept.shown()),
            None => None,
        }
    }

    /// What is held under an href: the object, or the feed with the number missed, if it isn't 0, and its events.
    pub fn get(&self, asked: &str) -> Option<&Obj>
        ensures { option_copied result ≡ option_map shown (found asked.now self.now.held) }
    {
        match self.table.get(asked) {
            Some(kept) => Some(kept.shown()),
            None => None,
        }
    }

    /// The events of a feed that is held, and none under every other text.
    pub fn events(&self, asked: &str) -> &[Obj]
        ensures { result.now ≡ events_under asked.now self.now.held }
    {
        match self.table.get(asked) {
            Some(kept) => kept.events(),
            None => &[],
        }
    }

    /// How many events of a feed that is held were missed, and 0 under every other text.
    pub fn missed(&self, asked: &str) -> u64
        ensures { result ≡ missed_under asked.now self.now.held }
    {
        match self.table.get(asked) {
            Some(kept) => kept.missed(),
            None => 0,
        }
    }
}
