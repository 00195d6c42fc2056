//! What is held, by the texts as they were asked, in the order of their first coming.
ghost use Rattle.std.specs.Prelude.{◌≡◌, ◌+◌, ◌≤◌, ◌<◌, true, false, not, ℕ, List, [], length, vec_len, vec_capacity, OnOk, OnErr, option_copied, slice_get};
ghost use Rattle.std.specs.List.{filter};
ghost use Rattle.std.specs.Str.{bytes_eq};
ghost use Rattle.std.specs.BTreeMap.{get_by_text};
ghost use Rattle.ob_watching.specs.Tables.{is_among};
ghost use Rattle.ob_client.specs.Mirrors.{found};
ghost use Rattle.ob_client.specs.Tables.{texts_of, place_of, stands_at, has_key, have_keys, IsIndex, KeepsIndex, KeepsKeys, Leads, put_new, put_all};

use crate::kept::Kept;
use ob_values::Text;
use std::alloc::{AllocError, Global};
use std::collections::BTreeMap;
use std::marker::Model;

// Where what is held under each text stands. A text under which nothing is held may lead to any place.
type Places = BTreeMap<String, usize>;

/// What is held, in the order in which the texts first came. A text is looked up by halving: the hash of a map has a seed
/// that all know, so a peer could give hrefs that all have one hash.
pub(crate) struct Table {
    kept: Vec<Kept>,
    places: Places,
}

impl Drop for Table {
    // By one call for each part.
    fn drop(self) {
        let Table { kept, places } = self;
        drop(kept);
        drop(places);
    }
}

impl Model for Table {
    ghost use Rattle.std.specs.Prelude.{List};
    ghost use Rattle.std.specs.Coded.{coded_list};
    ghost use Rattle.ob_object.specs.contracts.object.Obj.{the_row};
    ghost use Rattle.ob_watching.specs.WatchOuts.{Held};
    ghost use Rattle.ob_client.specs.Shown.{held_code};
    ghost use Rattle.ob_client.specs.Tables.{IsIndex, texts_of};

    ghost Value = { List Held };

    ghost coded = { coded_list (held_code the_row.coded) };

    ghost view = { λ t. t.kept.items };

    ghost invariant = { λ t. IsIndex t.places (texts_of t.kept.items) };
}

// Whether what is held at a place is held under a text.
fn stands_at(text: &str, kept: &[Kept], place: usize) -> bool
    ensures { result ≡ stands_at text.now (texts_of kept.now) place }
{
    match kept.get(place) {
        Some(held) => text == held.text(),
        None => false,
    }
}

// Where what is held under a text stands.
fn place_of(text: &str, kept: &[Kept], places: &Places) -> Option<usize>
    requires { IsIndex places.now (texts_of kept.now) }
    ensures { result ≡ place_of text.now (texts_of kept.now) }
{
    match places.get(text) {
        Some(place) if stands_at(text, kept, *place) => Some(*place),
        _ => None,
    }
}

// Gives a text a place, where it has none.
fn add_key(alloc: Global, places: &mut Places, text: &str) -> Result<(), AllocError>
    ensures index { KeepsIndex places.old places.new }
    ensures keys { KeepsKeys places.old places.new }
    ensures key { OnOk result (has_key places.new text.now ≡ true) }
{
    if places.contains_key(text) {
        return Ok(());
    }
    let key = String::from_str(alloc, text)?;
    places.insert(key, 0)?;
    Ok(())
}

// Gives each text of these a place, where it has none.
fn add_keys(alloc: Global, places: &mut Places, news: &[Kept]) -> Result<(), AllocError>
    ensures index { KeepsIndex places.old places.new }
    ensures keys { OnOk result (have_keys places.new (texts_of news.now) ≡ true) }
{
    for new in news {
        add_key(alloc, places, new.text())?;
    }
    Ok(())
}

// Lets a text that has a place lead to this one.
fn lead(places: &mut Places, text: &str, place: usize)
    requires { has_key places.old text.now ≡ true }
    ensures { Leads places.old places.new text.now place }
{
    match places.get_mut(text) {
        Some(old) => *old = place,
        None => (),
    }
}

// Puts what is held in its place, or last.
fn put_new(kept: &mut Vec<Kept>, places: &mut Places, new: Kept)
    requires index { IsIndex places.old (texts_of kept.old.items) }
    requires key { has_key places.old new.text ≡ true }
    requires room { vec_len kept.old < vec_capacity kept.old }
    ensures index { IsIndex places.new (texts_of kept.new.items) }
    ensures put { kept.new.items ≡ put_new new kept.old.items }
    ensures keys { KeepsKeys places.old places.new }
    ensures room { (vec_len kept.new ≤ vec_len kept.old + 1) × (vec_capacity kept.new ≡ vec_capacity kept.old) }
{
    match place_of(new.text(), kept.as_slice(), places) {
        Some(place) => kept[place] = new,
        None => {
            lead(places, new.text(), kept.len());
            kept.push_reserved(new);
        }
    }
}

// Puts all of it in its place or last, where there is room.
fn put_each(kept: &mut Vec<Kept>, places: &mut Places, news: Vec<Kept>)
    requires index { IsIndex places.old (texts_of kept.old.items) }
    requires keys { have_keys places.old (texts_of news.items) ≡ true }
    requires room { vec_len kept.old + length news.items ≤ vec_capacity kept.old }
    ensures index { IsIndex places.new (texts_of kept.new.items) }
    ensures put { kept.new.items ≡ put_all news.items kept.old.items }
{
    for new in news {
        put_new(kept, places, new);
    }
}

// Whether a text is one of these.
fn is_among(texts: &[Text], text: &str) -> bool
    ensures { result ≡ is_among bytes_eq texts.now text.now }
{
    texts.iter().any(|other| other.as_str() == text)
}

// Lets the text of each lead to its place: of several that have one text to the first.
fn lead_all(places: &mut Places, kept: &[Kept])
    requires { have_keys places.old (texts_of kept.now) ≡ true }
    ensures { IsIndex places.new (texts_of kept.now) }
{
    let count = kept.len();
    for later in 0..count {
        let place = count - 1 - later;
        lead(places, kept[place].text(), place);
    }
}

// Takes the places of these texts away.
fn forget(places: &mut Places, texts: &[Text])
    ensures { (text : List ℕ) → is_among bytes_eq texts.now text ≡ false → get_by_text places.new text ≡ get_by_text places.old text }
{
    for text in texts {
        let _place = places.remove(text.as_str());
    }
}

impl Table {
    /// Nothing is held.
    pub(crate) fn new(alloc: Global) -> Table
        ensures { result ≡ [] }
    {
        Table {
            kept: Vec::new(alloc),
            places: BTreeMap::new(alloc),
        }
    }

    /// How many texts something is held under.
    pub(crate) fn len(&self) -> usize
        ensures { result ≡ length self.now }
    {
        self.kept.len()
    }

    /// What is held at a place, from 0.
    pub(crate) fn at(&self, place: usize) -> Option<&Kept>
        ensures { option_copied result ≡ slice_get self.now place }
    {
        self.kept.as_slice().get(place)
    }

    /// What is held under a text.
    pub(crate) fn get(&self, text: &str) -> Option<&Kept>
        ensures { option_copied result ≡ found text.now self.now }
    {
        match place_of(text, self.kept.as_slice(), &self.places) {
            Some(place) => self.at(place),
            None => None,
        }
    }

    /// Puts all of it in its place or last; nothing for want of memory.
    pub(crate) fn put_all(&mut self, alloc: Global, news: Vec<Kept>) -> Result<(), AllocError>
        ensures ok { OnOk result (self.new ≡ put_all news.items self.old) }
        ensures err { OnErr result (self.new ≡ self.old) }
    {
        self.kept.reserve(news.len())?;
        add_keys(alloc, &mut self.places, news.as_slice())?;
        put_each(&mut self.kept, &mut self.places, news);
        Ok(())
    }

    /// Takes what is held under these texts out.
    pub(crate) fn remove(&mut self, texts: &[Text])
        ensures { self.new ≡ filter (λ h. not (is_among bytes_eq texts.now h.text)) self.old }
    {
        self.kept.retain(
            |held: &Kept| -> bool
                ensures { result ≡ not (is_among bytes_eq texts.entry.now held.now.text) }
            { !is_among(texts, held.text()) },
        );
        lead_all(&mut self.places, self.kept.as_slice());
        forget(&mut self.places, texts);
    }
}
