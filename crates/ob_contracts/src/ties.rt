//! Which contracts others name themselves, by their places.
ghost use Rattle.std.specs.Prelude.{◌≡◌, [], ◌∷◌, List, ℕ, IfOk, OnOk, OnErr};
ghost use Rattle.std.specs.List.{list_any};
ghost use Rattle.std.specs.Option.{option_copied};
ghost use Rattle.ob_contracts.specs.Adding.{is_among, head_names, names_word};
ghost use Rattle.ob_contracts.specs.Inherit.{words_in};
ghost use Rattle.ob_contracts.specs.Ties.{HasOneMore, HasPlaces, KeepsPlaces, AreMarked, is_marked};

use crate::fewer::or;
use crate::library::Library;
use ob_object::{Attributes, Obj, Words};
use ob_values::Text;
use std::alloc::{AllocError, Global};
use std::marker::Model;

/// Of contracts that a library has one after another, which of its contracts each names itself: a row of places for each.
///
/// It takes a number for each word that an own object names and that has a contract.
pub struct Ties {
    rows: Vec<Vec<usize>>,
}

impl Drop for Ties {
    fn drop(self) {
        let Ties { rows } = self;
        drop(rows);
    }
}

impl Model for Ties {
    ghost use Rattle.std.specs.Prelude.{List, ℕ, map};
    ghost use Rattle.std.specs.Coded.{coded_list, coded_ℕ};

    ghost Value = { List (List ℕ) };

    ghost coded = { coded_list (coded_list coded_ℕ) };

    ghost view = { λ a. map (λ r. r.items) a.rows.items };
}

/// Whether a place is marked.
fn is_marked(marks: &[bool], place: usize) -> bool
    ensures { result ≡ is_marked place marks.now }
{
    match marks.get(place) {
        Some(mark) => *mark,
        None => false,
    }
}

/// Whether one of these places is marked.
fn names_marked(marks: &[bool], row: &[usize]) -> bool
    ensures { result ≡ list_any (λ i. is_marked i marks.now) row.now }
{
    for place in row {
        if is_marked(marks, *place) {
            return true;
        }
    }
    false
}

/// Puts the place of the contract of a word, if it has one.
fn put_place(library: &Library, row: &mut Vec<usize>, word: &Text) -> Result<(), AllocError>
    ensures kept { KeepsPlaces row.old.items row.new.items }
    ensures ok { OnOk result (HasPlaces library.now row.new.items (λ w. is_among w (word.now ∷ []))) }
{
    if let Some(place) = library.place_of(word.as_str()) {
        row.push(place)?;
    }
    Ok(())
}

fn put_words(library: &Library, row: &mut Vec<usize>, words: &[Text]) -> Result<(), AllocError>
    ensures kept { KeepsPlaces row.old.items row.new.items }
    ensures ok { OnOk result (HasPlaces library.now row.new.items (λ w. is_among w words.now)) }
{
    for word in words {
        put_place(library, row, word)?;
    }
    Ok(())
}

fn put_list(
    library: &Library,
    row: &mut Vec<usize>,
    words: Option<&Words>,
) -> Result<(), AllocError>
    ensures kept { KeepsPlaces row.old.items row.new.items }
    ensures ok { OnOk result (HasPlaces library.now row.new.items (λ w. is_among w (words_in (option_copied words.entry)))) }
{
    match words {
        Some(words) => put_words(library, row, words.as_slice()),
        None => Ok(()),
    }
}

fn put_head(library: &Library, row: &mut Vec<usize>, head: &Attributes) -> Result<(), AllocError>
    ensures kept { KeepsPlaces row.old.items row.new.items }
    ensures ok { OnOk result (HasPlaces library.now row.new.items (λ w. head_names w head.now)) }
{
    put_list(library, row, head.is())?;
    put_list(library, row, head.of())
}

/// Puts the places of the contracts that an object, or one in it, names.
fn put_object(library: &Library, row: &mut Vec<usize>, object: &Obj) -> Result<(), AllocError>
    ensures kept { KeepsPlaces row.old.items row.new.items }
    ensures ok { OnOk result (HasPlaces library.now row.new.items (λ w. names_word w object.now)) }
{
    put_head(library, row, object.head())?;
    for child in object.children() {
        put_object(library, row, child)?;
    }
    Ok(())
}

impl Ties {
    /// Of no contract.
    pub fn new(alloc: Global) -> Ties
        ensures { result ≡ [] }
    {
        Ties {
            rows: Vec::new(alloc),
        }
    }

    /// Puts the row of an own object last. An error, which is only for want of memory, leaves all as it was.
    pub fn put(&mut self, library: &Library, own: &Obj) -> Result<(), AllocError>
        ensures ok { OnOk result (HasOneMore library.now own.now self.old self.new) }
        ensures err { OnErr result (self.new ≡ self.old) }
    {
        let mut row = Vec::new(*self.rows.allocator());
        put_object(library, &mut row, own)?;
        self.rows.push(row)?;
        Ok(())
    }

    /// Which contracts of a library have to be made anew: those that are written, and each that names one before it which has to. The
    /// rows are those of the contracts from a first place on, none before it has to, and `written` tells of each row whether its
    /// contract is written.
    ///
    /// It takes a byte for each contract, and time for each contract and each place in the rows.
    pub fn behind(
        &self,
        alloc: Global,
        first: usize,
        written: &[bool],
    ) -> Result<Vec<bool>, AllocError>
        ensures { IfOk result (λ marks. AreMarked first written.now self.now marks.items) }
    {
        let mut marks = vec![in alloc; false; first]?;
        for row in self.rows.as_slice() {
            let known = marks.as_slice();
            let own = is_marked(written, known.len() - first);
            let named = names_marked(known, row.as_slice());
            let marked = or(own, named);
            marks.push(marked)?;
        }
        Ok(marks)
    }
}
