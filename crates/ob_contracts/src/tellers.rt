//! Words that are looked up in place of many: those that tell something which none before them does, those of them that tell a
//! part of a head, and for each name of a child of their contracts the first that has one.
ghost use Rattle.std.specs.Prelude.{◌≡◌, ◌++◌, ◌∷◌, [], cond, List, ℕ, Some, None, IfOk, OnOk, IsTrue};
ghost use Rattle.std.specs.Option.{option_copied};
ghost use Rattle.std.specs.BTreeMap.{get_by_text};
ghost use Rattle.std.specs.Str.{bytes_eq};
ghost use Rattle.ob_object.specs.WellFormed.{is_taken};
ghost use Rattle.ob_object.specs.Words.{is_word};
ghost use Rattle.ob_contracts.specs.Found.{lent};
ghost use Rattle.ob_contracts.specs.Inherit.{or_else};
ghost use Rattle.ob_contracts.specs.Telling.{StandFor, named_by};
ghost use Rattle.ob_contracts.specs.Tellers.{AreWords, HeadsFor, IsHeadTelling, TellsFor, TellsIn, child_by, told_child, word_for};

use crate::fewer::{put_head, put_word, telling};
use crate::library::Library;
use ob_object::{Obj, Words};
use ob_values::Text;
use std::alloc::{AllocError, Global};
use std::collections::BTreeMap;
use std::marker::Model;

/// What is looked up in place of words.
pub struct Tellers {
    all: Words,
    // At most one for each part of a head and kind.
    heads: Words,
    // For each name of a child the first word whose contract has one.
    names: BTreeMap<String, Text>,
}

impl Drop for Tellers {
    // By one call for each part, so that to drop it is one call to whoever may have to.
    fn drop(self) {
        let Tellers { all, heads, names } = self;
        drop(all);
        drop(heads);
        drop(names);
    }
}

impl Model for Tellers {
    ghost use Rattle.std.specs.Prelude.{map, string_bytes};
    ghost use Rattle.ob_contracts.specs.Tellers.{Telling, telling_code};

    ghost Value = { Telling };

    ghost coded = { telling_code };

    ghost view = { λ a. record { all = a.all; heads = a.heads; names = map (λ e. (string_bytes e.0, e.1)) a.names.entries } };
}

impl Tellers {
    /// What is told in place of words, by those of them that tell something.
    fn of(alloc: Global, library: &Library, all: Words) -> Result<Tellers, AllocError>
        ensures { IfOk result (λ told. (ws : List (List ℕ)) → StandFor library.now all ws → TellsFor library.now told ws) }
    {
        let heads = telling_heads(alloc, library, &all)?;
        let names = words_by_name(alloc, library, &all)?;
        Ok(Tellers { all, heads, names })
    }

    /// Those that tell something.
    pub fn all(&self) -> &Words
        ensures { result.now ≡ self.now.all }
    {
        &self.all
    }

    /// Those of them that tell a part of a head.
    pub(crate) fn heads(&self) -> &Words
        ensures { result.now ≡ self.now.heads }
    {
        &self.heads
    }

    /// The word that is told for a name.
    fn word(&self, name: &str) -> Option<&Text>
        ensures { option_copied result ≡ word_for self.now name.now }
    {
        self.names.get(name)
    }

    /// The child of a name in the contract of the word that is told for it.
    pub(crate) fn child<'l>(&self, library: &'l Library, name: &str) -> Option<&'l Obj>
        ensures { option_copied result ≡ told_child library.now self.now name.now }
    {
        match self.word(name) {
            Some(word) => child_by(library, word, name),
            None => None,
        }
    }
}

/// The child of a name in the contract of a word.
fn child_by<'l>(library: &'l Library, word: &Text, name: &str) -> Option<&'l Obj>
    ensures { option_copied result ≡ child_by library.now name.now word.now }
{
    match library.get(word.as_str()) {
        Some(contract) => contract.child(name),
        None => None,
    }
}

/// Puts a word last if its contract has a part of a head that none of these of its kind has, and the contract to these.
fn put_telling_head<'a>(
    library: &'a Library,
    heads: &mut Vec<&'a Obj>,
    telling: &mut Words,
    word: &'a Text,
) -> Result<(), AllocError>
    requires { IsTrue (is_word word.now) }
    ensures { OnOk result ((looked : List (List ℕ)) → IsHeadTelling library.now telling.old looked (lent heads.old.items)
        → IsHeadTelling library.now telling.new (looked ++ word.now ∷ []) (lent heads.new.items)) }
{
    let Some(contract) = library.get(word.as_str()) else {
        return Ok(());
    };
    let new = put_head(heads, contract)?;
    if new {
        return put_word(telling, word);
    }
    Ok(())
}

/// Those of some words whose contract has a part of a head that none before it of its kind has.
fn telling_heads(alloc: Global, library: &Library, words: &Words) -> Result<Words, AllocError>
    ensures { IfOk result (λ heads. HeadsFor library.now heads words.now) }
{
    let mut heads = Vec::new(alloc);
    let mut telling = Words::new(alloc);
    for word in words.as_slice() {
        put_telling_head(library, &mut heads, &mut telling, word)?;
    }
    Ok(telling)
}

/// Puts a word for a name that has none.
fn put_word_for(
    alloc: Global,
    names: &mut BTreeMap<String, Text>,
    name: &Text,
    word: &Text,
) -> Result<(), AllocError>
    ensures { OnOk result ((n : List ℕ) → get_by_text names.new n ≡ or_else (get_by_text names.old n) (cond (bytes_eq name.now n) (Some word.now) None)) }
{
    if names.contains_key(name.as_str()) {
        return Ok(());
    }
    let key = String::from_str(alloc, name.as_str())?;
    let copy = word.copy()?;
    names.insert(key, copy)?;
    Ok(())
}

/// Puts a word for each name of these children that has none.
fn put_names(
    alloc: Global,
    names: &mut BTreeMap<String, Text>,
    children: &[Obj],
    word: &Text,
) -> Result<(), AllocError>
    ensures { OnOk result ((n : List ℕ) → get_by_text names.new n ≡ or_else (get_by_text names.old n) (cond (is_taken (Some n) children.now) (Some word.now) None)) }
{
    for child in children {
        if let Some(name) = child.name() {
            put_word_for(alloc, names, name, word)?;
        }
    }
    Ok(())
}

/// Puts a word for each name of a child of its contract that has none.
fn put_names_of(
    alloc: Global,
    library: &Library,
    names: &mut BTreeMap<String, Text>,
    word: &Text,
) -> Result<(), AllocError>
    ensures { OnOk result ((looked : List (List ℕ)) → AreWords library.now (get_by_text names.old) (named_by library.now looked)
        → AreWords library.now (get_by_text names.new) (named_by library.now (looked ++ word.now ∷ []))) }
{
    match library.get(word.as_str()) {
        Some(contract) => put_names(alloc, names, contract.children(), word),
        None => Ok(()),
    }
}

/// For each name of a child of the contracts of words the first word whose contract has one.
fn words_by_name(
    alloc: Global,
    library: &Library,
    words: &Words,
) -> Result<BTreeMap<String, Text>, AllocError>
    ensures { IfOk result (λ names. AreWords library.now (get_by_text names) (named_by library.now words.now)) }
{
    let mut names = BTreeMap::new(alloc);
    for word in words.as_slice() {
        put_names_of(alloc, library, &mut names, word)?;
    }
    Ok(names)
}

/// What is told in place of words, where these are two or more. An error only for want of memory.
pub fn tell(
    alloc: Global,
    library: &Library,
    words: Option<&Words>,
) -> Result<Option<Tellers>, AllocError>
    ensures { IfOk result (λ told. TellsIn library.now told (option_copied words.entry)) }
{
    match telling(alloc, library, words)? {
        Some(all) => {
            let told = Tellers::of(alloc, library, all)?;
            Ok(Some(told))
        }
        None => Ok(None),
    }
}
