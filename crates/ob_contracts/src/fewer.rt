//! The words of a list that tell its items something which no earlier word does.
ghost use Rattle.std.specs.Prelude.{◌≡◌, ◌||◌, ◌++◌, ◌∷◌, [], cond, true, false, List, ℕ, Some, IfOk, OnOk, IsTrue};
ghost use Rattle.std.specs.Option.{option_copied};
ghost use Rattle.ob_object.specs.Object.{Object, children};
ghost use Rattle.ob_object.specs.WellFormed.{has_name};
ghost use Rattle.ob_object.specs.Words.{is_word};
ghost use Rattle.ob_contracts.specs.Found.{lent};
ghost use Rattle.ob_contracts.specs.Inherit.{or_else};
ghost use Rattle.ob_contracts.specs.Telling.{TellTheSame, StandFor, StandIn, Knows, IsPut, IsTelling, ArePut, tells_part, has_one, has_text, head_parts};

use crate::library::Library;
use crate::reading::{Part, has_part};
use ob_object::{Kind, Obj, Words};
use ob_values::Text;
use std::alloc::{AllocError, Global};
use std::collections::BTreeSet;

/// What sources have told: those that told a part of a head, and the names of the children of all.
#[derive(Drop)]
struct Known<'a> {
    heads: Vec<&'a Obj>,
    names: BTreeSet<&'a str>,
}

/// The parts of a head that may be taken from a source.
fn head_parts() -> &'static [Part<'static>]
    ensures { result.now ≡ head_parts }
{
    &[
        Part::Of,
        Part::Input,
        Part::Output,
        Part::Slot,
        Part::Display,
        Part::DisplayName,
        Part::Icon,
        Part::Min,
        Part::Max,
        Part::Precision,
        Part::Range,
        Part::Status,
        Part::Tz,
        Part::Unit,
        Part::Writable,
    ]
}

/// Whether one of these is of a kind and has a part.
fn has_one(heads: &[&Obj], kind: Kind, part: &Part) -> bool
    ensures { result ≡ has_one (lent heads.now) kind part.now }
{
    for head in heads {
        if head.kind().same(kind) && has_part(head, part) {
            return true;
        }
    }
    false
}

/// Whether a source has a part of a head that none of these of its kind has. At most one for each part and kind is kept,
/// so these are few.
fn tells_part(heads: &[&Obj], source: &Obj) -> bool
    ensures { result ≡ tells_part (lent heads.now) source.now }
{
    for part in head_parts() {
        if has_part(source, part) && !has_one(heads, source.kind(), part) {
            return true;
        }
    }
    false
}

pub(crate) fn or(one: bool, other: bool) -> bool
    ensures { result ≡ (one || other) }
{
    one || other
}

/// Puts the name of a child, if it has one, and tells whether it is new.
fn put_name<'a>(known: &mut BTreeSet<&'a str>, child: &'a Obj) -> Result<bool, AllocError>
    ensures names { IfOk result (λ new. (n : List ℕ) → has_text known.new n ≡ (has_text known.old n || has_name n child.now.head.name)) }
    ensures none { IfOk result (λ new. new ≡ false → (n : List ℕ) → has_name n child.now.head.name ≡ true → has_text known.old n ≡ true) }
{
    let Some(name) = child.name() else {
        return Ok(false);
    };
    let new = known.insert(name.as_str())?;
    Ok(new)
}

/// Puts the names of the children of a source, and tells whether one of them is new.
fn put_names<'a>(known: &mut BTreeSet<&'a str>, source: &'a Obj) -> Result<bool, AllocError>
    ensures { IfOk result (λ new. ArePut known.old known.new (children source.now) new) }
{
    let mut new = false;
    for child in source.children() {
        let one = put_name(known, child)?;
        new = or(new, one);
    }
    Ok(new)
}

/// Puts a source last, if it has a part of a head that none of these of its kind has, and tells whether it has.
pub(crate) fn put_head<'a>(heads: &mut Vec<&'a Obj>, source: &'a Obj) -> Result<bool, AllocError>
    ensures { IfOk result (λ new. (new ≡ tells_part (lent heads.old.items) source.now) × (lent heads.new.items ≡ lent heads.old.items ++ cond new (source.now ∷ []) [])) }
{
    if tells_part(heads.as_slice(), source) {
        heads.push(source)?;
        return Ok(true);
    }
    Ok(false)
}

/// Puts what a source tells, and tells whether some of it is new.
fn put_source<'a>(known: &mut Known<'a>, source: &'a Obj) -> Result<bool, AllocError>
    ensures { IfOk result (λ new. (P : List Object) → Knows known.old P → IsPut known.new P source.now new) }
{
    let tells = put_head(&mut known.heads, source)?;
    let names = put_names(&mut known.names, source)?;
    Ok(or(tells, names))
}

/// Puts a copy of a word last.
pub(crate) fn put_word(words: &mut Words, word: &Text) -> Result<(), AllocError>
    requires { IsTrue (is_word word.now) }
    ensures { OnOk result (words.new ≡ words.old ++ word.now ∷ []) }
{
    let word = word.copy()?;
    match words.push(word) {
        Ok(()) => Ok(()),
        Err(_) => Err(AllocError),
    }
}

/// Puts a word last that wasn't seen, if it names a contract that tells something new. A word that names none isn't kept
/// as seen: to look for its contract again costs less.
fn put_if_new<'a>(
    library: &'a Library,
    seen: &mut BTreeSet<&'a str>,
    known: &mut Known<'a>,
    telling: &mut Words,
    word: &'a Text,
) -> Result<(), AllocError>
    requires { IsTrue (is_word word.now) }
    ensures { OnOk result ((looked : List (List ℕ)) → IsTelling library.now telling.old looked seen.old known.old → IsTelling library.now telling.new (looked ++ word.now ∷ []) seen.new known.new) }
{
    let Some(contract) = library.get(word.as_str()) else {
        return Ok(());
    };
    let fresh = seen.insert(word.as_str())?;
    if !fresh {
        return Ok(());
    }
    let new = put_source(known, contract)?;
    if new {
        return put_word(telling, word);
    }
    Ok(())
}

/// Those of some words that name a contract which tells something that none before it does.
fn telling_words<'a>(
    alloc: Global,
    library: &'a Library,
    words: &'a Words,
) -> Result<Words, AllocError>
    ensures { IfOk result (λ telling. StandFor library.now telling words.now) }
{
    let mut seen = BTreeSet::new(alloc);
    let mut known = Known {
        heads: Vec::new(alloc),
        names: BTreeSet::new(alloc),
    };
    let mut telling = Words::new(alloc);
    for word in words.as_slice() {
        put_if_new(library, &mut seen, &mut known, &mut telling, word)?;
    }
    Ok(telling)
}

/// Words that tell the items of a list the same as its own, where those are several: each of them tells something that
/// none before it does, so that there are no more of them than the items may take. None where the list has less than two.
pub fn telling<'a>(
    alloc: Global,
    library: &'a Library,
    words: Option<&'a Words>,
) -> Result<Option<Words>, AllocError>
    ensures stand { IfOk result (λ told. StandIn library.now told (option_copied words.entry)) }
    ensures same { IfOk result (λ told. TellTheSame library.now (or_else told (option_copied words.entry)) (option_copied words.entry)) }
{
    let Some(words) = words else {
        return Ok(None);
    };
    if words.as_slice().len() < 2 {
        return Ok(None);
    }
    let telling = telling_words(alloc, library, words)?;
    Ok(Some(telling))
}

/// The words that tell the same, or else the list's own.
pub fn told_by<'a>(told: &'a Option<Words>, words: Option<&'a Words>) -> Option<&'a Words>
    ensures { option_copied result ≡ or_else told.now (option_copied words.entry) }
{
    match told {
        Some(told) => Some(told),
        None => words,
    }
}
