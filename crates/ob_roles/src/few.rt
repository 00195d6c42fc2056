//! Few words in place of many, which tell the same of what roles ask for.
ghost use Rattle.std.specs.Prelude.{◌≡◌, ℕ, ◌++◌, ◌∷◌, [], Option, Some, None, cond, option_map, slice_get, IfOk, IfSome, IsTrue, OnOk};
ghost use Rattle.std.specs.List.{list_all};
ghost use Rattle.std.specs.Option.{option_copied};
ghost use Rattle.ob_object.specs.Object.{Object, children};
ghost use Rattle.ob_object.specs.Words.{is_word};
ghost use Rattle.ob_contracts.specs.Ancestry.{own_words};
ghost use Rattle.ob_contracts.specs.Inherit.{Contracts, Words, or_else, present};
ghost use Rattle.ob_roles.specs.Few.{few_words, brief, AreFirst};
ghost use Rattle.ob_roles.specs.Kinds.{Are, Tells};

use crate::ancestors::Ancestors;
use crate::kinds::{Known, word_is};
use crate::taking::own_words;
use ob_object::{Attributes, Obj, Words};
use ob_values::Text;
use std::alloc::{AllocError, Global};

/// Of each contract that roles ask for, the first of some words that is one.
#[derive(Clone, Copy)]
struct Firsts<'a> {
    lobby: Option<&'a Text>,
    point: Option<&'a Text>,
    history: Option<&'a Text>,
    subject: Option<&'a Text>,
}

// The first that there is, or else this word, where it is one.
fn first_or<'a>(first: Option<&'a Text>, is: bool, word: &'a Text) -> Option<&'a Text>
    ensures { option_copied result ≡ or_else (option_copied first.entry) (cond is (Some word.now) None) }
{
    match first {
        Some(first) => Some(first),
        None => if is { Some(word) } else { None },
    }
}

// The first of words and of one more.
fn with_word<'a>(firsts: Firsts<'a>, is: Ancestors, word: &'a Text) -> Firsts<'a>
    ensures { (lib : Contracts) (ws : Words) → AreFirst firsts.entry lib ws → Are is lib (word.now ∷ []) → AreFirst result lib (ws ++ word.now ∷ []) }
{
    Firsts {
        lobby: first_or(firsts.lobby, is.lobby, word),
        point: first_or(firsts.point, is.point, word),
        history: first_or(firsts.history, is.history, word),
        subject: first_or(firsts.subject, is.subject, word),
    }
}

// Of each contract that roles ask for, the first of words that is one.
fn firsts_of<'a>(known: &Known, words: &'a [Text]) -> Firsts<'a>
    ensures { (lib : Contracts) → Tells known.now lib → AreFirst result lib words.now }
{
    let mut firsts = Firsts {
        lobby: None,
        point: None,
        history: None,
        subject: None,
    };
    for word in words {
        firsts = with_word(firsts, word_is(known, word), word);
    }
    firsts
}

// Puts a copy of a word last, if there is one. It is a word, so that it isn't taken only for want of memory.
fn put_first(few: &mut Words, word: Option<&Text>) -> Result<(), AllocError>
    ensures { OnOk result (few.new ≡ few.old ++ present (option_copied word.entry ∷ [])) }
{
    let Some(word) = word else {
        return Ok(());
    };
    let word = word.copy()?;
    match few.push(word) {
        Ok(()) => Ok(()),
        Err(_) => Err(AllocError),
    }
}

/// A copy of words, if there are any.
pub(crate) fn copied(words: Option<&Words>) -> Result<Option<Words>, AllocError>
    ensures same { IfOk result (λ copy. copy ≡ option_copied words.entry) }
    ensures words { IfOk result (λ copy. IfSome copy (λ ws. IsTrue (list_all is_word ws))) }
{
    match words {
        Some(words) => {
            let copy = words.copy()?;
            let _words = copy.as_slice();
            Ok(Some(copy))
        }
        None => Ok(None),
    }
}

// Few of these words.
fn few_of(alloc: Global, known: &Known, words: &Words) -> Result<Words, AllocError>
    ensures { IfOk result (λ few. (lib : Contracts) → Tells known.now lib → few ≡ few_words lib words.now) }
{
    let firsts = firsts_of(known, words.as_slice());
    let mut few = Words::new(alloc);
    put_first(&mut few, firsts.lobby)?;
    put_first(&mut few, firsts.point)?;
    put_first(&mut few, firsts.history)?;
    put_first(&mut few, firsts.subject)?;
    Ok(few)
}

/// Few of these words, if there are any.
pub(crate) fn few_if(
    alloc: Global,
    known: &Known,
    words: Option<&Words>,
) -> Result<Option<Words>, AllocError>
    ensures { IfOk result (λ few. (lib : Contracts) → Tells known.now lib → few ≡ option_map (few_words lib) (option_copied words.entry)) }
{
    match words {
        Some(words) => {
            let few = few_of(alloc, known, words)?;
            Ok(Some(few))
        }
        None => Ok(None),
    }
}

/// Few of the words that an object gives to its children. Where it has no child none are looked up.
pub(crate) fn few_given(
    alloc: Global,
    known: &Known,
    object: &Obj,
    gives: Option<&Words>,
) -> Result<Option<Words>, AllocError>
    ensures { IfOk result (λ few. (lib : Contracts) (place : ℕ) (child : Object) → Some child ≡ slice_get (children object.now) place → Tells known.now lib
        → few ≡ option_map (few_words lib) (option_copied gives.entry)) }
{
    if object.children().is_empty() {
        return Ok(None);
    }
    let few = few_if(alloc, known, gives)?;
    Ok(few)
}

/// Few of an object's own words, or else the few that its list or feed gives, or else the few of the child that it
/// overrides.
pub(crate) fn few_own<'a>(
    alloc: Global,
    known: &Known,
    head: &'a Attributes,
    given: Option<&'a Words>,
    over: Option<&'a Obj>,
) -> Result<Option<Words>, AllocError>
    ensures { IfOk result (λ few. (lib : Contracts) (implied : Option Words) (o : Option Object) → Tells known.now lib
        → option_copied given.entry ≡ option_map (few_words lib) implied → option_copied over.entry ≡ option_map (brief lib) o
        → few ≡ option_map (few_words lib) (own_words head.now implied o)) }
{
    let own = head.is();
    if own.is_some() {
        let few = few_if(alloc, known, own)?;
        return Ok(few);
    }
    let few = copied(own_words(head, given, over))?;
    Ok(few)
}
