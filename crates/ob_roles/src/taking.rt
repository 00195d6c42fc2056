//! What an object takes from, in contracts whose parts have their words as `is`.
ghost use Rattle.std.specs.Prelude.{◌≡◌, ◌++◌, ◌∷◌, [], map, IfOk};
ghost use Rattle.std.specs.Option.{option_copied};
ghost use Rattle.ob_contracts.specs.Ancestry.{own_words};
ghost use Rattle.ob_contracts.specs.Found.{lent};
ghost use Rattle.ob_contracts.specs.Inherit.{Contracts, present, contract_of, implied_by, inherited_head, first_given};
ghost use Rattle.ob_roles.specs.Summed.{given_from, taken_from};
ghost use Rattle.ob_roles.specs.Tables.{Holds};

use ob_object::{Attributes, Obj, Words};
use ob_values::Text;
use std::alloc::{AllocError, Global};
use std::collections::BTreeMap;

/// Contracts by their words.
pub type Table = BTreeMap<Text, Obj>;

/// The first object of each name.
pub(crate) type Names<'a> = BTreeMap<&'a str, &'a Obj>;

/// An object's words: its own, or else those that its list or feed gives, or else those of the child that it
/// overrides.
pub fn own_words<'a>(
    head: &'a Attributes,
    implied: Option<&'a Words>,
    over: Option<&'a Obj>,
) -> Option<&'a Words>
    ensures { option_copied result ≡ own_words head.now (option_copied implied.entry) (option_copied over.entry) }
{
    match head.is() {
        Some(words) => Some(words),
        None => match implied {
            Some(words) => Some(words),
            None => match over {
                Some(over) => over.is(),
                None => None,
            },
        },
    }
}

// Puts the contract of a word last, if it names one.
fn put_found<'a>(from: &mut Vec<&'a Obj>, table: &'a Table, word: &Text) -> Result<(), AllocError>
    ensures { IfOk result (λ _. (lib : Contracts) → Holds table.now lib → lent from.new.items ≡ lent from.old.items ++ present (contract_of lib word.now ∷ [])) }
{
    match table.get(word) {
        Some(contract) => {
            from.push(contract)?;
            Ok(())
        }
        None => Ok(()),
    }
}

// Puts the child that is overridden last, if there is one.
fn put_over<'a>(from: &mut Vec<&'a Obj>, over: Option<&'a Obj>) -> Result<(), AllocError>
    ensures { IfOk result (λ _. lent from.new.items ≡ lent from.old.items ++ present (option_copied over.entry ∷ [])) }
{
    match over {
        Some(over) => {
            from.push(over)?;
            Ok(())
        }
        None => Ok(()),
    }
}

/// The contracts that words name.
pub(crate) fn contracts_of<'a>(
    alloc: Global,
    table: &'a Table,
    words: &[Text],
) -> Result<Vec<&'a Obj>, AllocError>
    ensures { IfOk result (λ from. (lib : Contracts) → Holds table.now lib → lent from.items ≡ present (map (contract_of lib) words.now)) }
{
    let mut from = Vec::new(alloc);
    for word in words {
        put_found(&mut from, table, word)?;
    }
    Ok(from)
}

// What an object takes from where it overrides no child: the contracts of its own words, or else what its list or feed
// gives it.
fn given_from<'a>(
    alloc: Global,
    table: &'a Table,
    head: &Attributes,
    list: Option<&'a Obj>,
) -> Result<Vec<&'a Obj>, AllocError>
    ensures { IfOk result (λ from. (lib : Contracts) → Holds table.now lib → lent from.items ≡ given_from lib head.now.is (option_copied list.entry)) }
{
    if let Some(words) = head.is() {
        let from = contracts_of(alloc, table, words.as_slice())?;
        return Ok(from);
    }
    let mut from = Vec::new(alloc);
    put_over(&mut from, list)?;
    Ok(from)
}

/// What an object takes from: what its own words stand for, or else the object that its list or feed gives it in place of
/// the contracts of many words, and the child that it overrides.
pub(crate) fn sources<'a>(
    alloc: Global,
    table: &'a Table,
    head: &Attributes,
    list: Option<&'a Obj>,
    over: Option<&'a Obj>,
) -> Result<Vec<&'a Obj>, AllocError>
    ensures { IfOk result (λ from. (lib : Contracts) → Holds table.now lib → lent from.items ≡ taken_from lib head.now (option_copied list.entry) (option_copied over.entry)) }
{
    if head.kind().is_ref() {
        return Ok(Vec::new(alloc));
    }
    let mut from = given_from(alloc, table, head, list)?;
    put_over(&mut from, over)?;
    Ok(from)
}

/// The words that the first of sources gives to its children.
pub(crate) fn first_of<'a>(from: &[&'a Obj]) -> Option<&'a Words>
    ensures { option_copied result ≡ first_given (λ s. s.head.of) (lent from.now) }
{
    for source in from {
        let words = source.of();
        if words.is_some() {
            return words;
        }
    }
    None
}

/// The words that the children of an object get, where it is a list or a feed: its own, or else those of the first
/// source that has them.
#[tactic(auto, using(crate::proofs::Taken::implied_is))]
pub fn implied_by<'a>(head: &'a Attributes, from: &[&'a Obj]) -> Option<&'a Words>
    ensures { option_copied result ≡ implied_by (inherited_head head.now (lent from.now)) }
{
    if !head.kind().has_of() {
        return None;
    }
    match head.of() {
        Some(words) => Some(words),
        None => first_of(from),
    }
}
