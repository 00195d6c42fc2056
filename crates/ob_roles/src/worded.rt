//! Contracts with the words of their parts, so that the words of a child that another one overrides are known.
ghost use Rattle.std.specs.Prelude.{◌≡◌, ◌++◌, ◌∷◌, [], Option, None, option_map, true, IfOk, IfSome, IsTrue};
ghost use Rattle.std.specs.List.{list_all};
ghost use Rattle.std.specs.Option.{option_copied};
ghost use Rattle.ob_object.specs.Fits.{fits_head};
ghost use Rattle.ob_object.specs.Object.{Object};
ghost use Rattle.ob_object.specs.Kinds.{has_of};
ghost use Rattle.ob_object.specs.Words.{is_word};
ghost use Rattle.ob_contracts.specs.Inherit.{Contracts, Words, only_if};
ghost use Rattle.ob_site_rules.specs.Roles.{thin, worded, worded_contracts};
ghost use Rattle.ob_site_rules.specs.Opening.{standard_words};
ghost use Rattle.ob_site_rules.specs.Writes.{site_contracts};
ghost use Rattle.ob_roles.specs.Sums.{nodes_of};
ghost use Rattle.ob_roles.specs.Few.{brief, briefly, brief_contracts};
ghost use Rattle.ob_roles.specs.Kinds.{Tells};
ghost use Rattle.ob_roles.specs.Summed.{IsGivenBy};
ghost use Rattle.ob_roles.specs.Tables.{Holds, HoldsBrief};
ghost use Rattle.ob_roles.specs.Worded.{worded_at};

use crate::few::{copied, few_given, few_own};
use crate::kinds::Known;
use crate::learned::Learned;
use crate::library::standard_by;
use crate::naming::{find_over, names_in, names_of};
use crate::summed::{put_if_new, put_missing, sum_given};
use crate::taking::{Table, implied_by, sources};
use ob_object::{Facets, Head, Obj, Slot, Words, copy_text};
use ob_values::Text;
use std::alloc::{AllocError, Global};
use std::collections::BTreeMap;
use std::marker::Brand;
use std::sync::ledger::Blank;

// A copy of the words that a list or a feed gives, and none for another kind.
fn copied_if(has: bool, words: Option<&Words>) -> Result<Option<Words>, AllocError>
    ensures same { IfOk result (λ copy. copy ≡ only_if has (option_copied words.entry)) }
    ensures words { IfOk result (λ copy. IfSome copy (λ ws. IsTrue (list_all is_word ws))) }
{
    if has { copied(words) } else { Ok(None) }
}

/// A head with nothing but the kind and the name of an object, words as `is`, and the words that a list or a feed
/// gives.
fn thin_head(object: &Obj, words: Option<&Words>, gives: Option<&Words>) -> Result<Head, AllocError>
    ensures thin { IfOk result (λ head. head ≡ thin object.now.head (option_copied words.entry) (only_if (has_of object.now.head.kind) (option_copied gives.entry))) }
    ensures fits { IfOk result (λ head. IsTrue (fits_head head)) }
{
    let own = object.head();
    let name = copy_text(own.name())?;
    let is = copied(words)?;
    let of = copied_if(own.kind().has_of(), gives)?;
    Ok(Head {
        kind: own.kind(),
        name,
        href: None,
        is,
        of,
        input: None,
        output: None,
        slot: Slot::Absent,
        facets: Facets::none(),
    })
}

/// An object, and what it is given from outside.
#[derive(Clone, Copy)]
struct Placed<'a, 'w> {
    object: &'a Obj,
    /// The words that it has as `is`.
    words: Option<&'w Words>,
    /// What a list or a feed round it gives it in place of the contracts of its words.
    list: Option<&'a Obj>,
    /// The child of a source that it overrides.
    over: Option<&'a Obj>,
}

/// The result of an object that is placed, each part with few words.
fn worded<'a>(
    alloc: Global,
    learned: Learned<'a, '_>,
    placed: &Placed<'a, '_>,
) -> Result<Obj, AllocError>
    ensures { IfOk result (λ made. (whole lib : Contracts) (implied : Option Words) (o : Option Object) → Tells learned.entry.known.now whole → Holds learned.entry.table.now (brief_contracts whole lib)
        → IsGivenBy (option_copied placed.now.list) (brief_contracts whole lib) placed.now.object.now.head implied → option_copied placed.now.over ≡ option_map (brief whole) o
        → made ≡ briefly whole (option_copied placed.now.words) (worded_at lib implied o placed.now.object.now)) }
{
    let head = placed.object.head();
    let from = sources(alloc, learned.table, head, placed.list, placed.over)?;
    let gives = implied_by(head, from.as_slice());
    let sum = sum_given(alloc, learned.table, placed.object, gives)?;
    let items = sum.as_ref();
    let few = few_given(alloc, learned.known, placed.object, gives)?;
    let given = few.as_ref();
    let names = names_in(alloc, from.as_slice())?;
    let mut made = Obj::from_head(alloc, thin_head(placed.object, placed.words, gives)?)?;
    for child in placed.object.children() {
        let part = child.head();
        let over = find_over(&names, part);
        let own = few_own(alloc, learned.known, part, given, over)?;
        let below = Placed {
            object: child,
            words: own.as_ref(),
            list: items,
            over,
        };
        let inner = worded(alloc, learned, &below)?;
        put_if_new(&mut made, inner)?;
    }
    let mut there = names_of(alloc, placed.object)?;
    for source in &from {
        put_missing(&mut made, &mut there, source)?;
    }
    Ok(made)
}

// Puts a contract under its word, unless the word is there.
fn put_first(table: &mut Table, word: &Text, made: Obj) -> Result<(), AllocError>
    ensures { IfOk result (λ _. (lib : Contracts) → Holds table.old lib → Holds table.new (lib ++ (word.now, made) ∷ [])) }
{
    if !table.contains_key(word) {
        let word = word.copy()?;
        table.insert(word, made)?;
    }
    Ok(())
}

// Puts a contract under its word, with few words at each part.
fn put_contract(
    alloc: Global,
    known: &Known,
    table: &mut Table,
    word: &Text,
    object: &Obj,
) -> Result<(), AllocError>
    ensures { IfOk result (λ _. (whole lib : Contracts) → Tells known.now whole → Holds table.old (brief_contracts whole lib) → Holds table.new (brief_contracts whole (lib ++ (word.now, worded lib object.now) ∷ []))) }
{
    let learned = Learned {
        table: &*table,
        known,
    };
    let alone = Placed {
        object,
        words: object.is(),
        list: None,
        over: None,
    };
    let made = worded(alloc, learned, &alone)?;
    put_first(table, word, made)?;
    Ok(())
}

// The contracts of the standard library, with few words at each part.
fn standard_table(alloc: Global, known: &Known) -> Result<Table, AllocError>
    ensures { IfOk result (λ table. (whole : Contracts) → Tells known.now whole → Holds table (brief_contracts whole standard_words)) }
{
    let mut table = BTreeMap::new(alloc);
    let library = standard_by::<Brand>(alloc, Blank::new(1))?;
    for contract in library.contracts() {
        put_contract(alloc, known, &mut table, &contract.0, &contract.1)?;
    }
    Ok(table)
}

// Puts the contracts that are nodes among objects, with few words at each part.
fn put_nodes(
    alloc: Global,
    known: &Known,
    table: &mut Table,
    objects: &[Obj],
) -> Result<(), AllocError>
    ensures { IfOk result (λ _. (whole lib : Contracts) → Tells known.now whole → Holds table.old (brief_contracts whole lib) → Holds table.new (brief_contracts whole (worded_contracts lib (nodes_of objects.now)))) }
{
    for object in objects {
        if let Some(path) = object.head().node_path() {
            put_contract(alloc, known, table, path, object)?;
        }
    }
    Ok(())
}

/// The contracts of a site behind those of the standard library, each part with few of its words, which tell the same of
/// what roles ask for, as it is known of these contracts. An error only for want of memory.
pub fn table_of(alloc: Global, known: &Known, root: &Obj) -> Result<Table, AllocError>
    ensures { IfOk result (λ table. Tells known.now (worded_contracts standard_words (site_contracts root.now)) → HoldsBrief table (worded_contracts standard_words (site_contracts root.now))) }
{
    let mut table = standard_table(alloc, known)?;
    if let Some(contracts) = root.child("contracts") {
        put_nodes(alloc, known, &mut table, contracts.children())?;
    }
    Ok(table)
}
