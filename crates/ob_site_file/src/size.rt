//! How many parts the shown root has, counted up to a limit without building it.
ghost use Rattle.std.specs.Prelude.{◌≡◌, ◌+◌, ◌-◌, ◌<◌, ◌++◌, ◌∷◌, ◌||◌, [], List, ℕ, Some, cond, map, min, nat_lt, filter, IfOk};
ghost use Rattle.std.specs.Option.{option_copied};
ghost use Rattle.ob_object.specs.Object.{Object, children, count, in_row, listed, parts};
ghost use Rattle.ob_object.specs.WellFormed.{has_name};
ghost use Rattle.ob_object.specs.Paths.{node_path};
ghost use Rattle.ob_contracts.specs.Found.{found, lent};
ghost use Rattle.ob_contracts.specs.Inherit.{contract_of, present, sources, overridden, missing, is_new, or_else, words_in, result_of};
ghost use Rattle.ob_contracts.specs.Telling.{TellTheSame};
ghost use Rattle.ob_site_rules.specs.Shown.{derived, with_roles, shown_root};
ghost use Rattle.ob_site_rules.specs.declared.plan.Plan.{Plan};
ghost use Rattle.ob_site_rules.specs.State.{State as SiteState};
ghost use Rattle.ob_site_file.specs.Sizes.{has_text, HasNames, is_fresh, IsCounting, dressed_at, stood, row_count};

use crate::derived::{Counting, Derived, Texts, derived_children};
use ob_contracts::{Library, telling, told_by};
use ob_object::{Attributes, Obj, Words};
use ob_roles::{Names, find_over, implied_by, names_in};
use ob_values::Text;
use std::alloc::{AllocError, Global};
use std::collections::BTreeSet;

/// The most parts that a shown root has.
const MOST: u64 = 200_000;

// What is left of a limit behind the parts of an object, if it has a name that isn't there yet. The name is then there.
fn left_after_new<'a>(there: &mut Texts<'a>, object: &'a Obj, left: u64) -> Result<u64, AllocError>
    ensures left { IfOk result (λ n. n ≡ left - cond (is_fresh there.old object.now.head.name) (parts object.now) 0) }
    ensures there { IfOk result (λ _. (n : List ℕ) → has_text there.new n ≡ (has_text there.old n || has_name n object.now.head.name)) }
{
    let Some(name) = object.name() else {
        return Ok(left);
    };
    let fresh = there.insert(name.as_str())?;
    if fresh {
        Ok(left.saturating_sub(object.parts()))
    } else {
        Ok(left)
    }
}

// What is left of a limit behind the named children of a source whose names aren't there. They are then there.
fn left_after_source<'a>(
    there: &mut Texts<'a>,
    source: &'a Obj,
    most: u64,
) -> Result<u64, AllocError>
    ensures left { IfOk result (λ n. (before : List Object) → HasNames there.old before → n ≡ most - count (in_row (filter (is_new before) (children source.now)))) }
    ensures there { IfOk result (λ _. (before : List Object) → HasNames there.old before → HasNames there.new (before ++ children source.now)) }
{
    let mut left = most;
    for child in source.children() {
        left = left_after_new(there, child, left)?;
    }
    Ok(left)
}

// What is left of a limit behind the children that are inherited.
fn left_after_missing<'a>(
    there: &mut Texts<'a>,
    from: &[&'a Obj],
    most: u64,
) -> Result<u64, AllocError>
    ensures { IfOk result (λ n. (before : List Object) → HasNames there.old before → n ≡ most - count (in_row (missing before (lent from.now)))) }
{
    let mut left = most;
    for source in from {
        left = left_after_source(there, source, left)?;
        if left == 0 {
            return Ok(0);
        }
    }
    Ok(left)
}

// Puts the contract of a word last, if it names one.
fn put_found<'a>(
    from: &mut Vec<&'a Obj>,
    library: &'a Library,
    word: &Text,
) -> Result<(), AllocError>
    ensures { IfOk result (λ _. lent from.new.items ≡ lent from.old.items ++ present (contract_of library.now word.now ∷ [])) }
{
    match library.get(word.as_str()) {
        Some(contract) => {
            from.push(contract)?;
            Ok(())
        }
        None => Ok(()),
    }
}

// Puts the child that is overridden last, if there is one.
fn put_over<'a>(from: &mut Vec<&'a Obj>, over: Option<&'a Obj>) -> Result<(), AllocError>
    ensures { IfOk result (λ _. lent from.new.items ≡ lent from.old.items ++ present (option_copied over.entry ∷ [])) }
{
    match over {
        Some(over) => {
            from.push(over)?;
            Ok(())
        }
        None => Ok(()),
    }
}

// The contracts that words name, and the child that is overridden.
fn contracts_for<'a>(
    alloc: Global,
    library: &'a Library,
    words: &[Text],
    over: Option<&'a Obj>,
) -> Result<Vec<&'a Obj>, AllocError>
    ensures { IfOk result (λ from. lent from.items ≡ present (map (contract_of library.now) words.now ++ option_copied over.entry ∷ [])) }
{
    let mut from = Vec::new(alloc);
    for word in words {
        put_found(&mut from, library, word)?;
    }
    put_over(&mut from, over)?;
    Ok(from)
}

fn words_in(words: Option<&Words>) -> &[Text]
    ensures { result.now ≡ words_in (option_copied words.entry) }
{
    match words {
        Some(words) => words.as_slice(),
        None => &[],
    }
}

// The words that name the contracts of an object.
fn words_of<'a>(head: &'a Attributes, implied: Option<&'a Words>) -> &'a [Text]
    ensures { result.now ≡ words_in (or_else head.now.is (option_copied implied.entry)) }
{
    match head.is() {
        Some(words) => words.as_slice(),
        None => words_in(implied),
    }
}

// What an object takes from: the contracts that its words name, and the child that it overrides.
fn sources<'a>(
    alloc: Global,
    library: &'a Library,
    head: &'a Attributes,
    implied: Option<&Words>,
    over: Option<&'a Obj>,
) -> Result<Vec<&'a Obj>, AllocError>
    ensures { IfOk result (λ from. lent from.items ≡ sources library.now head.now (option_copied implied.entry) (option_copied over.entry)) }
{
    if head.kind().is_ref() {
        return Ok(Vec::new(alloc));
    }
    let from = contracts_for(alloc, library, words_of(&*head, implied), over)?;
    Ok(from)
}

/// What the children of an object inherit from: the words that a list or a feed gives, the sources, and what stands under
/// their names in these.
#[derive(Clone, Copy)]
struct Above<'a, 'b> {
    library: &'a Library,
    gives: Option<&'a Words>,
    from: &'b [&'a Obj],
    names: &'b Names<'a>,
}

// The child that a derived one of a name overrides.
fn over_of<'a>(names: &Names<'a>, name: &'a str) -> Option<&'a Obj>
    ensures { (ss : List Object) → ((k : List ℕ) → found names.now k ≡ overridden (Some k) ss) → option_copied result ≡ overridden (Some name.now) ss }
{
    names.get(&name).copied()
}

// What is left of a limit behind a child that roles derive.
fn left_after_one<'a>(
    alloc: Global,
    above: &Above<'a, '_>,
    child: &Derived,
    left: u64,
) -> Result<u64, AllocError>
    ensures { IfOk result (λ n. (ss : List Object) → ((k : List ℕ) → found above.now.names.now k ≡ overridden (Some k) ss)
        → n ≡ left - parts (result_of above.now.library.now (stood child.now) (option_copied above.now.gives) (overridden (Some child.now.name.now) ss))) }
{
    if child.is_ref {
        return Ok(left.saturating_sub(1));
    }
    let over = over_of(above.names, child.name);
    let from = contracts_for(alloc, above.library, words_in(above.gives), over)?;
    let mut there = BTreeSet::new(alloc);
    let behind = left_after_missing(&mut there, from.as_slice(), left)?;
    Ok(behind.saturating_sub(1))
}

// What is left of a limit behind the children that roles derive.
fn left_after_derived<'a>(
    alloc: Global,
    above: &Above<'a, '_>,
    derived: &[Derived],
    most: u64,
) -> Result<u64, AllocError>
    ensures { IfOk result (λ n. (ss : List Object) → ((k : List ℕ) → found above.now.names.now k ≡ overridden (Some k) ss)
        → n ≡ most - row_count above.now.library.now (option_copied above.now.gives) ss (in_row (map stood derived.now))) }
{
    let mut left = most;
    for child in derived {
        left = left_after_one(alloc, above, child, left)?;
    }
    Ok(left)
}

// Puts the name of an object, if it has one.
fn put_name<'a>(there: &mut Texts<'a>, object: &'a Obj) -> Result<(), AllocError>
    ensures { IfOk result (λ _. (n : List ℕ) → has_text there.new n ≡ (has_text there.old n || has_name n object.now.head.name)) }
{
    match object.name() {
        Some(name) => {
            there.insert(name.as_str())?;
            Ok(())
        }
        None => Ok(()),
    }
}

// The names of the own children of an object.
fn own_names<'a>(alloc: Global, object: &'a Obj) -> Result<Texts<'a>, AllocError>
    ensures { IfOk result (λ set. HasNames set (children object.now)) }
{
    let mut there = BTreeSet::new(alloc);
    for child in object.children() {
        put_name(&mut there, child)?;
    }
    Ok(there)
}

// The names of the own children of an object, and of those that its roles derive.
fn names_there<'a>(
    alloc: Global,
    object: &'a Obj,
    derived: &[Derived],
) -> Result<Texts<'a>, AllocError>
    ensures { IfOk result (λ set. HasNames set (children object.now ++ map stood derived.now)) }
{
    let mut there = own_names(alloc, object)?;
    for child in derived {
        there.insert(child.name)?;
    }
    Ok(there)
}

// What is left of a limit behind the parts that the roles of an object derive, and that it inherits.
fn left_after_added<'a>(
    alloc: Global,
    counting: &Counting,
    object: &'a Obj,
    above: &Above<'a, '_>,
    most: u64,
) -> Result<u64, AllocError>
    ensures { IfOk result (λ n. (plan : Plan) (s : SiteState) (ss : List Object) → IsCounting counting.now plan s → ((k : List ℕ) → found above.now.names.now k ≡ overridden (Some k) ss)
        → n ≡ most - (row_count above.now.library.now (option_copied above.now.gives) ss (in_row (derived plan s (node_path object.now.head)))
        + count (in_row (missing (listed (with_roles plan s object.now.inner) ++ derived plan s (node_path object.now.head)) (lent above.now.from.now))))) }
{
    let derived = derived_children(alloc, counting, object.head())?;
    let left = left_after_derived(alloc, above, derived.as_slice(), most)?;
    let mut there = names_there(alloc, object, derived.as_slice())?;
    left_after_missing(&mut there, above.from, left)
}

// The words that tell the same to the own children of an object, if it has any.
fn told_if<'a>(
    alloc: Global,
    library: &'a Library,
    object: &Obj,
    gives: Option<&'a Words>,
) -> Result<Option<Words>, AllocError>
    ensures { IfOk result (λ told. TellTheSame library.now (or_else told (option_copied gives.entry)) (option_copied gives.entry)) }
{
    if object.is_empty() {
        return Ok(None);
    }
    telling(alloc, library, gives)
}

/// An own object, the words that a list or a feed round it gives, and the child of a source that it overrides.
#[derive(Clone, Copy)]
struct Placed<'a, 'w> {
    object: &'a Obj,
    implied: Option<&'w Words>,
    over: Option<&'a Obj>,
}

// What is left of a limit behind the parts that an own object shows. Nothing is looked at behind the child with which nothing
// is left.
fn left_after_shown<'a>(
    alloc: Global,
    counting: &Counting<'a>,
    placed: Placed<'a, '_>,
    most: u64,
) -> Result<u64, AllocError>
    ensures { IfOk result (λ n. (plan : Plan) (s : SiteState) → IsCounting counting.now plan s
        → n ≡ most - parts (result_of s.library (dressed_at plan s placed.entry.object.now) (option_copied placed.entry.implied) (option_copied placed.entry.over))) }
{
    let head = placed.object.head();
    let from = sources(alloc, counting.library, head, placed.implied, placed.over)?;
    let gives = implied_by(head, from.as_slice());
    let names = names_in(alloc, from.as_slice())?;
    let told = told_if(alloc, counting.library, placed.object, gives)?;
    let given = told_by(&told, gives);
    let mut left = most.saturating_sub(1);
    for child in placed.object.children() {
        let inner = Placed {
            object: child,
            implied: given,
            over: find_over(&names, child.head()),
        };
        left = left_after_shown(alloc, counting, inner, left)?;
        if left == 0 {
            return Ok(0);
        }
    }
    let above = Above {
        library: counting.library,
        gives,
        from: from.as_slice(),
        names: &names,
    };
    left_after_added(alloc, counting, placed.object, &above, left)
}

/// The number of parts that a root shows, or the limit where there are more. It takes no view and builds none of them. An error
/// only for want of memory.
fn parts_up_to<'a>(
    alloc: Global,
    counting: &Counting<'a>,
    root: &'a Obj,
    limit: u64,
) -> Result<u64, AllocError>
    ensures { IfOk result (λ n. (plan : Plan) (s : SiteState) → IsCounting counting.now plan s → s.tree ≡ root.now → n ≡ min limit (parts (shown_root plan s))) }
{
    let alone = Placed {
        object: root,
        implied: None,
        over: None,
    };
    let left = left_after_shown(alloc, counting, alone, limit)?;
    Ok(limit.saturating_sub(left))
}

/// Whether a root shows more than 200,000 parts.
pub(crate) fn is_too_large<'a>(
    alloc: Global,
    counting: &Counting<'a>,
    root: &'a Obj,
) -> Result<bool, AllocError>
    ensures { IfOk result (λ large. (plan : Plan) (s : SiteState) → IsCounting counting.now plan s → s.tree ≡ root.now → large ≡ nat_lt 200_000 (parts (shown_root plan s))) }
{
    let parts = parts_up_to(alloc, counting, root, MOST + 1)?;
    Ok(parts > MOST)
}
