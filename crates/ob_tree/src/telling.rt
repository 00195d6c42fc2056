//! Words that are told for those which the objects of a tree name and give, found by one walk from the root down.
ghost use Rattle.std.specs.Prelude.{◌≡◌, ◌<◌, length, Some, IfOk, OnOk};
ghost use Rattle.std.specs.Ordering.{nat_cmp};
ghost use Rattle.std.specs.BTreeMap.{get};
ghost use Rattle.ob_object.specs.Object.{Object};
ghost use Rattle.ob_contracts.specs.Inherit.{Contracts};
ghost use Rattle.ob_contracts.specs.Tellers.{TellsIn};
ghost use Rattle.ob_tree.specs.Contexts.{HandedDown};
ghost use Rattle.ob_tree.specs.Standings.{Hands, MayStand, context};
ghost use Rattle.ob_tree.specs.Laid.{object_of, said};
ghost use Rattle.ob_tree.specs.Shown.{standing_at, AreLaid};
ghost use Rattle.ob_tree.specs.Told.{IsToldAt, AreToldBy};

use crate::shown::{leaf_in, spot_in};
use crate::spot::Spot;
use crate::{Handed, Instead, Standing};
use ob_contracts::{Library, Tellers, tell};
use ob_object::Obj;
use std::alloc::{AllocError, Global};
use std::collections::BTreeMap;

/// The objects of a tree, each without its children, and where they stand.
#[derive(Clone, Copy)]
pub(crate) struct Arena<'a> {
    pub(crate) leaves: &'a [Obj],
    pub(crate) spots: &'a [Spot],
}

/// Puts the words for the object of a number, if any are told.
pub(crate) fn put_words(
    words: &mut BTreeMap<u64, Instead>,
    at: usize,
    told: Instead,
) -> Result<(), AllocError>
    ensures { OnOk result ((lib : Contracts) (o : Object) → IsToldAt lib o at (Some told) → AreToldBy lib o (get nat_cmp words.old) → AreToldBy lib o (get nat_cmp words.new)) }
{
    if told.is.is_none() && told.items.is_none() {
        return Ok(());
    }
    let _none = words.insert(at as u64, told)?;
    Ok(())
}

/// Whether the own `is` of an object, which may inherit by it, has more than eight words.
fn has_long_is(own: &Obj) -> bool {
    match own.is() {
        Some(words) => words.as_slice().len() > 8 && !own.kind().is_ref(),
        None => false,
    }
}

/// What is told in place of the own `is` of an object, where that is long; a short one is looked up word by word.
fn told_is(alloc: Global, library: &Library, own: &Obj) -> Result<Option<Tellers>, AllocError>
    ensures { IfOk result (λ told. TellsIn library.now told own.now.head.is) }
{
    if has_long_is(own) {
        tell(alloc, library, own.is())
    } else {
        Ok(None)
    }
}

/// Whether one of some children takes the words that the object round it gives, where that is told of those before this one.
fn takes(before: bool, child: &Obj) -> bool {
    before || (child.is().is_none() && !child.kind().is_ref())
}

/// What is told in place of the words that an object gives to its children, where one of them takes these: it shows, or has
/// itself, a child of each name that is kept.
fn told_items(handed: Handed<'_>, taken: bool) -> Option<Tellers>
    ensures { (r : HandedDown) → Hands r handed.entry → TellsIn r.library result r.implied }
{
    if taken {
        return handed.into_told();
    }
    None
}

/// What is told anew for an object that stands so: in place of its own `is`, and where it gives words in place of these.
pub(crate) fn told_again<'a>(
    alloc: Global,
    standing: Standing<'a>,
    own: &'a Obj,
    gives: bool,
) -> Result<Instead, AllocError>
    ensures { IfOk result (λ told. MayStand (context standing.entry) own.now.head (Some told)) }
{
    let is = told_is(alloc, standing.library, own)?;
    if !gives {
        return Ok(Instead { is, items: None });
    }
    let handed = standing.hand_down(alloc, own, is.as_ref())?;
    let items = handed.into_told();
    Ok(Instead { is, items })
}

/// Puts the words for the object of a number, which stands so, and for all in it: its sources are looked up once for all
/// of its children.
pub(crate) fn put_told<'a>(
    alloc: Global,
    words: &mut BTreeMap<u64, Instead>,
    arena: Arena<'a>,
    at: usize,
    standing: Standing<'a>,
) -> Result<(), AllocError>
    requires laid { AreLaid (said arena.leaves.now) arena.spots.now }
    requires within { at < length arena.leaves.now }
    requires stands { Some (context standing) ≡ standing_at standing.library.now at (object_of (said arena.leaves.now) arena.spots.now) }
    ensures { OnOk result (AreToldBy standing.entry.library.now (object_of (said arena.entry.leaves.now) arena.entry.spots.now) (get nat_cmp words.old)
        → AreToldBy standing.entry.library.now (object_of (said arena.entry.leaves.now) arena.entry.spots.now) (get nat_cmp words.new)) }
{
    let spot = spot_in(arena.spots, at);
    let own = leaf_in(arena.leaves, at);
    let told = told_is(alloc, standing.library, own)?;
    if spot.len == 0 {
        return put_words(
            words,
            at,
            Instead {
                is: told,
                items: None,
            },
        );
    }
    let handed = standing.hand_down(alloc, own, told.as_ref())?;
    let mut next = at + 1;
    let mut taken = false;
    for place in 0..spot.len {
        let child = leaf_in(arena.leaves, next);
        taken = takes(taken, child);
        let inside = handed.inside(child.name());
        put_told(alloc, words, arena, next, inside)?;
        let behind = spot_in(arena.spots, next);
        next = behind.end;
    }
    let items = told_items(handed, taken);
    put_words(words, at, Instead { is: told, items })
}
