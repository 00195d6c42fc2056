//! What a tree shows at an object: all that it inherits where it stands.
ghost use Rattle.std.specs.Prelude.{◌≡◌, ◌<◌, ◌+◌, length, slice_get, Some, IfOk, OnOk, false};
ghost use Rattle.std.specs.Option.{option_copied};
ghost use Rattle.ob_object.specs.Object.{children};
ghost use Rattle.ob_object.specs.WellFormed.{is_taken, with_child};
ghost use Rattle.ob_tree.specs.Standings.{context};
ghost use Rattle.ob_tree.specs.Laid.{object_of, said};
ghost use Rattle.ob_tree.specs.Depths.{depth_at};
ghost use Rattle.ob_tree.specs.Shown.{part_at, standing_at, AreLaid};
ghost use Rattle.ob_tree.specs.Told.{words_for, AreToldBy};

use crate::spot::Spot;
use crate::{Instead, Standing};
use ob_contracts::{Library, Steps};
use ob_object::{Attributes, Obj};
use std::alloc::{AllocError, Global};
use std::collections::BTreeMap;
use std::sync::ledger::Ledger;

/// A library, and the words that are looked up in it in place of those which objects name and give, by the numbers of these.
#[derive(Clone, Copy)]
pub(crate) struct Lore<'a> {
    pub(crate) library: &'a Library,
    pub(crate) told: Option<&'a BTreeMap<u64, Instead>>,
}

/// The object of a number, without its children.
pub(crate) fn leaf_in(leaves: &[Obj], place: usize) -> &Obj
    requires { place < length leaves.now }
    ensures { slice_get leaves.now place ≡ Some result.now }
{
    &leaves[place]
}

/// What the object of a number says of itself.
pub(crate) fn head_in(leaves: &[Obj], place: usize) -> &Attributes
    requires { place < length leaves.now }
    ensures { slice_get (said leaves.now) place ≡ Some result.now }
{
    leaf_in(leaves, place).head()
}

/// Where the object of a number stands.
pub(crate) fn spot_in(spots: &[Spot], place: usize) -> Spot
    requires { place < length spots.now }
    ensures { slice_get spots.now place ≡ Some result }
{
    spots[place]
}

/// The words of a number.
fn words_for<'a>(told: Option<&'a BTreeMap<u64, Instead>>, place: usize) -> Option<&'a Instead>
    ensures { option_copied result ≡ words_for told.entry place }
{
    match told {
        Some(told) => told.get(&(place as u64)),
        None => None,
    }
}

/// Where the object of a number stands among those round it, of each of which it takes a view.
pub(crate) fn standing_of<'a, L: Ledger>(
    lore: Lore<'a>,
    leaves: &'a [Obj],
    spots: &[Spot],
    at: usize,
    steps: &mut Steps<L>,
) -> Standing<'a>
    requires laid { AreLaid (said leaves.now) spots.now }
    requires within { at < length leaves.now }
    requires told { AreToldBy lore.library.now (object_of (said leaves.now) spots.now) (words_for lore.told) }
    ensures stands { Some (context result) ≡ standing_at lore.entry.library.now at (object_of (said leaves.now) spots.now) }
    ensures steps { steps.new ≡ steps.old + depth_at at (object_of (said leaves.now) spots.now) }
{
    let spot = spot_in(spots, at);
    match spot.parent {
        Some(parent) => {
            let round = standing_of(lore, leaves, spots, parent, steps);
            let own = leaf_in(leaves, parent);
            let child = leaf_in(leaves, at);
            let told = words_for(lore.told, parent);
            round.inside(own, child.name(), told, steps)
        }
        None => Standing::at_root(lore.library),
    }
}

/// Puts a child last whose name no child has.
fn put_last(made: &mut Obj, child: Obj) -> Result<(), AllocError>
    requires { is_taken child.head.name (children made.old) ≡ false }
    ensures { OnOk result (made.new ≡ with_child made.old child) }
{
    match made.push_new(child) {
        Ok(()) => Ok(()),
        Err(_) => Err(AllocError),
    }
}

/// A copy of an object with all that is in it.
pub(crate) fn grown(
    alloc: Global,
    leaves: &[Obj],
    spots: &[Spot],
    at: usize,
) -> Result<Obj, AllocError>
    requires laid { AreLaid (said leaves.now) spots.now }
    requires within { at < length leaves.now }
    ensures { IfOk result (λ made. Some made ≡ part_at at (object_of (said leaves.now) spots.now)) }
{
    let head = head_in(leaves, at).copy()?;
    let spot = spot_in(spots, at);
    let mut made = Obj::from_attributes(alloc, head);
    let mut next = at + 1;
    for place in 0..spot.len {
        let child = grown(alloc, leaves, spots, next)?;
        let behind = spot_in(spots, next);
        put_last(&mut made, child)?;
        next = behind.end;
    }
    Ok(made)
}
