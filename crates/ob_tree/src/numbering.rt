//! The numbers of children by their names, for objects that have many.
ghost use Rattle.std.specs.Prelude.{◌≡◌, ◌<◌, cond, length, List, ℕ, Some, None, IfOk, OnOk};
ghost use Rattle.std.specs.BTreeMap.{get_by_text};
ghost use Rattle.ob_object.specs.WellFormed.{has_name};
ghost use Rattle.ob_contracts.specs.Inherit.{or_else};
ghost use Rattle.ob_tree.specs.Laid.{object_of, said};
ghost use Rattle.ob_tree.specs.Shown.{AreLaid};
ghost use Rattle.ob_tree.specs.Children.{AreNumbered, child_at};

use crate::laying::{is_known, put_place};
use crate::shown::{head_in, spot_in};
use crate::spot::Spot;
use ob_object::{Attributes, Obj};
use std::alloc::{AllocError, Global};
use std::collections::BTreeMap;

/// Puts the number of a child for its name, if that has none.
fn put_number(
    alloc: Global,
    numbers: &mut BTreeMap<String, usize>,
    head: &Attributes,
    number: usize,
) -> Result<(), AllocError>
    ensures { OnOk result ((n : List ℕ) → get_by_text numbers.new n ≡ or_else (get_by_text numbers.old n) (cond (has_name n head.now.name) (Some number) None)) }
{
    let Some(name) = head.name() else {
        return Ok(());
    };
    if is_known(numbers, name) {
        return Ok(());
    }
    put_place(alloc, numbers, name, number)
}

/// The numbers of the children of an object, by their names.
fn numbers_of(
    alloc: Global,
    leaves: &[Obj],
    spots: &[Spot],
    at: usize,
) -> Result<BTreeMap<String, usize>, AllocError>
    requires laid { AreLaid (said leaves.now) spots.now }
    requires within { at < length leaves.now }
    ensures { IfOk result (λ numbers. (name : List ℕ) → get_by_text numbers name ≡ child_at at name (object_of (said leaves.now) spots.now)) }
{
    let spot = spot_in(spots, at);
    let mut numbers = BTreeMap::new(alloc);
    let mut next = at + 1;
    for place in 0..spot.len {
        let head = head_in(leaves, next);
        put_number(alloc, &mut numbers, head, next)?;
        let behind = spot_in(spots, next);
        next = behind.end;
    }
    Ok(numbers)
}

/// Puts those of an object that has more than eight children.
fn put_numbers(
    alloc: Global,
    all: &mut BTreeMap<u64, BTreeMap<String, usize>>,
    leaves: &[Obj],
    spots: &[Spot],
    at: usize,
) -> Result<(), AllocError>
    requires laid { AreLaid (said leaves.now) spots.now }
    requires within { at < length leaves.now }
    ensures { OnOk result (AreNumbered (object_of (said leaves.now) spots.now) all.old → AreNumbered (object_of (said leaves.now) spots.now) all.new) }
{
    let spot = spot_in(spots, at);
    if spot.len <= 8 {
        return Ok(());
    }
    let numbers = numbers_of(alloc, leaves, spots, at)?;
    all.insert(at as u64, numbers)?;
    Ok(())
}

/// Those of each object that has more than eight, by its own number.
pub(crate) fn all_numbers(
    alloc: Global,
    leaves: &[Obj],
    spots: &[Spot],
) -> Result<BTreeMap<u64, BTreeMap<String, usize>>, AllocError>
    requires { AreLaid (said leaves.now) spots.now }
    ensures { IfOk result (AreNumbered (object_of (said leaves.now) spots.now)) }
{
    let mut all = BTreeMap::new(alloc);
    for at in 0..leaves.len() {
        put_numbers(alloc, &mut all, leaves, spots, at)?;
    }
    Ok(all)
}
