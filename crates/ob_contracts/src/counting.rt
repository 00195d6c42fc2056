//! How many parts an object comes to, counted up to a limit without building it.
ghost use Rattle.std.specs.Prelude.{◌≡◌, ◌+◌, ◌-◌, false, nat_lt, None, IfOk};
ghost use Rattle.ob_object.specs.Object.{parts};
ghost use Rattle.ob_contracts.specs.Inherit.{result_of};
ghost use Rattle.ob_contracts.specs.Shown.{shown_as};

use crate::fewer::told_by;
use crate::library::Library;
use crate::reading::View;
use crate::steps::Steps;
use ob_object::Obj;
use std::alloc::{AllocError, Global};
use std::sync::ledger::Ledger;

// The most parts of a contract.
const MOST: u64 = 512;

/// What is left of a limit behind an object.
fn left_behind(object: &Obj, most: u64) -> u64
    ensures { result ≡ most - parts object.now }
{
    most.saturating_sub(object.parts())
}

/// What is left of a limit behind the parts that a view shows. Nothing is looked at behind the child with which nothing
/// is left.
fn left_after(alloc: Global, view: &View, most: u64) -> Result<u64, AllocError>
    ensures { IfOk result (λ left. left ≡ most - parts (shown_as false view.now)) }
{
    if view.as_it_stands {
        return Ok(left_behind(view.own, most));
    }
    let told = view.told_words(alloc)?;
    let views = (&*view).children(alloc, told_by(&told, (&*view).implied_by()))?;
    let mut left = most.saturating_sub(1);
    for below in &views {
        left = left_after(alloc, below, left)?;
        if left == 0 {
            return Ok(0);
        }
    }
    Ok(left)
}

/// Whether a contract comes to more parts than a library takes. It counts one step.
pub(crate) fn is_large<'x, L: Ledger>(
    library: &'x Library,
    contract: &'x Obj,
    steps: &mut Steps<L>,
) -> Result<bool, AllocError>
    ensures large { IfOk result (λ large. large ≡ nat_lt 512 (parts (result_of library.now contract.now None None))) }
    ensures steps { steps.new ≡ steps.old + 1 }
{
    let view = View::new(library, contract, None, None, steps);
    let left = left_after(library.allocator(), &view, MOST + 1)?;
    let parts = (MOST + 1).saturating_sub(left);
    Ok(parts > MOST)
}
