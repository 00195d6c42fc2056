//! Whether a value may be put to what is shown at a path.
ghost use Rattle.std.specs.Prelude.{◌≡◌, not, is_some, IfOk};
ghost use Rattle.ob_points.specs.Points.{suits, passes};

use crate::stopping::target_at;
use crate::value::held_fault;
use ob_contracts::Steps;
use ob_object::Obj;
use ob_site_reads::shown_at;
use ob_site_rules::Fault;
use ob_site_state::State;
use ob_values::{Text, Value};
use std::alloc::AllocError;
use std::sync::ledger::Ledger;

/// Whether no fault was found.
fn is_nothing(fault: Option<Fault>) -> bool
    ensures { result ≡ not (is_some (fault)) }
{
    match fault {
        Some(_) => false,
        None => true,
    }
}

/// Whether nothing is wrong with a value for an object. An error only for want of memory.
fn suits<L: Ledger>(
    state: &State,
    object: &Obj,
    value: &Value,
    steps: &mut Steps<L>,
) -> Result<bool, AllocError>
    ensures { IfOk result (λ yes. yes ≡ suits state.now.plan state.now.now value.now object.now) }
{
    let fault = held_fault(state, object, value, steps)?;
    Ok(is_nothing(fault))
}

/// Whether nothing is wrong with a value for what is shown at a path; where nothing is shown, something is.
fn shown_suits<L: Ledger>(
    state: &State,
    path: &Text,
    value: &Value,
    steps: &mut Steps<L>,
) -> Result<bool, AllocError>
    ensures { IfOk result (λ yes. yes ≡ passes state.now.plan state.now.now path.now value.now) }
{
    match shown_at(state, path, steps)? {
        Some(object) => suits(state, &object, value, steps),
        None => Ok(false),
    }
}

/// Whether the tests of a Put on a value let it through to what is shown at a path: its kind, a text too long, below min,
/// above max, not in range. Where nothing is shown, none is let through. Of an own node nothing is shown for it. An error
/// only for want of memory.
pub fn passes<L: Ledger>(
    state: &State,
    path: &Text,
    value: &Value,
    steps: &mut Steps<L>,
) -> Result<bool, AllocError>
    ensures { IfOk result (λ yes. yes ≡ passes state.now.plan state.now.now path.now value.now) }
{
    match target_at(state, path, steps)? {
        Some(target) => suits(state, &target, value, steps),
        None => shown_suits(state, path, value, steps),
    }
}
