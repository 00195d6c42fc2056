//! What is wrong with a write, told by the own head of the node that it is for: nothing is shown for it.
ghost use Rattle.std.specs.Prelude.{◌≡◌, None, IfOk, IfSome};
ghost use Rattle.ob_site_rules.specs.Writes.{given_by, value_fault, write_by};
ghost use Rattle.ob_site_actions.specs.Targets.{IsRefused, IsTarget};

use crate::putting::given_by;
use crate::value::value_fault;
use ob_contracts::Steps;
use ob_object::Obj;
use ob_site_reads::own_target;
use ob_site_rules::Fault;
use ob_site_state::State;
use ob_values::Text;
use std::alloc::AllocError;
use std::sync::ledger::Ledger;

/// What of the own node of a path is asked when a value is to be written to it. An error only for want of memory.
pub(crate) fn target_at<L: Ledger>(
    state: &State,
    path: &Text,
    steps: &mut Steps<L>,
) -> Result<Option<Obj>, AllocError>
    ensures { IfOk result (λ found. IfSome found (λ o. IsTarget state.now.plan state.now.now path.now o)) }
{
    own_target(state, path, steps)
}

/// What is wrong with the value that a body gives for a target.
fn body_fault<L: Ledger>(
    state: &State,
    path: &Text,
    target: &Obj,
    body: &Obj,
    steps: &mut Steps<L>,
) -> Result<Option<Fault>, AllocError>
    requires { IsTarget state.now.plan state.now.now path.now target.now }
    ensures { IfOk result (λ fault. fault ≡ value_fault state.now.plan state.now.now state.now.time path.now target.now.head (given_by state.now.now body.now)) }
{
    let given = given_by(state.allocator(), state.library(), body, steps)?;
    value_fault(state, path, target, &given, steps)
}

/// Why the write of the value that a body gives is refused by the own node of a path, told by its own head. It tells nothing
/// where no own node is there. An error only for want of memory.
pub fn write_fault<L: Ledger>(
    state: &State,
    path: &Text,
    body: &Obj,
    steps: &mut Steps<L>,
) -> Result<Option<Fault>, AllocError>
    ensures { IfOk result (λ fault. IfSome fault (λ f. IsRefused state.now.plan state.now.now path.now (λ o. write_by state.now.plan state.now.now state.now.time path.now o None body.now) f)) }
{
    match target_at(state, path, steps)? {
        Some(target) => body_fault(state, path, &target, body, steps),
        None => Ok(None),
    }
}
