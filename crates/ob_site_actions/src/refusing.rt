//! Requests that an own node refuses, and Puts to one, told by its own head.
ghost use Rattle.std.specs.Prelude.{◌≡◌, true, None, IfOk, IfErr, IfSome, MatchOption};
ghost use Rattle.std.specs.Option.{option_copied};
ghost use Rattle.ob_values.specs.declared.verb.Verb.TheVariants.{Post, Put};
ghost use Rattle.ob_site_rules.specs.Actions.{act_at};
ghost use Rattle.ob_site_rules.specs.State.{at};
ghost use Rattle.ob_site_rules.specs.declared.resource.Resource.TheVariants.{Node};
ghost use Rattle.ob_site_rules.specs.Places.{computed_places};
ghost use Rattle.ob_site_actions.specs.Targets.{IsRefused};
ghost use Rattle.ob_site_actions.specs.Refusing.{IsDoneThere, IsRefusedThere, StopsThere};

use crate::{NotDone, put_own};
use ob_contracts::Steps;
use ob_object::Obj;
use ob_site_reads::{computed_place, own_kind};
use ob_site_rules::Fault;
use ob_site_state::State;
use ob_values::{Text, Verb};
use std::alloc::AllocError;
use std::sync::ledger::Ledger;

/// Whether no computed path is this one.
fn is_free(state: &State, path: &Text) -> Result<bool, AllocError>
    ensures { IfOk result (λ free. free ≡ true → at path.now (computed_places state.now.plan state.now.now) ≡ None) }
{
    let found = computed_place(state, path)?;
    Ok(found.is_none())
}

/// Why the own node of a path refuses to be called: no node is an op that is called.
fn post_fault(state: &State, path: &Text, body: Option<&Obj>) -> Option<Fault>
    ensures { IfSome result (λ f. IsRefused state.now.plan state.now.now path.now (λ o. act_at state.now.plan state.now.now state.now.time path.now Post (Node o) (option_copied body.entry)) f) }
{
    match own_kind(state, path) {
        Some(_kind) => Some(Fault::NotSupported),
        None => None,
    }
}

/// A Put to the own node of a path, where no computed path is the same: then nothing stands in front of the node.
fn put_there<L: Ledger>(
    state: &mut State,
    path: &Text,
    body: Option<&Obj>,
    steps: &mut Steps<L>,
) -> Result<Option<Obj>, NotDone>
    ensures ok { IfOk result (λ done. MatchOption done (state.new ≡ state.old) (IsDoneThere state.old state.new path.now Put (option_copied body.entry))) }
    ensures stop { IfErr result (StopsThere state.old state.new path.now Put (option_copied body.entry)) }
{
    let free = is_free(state, path)?;
    if free {
        put_own(state, path, body, steps)
    } else {
        Ok(None)
    }
}

/// Why the own node that a path names refuses to be called.
fn post_refused(state: &State, path: &Text, body: Option<&Obj>) -> Result<Option<Fault>, AllocError>
    ensures { IfOk result (λ fault. IfSome fault (λ f. IsRefusedThere state.now.plan state.now.now state.now.time path.now Post (option_copied body.entry) f)) }
{
    let fault = post_fault(state, path, body);
    if fault.is_none() || is_free(state, path)? {
        return Ok(fault);
    }
    Ok(None)
}

/// A call of the own node that a path names.
fn post_there(state: &mut State, path: &Text, body: Option<&Obj>) -> Result<Option<Obj>, NotDone>
    ensures ok { IfOk result (λ done. MatchOption done (state.new ≡ state.old) (IsDoneThere state.old state.new path.now Post (option_copied body.entry))) }
    ensures stop { IfErr result (StopsThere state.old state.new path.now Post (option_copied body.entry)) }
{
    match post_refused(state, path, body)? {
        Some(fault) => Err(NotDone::Refused(fault)),
        None => Ok(None),
    }
}

/// What a verb asks with a body of the own node that a path names, as far as it is told by the node's own head: a call of it is
/// refused, and a Put is refused or done. None where more is to be looked at; then all stays as it is. The node isn't shown for
/// what is refused, so that who asks for that is answered at once, however much stands there.
pub(crate) fn at_once<L: Ledger>(
    state: &mut State,
    path: &Text,
    verb: Verb,
    body: Option<&Obj>,
    steps: &mut Steps<L>,
) -> Result<Option<Obj>, NotDone>
    ensures ok { IfOk result (λ done. MatchOption done (state.new ≡ state.old) (IsDoneThere state.old state.new path.now verb (option_copied body.entry))) }
    ensures stop { IfErr result (StopsThere state.old state.new path.now verb (option_copied body.entry)) }
{
    match verb {
        Verb::Get => Ok(None),
        Verb::Put => put_there(state, path, body, steps),
        Verb::Post => post_there(state, path, body),
    }
}
