//! Own objects to which the children that roles derive are put, and the status of each rule's source.
ghost use Rattle.std.specs.Prelude.{◌≡◌, ◌++◌, map, IfOk, OnOk};
ghost use Rattle.std.specs.Option.{option_or};
ghost use Rattle.ob_object.specs.Object.{in_row, node, none};
ghost use Rattle.ob_site_rules.specs.Shown.{with_status};
ghost use Rattle.ob_shown_laws.specs.Own.{derived_own};
ghost use Rattle.ob_plain_state.specs.States.{NamesAreFree};

use crate::roles::derived;
use ob_object::{Attributes, Obj, Status};
use ob_site_state::State;
use std::alloc::AllocError;

/// The status of the alarms of a head's rule, if it has one.
fn status_of(state: &State, head: &Attributes) -> Option<Status>
    ensures { record head.now { facets = record head.now.facets { status = option_or result head.now.facets.status } } ≡ with_status state.now.plan state.now.now head.now }
{
    match head.node_path() {
        Some(path) => match state.rule_of(path) {
            Some(rule) => Some(state.alarms().status_of(rule)),
            None => None,
        },
        None => None,
    }
}

/// Puts the status of the alarms of its rule to an object, if it has one.
fn put_status(state: &State, object: &mut Obj)
    ensures { object.new ≡ record object.old { head = with_status state.now.plan state.now.now object.old.head } }
{
    if let Some(status) = status_of(state, object.head()) {
        let _old = object.replace_status(Some(status));
    }
}

/// Objects behind others.
fn joined(mut first: Vec<Obj>, mut others: Vec<Obj>) -> Result<Vec<Obj>, AllocError>
    ensures { IfOk result (λ all. all.items ≡ first.items ++ others.items) }
{
    first.append(&mut others)?;
    Ok(first)
}

/// Dresses each of some own objects.
#[cycle(dressing)]
fn dress_each(state: &State, objects: &mut [Obj]) -> Result<(), AllocError>
    requires { NamesAreFree state.now.plan state.now.now (in_row objects.old) }
    ensures { OnOk result (objects.new ≡ map (derived_own state.now.plan state.now.now) objects.old) }
{
    for object in objects.iter_mut() {
        dress(state, object)?;
    }
    Ok(())
}

/// Puts to an own object the status of each source in it, and behind the own children of each node those that its roles
/// derive. An error only for want of memory: what is left of the object then is not said.
#[cycle(dressing)]
pub(crate) fn dress(state: &State, object: &mut Obj) -> Result<(), AllocError>
    requires { NamesAreFree state.now.plan state.now.now (node object.old.head object.old.inner none) }
    ensures { OnOk result (object.new ≡ derived_own state.now.plan state.now.now object.old) }
{
    let mut children = object.take_children();
    dress_each(state, children.as_mut_slice())?;
    let derived = derived(state, object.head().node_path())?;
    let all = joined(children, derived)?;
    put_status(state, object);
    object.put_children(all);
    Ok(())
}
