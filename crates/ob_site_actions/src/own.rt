//! A Put to an own node. What of the node is asked is told by its own head; the node is shown once, as it is afterwards.
ghost use Rattle.std.specs.Prelude.{◌≡◌, ◌<◌, Some, None, true, false, IsTrue, IfOk, IfErr, MatchOption};
ghost use Rattle.std.specs.Option.{option_copied};
ghost use Rattle.ob_object.specs.Object.{Object, parts};
ghost use Rattle.ob_object.specs.Fits.{fits_slot};
ghost use Rattle.ob_object.specs.Kinds.{has_values};
ghost use Rattle.ob_history.specs.Records.{holds_value};
ghost use Rattle.ob_tree.specs.Laid.{paths};
ghost use Rattle.ob_tree.specs.Paths.{place_of};
ghost use Rattle.ob_site_rules.specs.Build.{Path};
ghost use Rattle.ob_site_rules.specs.Places.{reply_at};
ghost use Rattle.ob_site_rules.specs.Writes.{overfills, showing, target_fault, written};
ghost use Rattle.ob_site_rules.specs.Writes as writes;
ghost use Rattle.ob_site_actions.specs.Fitting.{CanBeWritten};
ghost use Rattle.ob_site_actions.specs.Own.{DoneBy, IsPut, StopsBy, StopsPut, head_faults, head_makes, put_faults, put_makes};
ghost use Rattle.ob_site_actions.specs.Stops.{IsDone};
ghost use Rattle.ob_site_actions.specs.Targets.{IsTarget};

use crate::not_done::NotDone;
use crate::putting::given_by;
use crate::stopping::target_at;
use crate::value::{target_fault, value_fault};
use crate::{OwnNode, write_if_changed};
use ob_contracts::Steps;
use ob_object::{Attributes, Obj, Slot};
use ob_site_reads::shown_own;
use ob_site_rules::{Fault, nameless};
use ob_site_state::State;
use ob_tree::NodeId;
use ob_values::Text;
use std::alloc::AllocError;
use std::sync::ledger::Ledger;

/// What is shown of an own node, without its name. An error only for want of memory.
fn own_reply<L: Ledger>(
    state: &State,
    node: NodeId,
    steps: &mut Steps<L>,
) -> Result<Obj, AllocError>
    requires { node.number < parts state.now.now.tree }
    ensures { IfOk result (λ reply. (p : Path) (d : Object) → place_of p (paths state.now.now.tree) ≡ Some node.number → reply ≡ reply_at state.now.plan state.now.now p d) }
{
    let shown = shown_own(state, node, steps)?;
    Ok(nameless(shown))
}

/// Writes a value in which nothing is wrong to an own node, of which this is asked, and answers what is shown there then.
fn show_own<L: Ledger>(
    state: &mut State,
    at: OwnNode<'_>,
    own: &Obj,
    slot: &Slot,
    steps: &mut Steps<L>,
) -> Result<Obj, AllocError>
    requires place { place_of at.path.now (paths state.old.now.tree) ≡ Some at.node.number }
    requires can { CanBeWritten state.old.plan state.old.now at.path.now own.now.head.kind slot.now }
    requires room { overfills state.old.plan state.old.now state.old.time at.path.now own.now.head slot.now ≡ false }
    ensures ok { IfOk result (λ reply. (d : Object) → IsDone state.old state.new (showing state.old.plan at.entry.path.now d (written state.old.plan state.old.time at.entry.path.now own.now slot.now state.old.now)) reply) }
    ensures stays { state.new ≡ record state.old { now = state.new.now } }
{
    let node = at.node;
    write_if_changed(state, at, own.head(), slot, steps)?;
    own_reply(state, node, steps)
}

/// Writes the value of a head to an own node, of which this is asked, where nothing is wrong, and answers what is shown there
/// then.
fn write_head<L: Ledger>(
    state: &mut State,
    at: OwnNode<'_>,
    own: &Obj,
    new: &Attributes,
    steps: &mut Steps<L>,
) -> Result<Obj, NotDone>
    requires place { place_of at.path.now (paths state.old.now.tree) ≡ Some at.node.number }
    requires asked { IsTarget state.old.plan state.old.now at.path.now own.now }
    requires values { has_values own.now.head.kind ≡ true }
    requires held { has_values new.now.kind ≡ true → IsTrue (fits_slot new.now.kind new.now.slot) → IsTrue (holds_value new.now.kind new.now.slot) }
    ensures ok { IfOk result (DoneBy state.old state.new (head_faults state.old at.entry.path.now own.now new.now) (head_makes state.old at.entry.path.now own.now new.now)) }
    ensures stop { IfErr result (StopsBy state.old state.new (head_faults state.old at.entry.path.now own.now new.now)) }
{
    state.sound_law();
    if let Some(fault) = value_fault(state, at.path, own, new, steps)? {
        return Err(NotDone::Refused(fault));
    }
    let reply = show_own(state, at, own, new.slot(), steps)?;
    Ok(reply)
}

/// Puts the value that a body gives to an own node, of which this is asked, where nothing is wrong with the node.
fn put_body<L: Ledger>(
    state: &mut State,
    at: OwnNode<'_>,
    own: &Obj,
    body: &Obj,
    steps: &mut Steps<L>,
) -> Result<Obj, NotDone>
    requires place { place_of at.path.now (paths state.old.now.tree) ≡ Some at.node.number }
    requires asked { IsTarget state.old.plan state.old.now at.path.now own.now }
    requires free { target_fault own.now.head ≡ None }
    ensures ok { IfOk result (DoneBy state.old state.new (head_faults state.old at.entry.path.now own.now (writes.given_by state.old.now body.now)) (head_makes state.old at.entry.path.now own.now (writes.given_by state.old.now body.now))) }
    ensures stop { IfErr result (StopsBy state.old state.new (head_faults state.old at.entry.path.now own.now (writes.given_by state.old.now body.now))) }
{
    let given = given_by(state.allocator(), state.library(), body, steps)?;
    write_head(state, at, own, &given, steps)
}

/// The same with a body or none.
fn put_free<L: Ledger>(
    state: &mut State,
    at: OwnNode<'_>,
    own: &Obj,
    body: Option<&Obj>,
    steps: &mut Steps<L>,
) -> Result<Obj, NotDone>
    requires place { place_of at.path.now (paths state.old.now.tree) ≡ Some at.node.number }
    requires asked { IsTarget state.old.plan state.old.now at.path.now own.now }
    requires free { target_fault own.now.head ≡ None }
    ensures ok { IfOk result (DoneBy state.old state.new (put_faults state.old at.entry.path.now own.now (option_copied body.entry)) (put_makes state.old at.entry.path.now own.now (option_copied body.entry))) }
    ensures stop { IfErr result (StopsBy state.old state.new (put_faults state.old at.entry.path.now own.now (option_copied body.entry))) }
{
    match body {
        Some(body) => put_body(state, at, own, body, steps),
        None => Err(NotDone::Refused(Fault::OtherShape)),
    }
}

/// A Put to an own node, of which this is asked.
fn put_node<L: Ledger>(
    state: &mut State,
    at: OwnNode<'_>,
    own: &Obj,
    body: Option<&Obj>,
    steps: &mut Steps<L>,
) -> Result<Obj, NotDone>
    requires place { place_of at.path.now (paths state.old.now.tree) ≡ Some at.node.number }
    requires asked { IsTarget state.old.plan state.old.now at.path.now own.now }
    ensures ok { IfOk result (DoneBy state.old state.new (put_faults state.old at.entry.path.now own.now (option_copied body.entry)) (put_makes state.old at.entry.path.now own.now (option_copied body.entry))) }
    ensures stop { IfErr result (StopsBy state.old state.new (put_faults state.old at.entry.path.now own.now (option_copied body.entry))) }
{
    match target_fault(own.head()) {
        Some(fault) => Err(NotDone::Refused(fault)),
        None => put_free(state, at, own, body, steps),
    }
}

/// The same, as the definition has it of what is shown at the path.
fn put_shown<L: Ledger>(
    state: &mut State,
    at: OwnNode<'_>,
    own: &Obj,
    body: Option<&Obj>,
    steps: &mut Steps<L>,
) -> Result<Option<Obj>, NotDone>
    requires place { place_of at.path.now (paths state.old.now.tree) ≡ Some at.node.number }
    requires asked { IsTarget state.old.plan state.old.now at.path.now own.now }
    ensures ok { IfOk result (λ done. MatchOption done (state.new ≡ state.old) (IsPut state.old state.new at.entry.path.now (option_copied body.entry))) }
    ensures stop { IfErr result (StopsPut state.old state.new at.entry.path.now (option_copied body.entry)) }
{
    match put_node(state, at, own, body, steps) {
        Ok(reply) => Ok(Some(reply)),
        Err(stop) => Err(stop),
    }
}

/// A Put to the own node of this number, which is at the path.
fn put_at<L: Ledger>(
    state: &mut State,
    node: NodeId,
    path: &Text,
    body: Option<&Obj>,
    steps: &mut Steps<L>,
) -> Result<Option<Obj>, NotDone>
    requires { place_of path.now (paths state.old.now.tree) ≡ Some node.number }
    ensures ok { IfOk result (λ done. MatchOption done (state.new ≡ state.old) (IsPut state.old state.new path.now (option_copied body.entry))) }
    ensures stop { IfErr result (StopsPut state.old state.new path.now (option_copied body.entry)) }
{
    match target_at(state, path, steps)? {
        Some(own) => put_shown(state, OwnNode { node, path }, &own, body, steps),
        None => Ok(None),
    }
}

/// A Put to the own node of a path, told by its own head: it answers what is shown there afterwards, and shows the node for nothing
/// else. None where no own node is there, or its own head doesn't tell; then all stays as it is.
///
/// Source: oBIX 1.1, chapter 10 (Networking: Write). The order of the refusals is this profile's own.
pub fn put_own<L: Ledger>(
    state: &mut State,
    path: &Text,
    body: Option<&Obj>,
    steps: &mut Steps<L>,
) -> Result<Option<Obj>, NotDone>
    ensures ok { IfOk result (λ done. MatchOption done (state.new ≡ state.old) (IsPut state.old state.new path.now (option_copied body.entry))) }
    ensures stop { IfErr result (StopsPut state.old state.new path.now (option_copied body.entry)) }
{
    match state.tree().get(path) {
        Some(node) => put_at(state, node, path, body, steps),
        None => Ok(None),
    }
}
