//! The end of a step that may have changed the state.
ghost use Rattle.std.specs.Prelude.{◌≡◌, ◌≢◌, ◌⊎◌, All, ◌<◌, ◌-◌, ◌^◌, map, OnOk, OnErr, MatchBool};
ghost use Rattle.ob_values.specs.declared.verb.Verb.TheVariants.{Get};
ghost use Rattle.ob_object.specs.Object.{parts};
ghost use Rattle.ob_step_laws.specs.Given.{IsMade, TakesNoneAway};
ghost use Rattle.ob_site_settling.specs.Ended.{EndsAll};
ghost use Rattle.ob_site.specs.Between.{HoldsBetweenSteps};
ghost use Rattle.ob_site.specs.Ending.{IsEnded, NodesStay};
ghost use Rattle.ob_site.specs.Keeping.{IsChange, KeepsChange};

use crate::changed::has_changed;
use crate::keeper::Keeper;
use ob_contracts::Steps;
use ob_object::Obj;
use ob_site_rules::Request;
use ob_site_settling::stamped_nodes;
use ob_site_state::State;
use ob_tree::NodeId;
use ob_values::Verb;
use ob_watch::Watches;
use std::alloc::AllocError;
use std::sync::ledger::Ledger;

/// A request, and the reply that it is about to have.
#[derive(Drop)]
pub(crate) struct RepliedRequest<'a> {
    pub request: &'a Request,
    pub reply: &'a Obj,
}

/// A step moves no own node, and what could be watched before it can be after it.
fn nodes_stay_law(state: &State)
    ensures { NodesStay state.now.before state.now.now }
{
    let _changes = state.changes();
}

/// Ends a step, of which these nodes show themselves otherwise. It takes no memory.
fn settle(state: &mut State, watches: &mut Watches, nodes: &[NodeId])
    requires kept { HoldsBetweenSteps state.old.plan state.old.before state.old.stamps state.old.steps watches.old }
    requires room { state.old.steps < 2 ^ 64 - 1 }
    requires given { TakesNoneAway state.old.plan state.old.before state.old.now }
    requires ends { EndsAll state.old (map (λ node. node.number) nodes.now) }
    requires within { All (λ node. node.number < parts state.old.now.tree) nodes.now }
    ensures { IsEnded state.old state.new watches.old watches.new }
{
    nodes_stay_law(state);
    watches.sweep(state.time());
    state.stamp(nodes);
    state.commit();
}

/// Whether a verb is that of a read.
pub(crate) fn is_read(verb: Verb) -> bool
    ensures { MatchBool result (verb ≡ Get) (verb ≢ Get) }
{
    match verb {
        Verb::Get => true,
        Verb::Put | Verb::Post => false,
    }
}

/// Whether a request needs no keeping: it is a read, or the step has not changed the site.
fn is_left_out(state: &State, verb: Verb) -> bool
    requires made_before { IsMade state.now.before }
    requires made { IsMade state.now.now }
    ensures { MatchBool result ((state.now.now ≡ state.now.before) ⊎ (verb ≡ Get)) (IsChange state.now.before state.now.now verb) }
{
    if is_read(verb) {
        return true;
    }
    !has_changed(state)
}

/// Has a keeper keep a request that has changed the site, with the reply that it is about to have.
fn keep_change<K: Keeper>(
    state: &State,
    watches: &Watches,
    keeper: &mut K,
    request: &Request,
    reply: &Obj,
) -> Result<(), AllocError>
    requires made_before { IsMade state.now.before }
    requires made { IsMade state.now.now }
    requires ready { K.is_ready keeper.old }
    ensures done { OnOk result (KeepsChange K.below K.keeps keeper.old keeper.new state.now.before state.now.now request.now state.now.time watches.now.next reply.now) }
    ensures err { OnErr result (IsChange state.now.before state.now.now request.now.verb × K.may_keep keeper.old keeper.new request.now state.now.time watches.now.next reply.now) }
{
    if is_left_out(state, request.verb) {
        return Ok(());
    }
    keeper.keep(request, state.time(), watches.next_number(), reply)
}

/// Ends the step of a request that is about to have its reply. An error only for want of memory, or from the keeper; it leaves
/// all but the keeper as it was.
pub(crate) fn end_step<L: Ledger, K: Keeper>(
    state: &mut State,
    watches: &mut Watches,
    keeper: &mut K,
    replied: RepliedRequest<'_>,
    steps: &mut Steps<L>,
) -> Result<(), AllocError>
    requires kept { HoldsBetweenSteps state.old.plan state.old.before state.old.stamps state.old.steps watches.old }
    requires room { state.old.steps < 2 ^ 64 - 1 }
    requires given { TakesNoneAway state.old.plan state.old.before state.old.now }
    requires ready { K.is_ready keeper.old }
    ensures done { OnOk result (IsEnded state.old state.new watches.old watches.new) }
    ensures state { OnErr result (state.new ≡ state.old) }
    ensures watches { OnErr result (watches.new ≡ watches.old) }
    ensures keeps { OnOk result (KeepsChange K.below K.keeps keeper.old keeper.new state.old.before state.old.now replied.entry.request.now state.old.time watches.old.next replied.entry.reply.now) }
    ensures may_keep { OnErr result ((keeper.new ≡ keeper.old) ⊎ (IsChange state.old.before state.old.now replied.entry.request.now.verb × K.may_keep keeper.old keeper.new replied.entry.request.now state.old.time watches.old.next replied.entry.reply.now)) }
{
    nodes_stay_law(state);
    let nodes = stamped_nodes(state, steps)?;
    keep_change(state, watches, keeper, replied.request, replied.reply)?;
    settle(state, watches, &nodes);
    Ok(())
}
