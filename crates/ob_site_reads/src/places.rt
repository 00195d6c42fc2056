//! What a path names: the computed paths first, then the nodes.
ghost use Rattle.std.specs.Prelude.{◌≡◌, ◌++◌, Some, None, false, option_copied, slice_get, IfOk};
ghost use Rattle.ob_alarms.specs.States.{needs_ack};
ghost use Rattle.ob_alarms.specs.Changes.{alarm_of};
ghost use Rattle.ob_contracts.specs.Inherit.{or_else};
ghost use Rattle.ob_site_rules.specs.State.{at, numbered_from};
ghost use Rattle.ob_site_rules.specs.declared.plan.Plan.{Plan as SitePlan};
ghost use Rattle.ob_site_rules.specs.Places.{fixed_places, point_places, history_places, subject_places, event_places, alarm_places, computed_places, place_at};
ghost use Rattle.ob_site_reads.specs.Parents.{IsParent};
ghost use Rattle.ob_plain_state.specs.Parts.{point_parts, history_parts, alarm_parts, parts_of_alarm};

use crate::paths::{alarm_number, is_ended, is_followed};
use crate::{begins_with, parent_path, shown_at};
use ob_alarms::{Alarm, Alarms};
use ob_contracts::Steps;
use ob_replies::{ack_path, alarm_path, below};
use ob_site_rules::{Plan, PointRule, Resource};
use ob_site_state::State;
use ob_values::Text;
use std::alloc::{AllocError, Global};
use std::sync::ledger::Ledger;

/// The place of those whose paths the root's alone computes.
fn fixed_place(plan: &Plan, path: &Text) -> Option<Resource>
    ensures { result ≡ at path.now (fixed_places plan.now) }
{
    if is_followed(&plan.root, "about", path) {
        return Some(Resource::About);
    }
    if is_followed(&plan.root, "batch", path) {
        return Some(Resource::Batch);
    }
    if is_followed(&plan.root, "watchService", path) {
        return Some(Resource::Service);
    }
    if is_followed(&plan.root, "watchService/make", path) {
        return Some(Resource::Make);
    }
    None
}

/// The op of a point, if the path is its.
#[tactic(auto, using(crate::proofs::Fronts::no_point))]
fn one_point(alloc: Global, point: &Text, path: &Text) -> Result<Option<Resource>, AllocError>
    ensures { IfOk result (λ place. place ≡ at path.now (point_parts point.now)) }
{
    if !begins_with(path, point) {
        return Ok(None);
    }
    let op = below(alloc, point, "writePoint")?;
    if op.is(path.as_str()) {
        let point = point.copy()?;
        return Ok(Some(Resource::WritePointOf(point)));
    }
    Ok(None)
}

/// The op of the first of two points that has it at the path.
fn point_of_two(
    alloc: Global,
    first: &Text,
    second: &Text,
    path: &Text,
) -> Result<Option<Resource>, AllocError>
    ensures { IfOk result (λ place. place ≡ or_else (at path.now (point_parts first.now)) (at path.now (point_parts second.now))) }
{
    match one_point(alloc, first, path)? {
        Some(place) => Ok(Some(place)),
        None => one_point(alloc, second, path),
    }
}

/// The op of a writable point whose path is what stands in front of the path's last slash, or that with a slash behind it.
/// Where both are points, the first one of the plan that has it counts.
fn point_in(state: &State, parent: &Text, path: &Text) -> Result<Option<Resource>, AllocError>
    requires { IsParent path.now (Some parent.now) }
    ensures { IfOk result (λ place. place ≡ at path.now (point_places state.now.plan)) }
{
    let slashed = parent.followed_by(state.allocator(), "/")?;
    let plain_at = state.point_at(parent);
    let Some(slashed_at) = state.point_at(&slashed) else {
        if plain_at.is_some() {
            return one_point(state.allocator(), parent, path);
        }
        return Ok(None);
    };
    let Some(plain_at) = plain_at else {
        return one_point(state.allocator(), &slashed, path);
    };
    if plain_at < slashed_at {
        return point_of_two(state.allocator(), parent, &slashed, path);
    }
    point_of_two(state.allocator(), &slashed, parent, path)
}

/// The op of a writable point, by look-ups. Nothing is looked up for a path without its name at the end.
fn point_place(state: &State, path: &Text) -> Result<Option<Resource>, AllocError>
    ensures { IfOk result (λ place. place ≡ at path.now (point_places state.now.plan)) }
{
    if !is_ended(path, "writePoint") {
        return Ok(None);
    }
    match parent_path(state.allocator(), path)? {
        Some(parent) => point_in(state, &parent, path),
        None => Ok(None),
    }
}

/// The op or the feed of a history, if the path is one of theirs.
#[tactic(auto, using(crate::proofs::Fronts::no_history))]
fn one_history(alloc: Global, history: &Text, path: &Text) -> Result<Option<Resource>, AllocError>
    ensures { IfOk result (λ place. place ≡ at path.now (history_parts history.now)) }
{
    if !begins_with(path, history) {
        return Ok(None);
    }
    let query = below(alloc, history, "query")?;
    if query.is(path.as_str()) {
        let history = history.copy()?;
        return Ok(Some(Resource::QueryOf(history)));
    }
    let feed = below(alloc, history, "feed")?;
    if feed.is(path.as_str()) {
        let history = history.copy()?;
        return Ok(Some(Resource::FeedOf(history)));
    }
    Ok(None)
}

/// The op or the feed of the first of two histories that has one at the path.
fn history_of_two(
    alloc: Global,
    first: &Text,
    second: &Text,
    path: &Text,
) -> Result<Option<Resource>, AllocError>
    ensures { IfOk result (λ place. place ≡ or_else (at path.now (history_parts first.now)) (at path.now (history_parts second.now))) }
{
    match one_history(alloc, first, path)? {
        Some(place) => Ok(Some(place)),
        None => one_history(alloc, second, path),
    }
}

/// The op or the feed of a history whose path is what stands in front of the path's last slash, or that with a slash behind
/// it. Where both are histories, the first one of the plan that has one counts.
fn history_in(state: &State, parent: &Text, path: &Text) -> Result<Option<Resource>, AllocError>
    requires { IsParent path.now (Some parent.now) }
    ensures { IfOk result (λ place. place ≡ at path.now (history_places state.now.plan)) }
{
    let slashed = parent.followed_by(state.allocator(), "/")?;
    let plain_at = state.history_at(parent);
    let Some(slashed_at) = state.history_at(&slashed) else {
        if plain_at.is_some() {
            return one_history(state.allocator(), parent, path);
        }
        return Ok(None);
    };
    let Some(plain_at) = plain_at else {
        return one_history(state.allocator(), &slashed, path);
    };
    if plain_at < slashed_at {
        return history_of_two(state.allocator(), parent, &slashed, path);
    }
    history_of_two(state.allocator(), &slashed, parent, path)
}

/// The op or the feed of a history, by look-ups.
fn history_place(state: &State, path: &Text) -> Result<Option<Resource>, AllocError>
    ensures { IfOk result (λ place. place ≡ at path.now (history_places state.now.plan)) }
{
    match parent_path(state.allocator(), path)? {
        Some(parent) => history_in(state, &parent, path),
        None => Ok(None),
    }
}

/// The op or the feed of the alarm subject.
#[tactic(auto, using(crate::proofs::Fronts::no_subject))]
fn subject_place(alloc: Global, plan: &Plan, path: &Text) -> Result<Option<Resource>, AllocError>
    ensures { IfOk result (λ place. place ≡ at path.now (subject_places plan.now.subject)) }
{
    let Some(subject) = &plan.subject else {
        return Ok(None);
    };
    if !begins_with(path, subject) {
        return Ok(None);
    }
    let query = below(alloc, subject, "query")?;
    if query.is(path.as_str()) {
        return Ok(Some(Resource::AlarmQuery));
    }
    let feed = below(alloc, subject, "feed")?;
    if feed.is(path.as_str()) {
        return Ok(Some(Resource::AlarmFeed));
    }
    Ok(None)
}

/// Whether a path ends with the name of an op or a feed of histories and of the alarm subject.
fn is_event_name(path: &Text) -> bool
    ensures { result ≡ false → (plan : SitePlan) → at path.now (event_places plan) ≡ None }
{
    if is_ended(path, "query") {
        true
    } else {
        is_ended(path, "feed")
    }
}

/// The op or the feed of a history or of the alarm subject, if a path is one of theirs. Nothing is looked up for a path without
/// one of their names at the end. An error only for want of memory.
pub fn event_place(state: &State, path: &Text) -> Result<Option<Resource>, AllocError>
    ensures { IfOk result (λ place. place ≡ at path.now (event_places state.now.plan)) }
{
    if !is_event_name(path) {
        return Ok(None);
    }
    let found = history_place(state, path)?;
    if found.is_some() {
        return Ok(found);
    }
    subject_place(state.allocator(), state.plan(), path)
}

/// The rule at a place.
fn rule_at(rules: &[PointRule], place: u64) -> Option<&PointRule>
    ensures { option_copied result ≡ slice_get rules.now place }
{
    rules.get(place as usize)
}

/// Whether an alarm needs an acknowledgement, by its rule.
fn needs_ack(plan: &Plan, alarm: &Alarm) -> bool
    ensures { result ≡ needs_ack (slice_get (numbered_from 0 plan.now.rules) alarm.now.rule) }
{
    match rule_at(plan.rules.as_slice(), alarm.rule) {
        Some(rule) => rule.needs_ack,
        None => false,
    }
}

/// An alarm or its op `ack`, if the path is one of theirs.
fn one_alarm(
    alloc: Global,
    plan: &Plan,
    number: u64,
    alarm: &Alarm,
    path: &Text,
) -> Result<Option<Resource>, AllocError>
    ensures { IfOk result (λ place. place ≡ at path.now (alarm_parts plan.now (numbered_from 0 plan.now.rules) number alarm.now)) }
{
    let own = alarm_path(alloc, plan, number)?;
    if own.is(path.as_str()) {
        return Ok(Some(Resource::AlarmAt(number)));
    }
    if needs_ack(plan, alarm) {
        let ack = ack_path(alloc, plan, number)?;
        if ack.is(path.as_str()) {
            return Ok(Some(Resource::AckOf(number)));
        }
    }
    Ok(None)
}

/// The alarm of a number or its op `ack`, if there is one and the path is one of theirs.
fn numbered_alarm(
    alloc: Global,
    plan: &Plan,
    alarms: &Alarms,
    number: u64,
    path: &Text,
) -> Result<Option<Resource>, AllocError>
    ensures { IfOk result (λ place. place ≡ at path.now (parts_of_alarm plan.now (numbered_from 0 plan.now.rules) number (alarm_of number alarms.now.alarms))) }
{
    match alarms.alarm(number) {
        Some(alarm) => one_alarm(alloc, plan, number, alarm, path),
        None => Ok(None),
    }
}

/// An alarm, or its op `ack`, looked up by the number in the path.
fn alarm_place(
    alloc: Global,
    plan: &Plan,
    alarms: &Alarms,
    path: &Text,
) -> Result<Option<Resource>, AllocError>
    ensures { IfOk result (λ place. place ≡ at path.now (alarm_places plan.now (numbered_from 0 plan.now.rules) 1 alarms.now.alarms)) }
{
    let _count = alarms.len();
    match alarm_number(plan, path) {
        Some(number) => numbered_alarm(alloc, plan, alarms, number, path),
        None => Ok(None),
    }
}

/// The place of an event's op or feed, or of an alarm.
fn event_or_alarm(state: &State, path: &Text) -> Result<Option<Resource>, AllocError>
    ensures { IfOk result (λ place. place ≡ at path.now (event_places state.now.plan ++ alarm_places state.now.plan (numbered_from 0 state.now.plan.rules) 1 state.now.now.alarms)) }
{
    let found = event_place(state, path)?;
    if found.is_some() {
        return Ok(found);
    }
    alarm_place(state.allocator(), state.plan(), state.alarms(), path)
}

/// The place of what a role derives, or of an alarm.
fn role_place(state: &State, path: &Text) -> Result<Option<Resource>, AllocError>
    ensures { IfOk result (λ place. place ≡ at path.now (point_places state.now.plan ++ (event_places state.now.plan ++ alarm_places state.now.plan (numbered_from 0 state.now.plan.rules) 1 state.now.now.alarms))) }
{
    let found = point_place(state, path)?;
    if found.is_some() {
        return Ok(found);
    }
    event_or_alarm(state, path)
}

/// The place among those whose paths are computed, but those of watches. Nothing is shown for it.
pub fn computed_place(state: &State, path: &Text) -> Result<Option<Resource>, AllocError>
    ensures { IfOk result (λ place. place ≡ at path.now (computed_places state.now.plan state.now.now)) }
{
    let found = fixed_place(state.plan(), path);
    if found.is_some() {
        return Ok(found);
    }
    role_place(state, path)
}

/// What a path names, if it names something: a computed place, or else a node with what it shows.
pub fn place_at<L: Ledger>(
    state: &State,
    path: &Text,
    steps: &mut Steps<L>,
) -> Result<Option<Resource>, AllocError>
    ensures { IfOk result (λ place. place ≡ place_at state.now.plan state.now.now path.now) }
{
    let found = computed_place(state, path)?;
    if found.is_some() {
        return Ok(found);
    }
    match shown_at(state, path, steps)? {
        Some(node) => Ok(Some(Resource::Node(node))),
        None => Ok(None),
    }
}
