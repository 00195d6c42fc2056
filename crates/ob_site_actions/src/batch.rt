//! Batches, and requests to the site itself.
ghost use Rattle.std.specs.Prelude.{◌≡◌, Some, true, cond, is_none, IfOk, IfErr};
ghost use Rattle.std.specs.List.{list_all};
ghost use Rattle.std.specs.Option.{option_copied};
ghost use Rattle.ob_site_rules.specs.declared.fault.Fault.TheVariants.{NotInBatch, NoSuchObject};
ghost use Rattle.ob_site_rules.specs.Faults.{first_fault};
ghost use Rattle.ob_site_rules.specs.Locating.{locate};
ghost use Rattle.ob_site_rules.specs.Actions.{is_of_watch, is_post, is_left_out, item_on, act_item, act_all, item_request};
ghost use Rattle.ob_site_rules.specs.Actions.{batch, batch_rows, act_located};
ghost use Rattle.ob_requests.specs.BatchCalls.{is_batch_call};
ghost use Rattle.ob_site_actions.specs.Stops.{IsDone, Stops};

use crate::NotDone;
use crate::actions::act_at;
use crate::refusing::at_once;
use ob_contracts::Steps;
use ob_object::{Kind, Obj};
use ob_replies::build::put;
use ob_replies::{batch_out, refusal};
use ob_requests::{is_of_watch, item_request, locate_path};
use ob_site_reads::place_at;
use ob_site_rules::{Fault, Request, Resource};
use ob_site_state::State;
use ob_values::{Text, Verb};
use std::alloc::AllocError;
use std::sync::ledger::Ledger;

/// Whether a batch leaves a place out.
fn is_left_out(place: &Resource) -> bool
    ensures { result ≡ is_left_out place.now }
{
    match place {
        Resource::Batch | Resource::Make => true,
        Resource::About
        | Resource::Service
        | Resource::AlarmAt(_)
        | Resource::AckOf(_)
        | Resource::WritePointOf(_)
        | Resource::QueryOf(_)
        | Resource::FeedOf(_)
        | Resource::AlarmQuery
        | Resource::AlarmFeed
        | Resource::Node(_) => false,
    }
}

/// Why an item whose path names nothing is refused.
fn nowhere(state: &State, numbers: &[u64], path: &Text) -> Fault
    ensures { result ≡ cond (is_of_watch state.now.plan numbers.now path.now) NotInBatch NoSuchObject }
{
    if is_of_watch(state.plan(), numbers, path.as_str()) {
        Fault::NotInBatch
    } else {
        Fault::NoSuchObject
    }
}

/// An item of a batch at its path, told by what the path names.
#[tactic(auto, using(crate::proofs::Batched::items))]
fn item_there<L: Ledger>(
    state: &mut State,
    numbers: &[u64],
    request: &Request,
    path: &Text,
    steps: &mut Steps<L>,
) -> Result<Obj, NotDone>
    ensures ok { IfOk result (IsDone state.old state.new
        (item_on state.old.plan state.old.now numbers.now state.old.time request.now (Some path.now))) }
    ensures stop { IfErr result (Stops state.old state.new
        (item_on state.old.plan state.old.now numbers.now state.old.time request.now (Some path.now))) }
{
    let Some(place) = place_at(state, path, steps)? else {
        return Err(NotDone::Refused(nowhere(state, numbers, path)));
    };
    if is_left_out(&place) {
        return Err(NotDone::Refused(Fault::NotInBatch));
    }
    act_at(state, request, path, place, steps)
}

/// An item of a batch at its path.
fn item_at<L: Ledger>(
    state: &mut State,
    numbers: &[u64],
    request: &Request,
    path: &Text,
    steps: &mut Steps<L>,
) -> Result<Obj, NotDone>
    ensures ok { IfOk result (IsDone state.old state.new
        (item_on state.old.plan state.old.now numbers.now state.old.time request.now (Some path.now))) }
    ensures stop { IfErr result (Stops state.old state.new
        (item_on state.old.plan state.old.now numbers.now state.old.time request.now (Some path.now))) }
{
    match at_once(state, path, request.verb, request.body.as_ref(), steps) {
        Ok(Some(reply)) => Ok(reply),
        Ok(None) => item_there(state, numbers, request, path, steps),
        Err(stop) => Err(stop),
    }
}

/// An item of a batch that is a request.
fn item_on<L: Ledger>(
    state: &mut State,
    numbers: &[u64],
    request: &Request,
    steps: &mut Steps<L>,
) -> Result<Obj, NotDone>
    ensures ok { IfOk result (IsDone state.old state.new
        (item_on state.old.plan state.old.now numbers.now state.old.time request.now
        (locate state.old.plan.base request.now.target))) }
    ensures stop { IfErr result (Stops state.old state.new
        (item_on state.old.plan state.old.now numbers.now state.old.time request.now
        (locate state.old.plan.base request.now.target))) }
{
    match locate_path(state.allocator(), state.plan(), &request.target)? {
        Some(path) => item_at(state, numbers, request, &path, steps),
        None => Err(NotDone::Refused(Fault::NoSuchObject)),
    }
}

/// An item of a batch, if it is a request.
fn act_item<L: Ledger>(
    state: &mut State,
    numbers: &[u64],
    item: &Obj,
    steps: &mut Steps<L>,
) -> Result<Obj, NotDone>
    ensures ok { IfOk result (IsDone state.old state.new
        (act_item locate state.old.plan state.old.now numbers.now state.old.time (item_request item.now))) }
    ensures stop { IfErr result (Stops state.old state.new
        (act_item locate state.old.plan state.old.now numbers.now state.old.time (item_request item.now))) }
{
    match item_request(item)? {
        Some(request) => item_on(state, numbers, &request, steps),
        None => Err(NotDone::Refused(Fault::OtherShape)),
    }
}

/// An item of a batch, whose refusal is its result.
fn item_result<L: Ledger>(
    state: &mut State,
    numbers: &[u64],
    item: &Obj,
    steps: &mut Steps<L>,
) -> Result<Obj, AllocError>
    ensures ok { IfOk result (IsDone state.old state.new
        (act_item locate state.old.plan state.old.now numbers.now state.old.time (item_request item.now))) }
    ensures stays { state.new ≡ record state.old { now = state.new.now } }
{
    match act_item(state, numbers, item, steps) {
        Ok(reply) => Ok(reply),
        Err(NotDone::Refused(fault)) => refusal(state.allocator(), fault),
        Err(NotDone::Memory) => Err(AllocError),
    }
}

/// The items in order, each seeing the ones before.
fn act_all<L: Ledger>(
    state: &mut State,
    numbers: &[u64],
    items: &[Obj],
    steps: &mut Steps<L>,
) -> Result<Vec<Obj>, AllocError>
    ensures nameless { IfOk result (λ os. list_all (λ o. is_none o.head.name) os.items ≡ true) }
    ensures reply { IfOk result (λ os. (state.new.now, os.items)
        ≡ act_all locate state.old.plan state.old.now numbers.now state.old.time items.now) }
    ensures stays { state.new ≡ record state.old { now = state.new.now } }
{
    let mut results = Vec::new(state.allocator());
    for item in items {
        let reply = item_result(state, numbers, item, steps)?;
        put(&mut results, reply)?;
    }
    Ok(results)
}

/// A batch: its items are done in order, and there is one result for each.
///
/// Source: oBIX 1.1, chapter 5 (Batch).
fn batch<L: Ledger>(
    state: &mut State,
    numbers: &[u64],
    body: Option<&Obj>,
    steps: &mut Steps<L>,
) -> Result<Obj, NotDone>
    ensures ok { IfOk result (IsDone state.old state.new
        (batch locate state.old.plan state.old.now numbers.now state.old.time (option_copied body.entry))) }
    ensures stop { IfErr result (Stops state.old state.new
        (batch locate state.old.plan state.old.now numbers.now state.old.time (option_copied body.entry))) }
{
    let Some(body) = body else {
        return Err(NotDone::Refused(Fault::OtherShape));
    };
    if let Some(fault) = batch_fault(body) {
        return Err(NotDone::Refused(fault));
    }
    let results = act_all(state, numbers, body.children(), steps)?;
    let reply = batch_out(state.allocator(), results)?;
    Ok(reply)
}

/// What is wrong with the body of a batch: it is no list, or has more than 1,000 items.
fn batch_fault(body: &Obj) -> Option<Fault>
    ensures { result ≡ first_fault (batch_rows locate body.now) }
{
    if !body.kind().same(Kind::List) {
        Some(Fault::OtherShape)
    } else if body.len() > 1_000 {
        Some(Fault::TooManyBatchItems)
    } else {
        None
    }
}

/// Whether a verb is that of a call.
fn is_post(verb: Verb) -> bool
    ensures { result ≡ is_post verb }
{
    match verb {
        Verb::Post => true,
        Verb::Get | Verb::Put => false,
    }
}

/// Whether a verb at a place is the call of the op that does batches.
fn is_batch_call(place: &Resource, verb: Verb) -> bool
    ensures { result ≡ is_batch_call place.now verb }
{
    match place {
        Resource::Batch => is_post(verb),
        Resource::About
        | Resource::Service
        | Resource::Make
        | Resource::AlarmAt(_)
        | Resource::AckOf(_)
        | Resource::WritePointOf(_)
        | Resource::QueryOf(_)
        | Resource::FeedOf(_)
        | Resource::AlarmQuery
        | Resource::AlarmFeed
        | Resource::Node(_) => false,
    }
}

/// A request at its path, told by what the path names: a batch is done as a whole, and every other request is one action.
#[tactic(auto, using(crate::proofs::Batched::requests))]
fn act_there<L: Ledger>(
    state: &mut State,
    numbers: &[u64],
    request: &Request,
    path: &Text,
    steps: &mut Steps<L>,
) -> Result<Obj, NotDone>
    ensures ok { IfOk result (IsDone state.old state.new
        (act_located locate state.old.plan state.old.now numbers.now state.old.time request.now (Some path.now))) }
    ensures stop { IfErr result (Stops state.old state.new
        (act_located locate state.old.plan state.old.now numbers.now state.old.time request.now (Some path.now))) }
{
    let Some(place) = place_at(state, path, steps)? else {
        return Err(NotDone::Refused(Fault::NoSuchObject));
    };
    if is_batch_call(&place, request.verb) {
        return batch(state, numbers, request.body.as_ref(), steps);
    }
    act_at(state, request, path, place, steps)
}

/// A request at its path.
fn act_on<L: Ledger>(
    state: &mut State,
    numbers: &[u64],
    request: &Request,
    path: &Text,
    steps: &mut Steps<L>,
) -> Result<Obj, NotDone>
    ensures ok { IfOk result (IsDone state.old state.new
        (act_located locate state.old.plan state.old.now numbers.now state.old.time request.now (Some path.now))) }
    ensures stop { IfErr result (Stops state.old state.new
        (act_located locate state.old.plan state.old.now numbers.now state.old.time request.now (Some path.now))) }
{
    match at_once(state, path, request.verb, request.body.as_ref(), steps) {
        Ok(Some(reply)) => Ok(reply),
        Ok(None) => act_there(state, numbers, request, path, steps),
        Err(stop) => Err(stop),
    }
}

/// What a request to the site itself leaves of it, and the reply, by the path that its text leads to, if it leads to one; `numbers`
/// are those of the watches that stand.
///
/// Source: oBIX 1.1, chapters 5 (Batch) and 10 (Networking).
pub fn act_located<L: Ledger>(
    state: &mut State,
    numbers: &[u64],
    request: &Request,
    path: &Option<Text>,
    steps: &mut Steps<L>,
) -> Result<Obj, NotDone>
    ensures ok { IfOk result (IsDone state.old state.new
        (act_located locate state.old.plan state.old.now numbers.now state.old.time request.now path.now)) }
    ensures stop { IfErr result (Stops state.old state.new
        (act_located locate state.old.plan state.old.now numbers.now state.old.time request.now path.now)) }
{
    match path {
        Some(path) => act_on(state, numbers, request, path, steps),
        None => Err(NotDone::Refused(Fault::NoSuchObject)),
    }
}
