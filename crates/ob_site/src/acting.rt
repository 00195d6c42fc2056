//! Requests to the site itself.
ghost use Rattle.std.specs.Prelude.{◌≡◌, IfOk, OnOk, OnErr};
ghost use Rattle.ob_watching.specs.Operations.{Itself};
ghost use Rattle.ob_watching.specs.Tables.{numbers_of};
ghost use Rattle.ob_site_rules.specs.Actions.{act_itself, act_located};
ghost use Rattle.ob_site_rules.specs.Locating.{locate};
ghost use Rattle.ob_site_actions.specs.Stops.{IsDone};
ghost use Rattle.ob_watch.specs.Tables.{lapsed_at};
ghost use Rattle.ob_site.specs.Alike.{AnswersAlike};
ghost use Rattle.ob_site.specs.Between.{IsBegun};
ghost use Rattle.ob_site.specs.Keeping.{Keeps, MayKeep};
ghost use Rattle.ob_site.specs.Steps.{IsAnswered, IsUnanswered, step_of};

use crate::ending::{RepliedRequest, end_step, is_read};
use crate::keeper::Keeper;
use crate::quiet::end_quietly;
use ob_contracts::Steps;
use ob_object::Obj;
use ob_replies::refusal;
use ob_requests::posts_list;
use ob_site_actions::{NotDone, act_located};
use ob_site_rules::Request;
use ob_site_state::State;
use ob_step_laws::steps_take_none_away;
use ob_values::Text;
use ob_watch::Watches;
use std::alloc::AllocError;
use std::sync::ledger::Ledger;

/// A request, and the path that its text leads to, if it leads to one.
#[derive(Drop)]
pub(crate) struct LocatedRequest<'a> {
    pub request: &'a Request,
    pub path: &'a Option<Text>,
}

/// What a request does to the state, and its reply, before the step ends, where these are the numbers of the watches that stand. An
/// error only for want of memory.
fn act_by<L: Ledger>(
    state: &mut State,
    numbers: &[u64],
    request: &Request,
    path: &Option<Text>,
    steps: &mut Steps<L>,
) -> Result<Obj, AllocError>
    ensures done { IfOk result (IsDone state.old state.new (act_located locate state.old.plan state.old.now numbers.now state.old.time request.now path.now)) }
    ensures stays { OnErr result (state.new ≡ record state.old { now = state.new.now }) }
{
    match act_located(state, numbers, request, path, steps) {
        Ok(reply) => Ok(reply),
        Err(NotDone::Refused(fault)) => refusal(state.allocator(), fault),
        Err(NotDone::Memory) => Err(AllocError),
    }
}

/// The numbers of the watches that stand, or none where a request is answered alike whatever they are.
fn numbers_for(state: &State, watches: &Watches, request: &Request) -> Result<Vec<u64>, AllocError>
    ensures { IfOk result (λ numbers. AnswersAlike request.now numbers.items (numbers_of (lapsed_at state.now.time watches.now).watches)) }
{
    if posts_list(request) {
        return watches.live_numbers(state.time());
    }
    Ok(Vec::new(state.allocator()))
}

/// What a request at its path does to the state, and its reply, before the step ends. An error only for want of memory.
fn act<L: Ledger>(
    state: &mut State,
    watches: &Watches,
    request: &Request,
    path: &Option<Text>,
    steps: &mut Steps<L>,
) -> Result<Obj, AllocError>
    requires { path.now ≡ locate state.old.plan.base request.now.target }
    ensures done { IfOk result (IsDone state.old state.new (act_itself locate state.old.plan state.old.now (numbers_of (lapsed_at state.old.time watches.now).watches) request.now state.old.time)) }
    ensures stays { OnErr result (state.new ≡ record state.old { now = state.new.now }) }
{
    let numbers = numbers_for(state, watches, request)?;
    act_by(state, &numbers, request, path, steps)
}

/// What a request to the site itself, by its path, leaves of the state and of the watches, and its reply. An error only for want
/// of memory, or from the keeper; it leaves all but the state now, and the keeper. A read ends as what leaves the state as it is.
///
/// Source: oBIX 1.1, chapters 5 (Batch) and 10 (Networking).
pub(crate) fn on_itself<L: Ledger, K: Keeper>(
    state: &mut State,
    watches: &mut Watches,
    keeper: &mut K,
    asked: LocatedRequest<'_>,
    steps: &mut Steps<L>,
) -> Result<Obj, AllocError>
    requires begun { IsBegun state.old watches.old }
    requires ready { K.is_ready keeper.old }
    requires path { asked.path.now ≡ locate state.old.plan.base asked.request.now.target }
    ensures done { IfOk result (IsAnswered state.old state.new watches.old watches.new asked.entry.request.now Itself) }
    ensures err { OnErr result (IsUnanswered state.old state.new watches.old watches.new) }
    ensures keeps { OnOk result (Keeps K.below K.keeps keeper.old keeper.new (step_of state.old watches.old asked.entry.request.now Itself)) }
    ensures may_keep { OnErr result (MayKeep K.below K.may_keep keeper.old keeper.new (step_of state.old watches.old asked.entry.request.now Itself)) }
{
    state.sound_law();
    steps_take_none_away();
    let reply = act(state, watches, asked.request, asked.path, steps)?;
    if is_read(asked.request.verb) {
        end_quietly(state, watches);
        return Ok(reply);
    }
    let replied = RepliedRequest {
        request: asked.request,
        reply: &reply,
    };
    end_step(state, watches, keeper, replied, steps)?;
    Ok(reply)
}
