//! One step of a site, over its state and its watches.
ghost use Rattle.std.specs.Prelude.{◌≡◌, ◌+◌, ◌≤◌, IfOk, OnOk, OnErr};
ghost use Rattle.ob_site_rules.specs.Locating.{locate};
ghost use Rattle.ob_site_rules.specs.Sites.{site, step};
ghost use Rattle.ob_requests.specs.Targets.{IsTarget};
ghost use Rattle.ob_site_state.specs.Stamping.{tree_of};
ghost use Rattle.ob_watch.specs.AsRules.{world_of};
ghost use Rattle.ob_watch.specs.Tables.{lapsed_at};
ghost use Rattle.ob_site_watches.specs.Polls.{Takes, object_entries, steps_for};
ghost use Rattle.ob_site.specs.Between.{IsBegun, IsSite};
ghost use Rattle.ob_site.specs.Keeping.{Keeps, MayKeep, stepping};
ghost use Rattle.ob_site.specs.Counts.{IsPoll, RequestTakes};
ghost use Rattle.ob_site.specs.Steps.{IsAnswered, IsUnanswered, step_of};
ghost use Rattle.ob_site.specs.Views.{site_of};

use crate::acting::{LocatedRequest, on_itself};
use crate::keeper::Keeper;
use crate::quiet::{to_no_watch, to_nobody, to_service, to_watch};
use crate::room::make_room;
use ob_contracts::Steps;
use ob_object::Obj;
use ob_requests::{Target, locate_path, target_at};
use ob_site_rules::Request;
use ob_site_state::State;
use ob_times::Moment;
use ob_values::Text;
use ob_watch::Watches;
use std::alloc::AllocError;
use std::sync::ledger::Ledger;

/// A request, and the moment at which it is asked.
#[derive(Drop)]
pub(crate) struct TimedRequest<'a> {
    pub request: &'a Request,
    pub moment: Moment,
}

/// The path that a request's text leads to, if it leads to one.
fn path_of(state: &State, request: &Request) -> Result<Option<Text>, AllocError>
    ensures { IfOk result (λ path. path ≡ locate state.now.plan.base request.now.target) }
{
    locate_path(state.allocator(), state.plan(), &request.target)
}

/// Whom a request is for, by its path.
fn target(state: &State, request: &Request, path: &Option<Text>) -> Result<Target, AllocError>
    requires { path.now ≡ locate state.now.plan.base request.now.target }
    ensures { IfOk result (λ target. IsTarget target ((site locate state.now.plan).target request.now)) }
{
    target_at(state.allocator(), state.plan(), request, path)
}

/// What a request leaves of the state and of the watches, and its reply. An error only for want of memory, or from the keeper; it
/// leaves all but the state now, and the keeper.
fn answer<L: Ledger, K: Keeper>(
    state: &mut State,
    watches: &mut Watches,
    keeper: &mut K,
    request: &Request,
    steps: &mut Steps<L>,
) -> Result<Obj, AllocError>
    requires begun { IsBegun state.old watches.old }
    requires ready { K.is_ready keeper.old }
    ensures done { IfOk result (IsAnswered state.old state.new watches.old watches.new request.now ((site locate state.old.plan).target request.now)) }
    ensures err { OnErr result (IsUnanswered state.old state.new watches.old watches.new) }
    ensures keeps { OnOk result (Keeps K.below K.keeps keeper.old keeper.new (step_of state.old watches.old request.now ((site locate state.old.plan).target request.now))) }
    ensures may_keep { OnErr result (MayKeep K.below K.may_keep keeper.old keeper.new (step_of state.old watches.old request.now ((site locate state.old.plan).target request.now))) }
    ensures steps { IfOk result (λ _. Takes state.old.plan (world_of state.old.plan state.old.time state.old.now (tree_of state.old) (lapsed_at state.old.time watches.old)) ((site locate state.old.plan).target request.now) steps.old steps.new) }
{
    let path = path_of(state, request)?;
    match target(state, request, &path)? {
        Target::Itself => {
            let asked = LocatedRequest {
                request,
                path: &path,
            };
            on_itself(state, watches, keeper, asked, steps)
        }
        Target::Nowhere => to_nobody(state, watches),
        Target::Beyond => to_no_watch(state, watches),
        Target::NewWatch => to_service(state, watches, keeper, request),
        Target::OneWatch(number, asks) => to_watch(state, watches, number, asks, steps),
    }
}

/// Does one request at a moment, and gives the reply, once the keeper has kept what is to be kept of it. An error for want of
/// memory, or from the keeper, leaves the site as it was.
pub(crate) fn step<L: Ledger, K: Keeper>(
    state: &mut State,
    watches: &mut Watches,
    keeper: &mut K,
    asked: TimedRequest<'_>,
    steps: &mut Steps<L>,
) -> Result<Obj, AllocError>
    requires site { IsSite state.old watches.old }
    requires ready { K.is_ready keeper.old }
    ensures done { IfOk result (λ reply. (site_of state.new watches.new, reply) ≡ step locate (site_of state.old watches.old) asked.entry.request.now asked.entry.moment) }
    ensures refused { OnErr result (site_of state.new watches.new ≡ site_of state.old watches.old) }
    ensures kept { IsSite state.new watches.new }
    ensures keeps { OnOk result (Keeps K.below K.keeps keeper.old keeper.new (stepping (site_of state.old watches.old) asked.entry.request.now asked.entry.moment)) }
    ensures may_keep { OnErr result (MayKeep K.below K.may_keep keeper.old keeper.new (stepping (site_of state.old watches.old) asked.entry.request.now asked.entry.moment)) }
    ensures steps { IfOk result (λ _. RequestTakes (site_of state.old watches.old) asked.entry.request.now asked.entry.moment steps.old steps.new) }
    ensures polls { IfOk result (λ reply. IsPoll (site_of state.old watches.old) asked.entry.request.now → steps.new ≤ steps.old + steps_for 32 (object_entries reply)) }
{
    make_room(state, watches);
    state.begin(asked.moment);
    match answer(state, watches, keeper, asked.request, steps) {
        Ok(reply) => Ok(reply),
        Err(error) => {
            state.undo();
            Err(error)
        }
    }
}
