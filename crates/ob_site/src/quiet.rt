//! Requests that leave the state as it is: those to a watch, to the watch service, or to nothing.
ghost use Rattle.std.specs.Prelude.{◌≡◌, ◌⊎◌, ℕ, ◌+◌, ◌<◌, ◌≤◌, ◌^◌, slice_index, IfOk, OnOk, OnErr, MatchBool, false, true};
ghost use Rattle.ob_watching.specs.Operations.{NewWatch, Nowhere, OneWatch};
ghost use Rattle.ob_site_rules.specs.declared.request.Request.{Request as Asked};
ghost use Rattle.ob_site_rules.specs.State.{roll};
ghost use Rattle.ob_site_rules.specs.Watched.{WatchOperation};
ghost use Rattle.ob_watch.specs.Adding.{is_full_at};
ghost use Rattle.ob_watch.specs.Tables.{Table, lapsed_at};
ghost use Rattle.ob_requests.specs.Targets.{operation_of};
ghost use Rattle.ob_site_state.specs.Kept.{Kept};
ghost use Rattle.ob_site_watches.specs.Answers.{AllKnown, IsMade};
ghost use Rattle.ob_site_state.specs.Stamping.{tree_of};
ghost use Rattle.ob_watch.specs.AsRules.{world_of};
ghost use Rattle.ob_site_watches.specs.Polls.{Takes};
ghost use Rattle.ob_site.specs.Between.{IsBegun};
ghost use Rattle.ob_site.specs.Keeping.{Keeps, KeepsNext, KeepsPlace, MayKeep};
ghost use Rattle.ob_site.specs.Steps.{IsAnswered, IsUnanswered, step_of};

use crate::keeper::Keeper;
use ob_contracts::Steps;
use ob_object::Obj;
use ob_replies::refusal;
use ob_requests::Operation;
use ob_site_rules::{Fault, Request};
use ob_site_state::State;
use ob_site_watches::{Call, make, make_way, on_watch};
use ob_times::Moment;
use ob_watch::Watches;
use std::alloc::AllocError;
use std::sync::ledger::Ledger;

/// Ends a step that has changed nothing of the state. It takes no memory.
pub(crate) fn end_quietly(state: &mut State, watches: &mut Watches)
    ensures state { state.new ≡ record state.old { now = roll state.old.now; since = state.old.time; before = roll state.old.now } }
    ensures watches { watches.new ≡ lapsed_at state.old.time watches.old }
{
    watches.sweep(state.time());
    state.commit();
}

/// Numbers of watches are of 64 bits.
fn fit_law(_numbers: &[u64])
    ensures { (place : ℕ) → slice_index _numbers.now place < 2 ^ 64 }
{}

/// Answers a request to a path that names nothing.
pub(crate) fn to_nobody(state: &mut State, watches: &mut Watches) -> Result<Obj, AllocError>
    requires { IsBegun state.old watches.old }
    ensures done { IfOk result (λ o. (r : Asked) → IsAnswered state.old state.new watches.old watches.new r Nowhere o) }
    ensures err { OnErr result (IsUnanswered state.old state.new watches.old watches.new) }
{
    let reply = refusal(state.allocator(), Fault::NoSuchObject)?;
    end_quietly(state, watches);
    Ok(reply)
}

/// Answers a request to a watch whose number 64 bits don't hold: no watch has it.
pub(crate) fn to_no_watch(state: &mut State, watches: &mut Watches) -> Result<Obj, AllocError>
    requires { IsBegun state.old watches.old }
    ensures done { IfOk result (λ o. (r : Asked) (n : ℕ) (op : WatchOperation) → 2 ^ 64 ≤ n → IsAnswered state.old state.new watches.old watches.new r (OneWatch n op) o) }
    ensures none { IfOk result (λ _. (n : ℕ) (op : WatchOperation) (steps : ℕ) → 2 ^ 64 ≤ n → Takes state.old.plan (world_of state.old.plan state.old.time state.old.now (tree_of state.old) (lapsed_at state.old.time watches.old)) (OneWatch n op) steps steps) }
    ensures err { OnErr result (IsUnanswered state.old state.new watches.old watches.new) }
{
    fit_law(watches.numbers());
    let reply = refusal(state.allocator(), Fault::NoSuchObject)?;
    end_quietly(state, watches);
    Ok(reply)
}

/// Whether a request for a new watch needs no keeping: there is no place for one more, or its number may have been given by what is
/// kept.
fn is_left_out<K: Keeper>(watches: &Watches, keeper: &K, now: Moment) -> bool
    ensures { MatchBool result ((is_full_at now watches.now ≡ true) ⊎ (watches.now.next + 1 ≤ K.below keeper.now))
        ((is_full_at now watches.now ≡ false) × (K.below keeper.now ≤ watches.now.next)) }
{
    watches.next_number() < keeper.below() || watches.is_full(now)
}

/// Makes a watch, if there is a place for one more, and has a keeper keep the request, where it needs keeping. At an error the
/// watches are as they were: a make that can't be kept is taken back.
fn make_kept<K: Keeper>(
    state: &State,
    watches: &mut Watches,
    keeper: &mut K,
    request: &Request,
) -> Result<Obj, AllocError>
    requires ready { K.is_ready keeper.old }
    ensures done { IfOk result (IsMade state.now.plan state.now.time watches.old watches.new) }
    ensures known { (k : Kept) → AllKnown k watches.old → AllKnown k watches.new }
    ensures same { OnErr result (watches.new ≡ watches.old) }
    ensures keeps { OnOk result (KeepsPlace K.below K.keeps keeper.old keeper.new state.now.plan state.now.time watches.old request.now) }
    ensures may_keep { OnErr result ((keeper.new ≡ keeper.old) ⊎ KeepsNext K.below K.may_keep keeper.old keeper.new state.now.plan state.now.time watches.old request.now) }
{
    let now = state.time();
    let left_out = is_left_out(watches, keeper, now);
    let reply = make(state.allocator(), state.plan(), now, watches)?;
    if left_out {
        return Ok(reply);
    }
    match keeper.keep(request, now, watches.next_number(), &reply) {
        Ok(()) => Ok(reply),
        Err(AllocError) => {
            watches.unmake();
            Err(AllocError)
        }
    }
}

/// Makes a watch, if there is a place for one more, for which idle watches may give way. These go last, when nothing can fail.
///
/// Source: oBIX 1.1, chapter 12 (WatchService.make).
pub(crate) fn to_service<K: Keeper>(
    state: &mut State,
    watches: &mut Watches,
    keeper: &mut K,
    request: &Request,
) -> Result<Obj, AllocError>
    requires begun { IsBegun state.old watches.old }
    requires ready { K.is_ready keeper.old }
    ensures done { IfOk result (IsAnswered state.old state.new watches.old watches.new request.now NewWatch) }
    ensures err { OnErr result (IsUnanswered state.old state.new watches.old watches.new) }
    ensures keeps { OnOk result (Keeps K.below K.keeps keeper.old keeper.new (step_of state.old watches.old request.now NewWatch)) }
    ensures may_keep { OnErr result (MayKeep K.below K.may_keep keeper.old keeper.new (step_of state.old watches.old request.now NewWatch)) }
{
    let number = watches.next_number();
    let reply = make_kept(state, watches, keeper, request)?;
    make_way(watches, number, state.time());
    end_quietly(state, watches);
    Ok(reply)
}

/// Asks the watch of a number. A poll counts for each object that it reports the objects round it and the parts of its entry.
///
/// Source: oBIX 1.1, chapter 12 (Watches).
pub(crate) fn to_watch<L: Ledger>(
    state: &mut State,
    watches: &mut Watches,
    number: u64,
    asks: Operation,
    steps: &mut Steps<L>,
) -> Result<Obj, AllocError>
    requires { IsBegun state.old watches.old }
    ensures done { IfOk result (λ o. (r : Asked) → IsAnswered state.old state.new watches.old watches.new r (OneWatch number (operation_of asks)) o) }
    ensures err { OnErr result (IsUnanswered state.old state.new watches.old watches.new) }
    ensures steps { IfOk result (λ _. Takes state.old.plan (world_of state.old.plan state.old.time state.old.now (tree_of state.old) (lapsed_at state.old.time watches.old)) (OneWatch number (operation_of asks)) steps.old steps.new) }
{
    let call = Call {
        number,
        moment: state.time(),
        asks,
    };
    let reply = on_watch(state, watches, &call, steps)?;
    end_quietly(state, watches);
    Ok(reply)
}
