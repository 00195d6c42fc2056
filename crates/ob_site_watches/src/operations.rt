//! What is asked of a watch.
ghost use Rattle.std.specs.Prelude.{◌≡◌, ◌+◌, List, ℕ, map, Option, Some, false, IfOk, OnErr};
ghost use Rattle.ob_requests.specs.Targets.{operation_of};
ghost use Rattle.ob_watch.specs.Flags.{flagged, flags, flags_of};
ghost use Rattle.ob_watch.specs.Tables.{live};
ghost use Rattle.ob_watching.specs.Tables.{lookup};
ghost use Rattle.ob_watching.specs.Watches.{Room, told_lease};
ghost use Rattle.ob_site_rules.specs.Computed.{watch_out};
ghost use Rattle.ob_site_rules.specs.Replies.{sent};
ghost use Rattle.ob_watch.specs.OfPlan.{of_plan};
ghost use Rattle.ob_requests.specs.Calls.{lease_in};
ghost use Rattle.ob_watch.specs.Marks.{AreStampsPast};
ghost use Rattle.ob_site_rules.specs.Watched.{lease_asked};
ghost use Rattle.ob_site_watches.specs.Entries.{all_changes, all_readings};
ghost use Rattle.ob_site_watches.specs.Known.{AreSoundItems};
ghost use Rattle.ob_site_watches.specs.Leaving.{Renews, is_add, leaving};
ghost use Rattle.ob_site_watches.specs.Answers.{AllKnown, IsDone, IsReply};
ghost use Rattle.ob_site_rules.specs.State.{State as SiteState};
ghost use Rattle.ob_site_rules.specs.declared.plan.Plan.{Plan as SitePlan};
ghost use Rattle.ob_site_watches.specs.Polls.{SiteWatch, WatchTakes, poll_steps, refresh_steps};
ghost use Rattle.ob_site_state.specs.Stamping.{tree_of};

use crate::adding::{Adding, add};
use crate::entries::{readings, watch_changes};
use ob_contracts::{Library, Steps};
use ob_object::Obj;
use ob_replies::{nil, refusal, watch_out, watch_part};
use ob_requests::{Operation, lease_asked};
use ob_site_rules::{Fault, WatchPart};
use ob_site_state::State;
use ob_times::Moment;
use ob_watch::{Item, Watch, Watches};
use std::alloc::AllocError;
use std::sync::ledger::Ledger;

/// What is asked of the watch of a number, and when.
#[derive(Drop)]
pub struct Call {
    pub number: u64,
    pub moment: Moment,
    pub asks: Operation,
}

/// The reply to a lease that is asked for.
fn lease_told<L: Ledger>(
    state: &State,
    number: u64,
    input: &Option<Obj>,
    steps: &mut Steps<L>,
) -> Result<Obj, AllocError>
    ensures { IfOk result (λ o. o ≡ sent state.now.plan (told_lease (of_plan state.now.plan) number (lease_asked state.now.now input.now))) }
{
    match lease_asked(state.library(), input, steps) {
        Ok(lease) => watch_part(
            state.allocator(),
            state.plan(),
            number,
            lease,
            WatchPart::Lease,
        ),
        Err(fault) => refusal(state.allocator(), fault),
    }
}

/// The reply to Watch.pollChanges.
fn poll<L: Ledger>(state: &State, watch: &Watch, steps: &mut Steps<L>) -> Result<Obj, AllocError>
    requires past { AreStampsPast (tree_of state.now) }
    requires known { AreSoundItems state.now watch.now.items }
    ensures reply { IfOk result (λ o. o ≡ watch_out (all_changes state.now watch.now.items)) }
    ensures steps { IfOk result (λ _. steps.new ≡ steps.old + poll_steps state.now.plan state.now.now (map (flags (tree_of state.now)) watch.now.items)) }
{
    let entries = watch_changes(state, watch, steps)?;
    watch_out(state.allocator(), entries)
}

/// The reply to Watch.pollRefresh.
fn refresh<L: Ledger>(
    state: &State,
    items: &[Item],
    steps: &mut Steps<L>,
) -> Result<Obj, AllocError>
    requires { AreSoundItems state.now items.now }
    ensures reply { IfOk result (λ o. o ≡ watch_out (all_readings state.now items.now)) }
    ensures steps { IfOk result (λ _. steps.new ≡ steps.old + refresh_steps state.now.plan state.now.now (map (flags (tree_of state.now)) items.now)) }
{
    let entries = readings(state, items, steps)?;
    watch_out(state.allocator(), entries)
}

/// The reply to an operation but Watch.add.
fn reply<L: Ledger>(
    state: &State,
    watch: &Watch,
    call: &Call,
    steps: &mut Steps<L>,
) -> Result<Obj, AllocError>
    requires past { AreStampsPast (tree_of state.now) }
    requires known { AreSoundItems state.now watch.now.items }
    requires other { is_add (operation_of call.now.asks) ≡ false }
    ensures reply { IfOk result (λ o. (numbers : List ℕ) (room : Room) → IsReply state.now call.now.moment numbers room call.now.number watch.now (operation_of call.now.asks) o) }
    ensures steps { IfOk result (λ _. WatchTakes state.now.plan state.now.now (Some (flagged (tree_of state.now) watch.now)) (operation_of call.now.asks) steps.old steps.new) }
{
    match &call.asks {
        Operation::Look(part) => watch_part(
            state.allocator(),
            state.plan(),
            call.number,
            watch.lease(),
            *part,
        ),
        Operation::Renew(input) => lease_told(state, call.number, input, steps),
        Operation::Add(_) => unreachable!(),
        Operation::Remove(_) | Operation::Delete => nil(state.allocator()),
        Operation::PollChanges => poll(state, watch, steps),
        Operation::PollRefresh => refresh(state, watch.items(), steps),
        Operation::Refuse(fault) => refusal(state.allocator(), *fault),
    }
}

/// Lets a watch have the lease that is asked for, if it can be.
#[tactic(auto, using(crate::proofs::Leased::asked_fits))]
fn renew<L: Ledger>(
    library: &Library,
    watches: &mut Watches,
    number: u64,
    input: &Option<Obj>,
    steps: &mut Steps<L>,
) -> bool
    ensures { Renews number watches.old watches.new (lease_in library.now input.now) }
{
    match lease_asked(library, input, steps) {
        Ok(lease) => watches.set_lease(number, lease),
        Err(_fault) => true,
    }
}

/// What an operation leaves of its watch, without memory; Watch.add is told of apart.
fn leave<L: Ledger>(state: &State, watches: &mut Watches, call: &Call, steps: &mut Steps<L>) -> bool
    ensures left { watches.new ≡ leaving state.now call.now.moment call.now.number (operation_of call.now.asks) watches.old }
    ensures steps { (plan : SitePlan) (s : SiteState) (w : Option SiteWatch) (before : ℕ) → WatchTakes plan s w (operation_of call.now.asks) before steps.old → WatchTakes plan s w (operation_of call.now.asks) before steps.new }
{
    let held = watches.touch(call.number, call.moment);
    match &call.asks {
        Operation::Renew(input) => renew(state.library(), watches, call.number, input, steps),
        Operation::Remove(texts) => watches.remove(call.number, texts),
        Operation::PollChanges | Operation::PollRefresh => watches.reported(
            state.tree(),
            state,
            call.number,
        ),
        Operation::Delete => watches.delete(call.number),
        Operation::Look(_) | Operation::Add(_) | Operation::Refuse(_) => held,
    }
}

/// What an operation but Watch.add makes of the watches, and the reply.
fn on_other<L: Ledger>(
    state: &State,
    watches: &mut Watches,
    call: &Call,
    steps: &mut Steps<L>,
) -> Result<Obj, AllocError>
    requires past { AreStampsPast (tree_of state.now) }
    requires known { AllKnown state.now watches.old }
    requires other { is_add (operation_of call.now.asks) ≡ false }
    ensures done { IfOk result (IsDone state.now call.now.moment watches.old watches.new call.now.number (operation_of call.now.asks)) }
    ensures err { OnErr result (watches.new ≡ watches.old) }
    ensures known { AllKnown state.now watches.new }
    ensures steps { IfOk result (λ _. WatchTakes state.now.plan state.now.now (lookup call.now.number (flags_of (tree_of state.now) (live call.now.moment watches.old.watches))) (operation_of call.now.asks) steps.old steps.new) }
{
    let _numbers = watches.numbers();
    let Some(watch) = watches.get(call.number, call.moment) else {
        return refusal(state.allocator(), Fault::NoSuchObject);
    };
    let _lease = watch.lease();
    state.feeds_law();
    let reply = reply(state, watch, call, steps)?;
    leave(state, watches, call, steps);
    Ok(reply)
}

/// What an operation makes of the watches, and the reply. A request to a watch renews its lease, whatever the reply is.
/// Watch.pollChanges counts for each object that it reports the objects round it and the parts of its entry, Watch.pollRefresh
/// for each object of the watch; Watch.add and a lease what they look at and build, and other operations none. An error only for want of memory, and it leaves the watches as they were.
///
/// Source: oBIX 1.1, chapter 12 (Watches).
pub fn on_watch<L: Ledger>(
    state: &State,
    watches: &mut Watches,
    call: &Call,
    steps: &mut Steps<L>,
) -> Result<Obj, AllocError>
    requires past { AreStampsPast (tree_of state.now) }
    requires known { AllKnown state.now watches.old }
    ensures done { IfOk result (IsDone state.now call.now.moment watches.old watches.new call.now.number (operation_of call.now.asks)) }
    ensures err { OnErr result (watches.new ≡ watches.old) }
    ensures known { AllKnown state.now watches.new }
    ensures steps { IfOk result (λ _. WatchTakes state.now.plan state.now.now (lookup call.now.number (flags_of (tree_of state.now) (live call.now.moment watches.old.watches))) (operation_of call.now.asks) steps.old steps.new) }
{
    match &call.asks {
        Operation::Add(asked) => {
            let adding = Adding {
                number: call.number,
                moment: call.moment,
                asked,
            };
            add(state, watches, &adding, steps)
        }
        Operation::Look(_)
        | Operation::Renew(_)
        | Operation::Remove(_)
        | Operation::PollChanges
        | Operation::PollRefresh
        | Operation::Delete
        | Operation::Refuse(_) => on_other(state, watches, call, steps),
    }
}
