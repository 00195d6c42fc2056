//! What is asked of the watch service.
ghost use Rattle.std.specs.Prelude.{◌≡◌, IfOk, OnErr};
ghost use Rattle.ob_object.specs.Object.{Object};
ghost use Rattle.ob_site_rules.specs.declared.plan.Plan.{Plan as SitePlan};
ghost use Rattle.ob_site_state.specs.Kept.{Kept};
ghost use Rattle.ob_site_watches.specs.Answers.{AllKnown, IsMade, IsServed};
ghost use Rattle.ob_watch.specs.Tables.{Table};

use ob_object::Obj;
use ob_replies::{refusal, watch_part};
use ob_site_rules::{Fault, Plan, WatchPart};
use ob_times::Moment;
use ob_watch::{FIRST_LEASE, Watches};
use std::alloc::{AllocError, Global};

/// Makes a watch at this moment, and its reply; a refusal where no more can be made, even where idle ones give way. Those that
/// are to give way are held until `make_way`. An error only for want of memory, and it leaves the watches as they were.
///
/// Source: oBIX 1.1, chapter 12 (WatchService.make).
#[tactic(auto, using(crate::proofs::Made::refused, crate::proofs::Made::made_one))]
pub fn make(
    alloc: Global,
    plan: &Plan,
    now: Moment,
    watches: &mut Watches,
) -> Result<Obj, AllocError>
    ensures done { IfOk result (IsMade plan.now now watches.old watches.new) }
    ensures err { OnErr result (watches.new ≡ watches.old) }
    ensures known { (k : Kept) → AllKnown k watches.old → AllKnown k watches.new }
{
    if watches.is_full(now) {
        return refusal(alloc, Fault::TooManyWatches);
    }
    let number = watches.next_number();
    let reply = watch_part(alloc, plan, number, FIRST_LEASE, WatchPart::Whole)?;
    match watches.make(now) {
        Ok(_number) => Ok(reply),
        Err(_fault) => Err(AllocError),
    }
}

/// Ends a request for a new watch, before which this was the next number: where one was made, those give way to it that are
/// to. It takes no memory.
///
/// Source: oBIX 1.1, chapter 12 (WatchService.make); that idle watches give way is this profile's own.
pub fn make_way(watches: &mut Watches, number: u64, now: Moment)
    ensures served { (plan : SitePlan) (before : Table) (o : Object) → number ≡ before.next → IsMade plan now before watches.old o → IsServed plan now before watches.new o }
    ensures known { (plan : SitePlan) (before : Table) (o : Object) (k : Kept) → number ≡ before.next → IsMade plan now before watches.old o → AllKnown k before → AllKnown k watches.new }
{
    let next = watches.next_number();
    if next <= number {
        return;
    }
    watches.give_way(now);
}
