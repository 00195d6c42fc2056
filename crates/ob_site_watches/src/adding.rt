//! What is asked for is put into a watch, or taken back.
ghost use Rattle.std.specs.Prelude.{◌≡◌, true, Some, IfOk, IfSome, OnErr, is_some};
ghost use Rattle.ob_site_rules.specs.Build.{under_href};
ghost use Rattle.ob_site_rules.specs.declared.plan.Plan.{Plan as SitePlan};
ghost use Rattle.ob_site_rules.specs.Faults.{err};
ghost use Rattle.ob_watch.specs.AsRules.{fault_of};
ghost use Rattle.ob_watch.specs.Marks.{AreStampsPast};
ghost use Rattle.ob_watch.specs.Tables.{lapsed_at, room_beside};
ghost use Rattle.ob_watch.specs.Undo.{Undoes};
ghost use Rattle.ob_requests.specs.Calls.{firsts as firsts_of};
ghost use Rattle.ob_watching.specs.Operations.{Add};
ghost use Rattle.ob_watching.specs.Tables.{lookup, numbers_of};
ghost use Rattle.ob_site_watches.specs.Answers.{AllKnown, IsDone};
ghost use Rattle.ob_site_watches.specs.Entries.{reading_entry};
ghost use Rattle.ob_site_watches.specs.declared.offering.Offer.TheVariants.{Item as OfItem};
ghost use Rattle.ob_site_watches.specs.Putting.{ArePut, HasPut, IsPlaced, IsPut, OfHeld, refused_for};
ghost use Rattle.ob_site_state.specs.Kept.{Kept};
ghost use Rattle.ob_site_state.specs.Stamping.{tree_of};

use crate::entries::reading;
use crate::offering::{Offer, offered, refused};
use ob_contracts::Steps;
use ob_object::{Obj, copy_text};
use ob_replies::{refusal, watch_out};
use ob_requests::{WatchInItem, as_the_site_says, firsts};
use ob_site_rules::Fault;
use ob_site_state::State;
use ob_times::Moment;
use ob_values::Text;
use ob_watch::{Additions, Item, Room, WatchFault, Watches};
use std::alloc::{AllocError, Global};
use std::sync::ledger::Ledger;

/// What is asked to be added to the watch of a number, and when.
#[derive(Drop)]
pub struct Adding<'a> {
    pub number: u64,
    pub moment: Moment,
    pub asked: &'a [WatchInItem],
}

/// The watch of a number, when something is added to it, and what the other watches leave for it.
#[derive(Drop)]
struct Place {
    number: u64,
    moment: Moment,
    room: Room,
}

/// What is offered to the watch of a place.
#[derive(Drop)]
struct OfferTo<'a> {
    place: &'a Place,
    offer: Offer,
}

/// An item, and its entry.
#[derive(Drop)]
struct ReadItem {
    item: Item,
    entry: Obj,
}

/// What refuses an item or a make, as the site answers it; None where there was no memory.
fn fault_told(fault: WatchFault) -> Option<Fault>
    ensures { (plan : SitePlan) → result ≡ fault_of plan fault }
{
    match fault {
        WatchFault::NoWatch => Some(Fault::NoSuchObject),
        WatchFault::Full => Some(Fault::TooManyWatches),
        WatchFault::ItemsFull => Some(Fault::TooManyItems),
        WatchFault::AllItemsFull => Some(Fault::TooManyItemsInAll),
        WatchFault::AllBytesFull => Some(Fault::TooManyHrefBytes),
        WatchFault::Memory => None,
    }
}

/// Why an href can't be added to the watch of a place, whose lease hasn't run out, if it can't.
fn refused_for(watches: &Watches, place: &Place, text: &Text) -> Option<Fault>
    ensures { (plan : SitePlan) → IfSome result (λ fault. OfHeld place.now.number watches.now (λ w. refused_for plan place.now.room w text.now ≡ Some fault)) }
{
    let _numbers = watches.numbers();
    let watch = watches.get(place.number, place.moment)?;
    let fault = watch.refusal(place.room, text)?;
    fault_told(fault)
}

/// The entry of an href that is refused, in place of its own entry.
fn refused_after(alloc: Global, own: &Obj, fault: Fault) -> Result<Obj, AllocError>
    ensures { IfOk result (λ o. o ≡ under_href own.now.head.href (err fault)) }
{
    let href = copy_text(own.head().href())?;
    let mut entry = refusal(alloc, fault)?;
    entry.put_href(href);
    Ok(entry)
}

/// Puts an item into the watch of a place, and gives its entry.
fn put_item(
    alloc: Global,
    watches: &mut Watches,
    place: &Place,
    read: ReadItem,
    undo: &mut Additions,
) -> Result<Obj, AllocError>
    ensures { (k : Kept) → read.entry ≡ reading_entry k read.item → OfHeld place.now.number watches.old (IsPut k place.now.number place.now.room (OfItem read.item) watches.old watches.new undo.old undo.new result) }
{
    let ReadItem { item, entry } = read;
    match watches.add(place.number, item, place.room, undo) {
        Ok(()) => Ok(entry),
        Err(fault) => match fault_told(fault) {
            Some(fault) => refused_after(alloc, &entry, fault),
            None => Err(AllocError),
        },
    }
}

/// Puts what is offered into a watch, and gives its entry. Nothing is read for an href that there is no room for.
fn put_offer<L: Ledger>(
    state: &State,
    watches: &mut Watches,
    offered: OfferTo<'_>,
    undo: &mut Additions,
    steps: &mut Steps<L>,
) -> Result<Obj, AllocError>
    requires { IsPlaced state.now offered.offer }
    ensures { OfHeld offered.entry.place.now.number watches.old (IsPut state.now offered.entry.place.now.number offered.entry.place.now.room offered.entry.offer watches.old watches.new undo.old undo.new result) }
{
    let _numbers = watches.numbers();
    let OfferTo { place, offer } = offered;
    let item = match offer {
        Offer::Refused(entry) => return Ok(entry),
        Offer::Item(item) => item,
    };
    if let Some(fault) = refused_for(watches, place, item.text()) {
        return refused(state.allocator(), item.text(), fault);
    }
    let entry = reading(state, &item, steps)?;
    let read = ReadItem { item, entry };
    put_item(state.allocator(), watches, place, read, undo)
}

/// Puts the first of each of equal hrefs into a watch, in their order, and gives the reply. What an href names is read when
/// it is put, and not before. After an error `undo` takes back what was put.
fn put_all<L: Ledger>(
    state: &State,
    watches: &mut Watches,
    adding: &Adding<'_>,
    undo: &mut Additions,
    steps: &mut Steps<L>,
) -> Result<Obj, AllocError>
    requires past { AreStampsPast (tree_of state.now) }
    requires held { is_some (lookup adding.now.number watches.old.watches) ≡ true }
    ensures { OfHeld adding.now.number watches.old (ArePut state.now (numbers_of (lapsed_at adding.now.moment watches.old).watches) (room_beside adding.now.number (lapsed_at adding.now.moment watches.old).watches) (firsts_of adding.now.asked.now) adding.now.number watches.old watches.new undo.old undo.new result) }
{
    let _numbers = watches.numbers();
    let numbers = watches.live_numbers(adding.moment)?;
    let firsts = firsts(state.allocator(), adding.asked)?;
    let room = watches.room_beside(adding.number, adding.moment);
    let place = Place {
        number: adding.number,
        moment: adding.moment,
        room,
    };
    let mut entries = Vec::new(state.allocator());
    for a in &firsts {
        let offer = offered(state, &numbers, a, steps)?;
        let to = OfferTo {
            place: &place,
            offer,
        };
        let entry = put_offer(state, watches, to, undo, steps)?;
        entries.push(entry)?;
    }
    watch_out(state.allocator(), entries)
}

/// The same, and an error leaves the watches as they were.
fn put_or_leave<L: Ledger>(
    state: &State,
    watches: &mut Watches,
    adding: &Adding<'_>,
    mut undo: Additions,
    steps: &mut Steps<L>,
) -> Result<Obj, AllocError>
    requires past { AreStampsPast (tree_of state.now) }
    requires held { is_some (lookup adding.now.number watches.old.watches) ≡ true }
    requires nothing { OfHeld adding.now.number watches.old (λ w. Undoes undo w.items w.items) }
    ensures put { IfOk result (λ out. OfHeld adding.now.number watches.old (HasPut state.now (numbers_of (lapsed_at adding.now.moment watches.old).watches) (room_beside adding.now.number (lapsed_at adding.now.moment watches.old).watches) (firsts_of adding.now.asked.now) adding.now.number watches.old watches.new out)) }
    ensures err { OnErr result (watches.new ≡ watches.old) }
{
    let _numbers = watches.numbers();
    match put_all(state, watches, adding, &mut undo, steps) {
        Ok(reply) => Ok(reply),
        Err(AllocError) => {
            watches.take_back(adding.number, undo);
            Err(AllocError)
        }
    }
}

/// Watch.add: what it makes of the watches, and the reply. An error only for want of memory, and it leaves the watches
/// as they were.
///
/// Source: oBIX 1.1, chapter 12 (Watch.add).
pub(crate) fn add<L: Ledger>(
    state: &State,
    watches: &mut Watches,
    adding: &Adding<'_>,
    steps: &mut Steps<L>,
) -> Result<Obj, AllocError>
    requires past { AreStampsPast (tree_of state.now) }
    requires known { AllKnown state.now watches.old }
    ensures done { IfOk result (IsDone state.now adding.now.moment watches.old watches.new adding.now.number (Add adding.now.asked.now)) }
    ensures err { OnErr result (watches.new ≡ watches.old) }
    ensures known { AllKnown state.now watches.new }
{
    as_the_site_says();
    let _numbers = watches.numbers();
    let Some(watch) = watches.get(adding.number, adding.moment) else {
        return refusal(state.allocator(), Fault::NoSuchObject);
    };
    let _lease = watch.lease();
    let undo = Additions::new(state.allocator(), watch.items());
    let reply = put_or_leave(state, watches, adding, undo, steps)?;
    watches.touch(adding.number, adding.moment);
    Ok(reply)
}
