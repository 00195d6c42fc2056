//! Events of feeds as objects, those alone that are asked for.
ghost use Rattle.std.specs.Prelude.{◌≡◌, ℕ, ◌-◌, ◌<◌, [], ◌∷◌, ◌++◌, false, drop, map, slice_get, Some, All, IsTrue, IfOk};
ghost use Rattle.std.specs.List.{filter};
ghost use Rattle.ob_alarms.specs.Changes.{alarm_of};
ghost use Rattle.ob_alarms.specs.declared.alarm.Alarm.{Alarm};
ghost use Rattle.ob_alarms.specs.declared.alarm.Event.{Event};
ghost use Rattle.ob_history.specs.Records.{IsRecord, passes as passes_record};
ghost use Rattle.ob_replies.specs.Queries.{values_fit};
ghost use Rattle.ob_site_rules.specs.Entries.{is_within, raised_at, record_object, event_object, event_objects};
ghost use Rattle.ob_site_rules.specs.Watched.{passes as passes_event};

use ob_alarms::Alarms;
use ob_history::{Filter, Log, Record};
use ob_object::{Kind, Obj, Slot};
use ob_replies::{passes, record_object};
use ob_values::Value;
use std::alloc::{AllocError, Global};

/// Puts the records that pass a filter last, as objects.
fn put_passing(
    alloc: Global,
    events: &mut Vec<Obj>,
    bounds: &Filter,
    records: &[Record],
) -> Result<(), AllocError>
    requires { IsTrue (values_fit records.now) }
    ensures { IfOk result (λ _. events.new.items ≡ events.old.items ++ filter (passes_event bounds.now) (map record_object records.now)) }
{
    for record in records {
        if passes(bounds, record.time) {
            events.push(record_object(alloc, record)?)?;
        }
    }
    Ok(())
}

/// The records of a log among which are those that pass a filter, from an event number on, in two slices: where all
/// kept ones are asked for, those that pass, found by halves; and else all from there on.
fn looked_at<'a>(log: &'a Log, bounds: &Filter, given: u64) -> (&'a [Record], &'a [Record])
    ensures passing { filter (passes_record bounds.now) (result.0.now ++ result.1.now) ≡ filter (passes_record bounds.now) (drop (given - log.entry.now.gone) log.entry.now.kept) }
    ensures records { All IsRecord (result.0.now ++ result.1.now) }
{
    let _counted = log.len();
    if given > log.gone() {
        return log.since(given);
    }
    log.range(&Filter {
        limit: u64::MAX,
        start: bounds.start,
        end: bounds.end,
    })
}

/// The records of a log that pass a filter, from an event number on, those that rolled off counted.
pub(crate) fn log_events(
    alloc: Global,
    log: &Log,
    bounds: &Filter,
    given: u64,
) -> Result<Vec<Obj>, AllocError>
    ensures { IfOk result (λ events. events.items ≡ filter (passes_event bounds.now) (drop (given - log.now.gone) (map record_object log.now.kept))) }
{
    let (front, back) = looked_at(log, bounds, given);
    let mut events = Vec::new(alloc);
    put_passing(alloc, &mut events, bounds, front)?;
    put_passing(alloc, &mut events, bounds, back)?;
    Ok(events)
}

/// Whether an event passes a filter, by its timestamp.
fn passes_event(filter: &Filter, event: &Obj) -> bool
    ensures { result ≡ passes_event filter.now event.now }
{
    match event.child("timestamp") {
        Some(stamp) => match stamp.slot() {
            Slot::Is(Value::Abstime(time)) => passes(filter, *time),
            _ => false,
        },
        None => false,
    }
}

/// The alarm of an event as it was just after it, or an empty obj where there is no such event.
fn event_object(alloc: Global, alarms: &Alarms, event: u64) -> Result<Obj, AllocError>
    ensures { IfOk result (λ o. o ≡ event_object alarms.now event) }
{
    match alarms.event_obj(event)? {
        Some(object) => Ok(object),
        None => Ok(Obj::new(alloc, Kind::Obj)),
    }
}

/// Whether a filter passes the moment at which the alarm of a number was raised.
fn was_raised_within(alarms: &Alarms, bounds: &Filter, number: u64) -> bool
    ensures { (a : Alarm) → alarm_of number alarms.now.alarms ≡ Some a → result ≡ is_within bounds.now (raised_at a) }
{
    match alarms.raised(number) {
        Some(raised) => passes(bounds, raised.abstime()),
        None => true,
    }
}

/// Whether an event may pass a filter, by the moment at which its alarm was raised: nothing is built to tell it.
fn may_pass(alarms: &Alarms, bounds: &Filter, event: u64) -> bool
    ensures { result ≡ false → passes_event bounds.now (event_object alarms.now event) ≡ false }
{
    match alarms.events(0).get(event as usize) {
        Some(told) => was_raised_within(alarms, bounds, told.number),
        None => true,
    }
}

/// Puts the alarm of an event last, if the event passes a filter.
fn put_event(
    alloc: Global,
    events: &mut Vec<Obj>,
    alarms: &Alarms,
    bounds: &Filter,
    event: u64,
) -> Result<(), AllocError>
    ensures { IfOk result (λ _. events.new.items ≡ events.old.items ++ filter (passes_event bounds.now) (event_object alarms.now event ∷ [])) }
{
    if !may_pass(alarms, bounds, event) {
        return Ok(());
    }
    let object = event_object(alloc, alarms, event)?;
    if !passes_event(bounds, &object) {
        return Ok(());
    }
    events.push(object)?;
    Ok(())
}

/// The number of an event in front of which none passes a filter, by the moments at which alarms were raised.
fn first_passing(alarms: &Alarms, bounds: &Filter) -> u64
    ensures { (event : ℕ) (told : Event) → slice_get alarms.now.events event ≡ Some told → event < result → passes_event bounds.now (event_object alarms.now event) ≡ false }
{
    let (from, to) = alarms.raised_within(&bounds.start, &bounds.end);
    if from == to {
        return alarms.events(0).len() as u64;
    }
    alarms.first_event(&bounds.start)
}

/// Whether the alarms that were raised within a filter's bounds are so few that their events are sooner put in order than
/// all events from a number on are gone through.
fn has_few_within(alarms: &Alarms, bounds: &Filter, first: u64) -> bool {
    let (from, to) = alarms.raised_within(&bounds.start, &bounds.end);
    let rest = (alarms.events(0).len() as u64).saturating_sub(first);
    to.saturating_sub(from) < rest / 16
}

/// The alarm events that pass a filter, from an event number on: those alone are looked at whose alarm was raised within
/// its bounds.
fn events_within(
    alloc: Global,
    alarms: &Alarms,
    bounds: &Filter,
    given: u64,
) -> Result<Vec<Obj>, AllocError>
    ensures { IfOk result (λ events. events.items ≡ filter (passes_event bounds.now) (drop given (event_objects alarms.now))) }
{
    let (from, to) = alarms.raised_within(&bounds.start, &bounds.end);
    let numbers = alarms.events_of(from, to)?;
    let mut events = Vec::new(alloc);
    for event in &numbers {
        if given <= *event {
            put_event(alloc, &mut events, alarms, bounds, *event)?;
        }
    }
    Ok(events)
}

/// The alarm events that pass a filter, from an event number on. Where no alarm was raised within its bounds none is
/// looked at; where few were, the events of those; and else none in front of the first of such an alarm.
pub(crate) fn alarm_events(
    alloc: Global,
    alarms: &Alarms,
    bounds: &Filter,
    given: u64,
) -> Result<Vec<Obj>, AllocError>
    ensures { IfOk result (λ events. events.items ≡ filter (passes_event bounds.now) (drop given (event_objects alarms.now))) }
{
    let count = alarms.events(0).len() as u64;
    if count < given {
        return Ok(Vec::new(alloc));
    }
    let first = first_passing(alarms, bounds).max(given).min(count);
    if has_few_within(alarms, bounds, first) {
        return events_within(alloc, alarms, bounds, given);
    }
    let mut events = Vec::new(alloc);
    for event in first..count {
        put_event(alloc, &mut events, alarms, bounds, event)?;
    }
    Ok(events)
}
