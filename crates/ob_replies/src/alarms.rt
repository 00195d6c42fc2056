//! Alarms and their events.
ghost use Rattle.std.specs.Prelude.{◌≡◌, ◌<◌, Some, IfOk, length, slice_get};
ghost use Rattle.ob_alarms.specs.declared.alarm.Alarm.{Alarm};
ghost use Rattle.ob_site_rules.specs.Entries.{alarm_object, alarms_out, raised_at};

use crate::build::put;
use crate::contract::Contract;
use crate::query::{has_all, is_asked, query_out};
use ob_alarms::Alarms;
use ob_history::Filter;
use ob_object::{Kind, Obj};
use ob_times::Abstime;
use std::alloc::{AllocError, Global};

/// The alarm of a number as it is, or an empty obj where the number has none.
///
/// Source: oBIX 1.1, chapter 15 (Alarm).
pub fn alarm_object(alloc: Global, alarms: &Alarms, number: u64) -> Result<Obj, AllocError>
    ensures { IfOk result (λ o. o ≡ alarm_object alarms.now number) }
{
    match alarms.alarm_obj(number)? {
        Some(object) => Ok(object),
        None => Ok(Obj::new(alloc, Kind::Obj)),
    }
}

/// AlarmQueryOut: the first alarms that the filter passes by their timestamps, as many as it asks for. Only
/// alarms that were raised within its bounds are looked at, and none behind the last of those that are given.
///
/// Source: oBIX 1.1, chapter 15 (AlarmQueryOut).
pub fn alarms_out(alloc: Global, filter: &Filter, alarms: &Alarms) -> Result<Obj, AllocError>
    ensures { IfOk result (λ o. o ≡ alarms_out alarms.now filter.now) }
{
    let mut times = Vec::new(alloc);
    let mut objects = Vec::new(alloc);
    let (from, to) = alarms.raised_within(&filter.start, &filter.end);
    for place in from..to {
        if has_all(filter, &objects) {
            break;
        }
        let time = raised_at(alarms, place);
        if is_asked(filter, &objects, time) {
            times.push(time)?;
            put(&mut objects, alarm_object(alloc, alarms, place + 1)?)?;
        }
    }
    query_out(
        alloc,
        (Contract::AlarmQueryOut, Contract::Alarm),
        None,
        &times,
        objects,
    )
}

/// The timestamp of the alarm at a place, the first being 0.
fn raised_at(alarms: &Alarms, place: u64) -> Abstime
    requires { place < length alarms.now.alarms }
    ensures { (a : Alarm) → slice_get alarms.now.alarms place ≡ Some a → result ≡ raised_at a }
{
    let _count = alarms.len();
    match alarms.raised(place + 1) {
        Some(moment) => moment.abstime(),
        None => unreachable!(),
    }
}
