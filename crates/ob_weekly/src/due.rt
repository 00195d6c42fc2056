//! What is due between two instants.
ghost use Rattle.std.specs.Prelude.{◌≡◌, ◌+◌, ◌<◌, ◌≤◌, pos, neg_ℤ, ◌+ℤ◌, ◌-ℤ◌, ◌*ℤ◌, ◌≤ℤ◌, ◌<ℤ◌, length, false, Some, IfSome, OnOk};
ghost use Rattle.ob_weekly.specs.declared.due.Due.{Due as Plain};
ghost use Rattle.std.specs.List.{All, Contains};
ghost use Rattle.std.specs.List.Sorted.{IsStrictlySortedBy};
ghost use Rattle.std.specs.Ordering.{is_gt};
ghost use Rattle.jiff.specs.Words.{IsBetween, plain_zone};
ghost use Rattle.jiff_core.specs.Calendar.{weekday_number};
ghost use Rattle.ob_weekly.specs.Firings.{due_cmp};
ghost use Rattle.ob_weekly.specs.Schedules.{IsEntry, IsWeekly};
ghost use Rattle.ob_weekly.specs.Search.{Adds, IsDueOn, IsDueOf, IsDueIn, IsDueAmong, IsOrderOf};

use crate::instant::{DAY, LAST_DAY, day_from, fires_on, local_ms, weekday};
use crate::schedule::{Entry, Schedule, entries_at, entry_at};
use jiff::tz::TimeZone;
use std::alloc::AllocError;

/// An entry fires. In order they are by instant, then by the place of the schedule, then by day and time.
#[derive(Clone, Copy, PartialEq, Eq, PartialOrd, Ord)]
pub(crate) struct Due {
    /// The instant, in milliseconds from 1970 on.
    pub(crate) at: i64,
    pub(crate) schedule: u32,
    pub(crate) day: u8,
    pub(crate) at_ms: u32,
    pub(crate) entry: u32,
}

/// More than every offset, in milliseconds: 26 hours.
const FAR: i64 = 93_600_000;

/// The instants that are looked for, and dates such that no other has one of them.
#[derive(Clone, Copy)]
pub(crate) struct Span {
    /// The instants after this one.
    pub(crate) low: i64,
    /// And up to this one.
    pub(crate) to: i64,
    /// The dates from this one on.
    first: i64,
    /// And up to this one.
    last: i64,
    /// The day of the week of the first of these dates: 1 for Monday.
    weekday: u8,
    ghost from_first: { IsBetween (neg_ℤ (pos 4_000_000)) (pos 2_932_894) first },
    ghost first_is: { weekday ≡ weekday_number first + 1 },
    ghost first_fits: { weekday ≤ 7 },
    ghost first_covers: { ((first *ℤ pos 86_400_000) +ℤ pos 93_600_000) ≤ℤ low },
    ghost to_last: { last ≤ℤ pos 2_932_893 },
    ghost last_covers: { last <ℤ pos 2_932_893 → to <ℤ ((last *ℤ pos 86_400_000) -ℤ pos 7_200_000) },
}

/// The number of the date that has an instant at no offset.
pub(crate) fn day_of(ms: i64) -> i64
    requires low { neg_ℤ (pos 1_036_800_000) ≤ℤ ms }
    requires high { ms ≤ℤ pos 253_402_300_799_999 }
    ensures from { (result *ℤ pos 86_400_000) ≤ℤ ms }
    ensures to { ms <ℤ ((result *ℤ pos 86_400_000) +ℤ pos 86_400_000) }
{
    // 12 days later it is not before 1970.
    let later = (ms + 12 * DAY) as u64;
    (later / 86_400_000) as i64 - 12
}

/// The first date that can have an instant after this one, by its number.
fn first_date(low: i64) -> i64
    requires from { neg_ℤ (pos 1_036_800_000) ≤ℤ low }
    requires upto { low ≤ℤ pos 253_402_300_799_999 }
    ensures range { IsBetween (neg_ℤ (pos 4_000_000)) (pos 2_932_894) result }
    ensures covers { ((result *ℤ pos 86_400_000) +ℤ pos 93_600_000) ≤ℤ low }
{
    day_of(low) - 2
}

/// The last date that can have an instant up to this one and on which an entry fires, by its number.
fn last_date(to: i64) -> i64
    requires from { neg_ℤ (pos 1_036_800_000) ≤ℤ to }
    requires upto { to ≤ℤ pos 253_402_300_799_999 }
    ensures fits { result ≤ℤ pos 2_932_893 }
    ensures covers { result <ℤ pos 2_932_893 → to <ℤ ((result *ℤ pos 86_400_000) -ℤ pos 7_200_000) }
{
    let last = day_of(to) + 2;
    if last < LAST_DAY { last } else { LAST_DAY }
}

impl Span {
    /// The instants after one and up to another.
    pub(crate) fn between(low: i64, to: i64) -> Span
        requires low { neg_ℤ (pos 1_036_800_000) ≤ℤ low }
        requires within { (low ≤ℤ to) × (to ≤ℤ pos 253_402_300_799_999) }
        ensures { (result.low ≡ low) × (result.to ≡ to) }
    {
        let first = first_date(low);
        let last = last_date(to);
        Span {
            low,
            to,
            first,
            last,
            weekday: weekday(first),
        }
    }
}

/// Where an entry stands.
#[derive(Clone, Copy)]
pub(crate) struct Place {
    pub(crate) schedule: u32,
    pub(crate) entry: u32,
}

/// What is due of one entry on a date of its weekday, by its number. The zone is asked only where the entry's time of day is
/// near the span.
fn due_on(
    zone: &TimeZone<'static>,
    place: Place,
    day: i64,
    entry: &Entry,
    span: Span,
) -> Option<Due>
    requires day { IsBetween (neg_ℤ (pos 4_000_000)) (pos 2_932_893) day }
    requires weekday { weekday_number day + 1 ≡ entry.now.day }
    requires time { entry.now.at_ms < 86_400_000 }
    ensures due { IfSome result (IsDueOn (plain_zone zone.now) place entry.now span.low span.to day) }
    ensures only { (d : Plain) → IsDueOn (plain_zone zone.now) place entry.now span.low span.to day d → result ≡ Some d }
{
    let local = local_ms(day, entry.at_ms);
    let latest = local + FAR;
    if latest <= span.low {
        return None;
    }
    let earliest = local - FAR;
    if span.to < earliest {
        return None;
    }
    let at = fires_on(zone, day, entry);
    if span.low < at && at <= span.to {
        Some(Due {
            at,
            schedule: place.schedule,
            day: entry.day,
            at_ms: entry.at_ms,
            entry: place.entry,
        })
    } else {
        None
    }
}

/// Adds what is due of one entry.
fn push_entry(
    dues: &mut Vec<Due>,
    zone: &TimeZone<'static>,
    place: Place,
    entry: &Entry,
    span: Span,
) -> Result<(), AllocError>
    requires { IsEntry entry.now }
    ensures { OnOk result (Adds (IsDueOf (plain_zone zone.now) place entry.now span.low span.to) dues.old.items dues.new.items) }
{
    let mut day = day_from(span.first, span.weekday, entry.day);
    while day <= span.last {
        match due_on(zone, place, day, entry, span) {
            Some(due) => {
                dues.push(due)?;
            }
            None => {}
        }
        day += 7;
    }
    Ok(())
}

/// Adds what is due of the entries of one schedule.
pub(crate) fn push_entries(
    dues: &mut Vec<Due>,
    zone: &TimeZone<'static>,
    schedule: u32,
    entries: &[Entry],
    span: Span,
) -> Result<(), AllocError>
    requires few { length entries.now ≤ 100 }
    requires each { All IsEntry entries.now }
    ensures { OnOk result (Adds (IsDueIn (plain_zone zone.now) schedule entries.now span.low span.to) dues.old.items dues.new.items) }
{
    for place in 0..entries.len() {
        let at = Place {
            schedule,
            entry: place as u32,
        };
        push_entry(dues, zone, at, entry_at(entries, place), span)?;
    }
    Ok(())
}

/// Adds what is due of schedules.
pub(crate) fn push_schedules(
    dues: &mut Vec<Due>,
    zone: &TimeZone<'static>,
    schedules: &[Schedule],
    span: Span,
) -> Result<(), AllocError>
    requires few { length schedules.now ≤ 1_000 }
    requires weekly { All IsWeekly schedules.now }
    ensures { OnOk result (Adds (IsDueAmong (plain_zone zone.now) schedules.now span.low span.to) dues.old.items dues.new.items) }
{
    for place in 0..schedules.len() {
        let schedule = place as u32;
        push_entries(dues, zone, schedule, entries_at(schedules, place), span)?;
    }
    Ok(())
}

/// Puts them in order.
pub(crate) fn put_in_order(dues: &mut Vec<Due>) -> Result<(), AllocError>
    ensures { OnOk result (IsOrderOf dues.old.items dues.new.items) }
{
    dues.sort()?;
    dues.dedup();
    Ok(())
}

/// The last of what is due.
pub(crate) fn last_due(dues: &[Due]) -> Due
    requires { 1 ≤ length dues.now }
    ensures one { Contains dues.now result }
    ensures last { IsStrictlySortedBy due_cmp dues.now → (d : Plain) → Contains dues.now d → is_gt (due_cmp d result) ≡ false }
{
    dues[dues.len() - 1]
}

/// The first of what is due.
pub(crate) fn first_due(dues: &[Due]) -> Due
    requires { 1 ≤ length dues.now }
    ensures one { Contains dues.now result }
    ensures first { IsStrictlySortedBy due_cmp dues.now → (d : Plain) → Contains dues.now d → result.at ≤ℤ d.at }
{
    dues[0]
}
