//! Firings, and the value in force.
ghost use Rattle.std.specs.Prelude.{◌≡◌, ◌⊎◌, ◌<◌, ◌≤◌, true, false, length, map, slice_get, pos, neg_ℤ, ◌+ℤ◌, ◌-ℤ◌, ◌≤ℤ◌, Some, IfOk};
ghost use Rattle.std.specs.List.{All};
ghost use Rattle.jiff.specs.Words.{IsBetween, plain_zone};
ghost use Rattle.ob_weekly.specs.declared.schedule.Entry.{Entry as Weekly};
ghost use Rattle.ob_weekly.specs.Schedules.{IsEntry, IsWeekly};
ghost use Rattle.ob_weekly.specs.Search.{IsDueIn, AreAll, AreDue, IsJustBefore};
ghost use Rattle.ob_weekly.specs.Zones.{FiresAt};
ghost use Rattle.ob_weekly.specs.Firings.{AreFirings, IsInForce, IsQuiet, IsQuietUntil, HasNext, firing_of};

use crate::due::{
    Due, Span, day_of, first_due, last_due, push_entries, push_schedules, put_in_order,
};
use crate::instant::some_firing;
use crate::schedule::{Entry, Schedule, Schedules, entries_at, entry_at};
use jiff::tz::TimeZone;
use ob_object::Slot;
use ob_times::Moment;
use std::alloc::{AllocError, Global};

/// How long before a moment a firing may lie that is still told, in milliseconds.
const WINDOW: i64 = 3_024_000_000;

/// How far the next firing is looked for at first, in milliseconds: an hour.
const HOUR: i64 = 3_600_000;

/// And then: a day.
const DAY: i64 = 86_400_000;

/// And at last. An entry fires within 8 days.
const LONGEST: i64 = 691_200_000;

/// The last of all moments.
const LAST: i64 = 253_402_300_799_999;

/// An entry fires.
#[derive(Clone, Copy, PartialEq, Eq)]
pub struct Firing {
    /// The instant.
    pub at: Moment,
    /// The place of the schedule, from 0, in the file.
    pub schedule: u32,
    /// The place of the entry, from 0, in its schedule.
    pub entry: u32,
}

/// The instant after which firings are told.
fn window_start(from: Moment, to: Moment) -> i64
    ensures least { (pos from ≤ℤ result) × (pos to ≤ℤ (result +ℤ pos 3_024_000_001)) }
    ensures is { (result ≡ pos from) ⊎ ((result +ℤ pos 3_024_000_001) ≡ pos to) }
    ensures fits { result ≤ℤ pos 253_402_300_799_999 }
{
    let from = from.ms() as i64;
    let far = to.ms() as i64 - WINDOW - 1;
    if from < far { far } else { from }
}

/// All that is due after an instant and up to another, in order.
fn all_due(
    alloc: Global,
    zone: &TimeZone<'static>,
    schedules: &[Schedule],
    low: i64,
    to: i64,
) -> Result<Vec<Due>, AllocError>
    requires few { length schedules.now ≤ 1_000 }
    requires weekly { All IsWeekly schedules.now }
    requires low { neg_ℤ (pos 1_036_800_000) ≤ℤ low }
    requires within { (low ≤ℤ to) × (to ≤ℤ pos 253_402_300_799_999) }
    ensures { IfOk result (λ dues. AreDue (plain_zone zone.now) schedules.now low to dues.items) }
{
    let mut dues = Vec::new(alloc);
    push_schedules(&mut dues, zone, schedules, Span::between(low, to))?;
    put_in_order(&mut dues)?;
    Ok(dues)
}

/// An instant of the 12 days before another at which an entry fired.
fn known_firing(zone: &TimeZone<'static>, entry: &Entry, to: i64) -> i64
    requires entry { IsEntry entry.now }
    requires range { IsBetween (pos 0) (pos 253_402_300_799_999) to }
    ensures fires { FiresAt (plain_zone zone.now) entry.now result }
    ensures near { IsBetween (to -ℤ pos 1_036_700_000) to result }
{
    some_firing(zone, day_of(to) - 9, entry)
}

/// All that is due of one schedule in a span, in order.
fn due_in(
    alloc: Global,
    zone: &TimeZone<'static>,
    schedule: u32,
    entries: &[Entry],
    span: Span,
) -> Result<Vec<Due>, AllocError>
    requires few { length entries.now ≤ 100 }
    requires each { All IsEntry entries.now }
    ensures { IfOk result (λ dues. AreAll (IsDueIn (plain_zone zone.now) schedule entries.now span.low span.to) dues.items) }
{
    let mut dues = Vec::new(alloc);
    push_entries(&mut dues, zone, schedule, entries, span)?;
    put_in_order(&mut dues)?;
    Ok(dues)
}

/// What is due, as firings, in the same order.
fn firings_of(alloc: Global, dues: &[Due]) -> Result<Vec<Firing>, AllocError>
    requires { All (λ d. IsBetween (pos 0) (pos 253_402_300_799_999) d.at) dues.now }
    ensures { IfOk result (λ firings. firings.items ≡ map firing_of dues.now) }
{
    let mut firings = Vec::new(alloc);
    for due in dues {
        let Some(at) = Moment::new(due.at as u64) else {
            unreachable!()
        };
        firings.push(Firing {
            at,
            schedule: due.schedule,
            entry: due.entry,
        })?;
    }
    Ok(firings)
}

/// The slot of the entry at a place.
fn slot_at(entries: &[Entry], place: usize) -> &Slot
    requires { place < length entries.now }
    ensures { (e : Weekly) × (slice_get entries.now place ≡ Some e) × (result.now ≡ e.slot) }
{
    let entry = entry_at(entries, place);
    &entry.slot
}

/// The moment so many milliseconds after another, or the last of all.
fn later(from: Moment, ms: i64) -> Moment
    requires { IsBetween (pos 0) (pos 691_200_000) ms }
    ensures behind { from ≤ result }
    ensures is { (pos result ≡ pos from +ℤ ms) ⊎ (result ≡ 253_402_300_799_999) }
{
    let far = from.ms() as i64 + ms;
    let to = if far < LAST { far } else { LAST };
    match Moment::new(to as u64) {
        Some(to) => to,
        None => unreachable!(),
    }
}

/// The moment before the first of what is due.
fn just_before(dues: &[Due]) -> Moment
    requires some { 1 ≤ length dues.now }
    requires range { All (λ d. IsBetween (pos 1) (pos 253_402_300_799_999) d.at) dues.now }
    ensures { IsJustBefore dues.now result }
{
    let first = first_due(dues);
    match Moment::new((first.at - 1) as u64) {
        Some(moment) => moment,
        None => unreachable!(),
    }
}

/// How long it is quiet, as far as was looked.
#[derive(Clone, Copy)]
struct Quiet {
    until: Moment,
    /// Whether something fires in the millisecond behind.
    is_next: bool,
}

impl Schedules {
    /// How long it is quiet after a moment, looked for so many milliseconds far. An error only for want of memory.
    fn quiet_within(&self, alloc: Global, from: Moment, ms: i64) -> Result<Quiet, AllocError>
        requires { IsBetween (pos 0) (pos 691_200_000) ms }
        ensures quiet { IfOk result (λ q. IsQuiet (plain_zone self.now.zone) self.now.list.items from q.until) }
        ensures next { IfOk result (λ q. q.is_next ≡ true → HasNext (plain_zone self.now.zone) self.now.list.items q.until) }
        ensures far { IfOk result (λ q. q.is_next ≡ false → (pos q.until ≡ pos from +ℤ ms) ⊎ (q.until ≡ 253_402_300_799_999)) }
    {
        let to = later(from, ms);
        let dues = all_due(
            alloc,
            &self.zone,
            &self.list,
            from.ms() as i64,
            to.ms() as i64,
        )?;
        if dues.is_empty() {
            return Ok(Quiet {
                until: to,
                is_next: false,
            });
        }
        Ok(Quiet {
            until: just_before(&dues),
            is_next: true,
        })
    }

    /// Until when nothing fires after a moment: just before the next firing, or where none is so near, for 8 days or up to the
    /// last of all moments. An error only for want of memory.
    pub fn quiet_until(&self, alloc: Global, from: Moment) -> Result<Moment, AllocError>
        ensures { IfOk result (λ until. IsQuietUntil (plain_zone self.now.zone) self.now.list.items from until) }
    {
        let hour = self.quiet_within(alloc, from, HOUR)?;
        if hour.is_next {
            return Ok(hour.until);
        }
        let day = self.quiet_within(alloc, from, DAY)?;
        if day.is_next {
            return Ok(day.until);
        }
        let longest = self.quiet_within(alloc, from, LONGEST)?;
        Ok(longest.until)
    }

    /// The firings after a moment and up to another, by instant, then by the place of the schedule, then by day and time; but
    /// none that lies more than 3,024,000,000 ms before the second moment. An error only for want of memory.
    pub fn firings(
        &self,
        alloc: Global,
        from: Moment,
        to: Moment,
    ) -> Result<Vec<Firing>, AllocError>
        ensures { IfOk result (λ firings. AreFirings (plain_zone self.now.zone) self.now.list.items from to firings.items) }
    {
        let low = window_start(from, to);
        let to = to.ms() as i64;
        if to <= low {
            return Ok(Vec::new(alloc));
        }
        let dues = all_due(alloc, &self.zone, &self.list, low, to)?;
        firings_of(alloc, &dues)
    }

    /// The slot in force in a schedule at a moment: that of its last firing at or before it. An error only for want of memory.
    pub fn in_force(
        &self,
        alloc: Global,
        schedule: u32,
        moment: Moment,
    ) -> Result<&Slot, AllocError>
        requires { schedule < length self.now.list.items }
        ensures { IfOk result (λ slot. IsInForce (plain_zone self.now.zone) self.now.list.items schedule moment slot.now) }
    {
        let to = moment.ms() as i64;
        let entries = entries_at(&self.list, schedule as usize);
        // The last firing isn't before one that is known.
        let known = known_firing(&self.zone, entry_at(entries, 0), to);
        let span = Span::between(known - 1, to);
        let dues = due_in(alloc, &self.zone, schedule, entries, span)?;
        let last = last_due(&dues);
        Ok(slot_at(entries, last.entry as usize))
    }
}
