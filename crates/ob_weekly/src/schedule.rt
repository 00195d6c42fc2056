//! Schedules, as a file gives them.
ghost use Rattle.std.specs.Prelude.{◌≡◌, ◌↔◌, ◌<◌, ◌≤◌, length, slice_get, true, false, Some, IsSome, IfSome};
ghost use Rattle.std.specs.List.{All};
ghost use Rattle.ob_weekly.specs.declared.schedule.Schedule.{Schedule as Week};
ghost use Rattle.ob_weekly.specs.Schedules.{IsEntry, IsWeekly};

use jiff::tz::TimeZone;
use ob_object::{Kind, Slot};
use ob_values::Text;

/// What is written on one day of each week, at one time of day.
pub struct Entry {
    /// The day of the week, from 1 for Monday to 7 for Sunday.
    pub day: u8,
    /// The time of day, in milliseconds since the day began.
    pub at_ms: u32,
    /// What is written then.
    pub slot: Slot,
}

impl Drop for Entry {
    // By one call, so that to drop it is one call to whoever may have to.
    fn drop(self) {
        let Entry {
            day: _,
            at_ms: _,
            slot,
        } = self;
        drop(slot);
    }
}

/// The entries of one point.
pub struct Schedule {
    /// The path of the point.
    pub point: Text,
    /// The kind of the point's values.
    pub kind: Kind,
    /// The entries, in the order of the file.
    pub entries: Vec<Entry>,
}

impl Drop for Schedule {
    // By one call for each part, so that to drop it is one call to whoever may have to.
    fn drop(self) {
        let Schedule {
            point,
            kind: _,
            entries,
        } = self;
        drop(point);
        drop(entries);
    }
}

/// Schedules by the clock of one zone.
pub struct Schedules {
    /// The zone whose clock the entries go by.
    pub zone: TimeZone<'static>,
    /// The schedules, in the order of the file.
    pub list: Vec<Schedule>,
    pub ghost few: { length list.items ≤ 1_000 },
    pub ghost weekly: { All IsWeekly list.items },
}

impl Drop for Schedules {
    // By one call, so that to drop it is one call to whoever may have to.
    fn drop(self) {
        let Schedules { zone: _, list } = self;
        drop(list);
    }
}

/// The entry at a place.
pub(crate) fn entry_at(entries: &[Entry], place: usize) -> &Entry
    requires { place < length entries.now }
    ensures { slice_get entries.now place ≡ Some result.now }
{
    &entries[place]
}

/// The schedule at a place.
fn schedule_at(schedules: &[Schedule], place: usize) -> &Schedule
    requires { place < length schedules.now }
    ensures { slice_get schedules.now place ≡ Some result.now }
{
    &schedules[place]
}

/// The entries of the schedule at a place.
pub(crate) fn entries_at(schedules: &[Schedule], place: usize) -> &[Entry]
    requires there { place < length schedules.now }
    requires weekly { All IsWeekly schedules.now }
    ensures is { (s : Week) × (slice_get schedules.now place ≡ Some s) × (result.now ≡ s.entries.items) }
    ensures some { 1 ≤ length result.now }
    ensures few { length result.now ≤ 100 }
    ensures each { All IsEntry result.now }
{
    let schedule = schedule_at(schedules, place);
    &schedule.entries
}

/// Whether an entry has a day of the week, and a time that a day has.
fn is_entry(entry: &Entry) -> bool
    ensures yes { result ≡ true → IsEntry entry.now }
    ensures no { result ≡ false → IsEntry entry.now → ⊥ }
{
    if entry.day < 1 || entry.day > 7 {
        return false;
    }
    entry.at_ms < 86_400_000
}

/// Whether all are entries.
fn are_entries(entries: &[Entry]) -> bool
    ensures yes { result ≡ true → All IsEntry entries.now }
    ensures no { result ≡ false → All IsEntry entries.now → ⊥ }
{
    for place in 0..entries.len() {
        if !is_entry(entry_at(entries, place)) {
            return false;
        }
    }
    true
}

/// Whether a schedule has from 1 to 100 entries.
fn is_weekly(schedule: &Schedule) -> bool
    ensures yes { result ≡ true → IsWeekly schedule.now }
    ensures no { result ≡ false → IsWeekly schedule.now → ⊥ }
{
    let entries = schedule.entries.as_slice();
    if entries.len() < 1 || entries.len() > 100 {
        return false;
    }
    are_entries(entries)
}

/// Whether all are weekly schedules.
fn are_weekly(schedules: &[Schedule]) -> bool
    ensures yes { result ≡ true → All IsWeekly schedules.now }
    ensures no { result ≡ false → All IsWeekly schedules.now → ⊥ }
{
    for place in 0..schedules.len() {
        if !is_weekly(schedule_at(schedules, place)) {
            return false;
        }
    }
    true
}

impl Schedules {
    /// Schedules by the clock of a zone. None where there are more than 1,000, or one has no entry or more than 100, or an entry
    /// has another day than 1 to 7 or a time that no day has.
    pub fn new(zone: TimeZone<'static>, list: Vec<Schedule>) -> Option<Schedules>
        ensures some { IsSome result ↔ ((length list.items ≤ 1_000) × All IsWeekly list.items) }
        ensures kept { IfSome result (λ s. (s.zone ≡ zone.entry) × (s.list.items ≡ list.items)) }
    {
        if list.len() > 1_000 || !are_weekly(&list) {
            return None;
        }
        Some(Schedules { zone, list })
    }
}
