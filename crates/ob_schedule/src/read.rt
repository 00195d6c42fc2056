//! Reading a file of schedules.
ghost use Rattle.std.specs.Prelude.{◌≡◌, ◌≤◌, ◌<◌, ◌/◌, [], codes, length, map, unsigned_abs, pos, IfOk, IfErr, option_copied};
ghost use Rattle.std.specs.List.{All};
ghost use Rattle.jiff.specs.Words.{plain_zone};
ghost use Rattle.jiff.specs.Placed.{IsPosixZone};
ghost use Rattle.ob_object.specs.declared.head.Slot.TheVariants.{Null};
ghost use Rattle.ob_schedule.specs.Forms as form;
ghost use Rattle.ob_schedule.specs.Refusals.{Refuses};
ghost use Rattle.ob_schedule.specs.Right.{IsRightEntry, IsRightSchedule, IsRightFile};
ghost use Rattle.ob_schedule.specs.Weeks as says;

use crate::fault::ScheduleFault;
use crate::form::check_form;
use crate::judged::{day_said, point_said, time_said, zone_text};
use crate::points::Points;
use jiff::tz::TimeZone;
use ob_object::{Kind, Obj, Slot};
use ob_values::Text;
use ob_weekly::{Entry, Schedule, Schedules};
use std::alloc::{AllocError, Global};

/// The slot that an object stands for: where it is absent, the default of its kind.
fn slot_given(object: &Obj) -> Result<Slot, AllocError>
    ensures { IfOk result (λ slot. slot ≡ form.slot_given object.now.head.kind object.now.head.slot) }
{
    match object.slot() {
        Slot::Absent => Ok(object.kind().default_slot()),
        slot => slot.copy(),
    }
}

/// The slot of an entry.
fn slot_of(entry: &Obj) -> Result<Slot, AllocError>
    ensures { IfOk result (λ slot. slot ≡ says.said_or Null (codes "value") says.slot_in entry.now) }
{
    match entry.child("value") {
        Some(value) => slot_given(value),
        None => Ok(Slot::Null),
    }
}

/// The day of an entry.
fn day_of(entry: &Obj) -> u8
    requires { IsRightEntry entry.now }
    ensures { result ≡ unsigned_abs (says.said_or (pos 0) (codes "day") form.day_value entry.now) }
{
    let Some(day) = day_said(entry) else {
        unreachable!()
    };
    day as u8
}

/// The time of an entry, in milliseconds since the day began.
fn at_ms_of(entry: &Obj) -> u32
    requires { IsRightEntry entry.now }
    ensures { result ≡ says.said_or 0 (codes "at") form.time_value entry.now / 1_000_000 }
{
    let Some(nanos) = time_said(entry) else {
        unreachable!()
    };
    (nanos / 1_000_000) as u32
}

/// An entry.
fn entry_of(entry: &Obj) -> Result<Entry, AllocError>
    requires { IsRightEntry entry.now }
    ensures { IfOk result (λ e. e ≡ says.entry_of entry.now) }
{
    let slot = slot_of(entry)?;
    Ok(Entry {
        day: day_of(entry),
        at_ms: at_ms_of(entry),
        slot,
    })
}

/// Entries, in order.
fn entries_of(alloc: Global, entries: &[Obj]) -> Result<Vec<Entry>, AllocError>
    requires { All IsRightEntry entries.now }
    ensures { IfOk result (λ made. made.items ≡ map says.entry_of entries.now) }
{
    let mut made = Vec::new(alloc);
    for entry in entries {
        made.push(entry_of(entry)?)?;
    }
    Ok(made)
}

/// The children of the child of a name.
fn listed_in<'a>(object: &'a Obj, name: &str) -> &'a [Obj]
    ensures { result.now ≡ says.listed_in name.now object.now }
{
    match object.child(name) {
        Some(list) => list.children(),
        None => &[],
    }
}

/// The kind of the first entry's value.
fn kind_of(entries: &[Obj]) -> Kind
    ensures { result ≡ says.kind_of entries.now }
{
    match entries.first() {
        Some(entry) => match entry.child("value") {
            Some(value) => value.kind(),
            None => Kind::Obj,
        },
        None => Kind::Obj,
    }
}

/// The path of the point of a schedule.
fn path_of(schedule: &Obj) -> Result<Text, AllocError>
    ensures { IfOk result (λ path. path ≡ says.said_or [] (codes "point") form.point_text schedule.now) }
{
    match point_said(schedule) {
        Some(text) => text.copy(),
        None => Ok(Text::empty()),
    }
}

/// A schedule.
fn schedule_of(alloc: Global, schedule: &Obj) -> Result<Schedule, AllocError>
    requires { IsRightSchedule schedule.now }
    ensures { IfOk result (λ s. says.week s ≡ says.week_of schedule.now) }
{
    let listed = listed_in(schedule, "entries");
    let entries = entries_of(alloc, listed)?;
    let point = path_of(schedule)?;
    Ok(Schedule {
        point,
        kind: kind_of(listed),
        entries,
    })
}

/// Schedules, in order.
fn schedules_of(alloc: Global, schedules: &[Obj]) -> Result<Vec<Schedule>, AllocError>
    requires { All IsRightSchedule schedules.now }
    ensures { IfOk result (λ made. map says.week made.items ≡ map says.week_of schedules.now) }
{
    let mut made = Vec::new(alloc);
    for schedule in schedules {
        made.push(schedule_of(alloc, schedule)?)?;
    }
    Ok(made)
}

/// The text of the zone of a document.
fn zone_said(doc: &Obj) -> Option<&Text>
    ensures { option_copied result ≡ form.said (codes "zone") form.zone_text doc.now }
{
    match doc.child("zone") {
        Some(zone) => zone_text(zone),
        None => None,
    }
}

/// The zone of a document.
fn zone_of(doc: &Obj) -> TimeZone<'static>
    requires { IsRightFile doc.now }
    ensures { IsPosixZone (says.said_or [] (codes "zone") form.zone_text doc.now) (plain_zone result) }
{
    let Some(text) = zone_said(doc) else {
        unreachable!()
    };
    let Ok(zone) = TimeZone::posix(text.as_str()) else {
        unreachable!()
    };
    zone
}

/// The schedules that a document says, for the points of a site.
///
/// `Shape` comes exactly where the document isn't of the form, with the first part that offends and the first rule that it
/// breaks. `Memory` comes for want of
/// memory alone.
pub fn read_schedules<P: Points>(
    alloc: Global,
    doc: &Obj,
    points: &P,
) -> Result<Schedules, ScheduleFault>
    ensures is { IfOk result (λ _. form.IsFile (P.rules points.now) doc.now) }
    ensures says { IfOk result (says.Says doc.now) }
    ensures refuses { IfErr result (Refuses (P.rules points.now) doc.now) }
{
    check_form(doc, points)?;
    let zone = zone_of(doc);
    let list = schedules_of(alloc, listed_in(doc, "schedules"))?;
    Ok(Schedules { zone, list })
}
