//! What single objects are to be.
ghost use Rattle.std.specs.Prelude.{◌≡◌, Some, codes, IfOk, option_copied, option_map};
ghost use Rattle.std.specs.List.{list_any};
ghost use Rattle.ob_schedule.specs.Forms as form;
ghost use Rattle.ob_schedule.specs.Views as view;

use crate::point::Point;
use crate::points::Points;
use crate::rule::ScheduleRule;
use jiff::tz::TimeZone;
use ob_object::{Kind, Obj, Slot};
use ob_values::{Text, Value};
use std::alloc::AllocError;

/// The text of a zone.
pub(crate) fn zone_text(object: &Obj) -> Option<&Text>
    ensures { option_copied result ≡ form.zone_text object.now }
{
    match object.slot() {
        Slot::Is(Value::Str(text)) if object.kind().same(Kind::Str) => Some(text),
        _ => None,
    }
}

/// The text of a point.
pub(crate) fn point_text(object: &Obj) -> Option<&Text>
    ensures { option_copied result ≡ form.point_text object.now }
{
    match object.slot() {
        Slot::Is(Value::Uri(text)) if object.kind().same(Kind::Uri) => Some(text),
        _ => None,
    }
}

/// The number of a day.
pub(crate) fn day_value(object: &Obj) -> Option<i64>
    ensures { result ≡ form.day_value object.now }
{
    match object.slot() {
        Slot::Is(Value::Int(number)) if object.kind().same(Kind::Int) => Some(*number),
        _ => None,
    }
}

/// The nanoseconds since the day began, of a time.
pub(crate) fn time_value(object: &Obj) -> Option<u64>
    ensures { result ≡ form.time_value object.now }
{
    match object.slot() {
        Slot::Is(Value::Time(time)) if object.kind().same(Kind::Time) => Some(time.parts()),
        _ => None,
    }
}

/// Whether it is a POSIX rule, as jiff reads it.
pub(crate) fn is_zone(object: &Obj) -> bool
    ensures { result ≡ form.is_zone object.now }
{
    match zone_text(object) {
        Some(text) => TimeZone::posix(text.as_str()).is_ok(),
        None => false,
    }
}

/// Whether it is a list of so many objects.
pub(crate) fn is_list(object: &Obj, least: usize, most: usize) -> bool
    ensures { result ≡ form.is_list least most object.now }
{
    let len = object.children().len();
    object.kind().same(Kind::List) && least <= len && len <= most
}

/// Whether it is a day of the week.
pub(crate) fn is_day(object: &Obj) -> bool
    ensures { result ≡ form.is_day object.now }
{
    match day_value(object) {
        Some(day) => 1 <= day && day <= 7,
        None => false,
    }
}

/// Whether it is a time of day in whole milliseconds.
pub(crate) fn is_time(object: &Obj) -> bool
    ensures { result ≡ form.is_time object.now }
{
    match time_value(object) {
        Some(nanos) => nanos < 86_400_000_000_000 && nanos % 1_000_000 == 0,
        None => false,
    }
}

/// The text of the point of a schedule.
pub(crate) fn point_said(schedule: &Obj) -> Option<&Text>
    ensures { option_copied result ≡ form.point_said schedule.now }
{
    match schedule.child("point") {
        Some(point) => point_text(point),
        None => None,
    }
}

/// Whether it is this text.
fn is_text(text: &Text, other: Option<&Text>) -> bool
    ensures { result ≡ form.is_text text.now (option_copied other.entry) }
{
    match other {
        Some(other) => other.as_str() == text.as_str(),
        None => false,
    }
}

/// Whether one of these schedules has the point.
fn have_point(schedules: &[Obj], text: &Text) -> bool
    ensures { result ≡ list_any (λ s. form.is_text text.now (form.point_said s)) schedules.now }
{
    schedules
        .iter()
        .any(|schedule| is_text(text, point_said(schedule)))
}

/// The point that an object names: a writable one, that none of the schedules before has.
pub(crate) fn right_point<'a, P: Points>(
    points: &P,
    before: &[Obj],
    object: &'a Obj,
) -> Option<Point<'a>>
    ensures { option_map view.point_of result ≡ form.right_point (P.rules points.now) before.now object.now }
{
    let Some(path) = point_text(object) else {
        return None;
    };
    if have_point(before, path) {
        return None;
    }
    match points.kind_at(path) {
        Some(kind) => Some(Point { path, kind }),
        None => None,
    }
}

/// The first rule that a point breaks which isn't right.
pub(crate) fn point_rule<P: Points>(points: &P, object: &Obj) -> ScheduleRule
    ensures { result ≡ form.point_rule (P.rules points.now) (Some object.now) }
{
    match point_text(object) {
        Some(path) => match points.kind_at(path) {
            Some(_) => ScheduleRule::PointTwice,
            None => ScheduleRule::NotWritable,
        },
        None => ScheduleRule::Point,
    }
}

/// The first rule that a value breaks which isn't right.
pub(crate) fn value_rule(point: Option<Point<'_>>, object: &Obj) -> ScheduleRule
    ensures { result ≡ form.value_rule (option_map view.point_of point.entry) (Some object.now) }
{
    match point {
        Some(Point { kind, .. }) if object.kind().same(kind) => ScheduleRule::ValueLimits,
        _ => ScheduleRule::ValueKind,
    }
}

/// The day of an entry.
pub(crate) fn day_said(entry: &Obj) -> Option<i64>
    ensures { result ≡ form.said (codes "day") form.day_value entry.now }
{
    match entry.child("day") {
        Some(day) => day_value(day),
        None => None,
    }
}

/// The time of an entry.
pub(crate) fn time_said(entry: &Obj) -> Option<u64>
    ensures { result ≡ form.said (codes "at") form.time_value entry.now }
{
    match entry.child("at") {
        Some(time) => time_value(time),
        None => None,
    }
}

/// The day and the time of an entry.
fn week_time(entry: &Obj) -> Option<(i64, u64)>
    ensures { result ≡ form.week_time entry.now }
{
    match (day_said(entry), time_said(entry)) {
        (Some(day), Some(time)) => Some((day, time)),
        _ => None,
    }
}

/// Whether both are there and are one.
fn is_same_time(one: Option<(i64, u64)>, other: Option<(i64, u64)>) -> bool
    ensures { result ≡ form.is_same_time one other }
{
    match (one, other) {
        (Some((day, time)), Some((other_day, other_time))) => {
            day == other_day && time == other_time
        }
        _ => false,
    }
}

/// Whether one of these entries has the day and the time of another.
pub(crate) fn have_time(entries: &[Obj], entry: &Obj) -> bool
    ensures { result ≡ list_any (λ other. form.is_same_time (form.week_time other) (form.week_time entry.now)) entries.now }
{
    let own = week_time(entry);
    entries
        .iter()
        .any(|other| is_same_time(week_time(other), own))
}

/// Whether a slot may be written to a point.
fn is_written<P: Points>(points: &P, path: &Text, slot: &Slot) -> Result<bool, AllocError>
    ensures { IfOk result (λ yes. yes ≡ form.is_written (P.rules points.now) path.now slot.now) }
{
    match slot {
        Slot::Absent => Ok(false),
        Slot::Null => Ok(true),
        Slot::Is(value) => points.lets(path, value),
    }
}

/// Whether it is a value for the point; where the point isn't one, of any kind that has values.
pub(crate) fn is_value<P: Points>(
    points: &P,
    point: Option<Point<'_>>,
    object: &Obj,
) -> Result<bool, AllocError>
    ensures { IfOk result (λ yes. yes ≡ form.is_value (P.rules points.now) (option_map view.point_of point.entry) object.now) }
{
    let Some(Point { path, kind }) = point else {
        return Ok(object.kind().has_values());
    };
    if !object.kind().same(kind) {
        return Ok(false);
    }
    match object.slot() {
        Slot::Absent => {
            let slot = object.kind().default_slot();
            is_written(points, path, &slot)
        }
        slot => is_written(points, path, slot),
    }
}
