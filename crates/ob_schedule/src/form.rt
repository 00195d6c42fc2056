//! The first part of a document that offends against the form of a file of schedules.
ghost use Rattle.std.specs.Prelude.{◌≡◌, ◌++◌, [], codes, not, IfOk, IfErr, OnOk, option_map};
ghost use Rattle.ob_object.specs.Kinds.{same_kind};
ghost use Rattle.ob_object.specs.declared.kind.Kind.TheVariants as kind;
ghost use Rattle.std.specs.List.{list_any};
ghost use Rattle.ob_schedule.specs.Forms as form;
ghost use Rattle.ob_parts.specs.Least as order;
ghost use Rattle.ob_parts.specs.Numbered.{inside, inside_child};
ghost use Rattle.ob_schedule.specs.Refusals.{Refuses};
ghost use Rattle.ob_schedule.specs.declared.rule.ScheduleRule.TheVariants as rules;
ghost use Rattle.ob_parts.specs.Views.{part_of};
ghost use Rattle.ob_schedule.specs.Views.{point_of};

use crate::fault::ScheduleFault;
use crate::judged::{
    have_time, is_day, is_list, is_time, is_value, is_zone, point_rule, right_point, value_rule,
};
use crate::point::{Point, object_at};
use crate::points::Points;
use crate::rule::ScheduleRule;
use ob_object::{Kind, Obj};
use ob_parts::{Offence, Part, earlier, number_behind};
use std::alloc::AllocError;

/// The part, unless it is an obj.
fn kind_offence(part: Part<'_>) -> Option<Offence<ScheduleRule>>
    ensures { result ≡ order.least (form.unless (same_kind part.entry.object.now.head.kind kind.Obj) rules.Kind (part_of part.entry)) }
{
    part.unless(part.object.kind().same(Kind::Obj), ScheduleRule::Kind)
}

/// An entry, where one before it has both its day and its time.
fn twice_offence(before: &[Obj], entry: Part<'_>) -> Option<Offence<ScheduleRule>>
    ensures { result ≡ order.least (form.unless (not (list_any (λ other. form.is_same_time (form.week_time other) (form.week_time entry.entry.object.now)) before.now)) rules.TimeTwice (part_of entry.entry)) }
{
    entry.unless(!have_time(before, entry.object), ScheduleRule::TimeTwice)
}

/// The zone of a document, unless it is one.
fn zone_offence(doc: Part<'_>) -> Option<Offence<ScheduleRule>>
    ensures { result ≡ order.least (form.needs (codes "zone") (λ _. rules.Zone) form.is_zone (part_of doc.entry)) }
{
    match doc.child("zone") {
        Some(zone) => zone.unless(is_zone(zone.object), ScheduleRule::Zone),
        None => Some(doc.breaks(ScheduleRule::Zone)),
    }
}

/// The point of a schedule, where it is one, and otherwise the part that offends.
fn judge_point<'a, P: Points>(
    points: &P,
    before: &[Obj],
    schedule: Part<'a>,
) -> (Option<Point<'a>>, Option<Offence<ScheduleRule>>)
    ensures point { option_map point_of result.0 ≡ form.point_of (P.rules points.now) before.now schedule.entry.object.now }
    ensures offence { result.1 ≡ order.least (form.needs (codes "point") (form.point_rule (P.rules points.now)) (form.is_point (P.rules points.now) before.now) (part_of schedule.entry)) }
{
    match schedule.child("point") {
        Some(point) => {
            let right = right_point(points, before, point.object);
            let rule = point_rule(points, point.object);
            (right, point.unless(right.is_some(), rule))
        }
        None => (None, Some(schedule.breaks(ScheduleRule::Point))),
    }
}

/// The day of an entry, unless it is one.
fn day_offence(entry: Part<'_>) -> Option<Offence<ScheduleRule>>
    ensures { result ≡ order.least (form.needs (codes "day") (λ _. rules.Day) form.is_day (part_of entry.entry)) }
{
    match entry.child("day") {
        Some(day) => day.unless(is_day(day.object), ScheduleRule::Day),
        None => Some(entry.breaks(ScheduleRule::Day)),
    }
}

/// The time of an entry, unless it is one.
fn time_offence(entry: Part<'_>) -> Option<Offence<ScheduleRule>>
    ensures { result ≡ order.least (form.needs (codes "at") (λ _. rules.At) form.is_time (part_of entry.entry)) }
{
    match entry.child("at") {
        Some(time) => time.unless(is_time(time.object), ScheduleRule::At),
        None => Some(entry.breaks(ScheduleRule::At)),
    }
}

/// The value of an entry, unless it may be written to the point.
fn value_offence<P: Points>(
    points: &P,
    point: Option<Point<'_>>,
    entry: Part<'_>,
) -> Result<Option<Offence<ScheduleRule>>, AllocError>
    ensures { IfOk result (λ first. first ≡ order.least (form.needs (codes "value") (form.value_rule (option_map point_of point.entry)) (form.is_value (P.rules points.now) (option_map point_of point.entry)) (part_of entry.entry))) }
{
    match entry.child("value") {
        Some(value) => {
            let is_right = is_value(points, point, value.object)?;
            Ok(value.unless(is_right, value_rule(point, value.object)))
        }
        None => Ok(Some(entry.breaks(ScheduleRule::Value))),
    }
}

/// The first part of an entry that offends; the entries before it are of the same schedule.
fn entry_offence<P: Points>(
    points: &P,
    point: Option<Point<'_>>,
    before: &[Obj],
    entry: Part<'_>,
) -> Result<Option<Offence<ScheduleRule>>, AllocError>
    ensures { IfOk result (λ first. first ≡ order.least (form.entry_offences (P.rules points.now) (option_map point_of point.entry) before.now (part_of entry.entry))) }
{
    let kind = kind_offence(entry);
    let day = day_offence(entry);
    let time = time_offence(entry);
    let value = value_offence(points, point, entry)?;
    let twice = twice_offence(before, entry);
    Ok(earlier(kind, earlier(day, earlier(time, earlier(value, twice)))))
}

/// The first part of entries that offends.
fn entries_offence<P: Points>(
    points: &P,
    point: Option<Point<'_>>,
    list: Part<'_>,
) -> Result<Option<Offence<ScheduleRule>>, AllocError>
    ensures { IfOk result (λ first. first ≡ order.least (form.each (form.entry_offences (P.rules points.now) (option_map point_of point.entry)) [] (inside (part_of list.entry)))) }
{
    let entries = list.object.children();
    let mut number = list.number_inside();
    let mut first = None;
    for place in 0..entries.len() {
        let object = object_at(entries, place);
        let found = entry_offence(points, point, &entries[..place], Part { number, object })?;
        first = earlier(first, found);
        number = number_behind(number, object);
    }
    Ok(first)
}

/// The first part of a schedule's list of entries that offends, itself or in it. Where it offends itself, nothing in it is looked
/// at: its own number is the least.
fn listed_entries<P: Points>(
    points: &P,
    point: Option<Point<'_>>,
    schedule: Part<'_>,
) -> Result<Option<Offence<ScheduleRule>>, AllocError>
    ensures { IfOk result (λ first. first ≡ order.least (form.needs (codes "entries") (λ _. rules.Entries) (form.is_list 1 100) (part_of schedule.entry) ++ form.each (form.entry_offences (P.rules points.now) (option_map point_of point.entry)) [] (inside_child (codes "entries") (part_of schedule.entry)))) }
{
    match schedule.child("entries") {
        Some(list) if is_list(list.object, 1, 100) => entries_offence(points, point, list),
        Some(list) => Ok(Some(list.breaks(ScheduleRule::Entries))),
        None => Ok(Some(schedule.breaks(ScheduleRule::Entries))),
    }
}

/// The first part of a schedule that offends; the schedules before it are of the same document.
fn schedule_offence<P: Points>(
    points: &P,
    before: &[Obj],
    schedule: Part<'_>,
) -> Result<Option<Offence<ScheduleRule>>, AllocError>
    ensures { IfOk result (λ first. first ≡ order.least (form.schedule_offences (P.rules points.now) before.now (part_of schedule.entry))) }
{
    let kind = kind_offence(schedule);
    let (right, point) = judge_point(points, before, schedule);
    let entries = listed_entries(points, right, schedule)?;
    Ok(earlier(kind, earlier(point, entries)))
}

/// The first part of schedules that offends.
fn schedules_offence<P: Points>(
    points: &P,
    list: Part<'_>,
) -> Result<Option<Offence<ScheduleRule>>, AllocError>
    ensures { IfOk result (λ first. first ≡ order.least (form.each (form.schedule_offences (P.rules points.now)) [] (inside (part_of list.entry)))) }
{
    let schedules = list.object.children();
    let mut number = list.number_inside();
    let mut first = None;
    for place in 0..schedules.len() {
        let object = object_at(schedules, place);
        let found = schedule_offence(points, &schedules[..place], Part { number, object })?;
        first = earlier(first, found);
        number = number_behind(number, object);
    }
    Ok(first)
}

/// The first part of a document's list of schedules that offends, itself or in it. Where it offends itself, nothing in it is
/// looked at: its own number is the least.
fn listed_schedules<P: Points>(
    points: &P,
    doc: Part<'_>,
) -> Result<Option<Offence<ScheduleRule>>, AllocError>
    ensures { IfOk result (λ first. first ≡ order.least (form.needs (codes "schedules") (λ _. rules.Schedules) (form.is_list 0 1_000) (part_of doc.entry) ++ form.each (form.schedule_offences (P.rules points.now)) [] (inside_child (codes "schedules") (part_of doc.entry)))) }
{
    match doc.child("schedules") {
        Some(list) if is_list(list.object, 0, 1_000) => schedules_offence(points, list),
        Some(list) => Ok(Some(list.breaks(ScheduleRule::Schedules))),
        None => Ok(Some(doc.breaks(ScheduleRule::Schedules))),
    }
}

/// The first part of a document that offends, if one does.
fn first_offence<P: Points>(
    points: &P,
    doc: &Obj,
) -> Result<Option<Offence<ScheduleRule>>, AllocError>
    ensures { IfOk result (λ first. first ≡ order.least (form.offences (P.rules points.now) doc.now)) }
{
    let doc = Part::root(doc);
    let kind = kind_offence(doc);
    let zone = zone_offence(doc);
    let schedules = listed_schedules(points, doc)?;
    Ok(earlier(kind, earlier(zone, schedules)))
}

/// Whether a document is a file of schedules for these points.
///
/// `Shape` comes exactly where it isn't, with the first part that offends and the first rule that it breaks. `Memory` comes for want of memory alone.
pub fn check_form<P: Points>(doc: &Obj, points: &P) -> Result<(), ScheduleFault>
    ensures is { OnOk result (form.IsFile (P.rules points.now) doc.now) }
    ensures refuses { IfErr result (Refuses (P.rules points.now) doc.now) }
{
    match first_offence(points, doc)? {
        Some(offence) => Err(ScheduleFault::Shape(offence)),
        None => Ok(()),
    }
}
