//! The records that the items of a history's `data` are.
ghost use Rattle.std.specs.Prelude.{◌≡◌, ◌+◌, ◌<◌, ◌^◌, true, false, cond, codes, Option, Some, None, is_some, option_and_then, IfOk, IfErr, IfSome, IsTrue};
ghost use Rattle.std.specs.List.{list_all, filter_map};
ghost use Rattle.std.specs.Option.{option_copied};
ghost use Rattle.ob_object.specs.Fits.{fits_slot};
ghost use Rattle.ob_object.specs.Object.{in_row, count};
ghost use Rattle.ob_object.specs.declared.kind.Kind.TheVariants as kind;
ghost use Rattle.ob_parts.specs.Least.{least};
ghost use Rattle.ob_contracts.specs.Inherit.{slot_or_default};
ghost use Rattle.ob_times.specs.Times.{Instant, moment_instant};
ghost use Rattle.ob_history.specs.declared.records.Record.{Record as Stored};
ghost use Rattle.ob_site_rules.specs.Loading.{time_of, child_of, time_of_record, value_of_record, record_in, is_earlier, last_moment, is_late, falls, record_rule, is_bad_item, after_item, bad_records, numbered};
ghost use Rattle.ob_site_rules.specs.declared.site_rule.SiteRule.TheVariants as site_rule;
ghost use Rattle.ob_site_file.specs.RulesAndRecords.{record_by};

use crate::items::{Items, child_of};
use ob_history::Record;
use ob_object::{Kind, Obj, Slot};
use ob_parts::Offence;
use ob_site_rules::SiteRule;
use ob_values::{Abstime, Value};
use std::alloc::{AllocError, Global};

/// The last instant that a record may have, in nanoseconds.
const LAST: i128 = 253_402_300_799_999_000_000;

fn time_of(slot: &Slot) -> Option<Abstime>
    ensures { result ≡ time_of slot.now }
{
    match slot {
        Slot::Is(Value::Abstime(time)) => Some(*time),
        _ => None,
    }
}

// The time of a record, which its item gives itself.
fn own_time(item: &Obj) -> Option<Abstime>
    ensures { result ≡ time_of_record item.now }
{
    match child_of(item, "timestamp", Kind::Abstime) {
        Some(child) => time_of(child.slot()),
        None => None,
    }
}

// The value of a record.
fn own_value(item: &Obj) -> Option<&Obj>
    ensures { option_copied result ≡ value_of_record item.now }
{
    match item.child("value") {
        Some(child) => {
            if child.kind().has_values() {
                Some(child)
            } else {
                None
            }
        }
        None => None,
    }
}

// The time and the value of the record that an item is, by its own children alone; where it is none, the first rule that it breaks.
fn record_parts(item: &Obj) -> Result<(Abstime, &Obj), SiteRule>
    ensures ok { IfOk result (λ x. record_in item.now ≡ Some (record_by x)) }
    ensures none { IfErr result (λ _. record_in item.now ≡ None) }
    ensures rule { (before : Option Instant) → IfErr result (λ rule. record_rule before item.now None ≡ rule) }
{
    if !item.kind().same(Kind::Obj) {
        return Err(SiteRule::Kind);
    }
    let Some(time) = own_time(item) else {
        return Err(SiteRule::Timestamp);
    };
    match own_value(item) {
        Some(value) => Ok((time, value)),
        None => Err(SiteRule::Value),
    }
}

/// Whether an item is a record.
pub(crate) fn is_record(item: &Obj) -> bool
    ensures { result ≡ is_some (record_in item.now) }
{
    match record_parts(item) {
        Ok(_) => true,
        Err(_) => false,
    }
}

// A copy of an object's slot, or the default of its kind where it is absent.
fn slot_or_default(object: &Obj) -> Result<Slot, AllocError>
    ensures same { IfOk result (λ s. s ≡ slot_or_default object.now.head.kind object.now.head.slot) }
    ensures fits { IfOk result (λ s. IsTrue (fits_slot object.now.head.kind s)) }
{
    let own = object.head();
    match own.slot() {
        Slot::Absent => Ok(own.kind().default_slot()),
        slot => slot.copy(),
    }
}

// The record that an item is, if it is one.
fn record_in(item: &Obj) -> Result<Option<Record>, AllocError>
    ensures made { IfOk result (λ made. made ≡ record_in item.now) }
    ensures fits { IfOk result (λ made. IfSome made (λ r. IsTrue (fits_slot r.kind r.slot))) }
{
    match record_parts(item) {
        Ok((time, value)) => {
            let slot = slot_or_default(value)?;
            Ok(Some(Record {
                time,
                kind: value.kind(),
                slot,
            }))
        }
        Err(_) => Ok(None),
    }
}

/// The records that items are.
pub(crate) fn records_in(alloc: Global, items: &[Obj]) -> Result<Vec<Record>, AllocError>
    ensures records { IfOk result (λ rs. rs.items ≡ filter_map record_in items.now) }
    ensures fits { IfOk result (λ rs. IsTrue (list_all (λ r. fits_slot r.kind r.slot) rs.items)) }
{
    let mut records = Vec::new(alloc);
    for item in items {
        if let Some(record) = record_in(item)? {
            records.push(record)?;
        }
    }
    Ok(records)
}

// Whether a time is before the one in front of it.
fn falls(before: Option<Abstime>, time: Abstime) -> bool
    ensures { (r : Stored) → r.time ≡ time → result ≡ falls before r }
{
    match before {
        Some(before) => time.instant() < before.instant(),
        None => false,
    }
}

// Whether a time is after the last moment.
fn is_late(time: Abstime) -> bool
    ensures { result ≡ is_earlier (moment_instant last_moment) time }
{
    LAST < time.instant()
}

// The time of a record in its order, or the rule of order that it breaks.
fn in_order(before: Option<Abstime>, time: Abstime) -> Result<Abstime, SiteRule>
    ensures ok { IfOk result (λ t. (t ≡ time) × ((r : Stored) → r.time ≡ time → is_late before r ≡ false)) }
    ensures err { IfErr result (λ rule. (r : Stored) → r.time ≡ time → (is_late before r ≡ true) × (cond (falls before r) site_rule.Order site_rule.Late ≡ rule)) }
{
    if falls(before, time) {
        return Err(SiteRule::Order);
    }
    if is_late(time) {
        return Err(SiteRule::Late);
    }
    Ok(time)
}

// The time of the record that an item is in its order; where it is none, the first rule that it breaks.
fn next_time(before: Option<Abstime>, item: &Obj) -> Result<Abstime, SiteRule>
    ensures ok { IfOk result (λ t. (is_bad_item before (record_in item.now) ≡ false) × (after_item before (record_in item.now) ≡ Some t)) }
    ensures err { IfErr result (λ rule. (is_bad_item before (record_in item.now) ≡ true) × (record_rule before item.now (record_in item.now) ≡ rule)) }
{
    match record_parts(item) {
        Ok(parts) => in_order(before, parts.0),
        Err(rule) => Err(rule),
    }
}

/// The first item that is no record, or out of order, and the rule that it breaks.
pub(crate) fn bad_record(items: &Items) -> Option<Offence<SiteRule>>
    requires { items.now.number + count (in_row items.now.objects.now) < 2 ^ 64 }
    ensures { result ≡ least (bad_records None (numbered items.now.number items.now.objects.now)) }
{
    let mut before = None;
    let mut number = items.number;
    for item in items.objects {
        match next_time(before, item) {
            Ok(time) => before = Some(time),
            Err(rule) => {
                return Some(Offence { part: number, rule });
            }
        }
        number += item.parts();
    }
    None
}
