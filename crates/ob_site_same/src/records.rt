//! Whether two logs keep the same records.
ghost use Rattle.std.specs.Prelude.{◌≡◌, ◌↔◌, ◌<◌, ◌++◌, length, slice_get, Some, IsTrue};

use ob_history::{Log, Record};
use ob_object::Slot;
use ob_site_state::same_slot;

/// Whether two slots are one.
fn is_slot(slot: &Slot, other: &Slot) -> bool
    ensures { IsTrue result ↔ (slot.now ≡ other.now) }
{
    same_slot(slot, other)
}

/// Whether two records are of one kind and one time.
fn is_beside(entry: &Record, other: &Record) -> bool
    ensures { IsTrue result ↔ ((entry.now.kind ≡ other.now.kind) × (entry.now.time ≡ other.now.time)) }
{
    entry.kind == other.kind && entry.time == other.time
}

/// Whether two records are one.
fn same_record(entry: &Record, other: &Record) -> bool
    ensures { IsTrue result ↔ (entry.now ≡ other.now) }
{
    if !is_beside(entry, other) {
        return false;
    }
    is_slot(&entry.slot, &other.slot)
}

/// The record at a place of two slices, read as one list.
fn record_at<'a>(front: &'a [Record], back: &'a [Record], place: usize) -> &'a Record
    requires { place < length (front.now ++ back.now) }
    ensures { Some result.now ≡ slice_get (front.now ++ back.now) place }
{
    if place < front.len() {
        &front[place]
    } else {
        &back[place - front.len()]
    }
}

/// Whether two logs keep the same records.
pub(crate) fn same_records(log: &Log, other: &Log) -> bool
    ensures { IsTrue result ↔ (log.now.kept ≡ other.now.kept) }
{
    if log.len() != other.len() {
        return false;
    }
    let (front, back) = log.since(0);
    let (first, second) = other.since(0);
    for place in 0..front.len() + back.len() {
        if !same_record(
            record_at(front, back, place),
            record_at(first, second, place),
        ) {
            return false;
        }
    }
    true
}
