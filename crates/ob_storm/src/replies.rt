//! What is counted in replies.
ghost use Rattle.std.specs.Prelude.{◌≡◌, not, filter, length, map, sum};
ghost use Rattle.ob_watching.specs.WatchOuts.{is_of_kind, is_dropped, number_in};
ghost use Rattle.ob_storm.specs.Counts.{entries, is_err, is_object, objects_in, events_of, events_in, counted, count_shown};

use ob_object::{Kind, Obj, Slot};
use ob_values::Value;

// Whether an object is of a kind.
fn is_of_kind(kind: Kind, object: &Obj) -> bool
    ensures { result ≡ is_of_kind kind object.now }
{
    object.kind().same(kind)
}

/// Whether a reply is an err.
pub(crate) fn is_err(reply: &Obj) -> bool
    ensures { result ≡ is_err reply.now }
{
    is_of_kind(Kind::Err, reply)
}

// Whether an entry is neither a feed nor an err.
fn is_object(entry: &Obj) -> bool
    ensures { result ≡ is_object entry.now }
{
    !(is_of_kind(Kind::Feed, entry) || is_of_kind(Kind::Err, entry))
}

// The entries of a WatchOut; other replies have none.
fn entries(reply: &Obj) -> &[Obj]
    ensures { result.now ≡ entries reply.now }
{
    match reply.child("values") {
        Some(values) => values.children(),
        None => &[],
    }
}

/// How many objects are among the entries of a WatchOut.
pub(crate) fn objects_in(reply: &Obj) -> u64
    ensures { result ≡ objects_in reply.now }
{
    entries(reply)
        .iter()
        .filter(|entry| is_object(entry))
        .count() as u64
}

// Whether a child of a feed tells how many events dropped out.
fn is_dropped(child: &Obj) -> bool
    ensures { result ≡ is_dropped child.now }
{
    child.is_named("dropped")
}

// How many of a feed's children are events.
fn events_among(children: &[Obj]) -> u64
    ensures { result ≡ length (filter (λ o. not (is_dropped o)) children.now) }
{
    children.iter().filter(|child| !is_dropped(child)).count() as u64
}

// How many events an entry has.
fn events_of(entry: &Obj) -> u64
    ensures { result ≡ events_of entry.now }
{
    if is_of_kind(Kind::Feed, entry) {
        events_among(entry.children())
    } else {
        0
    }
}

// How many events some entries have, up to the last number of 64 bits.
fn events_of_all(entries: &[Obj]) -> u64
    ensures { result ≡ counted (sum (map events_of entries.now)) }
{
    let mut events: u64 = 0;
    for entry in entries {
        events = events.saturating_add(events_of(entry));
    }
    events
}

/// How many events are in the entries of a WatchOut; the count stands still at the last number of 64 bits.
pub(crate) fn events_in(reply: &Obj) -> u64
    ensures { result ≡ counted (events_in reply.now) }
{
    events_of_all(entries(reply))
}

// The number of a slot; 0 where it has none.
fn number_in(slot: &Slot) -> u64
    ensures { result ≡ number_in slot.now }
{
    match slot {
        Slot::Is(Value::Int(number)) if *number >= 0 => *number as u64,
        _ => 0,
    }
}

/// What a history or an alarm subject says of how many it has.
pub(crate) fn count_shown(reply: &Obj) -> u64
    ensures { result ≡ count_shown reply.now }
{
    match reply.child("count") {
        Some(count) => number_in(count.slot()),
        None => 0,
    }
}
