//! The ring of a log, which is made with the first room.
ghost use Rattle.std.specs.Prelude.{◌≡◌, ◌+◌, ◌-◌, ◌≤◌, ◌<◌, ◌++◌, ◌∷◌, [], length, take, OnOk, OnErr};
ghost use Rattle.std.specs.Option.{option_copied};
ghost use Rattle.circular_buffer.specs.Buffer.{buffer, keep_last, last_item};
ghost use Rattle.ob_history.specs.Logs.{kept_in, spare_in};

use crate::records::Record;
use circular_buffer::HeapCircularBuffer;
use std::alloc::{AllocError, Global};

// Makes room for so many more records, and at least twice the old room where it grows.
fn grow(ring: &mut HeapCircularBuffer<Record>, additional: u32) -> Result<(), AllocError>
    ensures items { ring.new.items ≡ ring.old.items }
    ensures grows { ring.old.capacity ≤ ring.new.capacity }
    ensures ok { OnOk result (length ring.old.items + additional ≤ ring.new.capacity) }
    ensures err { OnErr result (ring.new ≡ ring.old) }
{
    let capacity = ring.capacity();
    let needed = ring.len() + additional as usize;
    if needed <= capacity {
        return Ok(());
    }
    ring.resize(needed.max(capacity * 2))
}

/// Makes room for so many more records.
pub fn make_room(
    alloc: Global,
    ring: &mut Option<HeapCircularBuffer<Record>>,
    additional: u32,
) -> Result<(), AllocError>
    ensures kept { kept_in ring.new ≡ kept_in ring.old }
    ensures grows { spare_in ring.old ≤ spare_in ring.new }
    ensures ok { OnOk result (additional ≤ spare_in ring.new) }
    ensures err { OnErr result (ring.new ≡ ring.old) }
{
    match ring {
        Some(ring) => grow(ring, additional),
        None => {
            let made = HeapCircularBuffer::with_capacity(alloc, additional as usize)?;
            *ring = Some(made);
            Ok(())
        }
    }
}

/// The last record.
pub fn last(ring: &Option<HeapCircularBuffer<Record>>) -> Option<&Record>
    ensures { option_copied result ≡ last_item (kept_in ring.now) }
{
    match ring {
        Some(ring) => ring.back(),
        None => None,
    }
}

fn put_last(ring: &mut HeapCircularBuffer<Record>, entry: Record)
    requires { length ring.old.items < ring.old.capacity }
    ensures { ring.new ≡ buffer (ring.old.items ++ entry ∷ []) ring.old.capacity }
{
    let _full = ring.try_push_back(entry);
}

/// Puts a record last, where there is room.
pub fn push_last(ring: &mut Option<HeapCircularBuffer<Record>>, entry: Record)
    requires { 1 ≤ spare_in ring.old }
    ensures kept { kept_in ring.new ≡ kept_in ring.old ++ entry ∷ [] }
    ensures spare { spare_in ring.new ≡ spare_in ring.old - 1 }
{
    if let Some(ring) = ring {
        put_last(ring, entry);
    }
}

/// Drops the newest records down to so many.
pub fn keep_first(ring: &mut Option<HeapCircularBuffer<Record>>, len: usize)
    ensures kept { kept_in ring.new ≡ take len (kept_in ring.old) }
    ensures spare { spare_in ring.new ≡ spare_in ring.old + (length (kept_in ring.old) - len) }
{
    if let Some(ring) = ring {
        let _held = ring.len();
        ring.truncate_back(len);
    }
}

/// Drops the oldest records down to so many, and tells how many it dropped.
pub fn keep_newest(ring: &mut Option<HeapCircularBuffer<Record>>, limit: usize) -> usize
    ensures count { result ≡ length (kept_in ring.old) - limit }
    ensures kept { kept_in ring.new ≡ keep_last limit (kept_in ring.old) }
    ensures spare { spare_in ring.new ≡ spare_in ring.old + (length (kept_in ring.old) - limit) }
{
    match ring {
        Some(ring) => {
            let len = ring.len();
            ring.truncate_front(limit);
            len.saturating_sub(limit)
        }
        None => 0,
    }
}
