//! The logs of histories as they are opened.
ghost use Rattle.std.specs.Prelude.{◌≡◌, ◌+◌, ◌^◌, ◌<◌, ◌≤◌, ◌++◌, [], map, drop, length, replicate, IfOk};
ghost use Rattle.std.specs.List.{AllByRecursion};
ghost use Rattle.ob_history.specs.Logs.{empty_log};
ghost use Rattle.ob_history.specs.Records.{InOrder, IsNotBefore, IsRecord, MayFollow};
ghost use Rattle.ob_site_rules.specs.State.{rolled, rolled_logs};
ghost use Rattle.ob_site_rules.specs.Writes.{events_ever, with_record};
ghost use Rattle.ob_site_state.specs.Kept.{entry_of, log_of};
ghost use Rattle.ob_site_state.specs.Tallies.{capacities_of};
ghost use Rattle.ob_plain_state.specs.States.{AreCounted, entry_of as opened_entry, log_of as opened_log};
ghost use Rattle.ob_opening_laws.specs.Records.{EachLog};
ghost use Rattle.ob_site_open.specs.Logs.{CanStand, HasNanos, HaveNanos, stand_in};

use ob_history::{Log, Record};
use ob_object::{Kind, Slot};
use ob_plain_state::OpenedLog;
use ob_times::Moment;
use ob_values::{Abstime, Text};
use std::alloc::{AllocError, Global};

// A copy of a record.
fn copy_of(entry: &Record) -> Result<Record, AllocError>
    ensures copy { IfOk result (λ copy. copy ≡ entry.now) }
    ensures nanos { HasNanos entry.now }
{
    let _time = entry.time.parts();
    let slot = entry.slot.copy()?;
    Ok(Record {
        time: entry.time,
        kind: entry.kind,
        slot,
    })
}

// Puts a record last.
fn push(log: &mut Log, entry: Record) -> Result<(), AllocError>
    requires counted { log.old.gone + length log.old.kept + 1 < 2 ^ 63 }
    requires in_order { MayFollow log.old.kept entry }
    requires is_record { IsRecord entry }
    ensures { IfOk result (λ _. log_of log.new ≡ with_record entry (log_of log.old)) }
{
    log.reserve(1)?;
    log.push_reserved(entry);
    Ok(())
}

// Puts so many records without a value into a log that has none. They are to roll off, and only count.
fn push_gone(log: &mut Log, gone: u64, time: Abstime) -> Result<(), AllocError>
    requires none { log.old.kept ≡ [] }
    requires counted { log.old.gone + gone < 2 ^ 63 }
    ensures { IfOk result (λ _. log_of log.new ≡ record (log_of log.old) { kept = replicate gone (stand_in time) }) }
{
    for _ in 0..gone {
        push(
            log,
            Record {
                time,
                kind: Kind::Int,
                slot: Slot::Null,
            },
        )?;
    }
    Ok(())
}

// Puts copies of records last.
fn push_copies(log: &mut Log, records: &[Record]) -> Result<(), AllocError>
    requires counted { log.old.gone + length log.old.kept + length records.now < 2 ^ 63 }
    requires in_order { InOrder (log.old.kept ++ records.now) }
    requires are_records { AllByRecursion IsRecord records.now }
    ensures kept { IfOk result (λ _. log_of log.new ≡ record (log_of log.old) { kept = log.old.kept ++ records.now }) }
    ensures nanos { IfOk result (λ _. AllByRecursion HasNanos records.now) }
{
    for record in records {
        let copy = copy_of(record)?;
        push(log, copy)?;
    }
    Ok(())
}

// How many records are above the capacity of a log, if it has one.
fn above_capacity(opened: &OpenedLog) -> usize
    ensures within { result ≤ length opened.now.kept.items }
    ensures rolled { rolled (opened_log opened.now) ≡ record (opened_log opened.now) { gone = opened.now.gone + result; kept = drop result opened.now.kept.items } }
{
    match opened.capacity {
        Some(capacity) => opened.kept.len().saturating_sub(capacity as usize),
        None => 0,
    }
}

// A log that has had no records.
fn empty_log(alloc: Global, capacity: Option<u64>) -> Log
    ensures { result ≡ empty_log capacity }
{
    match capacity {
        Some(capacity) => Log::with_capacity(alloc, capacity),
        None => Log::new(alloc),
    }
}

// A time that isn't after the first of records: its own, or any where there is none.
fn time_before(records: &[Record], any: Moment) -> Abstime
    ensures { IsNotBefore (stand_in result) records.now }
{
    match records.first() {
        Some(first) => first.time,
        None => any.abstime(),
    }
}

// The log of a history, rolled down to its capacity. What rolls off isn't copied: records without a value count for it.
fn log_of(alloc: Global, opened: &OpenedLog, boot: Moment) -> Result<Log, AllocError>
    requires counted { events_ever (opened_log opened.now) < 2 ^ 63 }
    requires stands { CanStand (rolled (opened_log opened.now)) }
    ensures log { IfOk result (λ log. log_of log ≡ rolled (opened_log opened.now)) }
    ensures nanos { IfOk result (λ log. HaveNanos (log_of log)) }
{
    let above = above_capacity(opened);
    let kept = &opened.kept[above..];
    let mut log = empty_log(alloc, opened.capacity);
    push_gone(
        &mut log,
        opened.gone + above as u64,
        time_before(kept, boot),
    )?;
    push_copies(&mut log, kept)?;
    log.settle();
    Ok(log)
}

/// How many records each history keeps, if not all.
pub(crate) fn capacities_of(
    alloc: Global,
    opened: &[(Text, OpenedLog)],
) -> Result<Vec<Option<u64>>, AllocError>
    ensures { IfOk result (λ made. made.items ≡ capacities_of (rolled_logs (map opened_entry opened.now))) }
{
    let mut made = Vec::new(alloc);
    for entry in opened {
        made.push(entry.1.capacity)?;
    }
    Ok(made)
}

/// The logs of histories, each under its path, rolled down to their capacities.
pub(crate) fn logs_of(
    alloc: Global,
    opened: &[(Text, OpenedLog)],
    boot: Moment,
) -> Result<Vec<(Text, Log)>, AllocError>
    requires counted { AreCounted (map opened_entry opened.now) }
    requires stand { EachLog CanStand (rolled_logs (map opened_entry opened.now)) }
    ensures logs { IfOk result (λ logs. map entry_of logs.items ≡ rolled_logs (map opened_entry opened.now)) }
    ensures nanos { IfOk result (λ logs. EachLog HaveNanos (map entry_of logs.items)) }
{
    let mut logs = Vec::new(alloc);
    for entry in opened {
        let path = entry.0.copy()?;
        let log = log_of(alloc, &entry.1, boot)?;
        logs.push((path, log))?;
    }
    Ok(logs)
}
