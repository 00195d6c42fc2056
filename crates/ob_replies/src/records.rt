//! Records of histories.
ghost use Rattle.std.specs.Prelude.{◌≡◌, ◌++◌, ◌<◌, ◌^◌, map, Some, IsTrue, IfOk};
ghost use Rattle.ob_object.specs.Fits.{fits_slot};
ghost use Rattle.ob_site_rules.specs.Entries.{record_object, records_out, numbers_told};
ghost use Rattle.ob_replies.specs.Numbers.{AreCounted, first_number, numbers_of};
ghost use Rattle.ob_replies.specs.Queries.{values_fit};

use crate::build::{put, timed, valued, whole};
use crate::contract::Contract;
use crate::query::{Numbers, query_out};
use ob_history::{Log, Query, Record, Stretch};
use ob_object::{Attributes, Kind, Obj};
use ob_times::Abstime;
use std::alloc::{AllocError, Global};

/// A HistoryRecord: when, and the value of the point then.
///
/// Source: oBIX 1.1, section 14.2 (HistoryRecord).
pub fn record_object(alloc: Global, kept: &Record) -> Result<Obj, AllocError>
    requires { IsTrue (fits_slot kept.now.kind kept.now.slot) }
    ensures { IfOk result (λ o. o ≡ record_object kept.now) }
{
    let slot = kept.slot.copy()?;
    let mut children = Vec::new(alloc);
    put(&mut children, timed(alloc, "timestamp", Some(kept.time))?)?;
    put(&mut children, valued(alloc, kept.kind, "value", slot)?)?;
    Ok(whole(Attributes::empty(alloc, Kind::Obj), children))
}

/// Puts the times of records last, and the records as objects.
fn put_records(
    alloc: Global,
    times: &mut Vec<Abstime>,
    objects: &mut Vec<Obj>,
    records: &[Record],
) -> Result<(), AllocError>
    requires { IsTrue (values_fit records.now) }
    ensures times { IfOk result (λ _. times.new.items ≡ times.old.items ++ map (λ r. r.time) records.now) }
    ensures objects { IfOk result (λ _. objects.new.items ≡ objects.old.items ++ map record_object records.now) }
{
    for record in records {
        times.push(record.time)?;
        put(objects, record_object(alloc, record)?)?;
    }
    Ok(())
}

/// What an answer tells in numbers, where a query asks from a number on: how many records rolled off, and the
/// number of the first of those given, if any is given.
fn numbers_told(from: Option<u64>, gone: u64, first: u64, count: usize) -> Option<Numbers>
    requires gone { gone < 2 ^ 63 }
    requires first { first < 2 ^ 63 }
    ensures counted { AreCounted result }
    ensures told { numbers_of result ≡ numbers_told from gone (first_number first count) }
{
    let _from = from?;
    let first = if count == 0 { None } else { Some(first) };
    Some(Numbers { gone, first })
}

/// HistoryQueryOut: the first of the kept records that the query passes, as many as it asks for; and where it
/// asks from a number on, how many records rolled off, and the number of the first one given.
///
/// Source: oBIX 1.1, section 14.2 (HistoryQueryOut); the numbers are this profile's own.
pub fn records_out(alloc: Global, query: &Query, log: &Log) -> Result<Obj, AllocError>
    ensures { IfOk result (λ o. o ≡ records_out query.now log.now.gone log.now.kept) }
{
    let Stretch { first, front, back } = log.query(query);
    let mut times = Vec::new(alloc);
    let mut objects = Vec::new(alloc);
    put_records(alloc, &mut times, &mut objects, front)?;
    put_records(alloc, &mut times, &mut objects, back)?;
    let _counted = log.len();
    let numbers = numbers_told(query.from, log.gone(), first, objects.len());
    query_out(
        alloc,
        (Contract::HistoryQueryOut, Contract::HistoryRecord),
        numbers,
        &times,
        objects,
    )
}
