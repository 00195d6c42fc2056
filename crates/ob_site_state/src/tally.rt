//! How much is stored: a running sum beside the logs; and how much more one value stores.
ghost use Rattle.std.specs.Prelude.{◌≡◌, ◌<◌, ◌+◌, ◌-◌, ◌^◌, ◌&&◌, cond, min, length, map, Option, None, slice_get, Some, is_none, IfOk, OnOk};
ghost use Rattle.std.specs.Str.{bytes_eq};
ghost use Rattle.ob_site_rules.specs.Build.{Path};
ghost use Rattle.ob_site_rules.specs.State.{Log as SiteLog};
ghost use Rattle.ob_site_rules.specs.Writes.{stored_in, stored_logs};
ghost use Rattle.ob_site_state.specs.Roles.{is_of};
ghost use Rattle.ob_site_state.specs.Kept.{entry_of};
ghost use Rattle.ob_site_state.specs.Tallies.{capacities_of, counted, count_at, growing_in, IsTallied, with_one};

use ob_history::Log;
use ob_values::Text;
use std::alloc::{AllocError, Global};
use std::collections::BTreeMap;

/// How many records the history of each place keeps, if not all; how many of the histories of each source keep all; and
/// how much the histories count for of what is stored, now and before the step: 2^64 - 1 where that is more.
pub(crate) struct Tally {
    pub capacities: Vec<Option<u64>>,
    pub growing: BTreeMap<String, u64>,
    pub total: u64,
    pub total_before: u64,
}

impl Drop for Tally {
    // By one call, so that to drop it is one call to whoever may have to.
    fn drop(self) {
        let Tally {
            capacities,
            growing,
            total: _,
            total_before: _,
        } = self;
        drop(capacities);
        drop(growing);
    }
}

/// How much a log counts for: its capacity, or the records that it has.
fn stored_in(capacity: Option<u64>, records: u64) -> u64
    ensures { result ≡ stored_in capacity records }
{
    match capacity {
        Some(capacity) => capacity,
        None => records,
    }
}

/// How much logs count for together, or 2^64 - 1 where that is more.
fn counted(capacities: &[Option<u64>], logs: &[(Text, Log)]) -> u64
    requires { capacities_of (map entry_of logs.now) ≡ capacities.now }
    ensures { result ≡ counted (map entry_of logs.now) }
{
    let mut total: u64 = 0;
    for place in 0..logs.len() {
        let stored = stored_in(capacities[place], logs[place].1.len());
        total = total.saturating_add(stored);
    }
    total
}

/// How much is counted for a path.
pub(crate) fn count_at(counts: &BTreeMap<String, u64>, path: &Text) -> u64
    ensures { result ≡ count_at counts.now path.now }
{
    match counts.get(path.as_str()) {
        Some(count) => *count,
        None => 0,
    }
}

/// Counts one more for a path.
fn put_one(alloc: Global, counts: &mut BTreeMap<String, u64>, path: &Text) -> Result<(), AllocError>
    requires { count_at counts.old path.now < 2 ^ 64 - 1 }
    ensures { OnOk result ((p : Path) → count_at counts.new p ≡ count_at counts.old p + cond (bytes_eq path.now p) 1 0) }
{
    let count = count_at(counts, path);
    let key = String::from_str(alloc, path.as_str())?;
    counts.insert(key, count + 1)?;
    Ok(())
}

/// Counts a history for its source, if it has one and keeps all its records.
fn put_growing(
    alloc: Global,
    counts: &mut BTreeMap<String, u64>,
    history: &(Text, Option<Text>),
    capacity: Option<u64>,
) -> Result<(), AllocError>
    requires { (p : Path) → count_at counts.old p < 2 ^ 64 - 1 }
    ensures { OnOk result ((p : Path) → count_at counts.new p ≡ count_at counts.old p + cond (is_of p history.now && is_none capacity) 1 0) }
{
    if capacity.is_some() {
        return Ok(());
    }
    match &history.1 {
        Some(source) => put_one(alloc, counts, source),
        None => Ok(()),
    }
}

/// How many of the histories of each source keep all their records.
fn growing_by_source(
    alloc: Global,
    histories: &[(Text, Option<Text>)],
    capacities: &[Option<u64>],
) -> Result<BTreeMap<String, u64>, AllocError>
    requires { length histories.now ≡ length capacities.now }
    ensures { IfOk result (λ counts. (p : Path) → count_at counts p ≡ growing_in p histories.now capacities.now) }
{
    let mut counts = BTreeMap::new(alloc);
    for place in 0..histories.len() {
        put_growing(alloc, &mut counts, &histories[place], capacities[place])?;
    }
    Ok(counts)
}

impl Tally {
    /// The tally of the logs of histories, in a step that has changed nothing yet. An error only for want of memory.
    pub fn new(
        alloc: Global,
        histories: &[(Text, Option<Text>)],
        capacities: Vec<Option<u64>>,
        logs: &[(Text, Log)],
    ) -> Result<Tally, AllocError>
        requires beside { length histories.now ≡ length capacities.items }
        requires logs { capacities_of (map entry_of logs.now) ≡ capacities.items }
        ensures tallied { IfOk result (λ made. IsTallied made (map entry_of logs.now) (map entry_of logs.now)) }
        ensures growing { IfOk result (λ made. (p : Path) → count_at made.growing p ≡ growing_in p histories.now made.capacities.items) }
    {
        let growing = growing_by_source(alloc, histories, &capacities)?;
        let total = counted(&capacities, logs);
        Ok(Tally {
            capacities,
            growing,
            total,
            total_before: total,
        })
    }

    /// Counts one more record in the log of a place.
    pub fn add(&mut self, place: usize)
        requires { place < length self.old.capacities.items }
        ensures { self.new ≡ with_one place self.old }
    {
        if self.capacities[place].is_none() {
            self.total = self.total.saturating_add(1);
        }
    }
}
