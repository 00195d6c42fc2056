//! The log of a history.
ghost use Rattle.std.specs.Prelude.{◌≡◌, ◌↔◌, ◌+◌, ◌-◌, ◌^◌, ◌≤◌, ◌<◌, ◌++◌, [], length, drop, min, unwrap_or, Some, None, All, IsTrue, OnOk, OnErr};
ghost use Rattle.std.specs.List.{enumerate_from};
ghost use Rattle.std.specs.Option.{option_copied};
ghost use Rattle.ob_history.specs.Records.{InOrder, IsRecord, Follows, MayFollow, asked};
ghost use Rattle.ob_history.specs.Logs.{History, empty_log, pushed, cut_to, settled, kept_since};
ghost use Rattle.ob_history.specs.Queries.{numbered};

use crate::records::{Filter, Query, Record, Stretch};
use crate::ring::{keep_first, keep_newest, last, make_room, push_last};
use crate::slices::{asked_of, between};
use circular_buffer::HeapCircularBuffer;
use std::alloc::{AllocError, Global};
use std::marker::Model;

/// The records of a history, the oldest first. Their instants never fall.
///
/// A log with a capacity drops its oldest records at `settle`, and counts them in `gone`. An event of
/// the history's feed is a record, and its number counts from 0, those that rolled off included.
pub struct Log {
    alloc: Global,
    capacity: Option<u64>,
    gone: u64,
    ring: Option<HeapCircularBuffer<Record>>,
}

impl Drop for Log {
    // By one call, so that to drop a log is one call to whoever may have to.
    fn drop(self) {
        let Log {
            alloc: _,
            capacity: _,
            gone: _,
            ring,
        } = self;
        drop(ring);
    }
}

impl Model for Log {
    ghost use Rattle.ob_history.specs.Logs.{History, IsHistory, kept_in, spare_in};

    ghost Value = { History };

    ghost view = { λ l. record { capacity = l.capacity; gone = l.gone; kept = kept_in l.ring; spare = spare_in l.ring } };

    ghost invariant = { λ l. IsHistory l.gone (kept_in l.ring) };
}

// Whether a record isn't before another one, if there is one.
fn follows(last: Option<&Record>, entry: &Record) -> bool
    ensures { IsTrue result ↔ Follows (option_copied last.entry) entry.now }
{
    match last {
        Some(last) => last.time.instant() <= entry.time.instant(),
        None => true,
    }
}

impl Log {
    /// A log that keeps every record. It takes no memory before `reserve`.
    pub fn new(alloc: Global) -> Log
        ensures { result ≡ empty_log None }
    {
        Log {
            alloc,
            capacity: None,
            gone: 0,
            ring: None,
        }
    }

    /// A log that keeps the newest `capacity` records at `settle`. It takes no memory before `reserve`.
    pub fn with_capacity(alloc: Global, capacity: u64) -> Log
        ensures { result ≡ empty_log (Some capacity) }
    {
        Log {
            alloc,
            capacity: Some(capacity),
            gone: 0,
            ring: None,
        }
    }

    /// The number of kept records.
    pub fn len(&self) -> u64
        ensures len { result ≡ length self.now.kept }
        ensures counted { self.now.gone + result < 2 ^ 63 }
    {
        let (front, back) = self.slices();
        (front.len() + back.len()) as u64
    }

    /// The number of records that rolled off.
    pub fn gone(&self) -> u64
        ensures { result ≡ self.now.gone }
    {
        self.gone
    }

    /// Whether a record at that instant may be the next: it isn't before the last one that is kept.
    pub fn may_follow(&self, entry: &Record) -> bool
        ensures { IsTrue result ↔ MayFollow self.now.kept entry.now }
    {
        follows(last(&self.ring), entry)
    }

    /// Makes room for so many more records, above a capacity too. Want of memory leaves the log as it
    /// was.
    pub fn reserve(&mut self, additional: u32) -> Result<(), AllocError>
        ensures stays { self.new ≡ record self.old { spare = self.new.spare } }
        ensures grows { self.old.spare ≤ self.new.spare }
        ensures ok { OnOk result (additional ≤ self.new.spare) }
        ensures err { OnErr result (self.new ≡ self.old) }
    {
        make_room(self.alloc, &mut self.ring, additional)
    }

    /// Puts a record last, in room that was made for it. It takes no memory.
    pub fn push_reserved(&mut self, entry: Record)
        requires room { 1 ≤ self.old.spare }
        requires counted { self.old.gone + length self.old.kept + 1 < 2 ^ 63 }
        requires in_order { MayFollow self.old.kept entry }
        requires is_record { IsRecord entry }
        ensures { self.new ≡ pushed self.old entry }
    {
        push_last(&mut self.ring, entry);
    }

    /// Keeps the first `len` of the kept records: it undoes the pushes since the log had so many, where
    /// no `settle` came between.
    pub fn cut(&mut self, len: u64)
        ensures { self.new ≡ cut_to len self.old }
    {
        keep_first(&mut self.ring, len as usize);
    }

    /// Drops the oldest records down to the capacity, if the log has one, and counts them.
    pub fn settle(&mut self)
        ensures { self.new ≡ settled self.old.capacity self.old }
    {
        if let Some(capacity) = self.capacity {
            self.gone += keep_newest(&mut self.ring, capacity as usize) as u64;
        }
    }

    // The kept records, in two slices.
    fn slices(&self) -> (&[Record], &[Record])
        ensures value { result.0.now ++ result.1.now ≡ self.now.kept }
        ensures in_order { InOrder (result.0.now ++ result.1.now) }
        ensures counted { self.now.gone + length (result.0.now ++ result.1.now) < 2 ^ 63 }
        ensures records { All IsRecord (result.0.now ++ result.1.now) }
    {
        match &self.ring {
            Some(ring) => ring.as_slices(),
            None => (&[], &[]),
        }
    }

    // The kept records from an event number on, in two slices, and the event number of the first of them.
    fn from_number<'a>(&'a self, from: u64) -> (u64, &'a [Record], &'a [Record])
        ensures number { result.0 ≡ self.entry.now.gone + min (from - self.entry.now.gone) (length self.entry.now.kept) }
        ensures value { result.1.now ++ result.2.now ≡ kept_since from self.entry.now }
        ensures in_order { InOrder (result.1.now ++ result.2.now) }
        ensures counted { result.0 + length (result.1.now ++ result.2.now) < 2 ^ 63 }
        ensures records { All IsRecord (result.1.now ++ result.2.now) }
    {
        let (front, back) = self.slices();
        let len = front.len() + back.len();
        let before = (from.saturating_sub(self.gone) as usize).min(len);
        let (front, back) = between((front, back), before, len);
        (self.gone + before as u64, front, back)
    }

    /// What a filter asks for, in two slices: the first `limit` of the kept records that it passes, in
    /// their order. Both bounds are found by halving, and nothing is copied.
    pub fn range<'a>(&'a self, filter: &Filter) -> (&'a [Record], &'a [Record])
        ensures value { result.0.now ++ result.1.now ≡ asked filter.now self.entry.now.kept }
        ensures records { All IsRecord (result.0.now ++ result.1.now) }
    {
        let (front, back) = self.slices();
        let (_early, front, back) = asked_of(front, back, filter);
        (front, back)
    }

    /// What a query asks for: the first `limit` of the kept records that its filter passes and whose
    /// number is at least its `from`, where it gives one, in their order, and the number of the first of
    /// them. As with `range` nothing is copied.
    pub fn query<'a>(&'a self, query: &Query) -> Stretch<'a>
        ensures value { enumerate_from result.first (result.front.now ++ result.back.now) ≡ numbered query.now self.entry.now.gone self.entry.now.kept }
        ensures kept { result.front.now ++ result.back.now ≡ asked query.now.filter (drop (unwrap_or query.now.from 0 - self.entry.now.gone) self.entry.now.kept) }
        ensures counted { result.first < 2 ^ 63 }
        ensures records { All IsRecord (result.front.now ++ result.back.now) }
    {
        let (number, front, back) = self.from_number(query.from.unwrap_or(0));
        let (early, front, back) = asked_of(front, back, &query.filter);
        Stretch {
            first: number + early as u64,
            front,
            back,
        }
    }

    /// The kept records from an event number on, the first event ever being 0, in two slices.
    pub fn since<'a>(&'a self, from: u64) -> (&'a [Record], &'a [Record])
        ensures value { result.0.now ++ result.1.now ≡ kept_since from self.entry.now }
        ensures records { All IsRecord (result.0.now ++ result.1.now) }
    {
        let (_number, front, back) = self.from_number(from);
        (front, back)
    }
}
