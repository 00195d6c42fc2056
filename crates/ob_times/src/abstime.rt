//! Instants.
ghost use Rattle.std.specs.Prelude.{◌≡◌, ◌↔◌, ℕ, ◌+◌, ◌*◌, ◌%◌, ◌<◌, ◌≤◌, List, ◌++◌, ◌∷◌, Bool, pos, neg_ℤ, ◌+ℤ◌, length, IsSome, IfSome, IfNone, Result};
ghost use Rattle.jiff.specs.Words.{IsBetween, epoch_day};
ghost use Rattle.ob_times.specs.Times.{Instant, IsInstant, local_seconds, since_year_1, instant, at_clock};
ghost use Rattle.ob_times.specs.InstantOrder.{instant_cmp};
ghost use Rattle.ob_times.specs.PrintedTimes.{day_at};
ghost use Rattle.std.specs.Ordering.{as_partial_cmp};
ghost use Rattle.std.specs.Cmp.{partial_order_from_own_ties};
ghost use Rattle.std.specs.Cmp.Rules.{comparing};
ghost use Rattle.std.proofs.Common.{rules};
ghost use Rattle.ob_times.specs.Clock.{IsClock};
ghost use Rattle.ob_times.specs.Civil.{IsDay};
ghost use Rattle.ob_times.specs.InstantText.{zone_mark, IsZoneText, IsZone, zone_offset, IsLocalText, IsZonedText, IsZoned, IsInstantOf, IsZoneLength};
ghost use Rattle.ob_times.specs.Readers.{ReadsAbstime};
ghost use Rattle.ob_times.specs.declared.abstime.Zone.{Zone};
ghost use Rattle.ob_times.specs.declared.abstime.LocalTime.{LocalTime};
ghost use Rattle.ob_times.specs.declared.abstime.ZonedTime.{ZonedTime};
ghost use Rattle.ob_spelling.specs.Reads.{ReadsAs};
ghost use Rattle.ob_spelling.specs.declared.fault.ValueFault.{ValueFault};

use crate::CivilDate;
use crate::civil::{Day, split_date};
use crate::clock::{Clock, split_time};
use ob_spelling::{ValueFault, trimmed, two_digits};
use std::cmp::Ordering;
use std::marker::Model;

const EARLIEST: i64 = -62_135_596_800;

const LATEST: i64 = 253_402_300_799;

/// An instant, with the offset of the clock that told it.
#[derive(Clone, Copy, PartialEq, Eq)]
pub struct Abstime {
    seconds: i64,
    nanos: u32,
    offset: i16,
}

impl Model for Abstime {
    ghost use Rattle.ob_times.specs.Times.{Instant, IsInstant};

    ghost Value = { Instant };

    ghost view = { λ a. record { seconds = a.seconds; nanos = a.nanos; offset = a.offset } };

    ghost invariant = { λ a. IsInstant (record { seconds = a.seconds; nanos = a.nanos; offset = a.offset }) };

    ghost inverse = { λ a. record { seconds = a.seconds; nanos = a.nanos; offset = a.offset } };
}

impl Abstime {
    // The instant at which a clock at that offset shows the date and the second of the day.
    fn at_local(date: &CivilDate, second: u32, nanos: u32, offset: i16) -> Abstime
        requires second { second < 86_400 }
        requires nanos { nanos < 1_000_000_000 }
        requires offset { IsBetween (neg_ℤ (pos 840)) (pos 840) offset }
        ensures { result ≡ at_clock (epoch_day date.now) second nanos offset }
    {
        let local = date.epoch_day() as i64 * 86_400 + second as i64;
        Abstime {
            seconds: local - offset as i64 * 60,
            nanos,
            offset,
        }
    }

    /// The instant that many seconds and nanoseconds after 1970 began at UTC, or `None` where the
    /// offset or the local year is out of range.
    pub fn new(seconds: i64, nanos: u32, offset: i16) -> Option<Abstime>
        ensures some { IsSome result ↔ IsInstant (record { seconds = seconds; nanos = nanos; offset = offset }) }
        ensures value { IfSome result (λ a. a ≡ record { seconds = seconds; nanos = nanos; offset = offset }) }
    {
        if nanos >= 1_000_000_000 || offset < -840 || offset > 840 {
            return None;
        }
        let local = seconds as i128 + offset as i128 * 60;
        if local < EARLIEST as i128 || local > LATEST as i128 {
            return None;
        }
        Some(Abstime {
            seconds,
            nanos,
            offset,
        })
    }

    // The instant that many seconds and nanoseconds after 1970 began at UTC, with no offset.
    pub(crate) fn at_utc(seconds: i64, nanos: u32) -> Abstime
        requires { IsInstant (record { seconds = seconds; nanos = nanos; offset = pos 0 }) }
        ensures { result ≡ record { seconds = seconds; nanos = nanos; offset = pos 0 } }
    {
        Abstime {
            seconds,
            nanos,
            offset: 0,
        }
    }

    // The seconds that a clock at the offset shows, from the start of the year 1.
    fn since_year_1(&self) -> u64
        ensures value { pos result ≡ local_seconds self.now +ℤ pos 62_135_596_800 }
        ensures since { result ≡ since_year_1 self.now }
        ensures below { result < 315_537_897_600 }
    {
        let (seconds, _, offset) = self.parts();
        let local = seconds + offset as i64 * 60;
        (local - EARLIEST) as u64
    }

    // The date and the second of the day that a clock at the offset shows.
    pub(crate) fn local(&self) -> (CivilDate, u32)
        ensures instant { self.now ≡ at_clock (epoch_day result.0) result.1 self.now.nanos self.now.offset }
        ensures day { epoch_day result.0 ≡ day_at (since_year_1 self.now) }
        ensures of_day { result.1 ≡ since_year_1 self.now % 86_400 }
        ensures second { result.1 < 86_400 }
    {
        let seconds = self.since_year_1();
        let date = CivilDate::from_epoch_day((seconds / 86_400) as i64 - 719_162);
        (date, (seconds % 86_400) as u32)
    }

    /// The instant alone, in nanoseconds from 1970-01-01T00:00:00Z.
    pub fn instant(&self) -> i128
        ensures { result ≡ instant self.now }
    {
        let (seconds, nanos, _) = self.parts();
        seconds as i128 * 1_000_000_000 + nanos as i128
    }

    /// The seconds, the nanoseconds and the offset.
    pub fn parts(&self) -> (i64, u32, i16)
        ensures value { self.now ≡ record { seconds = result.0; nanos = result.1; offset = result.2 } }
        ensures range { IsInstant (record { seconds = result.0; nanos = result.1; offset = result.2 }) }
    {
        (self.seconds, self.nanos, self.offset)
    }
}

/// By the nanoseconds from 1970, and then by offset.
impl Ord for Abstime {
    ghost cmp = { instant_cmp };

    ghost total = { Prim.search (comparing, rules) };

    ghost matches_partial_cmp = { Prim.search (comparing, rules) };

    ghost matches_eq = { Prim.search (comparing, rules) };

    fn cmp(&self, other: &Abstime) -> Ordering {
        let (seconds, nanos, offset) = self.parts();
        let (other_seconds, other_nanos, other_offset) = other.parts();
        seconds
            .cmp(&other_seconds)
            .then(nanos.cmp(&other_nanos))
            .then(offset.cmp(&other_offset))
    }
}

impl PartialOrd for Abstime {
    ghost partial_cmp = { as_partial_cmp instant_cmp };

    ghost laws = { partial_order_from_own_ties (Prim.search (comparing, rules))
        (Prim.search (comparing, rules)) };

    fn partial_cmp(&self, other: &Abstime) -> Option<Ordering> {
        Some(self.cmp(other))
    }
}

// A clock's offset from UTC, as a text writes it.
#[derive(Clone, Copy)]
pub(crate) struct Zone {
    west: bool,
    hours: u8,
    minutes: u8,
}

impl Zone {
    // The minutes ahead of UTC, where they are at most 14 hours.
    fn offset(self) -> Option<i16>
        requires { self.hours < 100 }
        ensures some { IsSome result ↔ IsZone self }
        ensures value { IfSome result (λ o. o ≡ zone_offset self) }
    {
        let minutes = self.hours as i16 * 60 + self.minutes as i16;
        if self.minutes >= 60 || minutes > 840 {
            return None;
        }
        Some(if self.west { -minutes } else { minutes })
    }
}

// Whether the sign of an offset is a minus.
fn is_west(mark: u8) -> Option<bool>
    ensures some { IfSome result (λ w. mark ≡ zone_mark w) }
    ensures none { IfNone result ((w : Bool) → ¬ (mark ≡ zone_mark w)) }
{
    match mark {
        b'+' => Some(false),
        b'-' => Some(true),
        _ => None,
    }
}

// The offset that the text writes: `Z`, or a sign, hours and minutes.
fn zone_of(text: &[u8]) -> Option<Zone>
    ensures some { IfSome result (IsZoneText text.now) }
    ensures none { IfNone result ((z : Zone) → ¬ (IsZoneText text.now z)) }
{
    match text {
        [b'Z'] => Some(Zone {
            west: false,
            hours: 0,
            minutes: 0,
        }),
        [mark, h1, h2, b':', m1, m2] => {
            let west = is_west(*mark)?;
            let hours = two_digits(*h1, *h2)?;
            let minutes = two_digits(*m1, *m2)?;
            Some(Zone {
                west,
                hours,
                minutes,
            })
        }
        _ => None,
    }
}

// What a clock and a calendar show, as a text writes it.
#[derive(Clone, Copy)]
pub(crate) struct LocalTime {
    day: Day,
    clock: Clock,
}

// The date and the time of day that the text writes, with a `T` between them.
fn split_local(text: &[u8]) -> Option<LocalTime>
    ensures some { IfSome result (IsLocalText text.now) }
    ensures small { IfSome result (λ l. l.clock.nanos < 1_000_000_000) }
    ensures none { IfNone result ((l : LocalTime) → ¬ (IsLocalText text.now l)) }
{
    if text.len() < 11 {
        return None;
    }
    let (date, rest) = text.split_at(10);
    let [b'T', time @ ..] = rest else {
        return None;
    };
    let Some(day) = split_date(date) else {
        return None;
    };
    let Some(clock) = split_time(time) else {
        return None;
    };
    Some(LocalTime { day, clock })
}

// A local time, and the offset of its clock, as a text writes them.
#[derive(Clone, Copy)]
pub(crate) struct ZonedTime {
    local: LocalTime,
    zone: Zone,
}

impl ZonedTime {
    // The instant, where the parts are in range.
    fn instant(self) -> Option<Abstime>
        requires year { self.local.day.year < 10_000 }
        requires nanos { self.local.clock.nanos < 1_000_000_000 }
        requires hours { self.zone.hours < 100 }
        ensures some { IsSome result ↔ IsZoned self }
        ensures value { IfSome result (IsInstantOf self) }
    {
        let Some(date) = self.local.day.date() else {
            return None;
        };
        let Some(second) = self.local.clock.second_of_day() else {
            return None;
        };
        let Some(offset) = self.zone.offset() else {
            return None;
        };
        Some(Abstime::at_local(&date, second, self.local.clock.nanos, offset))
    }
}

// How many bytes of the text are its offset.
fn zone_len(text: &[u8]) -> usize
    ensures { IsZoneLength text.now result }
{
    match text {
        [.., b'Z'] => 1,
        _ => 6,
    }
}

// The local time and the offset that the text writes.
fn split_zoned(text: &[u8]) -> Option<ZonedTime>
    ensures some { IfSome result (IsZonedText text.now) }
    ensures small { IfSome result (λ z. z.local.clock.nanos < 1_000_000_000) }
    ensures none { IfNone result ((z : ZonedTime) → ¬ (IsZonedText text.now z)) }
{
    let len = zone_len(text);
    if text.len() < len {
        return None;
    }
    let (front, back) = text.split_at(text.len() - len);
    let Some(local) = split_local(front) else {
        return None;
    };
    let Some(zone) = zone_of(back) else {
        return None;
    };
    Some(ZonedTime { local, zone })
}

/// The instant that the bytes spell: a date, `T`, a time of day, and `Z` or an offset `+hh:mm` or
/// `-hh:mm`, with white space round it. NotTime where they have another form, Range where the date,
/// the time of day or the offset, at most 14 hours, is out of range.
pub fn read_abstime(bytes: &[u8]) -> Result<Abstime, ValueFault>
    ensures reads { ReadsAbstime bytes.now result }
    ensures only { (answer : Result Instant ValueFault) → ReadsAbstime bytes.now answer → result ≡ answer }
{
    instant_of(trimmed(bytes))
}

// The instant that the text spells.
fn instant_of(text: &[u8]) -> Result<Abstime, ValueFault>
    ensures { ReadsAs (IsZonedText text.now) IsZoned IsInstantOf ValueFault.NotTime ValueFault.Range result }
{
    let Some(zoned) = split_zoned(text) else {
        return Err(ValueFault::NotTime);
    };
    match zoned.instant() {
        Some(instant) => Ok(instant),
        None => Err(ValueFault::Range),
    }
}
