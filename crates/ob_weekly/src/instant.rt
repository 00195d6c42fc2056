//! The instant at which an entry fires on a date.
ghost use Rattle.std.specs.Prelude.{◌≡◌, ◌+◌, ◌*◌, ◌<◌, ◌≤◌, pos, neg_ℤ, ◌+ℤ◌, ◌-ℤ◌, ◌*ℤ◌};
ghost use Rattle.jiff.specs.Types.{DateTime as Civil};
ghost use Rattle.jiff.specs.Words.{IsBetween, epoch_day, time_nanos, plain_zone, compatible_offset, ambiguous_at, picked_instant};
ghost use Rattle.jiff_core.specs.Calendar.{weekday_number};
ghost use Rattle.ob_weekly.specs.Schedules.{IsEntry};
ghost use Rattle.ob_weekly.specs.Search.{FiresOn};
ghost use Rattle.ob_weekly.specs.Zones.{FiresAt};

use crate::schedule::Entry;
use jiff::civil::{Date, DateTime, Time};
use jiff::tz::{AmbiguousOffset, TimeZone};
use jiff_core::civil;

/// The milliseconds of a day.
pub(crate) const DAY: i64 = 86_400_000;

/// The number of the last date on which an entry fires, 9999-12-28.
pub(crate) const LAST_DAY: i64 = 2_932_893;

/// The date of a number.
fn date_at(day: i64) -> civil::Date
    requires { IsBetween (neg_ℤ (pos 4_000_000)) (pos 2_932_894) day }
    ensures { epoch_day result ≡ day }
{
    civil::Date::from_unix_epoch_day(day).unwrap()
}

/// The day of the week of a date, by its number: 1 for Monday.
pub(crate) fn weekday(day: i64) -> u8
    requires { IsBetween (neg_ℤ (pos 4_000_000)) (pos 2_932_894) day }
    ensures value { result ≡ weekday_number day + 1 }
    ensures few { result ≤ 7 }
{
    let date = date_at(day);
    date.weekday().index() + 1
}

/// A date, by its number, with a time of day.
pub(crate) fn civil_at(day: i64, at_ms: u32) -> DateTime
    requires day { IsBetween (neg_ℤ (pos 4_000_000)) (pos 2_932_893) day }
    requires time { at_ms < 86_400_000 }
    ensures date { epoch_day result.date ≡ day }
    ensures time { time_nanos result.time ≡ at_ms * 1_000_000 }
{
    let time = civil::Time::from_nanosecond(at_ms as u64 * 1_000_000);
    DateTime::from_parts(Date::from_plain(date_at(day)), Time::from_plain(time))
}

/// The same in milliseconds since 1970-01-01T00:00:00 on a clock at no offset.
pub(crate) fn local_ms(day: i64, at_ms: u32) -> i64
    requires day { IsBetween (neg_ℤ (pos 4_000_000)) (pos 2_932_893) day }
    ensures { result ≡ (day *ℤ pos 86_400_000) +ℤ pos at_ms }
{
    day * DAY + at_ms as i64
}

/// The offset of a civil date and time in a zone, in seconds; where the clock changes, the one before the change.
fn offset_before(zone: &TimeZone<'static>, civil: DateTime) -> i32
    ensures value { result ≡ (compatible_offset (ambiguous_at (plain_zone zone.now) civil)).seconds }
    ensures range { IsBetween (neg_ℤ (pos 93_599)) (pos 93_599) result }
{
    let found = zone.to_ambiguous_timestamp(civil);
    let offset = match found.offset() {
        AmbiguousOffset::Unambiguous { offset } => offset,
        AmbiguousOffset::Gap { before, after: _ } => before,
        AmbiguousOffset::Fold { before, after: _ } => before,
    };
    offset.seconds()
}

/// The same in milliseconds.
fn offset_ms(zone: &TimeZone<'static>, civil: DateTime) -> i64
    ensures value { result ≡ (compatible_offset (ambiguous_at (plain_zone zone.now) civil)).seconds *ℤ pos 1_000 }
    ensures range { IsBetween (neg_ℤ (pos 93_599_000)) (pos 93_599_000) result }
{
    offset_before(zone, civil) as i64 * 1_000
}

/// The instant, in milliseconds from 1970 on, at which a zone's clock shows a time of day on a date, by its number; where the
/// clock changes, by the offset before the change.
fn instant(zone: &TimeZone<'static>, day: i64, at_ms: u32) -> i64
    requires day { IsBetween (neg_ℤ (pos 4_000_000)) (pos 2_932_893) day }
    requires time { at_ms < 86_400_000 }
    ensures some { (c : Civil) × (epoch_day c.date ≡ day) × (time_nanos c.time ≡ at_ms * 1_000_000) }
    ensures value { (c : Civil) → epoch_day c.date ≡ day → time_nanos c.time ≡ at_ms * 1_000_000 → result *ℤ pos 1_000_000 ≡ picked_instant (plain_zone zone.now) c }
{
    let local = local_ms(day, at_ms);
    local - offset_ms(zone, civil_at(day, at_ms))
}

/// The instant at which an entry fires on a date of its weekday, by its number.
pub(crate) fn fires_on(zone: &TimeZone<'static>, day: i64, entry: &Entry) -> i64
    requires day { IsBetween (neg_ℤ (pos 4_000_000)) (pos 2_932_893) day }
    requires weekday { weekday_number day + 1 ≡ entry.now.day }
    requires time { entry.now.at_ms < 86_400_000 }
    ensures { FiresOn (plain_zone zone.now) entry.now day result }
{
    instant(zone, day, entry.at_ms)
}

/// The first date of a weekday from a date on, by their numbers; the weekday of that date is known.
pub(crate) fn day_from(base: i64, of_base: u8, day: u8) -> i64
    requires base { IsBetween (neg_ℤ (pos 4_000_000)) (pos 2_932_894) base }
    requires of_base { of_base ≡ weekday_number base + 1 }
    requires fits { of_base ≤ 7 }
    requires day { (1 ≤ day) × (day ≤ 7) }
    ensures near { IsBetween base (base +ℤ pos 6) result }
    ensures weekday { weekday_number result + 1 ≡ day }
{
    let steps = (day + 7 - of_base) % 7;
    base + steps as i64
}

/// An instant at which an entry fires in the week that begins on a date.
pub(crate) fn some_firing(zone: &TimeZone<'static>, base: i64, entry: &Entry) -> i64
    requires base { IsBetween (neg_ℤ (pos 4_000_000)) (pos 2_932_887) base }
    requires entry { IsEntry entry.now }
    ensures fires { FiresAt (plain_zone zone.now) entry.now result }
    ensures near { IsBetween ((base *ℤ pos 86_400_000) -ℤ pos 93_599_000) ((base *ℤ pos 86_400_000) +ℤ pos 698_400_000) result }
{
    let day = day_from(base, weekday(base), entry.day);
    fires_on(zone, day, entry)
}
