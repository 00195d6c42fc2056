//! Dates, times of day, instants and spans as text.
ghost use Rattle.std.specs.Prelude.{◌≡◌, ◌+◌, ◌<◌, ◌≤◌, ◌∷◌, ◌++◌, unsigned_abs, pos, neg_ℤ, ◌≤ℤ◌, ◌/◌, ◌%◌, ◌^◌};
ghost use Rattle.arrayvec.specs.ArrayString.{array_string_len};
ghost use Rattle.jiff.specs.Words.{IsBetween};
ghost use Rattle.ob_spelling.specs.White.{trim};
ghost use Rattle.ob_times.specs.Civil.{IsDateSpelled};
ghost use Rattle.ob_times.specs.Clock.{IsTimeSpelled};
ghost use Rattle.ob_times.specs.InstantText.{zone_mark, IsInstantSpelled};
ghost use Rattle.ob_times.specs.SpanText.{IsSpanSpelled};
ghost use Rattle.ob_times.specs.PrintedTimes.{civil_text, time_text, zone_text, instant_text, months_text, seconds_text, span_text};
ghost use Rattle.ob_times.specs.Times.{IsSpan};

use crate::{Abstime, CivilDate, Reltime, TimeOfDay};
use arrayvec::ArrayString;
use ob_spelling::{push_ascii, push_decimal, push_fraction, push_sign, push_two_digits};

// Appends the date.
fn push_date(text: &mut ArrayString<64>, date: &CivilDate)
    requires room { array_string_len text.old + 10 ≤ 64 }
    ensures bytes { text.new.bytes ≡ text.old.bytes ++ civil_text date.now }
    ensures room { array_string_len text.new ≡ array_string_len text.old + 10 }
    ensures since_year_1 { pos 1 ≤ℤ date.now.year }
{
    let (year, month, day) = date.parts();
    let year = year.unsigned_abs();
    push_two_digits(text, (year / 100) as u8);
    push_two_digits(text, (year % 100) as u8);
    push_ascii(text, b'-');
    push_two_digits(text, month);
    push_ascii(text, b'-');
    push_two_digits(text, day);
}

// Appends the time of day.
fn push_time(text: &mut ArrayString<64>, second: u32, nanos: u32)
    requires second { second < 86_400 }
    requires nanos { nanos < 1_000_000_000 }
    requires room { array_string_len text.old + 18 ≤ 64 }
    ensures bytes { text.new.bytes ≡ text.old.bytes ++ time_text second nanos }
    ensures room { array_string_len text.new ≤ array_string_len text.old + 18 }
{
    push_two_digits(text, (second / 3_600) as u8);
    push_ascii(text, b':');
    push_two_digits(text, (second / 60 % 60) as u8);
    push_ascii(text, b':');
    push_two_digits(text, (second % 60) as u8);
    push_fraction(text, 9, nanos as u64);
}

// Appends the offset.
fn push_zone(text: &mut ArrayString<64>, offset: i16)
    requires offset { IsBetween (neg_ℤ (pos 840)) (pos 840) offset }
    requires room { array_string_len text.old + 6 ≤ 64 }
    ensures { text.new.bytes ≡ text.old.bytes ++ zone_text offset }
{
    if offset == 0 {
        push_ascii(text, b'Z');
        return;
    }
    let minutes = offset.unsigned_abs();
    push_ascii(text, mark_of(offset < 0));
    push_two_digits(text, (minutes / 60) as u8);
    push_ascii(text, b':');
    push_two_digits(text, (minutes % 60) as u8);
}

// The sign of an offset.
fn mark_of(west: bool) -> u8
    ensures { result ≡ zone_mark west }
{
    if west { b'-' } else { b'+' }
}

/// The date as `YYYY-MM-DD`.
pub fn print_date(date: &CivilDate) -> ArrayString<64>
    ensures printed { result.bytes ≡ civil_text date.now }
    ensures spelled { IsDateSpelled (trim result.bytes) date.now }
{
    let mut text = ArrayString::new();
    push_date(&mut text, date);
    text
}

/// The time of day as `hh:mm:ss`, with a point and the nanoseconds without zeros at their end, where
/// there are any.
pub fn print_time(time: &TimeOfDay) -> ArrayString<64>
    ensures printed { result.bytes ≡ time_text (time.now / 1_000_000_000) (time.now % 1_000_000_000) }
    ensures spelled { IsTimeSpelled (trim result.bytes) time.now }
{
    let nanos = time.parts();
    let mut text = ArrayString::new();
    push_time(
        &mut text,
        (nanos / 1_000_000_000) as u32,
        (nanos % 1_000_000_000) as u32,
    );
    text
}

/// The local date and time of day, with `T` between them, and the offset: `Z` for none.
pub fn print_abstime(instant: &Abstime) -> ArrayString<64>
    ensures printed { result.bytes ≡ instant_text instant.now }
    ensures spelled { IsInstantSpelled (trim result.bytes) instant.now }
{
    let (date, second) = instant.local();
    let (_, nanos, offset) = instant.parts();
    print_local(&date, second, nanos, offset)
}

// A date, a time of day, and an offset.
fn print_local(date: &CivilDate, second: u32, nanos: u32, offset: i16) -> ArrayString<64>
    requires second { second < 86_400 }
    requires nanos { nanos < 1_000_000_000 }
    requires offset { IsBetween (neg_ℤ (pos 840)) (pos 840) offset }
    ensures bytes { result.bytes ≡ civil_text date.now ++ 84 ∷ (time_text second nanos ++ zone_text offset) }
    ensures since_year_1 { pos 1 ≤ℤ date.now.year }
{
    let mut text = ArrayString::new();
    push_date(&mut text, date);
    push_ascii(&mut text, b'T');
    push_time(&mut text, second, nanos);
    push_zone(&mut text, offset);
    text
}

// Appends the months, where there are any.
fn push_months(text: &mut ArrayString<64>, months: u32)
    requires { array_string_len text.old + 21 ≤ 64 }
    ensures bytes { text.new.bytes ≡ text.old.bytes ++ months_text months }
    ensures room { array_string_len text.new ≤ array_string_len text.old + 21 }
{
    if months == 0 {
        return;
    }
    push_decimal(text, months as u64);
    push_ascii(text, b'M');
}

// Appends the seconds, where there are any or no months.
fn push_seconds(text: &mut ArrayString<64>, months: u32, nanos: u64)
    requires { array_string_len text.old + 32 ≤ 64 }
    ensures { text.new.bytes ≡ text.old.bytes ++ seconds_text months nanos }
{
    if nanos == 0 && months != 0 {
        return;
    }
    push_ascii(text, b'T');
    push_decimal(text, nanos / 1_000_000_000);
    push_fraction(text, 9, nanos % 1_000_000_000);
    push_ascii(text, b'S');
}

/// The span: a minus where it is negative, `P`, its months and `M` where there are any, and `T`, its
/// seconds and `S` where there are any; `PT0S` for none.
pub fn print_reltime(span: &Reltime) -> ArrayString<64>
    ensures printed { result.bytes ≡ span_text span.now }
    ensures spelled { IsSpanSpelled (trim result.bytes) span.now }
{
    print_span(span)
}

// The text of the span.
fn print_span(span: &Reltime) -> ArrayString<64>
    ensures printed { result.bytes ≡ span_text span.now }
    ensures span { IsSpan span.now }
    ensures nanos { unsigned_abs span.now.nanos < 2 ^ 63 }
{
    let (months, nanos) = span.parts();
    let mut text = ArrayString::new();
    push_sign(&mut text, months < 0 || nanos < 0);
    push_ascii(&mut text, b'P');
    push_months(&mut text, months.unsigned_abs());
    push_seconds(&mut text, months.unsigned_abs(), nanos.unsigned_abs());
    text
}
