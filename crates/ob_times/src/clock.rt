//! Times of day.
ghost use Rattle.std.specs.Prelude.{◌≡◌, ◌↔◌, ℕ, ◌<◌, IsSome, IfSome, IfNone, Result};
ghost use Rattle.ob_times.specs.CivilText.{IsFraction, IsTimeText};
ghost use Rattle.ob_times.specs.Clock.{IsTimeOfDay, IsClock, nanos_of_day, second_of_day};
ghost use Rattle.ob_times.specs.Readers.{ReadsTime};
ghost use Rattle.ob_times.specs.declared.clock.Clock.{Clock};
ghost use Rattle.ob_spelling.specs.Reads.{ReadsAs};
ghost use Rattle.ob_spelling.specs.declared.fault.ValueFault.{ValueFault};

use ob_spelling::{ValueFault, split_number, trimmed, two_digits};
use std::marker::Model;

const DAY: u64 = 86_400_000_000_000;

/// A time of day.
#[derive(Clone, Copy, PartialEq, Eq, PartialOrd, Ord)]
pub struct TimeOfDay {
    nanos: u64,
}

impl Model for TimeOfDay {
    ghost use Rattle.std.specs.Prelude.{ℕ};
    ghost use Rattle.ob_times.specs.Clock.{IsTimeOfDay};

    ghost Value = { ℕ };

    ghost view = { λ t. t.nanos };

    ghost invariant = { λ t. IsTimeOfDay t.nanos };

    ghost inverse = { λ n. record { nanos = n } };
}

impl TimeOfDay {
    /// The time that many nanoseconds after the day began, or `None` from 86,400,000,000,000 on.
    pub fn new(nanos: u64) -> Option<TimeOfDay>
        ensures some { IsSome result ↔ IsTimeOfDay nanos }
        ensures value { IfSome result (λ t. t ≡ nanos) }
    {
        if nanos >= DAY {
            return None;
        }
        Some(TimeOfDay { nanos })
    }

    /// The nanoseconds since the day began.
    pub fn parts(&self) -> u64
        ensures value { result ≡ self.now }
        ensures range { IsTimeOfDay result }
    {
        self.nanos
    }
}

// What a clock shows, as a text writes it.
#[derive(Clone, Copy)]
pub(crate) struct Clock {
    pub(crate) hour: u8,
    pub(crate) minute: u8,
    pub(crate) second: u8,
    pub(crate) nanos: u32,
}

impl Clock {
    // The second of the day, where the day has what the clock shows.
    pub(crate) fn second_of_day(self) -> Option<u32>
        ensures some { IsSome result ↔ IsClock self }
        ensures value { IfSome result (λ n. n ≡ second_of_day self) }
    {
        if self.hour >= 24 || self.minute >= 60 || self.second >= 60 {
            return None;
        }
        Some((self.hour as u32 * 60 + self.minute as u32) * 60 + self.second as u32)
    }
}

// The nanoseconds of a fraction of a second: nothing, or a point and one to nine digits.
pub(crate) fn split_fraction(text: &[u8]) -> Option<u32>
    ensures some { IfSome result (IsFraction text.now) }
    ensures small { IfSome result (λ n. n < 1_000_000_000) }
    ensures none { IfNone result ((nanos : ℕ) → ¬ (IsFraction text.now nanos)) }
{
    let digits = match text {
        [] => return Some(0),
        [b'.', digits @ ..] => digits,
        _ => return None,
    };
    if digits.is_empty() || digits.len() > 9 {
        return None;
    }
    let (number, rest) = split_number(digits);
    if !rest.is_empty() {
        return None;
    }
    Some(number as u32 * 10u32.pow(9 - digits.len() as u32))
}

// What a text in the form of a time of day shows.
pub(crate) fn split_time(text: &[u8]) -> Option<Clock>
    ensures some { IfSome result (IsTimeText text.now) }
    ensures small { IfSome result (λ c. c.nanos < 1_000_000_000) }
    ensures none { IfNone result ((c : Clock) → ¬ (IsTimeText text.now c)) }
{
    let [h1, h2, b':', m1, m2, b':', s1, s2, fraction @ ..] = text else {
        return None;
    };
    let hour = two_digits(*h1, *h2)?;
    let minute = two_digits(*m1, *m2)?;
    let second = two_digits(*s1, *s2)?;
    let nanos = split_fraction(fraction)?;
    Some(Clock {
        hour,
        minute,
        second,
        nanos,
    })
}

/// The time of day that the bytes spell: `hh:mm:ss`, with a point and one to nine digits behind it
/// or without, and white space round it. NotTime where they have another form, Range where a day has
/// no such time.
pub fn read_time(bytes: &[u8]) -> Result<TimeOfDay, ValueFault>
    ensures reads { ReadsTime bytes.now result }
    ensures only { (answer : Result ℕ ValueFault) → ReadsTime bytes.now answer → result ≡ answer }
{
    time_of(trimmed(bytes))
}

// The time of day that the text spells.
fn time_of(text: &[u8]) -> Result<TimeOfDay, ValueFault>
    ensures { ReadsAs (IsTimeText text.now) IsClock (λ c n. n ≡ nanos_of_day c) ValueFault.NotTime ValueFault.Range result }
{
    let Some(clock) = split_time(text) else {
        return Err(ValueFault::NotTime);
    };
    match clock.second_of_day() {
        Some(second) => Ok(TimeOfDay {
            nanos: second as u64 * 1_000_000_000 + clock.nanos as u64,
        }),
        None => Err(ValueFault::Range),
    }
}
