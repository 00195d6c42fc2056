//! Spans of time.
ghost use Rattle.std.specs.Prelude.{◌≡◌, ◌↔◌, ℕ, ◌<◌, Bool, List, ◌++◌, ◌∷◌, length, IsTrue, IsSome, IfSome, IfNone, Result, refl};
ghost use Rattle.std.specs.Cmp.{partial_order_from_agreeing_total};
ghost use Rattle.std.specs.Ordering.{as_partial_cmp};
ghost use Rattle.ob_times.specs.SpanOrder.{span_cmp, span_total, spans_tie};
ghost use Rattle.ob_times.specs.Times.{IsSpan, Span, span_length};
ghost use Rattle.ob_spelling.specs.Places.{minus};
ghost use Rattle.ob_spelling.specs.Numeral.{capped};
ghost use Rattle.ob_times.specs.Readers.{ReadsReltime};
ghost use Rattle.ob_times.specs.SpanText.{IsSeconds, IsClockPart, IsSpanText, FitsSpan, IsSpanOf, IsCapped, IsCappedClock, IsRead, amount_at, after_amount};
ghost use Rattle.ob_spelling.specs.DigitRun.{digits_front};
ghost use Rattle.ob_times.specs.declared.reltime.ClockPart.{ClockPart};
ghost use Rattle.ob_times.specs.declared.reltime.SpanText.{SpanText};
ghost use Rattle.ob_spelling.specs.Reads.{ReadsAs};
ghost use Rattle.ob_spelling.specs.declared.fault.ValueFault.{ValueFault};

use crate::clock::split_fraction;
use ob_spelling::{ValueFault, split_number, trimmed, with_sign};
use std::cmp::Ordering;
use std::marker::Model;

/// A span of months and nanoseconds.
#[derive(Clone, Copy, PartialEq, Eq)]
pub struct Reltime {
    months: i32,
    nanos: i64,
}

impl Model for Reltime {
    ghost use Rattle.ob_times.specs.Times.{Span, IsSpan};

    ghost Value = { Span };

    ghost view = { λ s. record { months = s.months; nanos = s.nanos } };

    ghost invariant = { λ s. IsSpan (record { months = s.months; nanos = s.nanos }) };

    ghost inverse = { λ s. record { months = s.months; nanos = s.nanos } };
}

impl Reltime {
    /// The span, or `None` where a part is out of range or their signs are opposite.
    pub fn new(months: i32, nanos: i64) -> Option<Reltime>
        ensures some { IsSome result ↔ IsSpan (record { months = months; nanos = nanos }) }
        ensures value { IfSome result (λ s. s ≡ record { months = months; nanos = nanos }) }
    {
        if months < -120_000 || months > 120_000 || nanos == i64::MIN {
            return None;
        }
        if (months < 0 && nanos > 0) || (months > 0 && nanos < 0) {
            return None;
        }
        Some(Reltime { months, nanos })
    }

    /// The months and the nanoseconds.
    pub fn parts(&self) -> (i32, i64)
        ensures value { self.now ≡ record { months = result.0; nanos = result.1 } }
        ensures range { IsSpan (record { months = result.0; nanos = result.1 }) }
    {
        (self.months, self.nanos)
    }

    // The length in nanoseconds, where each month has 30 days.
    fn length(&self) -> i128
        ensures { result ≡ span_length self.now }
    {
        self.months as i128 * 2_592_000_000_000_000 + self.nanos as i128
    }
}

/// By length, where a month has 30 days, and then by months.
impl Ord for Reltime {
    ghost cmp = { span_cmp };

    ghost total = { span_total };

    ghost matches_partial_cmp = { λ x y. refl };

    ghost matches_eq = { spans_tie };

    fn cmp(&self, other: &Reltime) -> Ordering {
        self.length()
            .cmp(&other.length())
            .then(self.months.cmp(&other.months))
    }
}

impl PartialOrd for Reltime {
    ghost partial_cmp = { as_partial_cmp span_cmp };

    ghost laws = { partial_order_from_agreeing_total span_cmp span_total (λ x y. refl) spans_tie };

    fn partial_cmp(&self, other: &Reltime) -> Option<Ordering> {
        Some(self.cmp(other))
    }
}

// The hours, minutes and seconds of a span's text.
#[derive(Clone, Copy)]
struct ClockPart {
    hours: u64,
    minutes: u64,
    seconds: u64,
    nanos: u32,
}

// The parts of a span's text.
#[derive(Clone, Copy)]
struct SpanText {
    negative: bool,
    years: u64,
    months: u64,
    days: u64,
    clock: ClockPart,
}

impl SpanText {
    // The span, where its parts are in range.
    fn span(self) -> Option<Reltime>
        requires { self.clock.nanos < 1_000_000_000 }
        ensures some { IsSome result ↔ FitsSpan self }
        ensures value { IfSome result (IsSpanOf self) }
    {
        let months = self.years as u128 * 12 + self.months as u128;
        let seconds = self.days as u128 * 86_400
            + self.clock.hours as u128 * 3_600
            + self.clock.minutes as u128 * 60
            + self.clock.seconds as u128;
        let nanos = seconds * 1_000_000_000 + self.clock.nanos as u128;
        if months > 120_000 || nanos > i64::MAX as u128 {
            return None;
        }
        Some(Reltime {
            months: with_sign(self.negative, months) as i32,
            nanos: with_sign(self.negative, nanos) as i64,
        })
    }
}

// A text, the number that the digits at its front write, and what follows them.
#[derive(Clone, Copy)]
struct Ahead<'a> {
    text: &'a [u8],
    number: u64,
    rest: &'a [u8],
}

impl<'a> Ahead<'a> {
    // Reads the digits at the front of the text.
    fn new(text: &'a [u8]) -> Ahead<'a>
        ensures text { result.text.now ≡ text.now }
        ensures read { IsRead result }
    {
        let (number, rest) = split_number(text);
        Ahead { text, number, rest }
    }

    // The amount that the text begins with, of the unit with that letter, and what is ahead behind it.
    fn take(self, letter: u8) -> (u64, Ahead<'a>)
        requires letter { 57 < letter }
        requires read { IsRead self }
        ensures amount { result.0 ≡ capped (amount_at letter self.entry.text.now) }
        ensures rest { result.1.text.now ≡ after_amount letter self.entry.text.now }
        ensures read { IsRead result.1 }
    {
        let [unit, rest @ ..] = self.rest else {
            return (0, self);
        };
        if *unit != letter || self.has_no_digit() {
            return (0, self);
        }
        (self.number, Ahead::new(rest))
    }

    // Whether no digit stands at the front.
    fn has_no_digit(self) -> bool
        requires { IsRead self }
        ensures { IsTrue result ↔ (length (digits_front self.entry.text.now) ≡ 0) }
    {
        self.rest.len() == self.text.len()
    }

    // The seconds and nanoseconds that the text writes.
    fn seconds(self) -> Option<(u64, u32)>
        requires { IsRead self }
        ensures some { IfSome result (λ r. (n : ℕ) × IsSeconds self.entry.text.now n r.1 × (r.0 ≡ capped n)) }
        ensures small { IfSome result (λ r. r.1 < 1_000_000_000) }
        ensures none { IfNone result ((seconds nanos : ℕ) → ¬ (IsSeconds self.entry.text.now seconds nanos)) }
    {
        if self.text.is_empty() {
            return Some((0, 0));
        }
        let [fraction @ .., b'S'] = self.rest else {
            return None;
        };
        if self.has_no_digit() {
            return None;
        }
        let Some(nanos) = split_fraction(fraction) else {
            return None;
        };
        Some((self.number, nanos))
    }
}

// The hours, minutes and seconds that the text writes: nothing, or `T` and one of them at least.
fn split_clock(text: &[u8]) -> Option<ClockPart>
    ensures some { IfSome result (λ held. (p : ClockPart) × IsClockPart text.now p × IsCappedClock p held) }
    ensures none { IfNone result ((p : ClockPart) → ¬ (IsClockPart text.now p)) }
{
    let text = match text {
        [] => {
            return Some(ClockPart {
                hours: 0,
                minutes: 0,
                seconds: 0,
                nanos: 0,
            });
        }
        [b'T', text @ ..] => text,
        _ => return None,
    };
    if text.is_empty() {
        return None;
    }
    let (hours, ahead) = Ahead::new(text).take(b'H');
    let (minutes, ahead) = ahead.take(b'M');
    let Some((seconds, nanos)) = ahead.seconds() else {
        return None;
    };
    Some(ClockPart {
        hours,
        minutes,
        seconds,
        nanos,
    })
}

// Whether the text begins with a minus, and what follows its `P`.
fn split_front(text: &[u8]) -> Option<(bool, &[u8])>
    ensures some { IfSome result (λ r. text.now ≡ minus r.0 ++ 80 ∷ r.1.now) }
    ensures none { IfNone result ((negative : Bool) (rest : List ℕ) → ¬ (text.now ≡ minus negative ++ 80 ∷ rest)) }
{
    match text {
        [b'P', rest @ ..] => Some((false, rest)),
        [b'-', b'P', rest @ ..] => Some((true, rest)),
        _ => None,
    }
}

// The parts that the text writes.
fn split_span(text: &[u8]) -> Option<SpanText>
    ensures some { IfSome result (λ held. (p : SpanText) × IsSpanText text.now p × IsCapped p held) }
    ensures none { IfNone result ((p : SpanText) → ¬ (IsSpanText text.now p)) }
{
    let Some((negative, body)) = split_front(text) else {
        return None;
    };
    if body.is_empty() {
        return None;
    }
    let (years, ahead) = Ahead::new(body).take(b'Y');
    let (months, ahead) = ahead.take(b'M');
    let (days, ahead) = ahead.take(b'D');
    let Some(clock) = split_clock(ahead.text) else {
        return None;
    };
    Some(SpanText {
        negative,
        years,
        months,
        days,
        clock,
    })
}

/// The span that the bytes spell: an optional minus, `P`, and in this order years (`Y`), months
/// (`M`), days (`D`), and behind a `T` hours (`H`), minutes (`M`) and seconds (`S`, with a fraction
/// of one to nine digits or without), each optional, but one at least and one behind `T`; with white
/// space round it. NotTime where they have another form, Range where the months are above 120,000
/// or the nanoseconds above `i64::MAX`.
pub fn read_reltime(bytes: &[u8]) -> Result<Reltime, ValueFault>
    ensures reads { ReadsReltime bytes.now result }
    ensures only { (answer : Result Span ValueFault) → ReadsReltime bytes.now answer → result ≡ answer }
{
    span_of(trimmed(bytes))
}

// The span that the text spells.
fn span_of(text: &[u8]) -> Result<Reltime, ValueFault>
    ensures { ReadsAs (IsSpanText text.now) FitsSpan IsSpanOf ValueFault.NotTime ValueFault.Range result }
{
    let Some(parts) = split_span(text) else {
        return Err(ValueFault::NotTime);
    };
    match parts.span() {
        Some(span) => Ok(span),
        None => Err(ValueFault::Range),
    }
}
