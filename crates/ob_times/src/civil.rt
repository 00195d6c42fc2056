//! Dates.
ghost use Rattle.std.specs.Prelude.{◌≡◌, ◌↔◌, ℕ, ◌<◌, ◌≤◌, [], ◌∷◌, pos, neg_ℤ, ◌≤ℤ◌, IsSome, IfSome, IfNone, Result};
ghost use Rattle.jiff.specs.Words.{IsBetween, IsYmd, epoch_day};
ghost use Rattle.jiff.specs.Types.{Date as Plain};
ghost use Rattle.ob_times.specs.CivilText.{IsDateText};
ghost use Rattle.ob_times.specs.Civil.{IsCivil, IsDay, IsDateOf};
ghost use Rattle.ob_times.specs.Readers.{ReadsDate};
ghost use Rattle.ob_times.specs.declared.civil.Day.{Day};
ghost use Rattle.ob_spelling.specs.Reads.{ReadsAs};
ghost use Rattle.ob_spelling.specs.declared.fault.ValueFault.{ValueFault};

use jiff_core::civil::Date;
use ob_spelling::{ValueFault, trimmed, two_digits};
use std::marker::Model;

/// A day of the calendar, in a year from 1 to 9999.
#[derive(Clone, Copy, PartialEq, Eq, PartialOrd, Ord)]
pub struct CivilDate {
    date: Date,
}

impl Model for CivilDate {
    ghost use Rattle.std.specs.Prelude.{pos, ◌≤ℤ◌};
    ghost use Rattle.jiff.specs.Types.{Date as Plain};

    ghost Value = { Plain };

    ghost view = { λ d. d.date };

    ghost invariant = { λ d. pos 1 ≤ℤ d.date.year };

    ghost inverse = { λ d. record { date = d } };
}

impl CivilDate {
    /// The date with these parts, where the calendar has it and the year is at least 1.
    pub fn new(year: i16, month: u8, day: u8) -> Option<CivilDate>
        ensures some { IsSome result ↔ IsCivil year (pos month) (pos day) }
        ensures value { IfSome result (IsYmd year (pos month) (pos day)) }
    {
        if year < 1 || month > 12 || day > 31 {
            return None;
        }
        match Date::new(year, month as i8, day as i8) {
            Ok(date) => Some(CivilDate { date }),
            Err(_) => None,
        }
    }

    // The day's number, from 1970-01-01.
    pub(crate) fn epoch_day(&self) -> i32
        ensures value { result ≡ epoch_day self.now }
        ensures since_year_1 { neg_ℤ (pos 719_162) ≤ℤ result }
        ensures to_year_9999 { result ≤ℤ pos 2_932_896 }
    {
        self.date.to_unix_epoch_day()
    }

    // The date with that day's number.
    pub(crate) fn from_epoch_day(day: i64) -> CivilDate
        requires { IsBetween (neg_ℤ (pos 719_162)) (pos 2_932_896) day }
        ensures { epoch_day result ≡ day }
    {
        CivilDate {
            date: Date::from_unix_epoch_day(day).unwrap(),
        }
    }

    /// The year, the month and the day.
    pub fn parts(&self) -> (i16, u8, u8)
        ensures value { IsYmd result.0 (pos result.1) (pos result.2) self.now }
        ensures civil { IsCivil result.0 (pos result.1) (pos result.2) }
    {
        (self.date.year, self.date.month, self.date.day)
    }
}

// A year, a month and a day, as a text writes them.
#[derive(Clone, Copy)]
pub(crate) struct Day {
    pub(crate) year: u16,
    pub(crate) month: u8,
    pub(crate) day: u8,
}

impl Day {
    // The date, where the calendar has it and the year is at least 1.
    pub(crate) fn date(self) -> Option<CivilDate>
        requires { self.year < 10_000 }
        ensures some { IsSome result ↔ IsDay self }
        ensures value { IfSome result (IsDateOf self) }
    {
        CivilDate::new(self.year as i16, self.month, self.day)
    }
}

// The day that a text in the form of a date writes.
pub(crate) fn split_date(text: &[u8]) -> Option<Day>
    ensures some { IfSome result (IsDateText text.now) }
    ensures none { IfNone result ((d : Day) → ¬ (IsDateText text.now d)) }
{
    let [y1, y2, y3, y4, b'-', m1, m2, b'-', d1, d2] = text else {
        return None;
    };
    let century = two_digits(*y1, *y2)?;
    let year = two_digits(*y3, *y4)?;
    let month = two_digits(*m1, *m2)?;
    let day = two_digits(*d1, *d2)?;
    Some(Day {
        year: century as u16 * 100 + year as u16,
        month,
        day,
    })
}

/// The date that the bytes spell: `YYYY-MM-DD`, with white space round it. NotTime where they have
/// another form, Range where the calendar lacks the date or the year is 0.
pub fn read_date(bytes: &[u8]) -> Result<CivilDate, ValueFault>
    ensures reads { ReadsDate bytes.now result }
    ensures only { (answer : Result Plain ValueFault) → ReadsDate bytes.now answer → result ≡ answer }
{
    date_of(trimmed(bytes))
}

// The date that the text spells.
fn date_of(text: &[u8]) -> Result<CivilDate, ValueFault>
    ensures { ReadsAs (IsDateText text.now) IsDay IsDateOf ValueFault.NotTime ValueFault.Range result }
{
    let Some(day) = split_date(text) else {
        return Err(ValueFault::NotTime);
    };
    match day.date() {
        Some(date) => Ok(date),
        None => Err(ValueFault::Range),
    }
}
