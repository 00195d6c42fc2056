//! Dates: their Julian day numbers at noon, and whether jiff has them.
use ob_rows::{Row, Table};
use ob_values::{CivilDate, read_abstime};
use std::alloc::{AllocError, Global};

// The Julian day number of 1970-01-01 at noon.
const DAY_OF_1970: i64 = 2_440_588;

const SECONDS_OF_A_DAY: i64 = 86_400;

/// The Julian day numbers of dates at noon.
#[derive(Drop)]
pub(crate) struct Days;

impl Table for Days {
    fn answer(&mut self, _: Global, asked: Row, told: &mut String) -> Result<(), AllocError> {
        let Ok(instant) = read_abstime(asked.bytes) else {
            return told.push_str("no instant");
        };
        let (seconds, _, _) = instant.parts();
        if seconds.rem_euclid(SECONDS_OF_A_DAY) != 0 {
            return told.push_str("no midnight");
        }
        let day = (seconds / SECONDS_OF_A_DAY).saturating_add(DAY_OF_1970);
        write!(told, "{day}")
    }
}

// Whether jiff has the date where the calendar does.
fn is_as_jiff_has_it(year: i16, month: u8, day: u8) -> bool {
    let date = CivilDate::new(year, month, day);
    let Ok(month) = i8::try_from(month) else {
        return false;
    };
    let Ok(day) = i8::try_from(day) else {
        return false;
    };
    date.is_some() == jiff::civil::Date::new(year, month, day).is_ok()
}

/// The dates of years, up to a 14th month and a 33rd day.
#[derive(Drop)]
pub(crate) struct Calendars;

impl Table for Calendars {
    fn answer(&mut self, _: Global, asked: Row, told: &mut String) -> Result<(), AllocError> {
        let Ok(year) = asked.text.parse::<i16>() else {
            return told.push_str("no year");
        };
        for month in 0..14u8 {
            for day in 0..33u8 {
                if !is_as_jiff_has_it(year, month, day) {
                    return write!(told, "otherwise at month {month}, day {day}");
                }
            }
        }
        told.push_str("as jiff has it")
    }
}
