//! Histories: what a log keeps, and what a query asks of it.
use crate::words::time_at;
use ob_history::{Filter, Log, Query, Record, Stretch};
use ob_object::{Kind, Slot};
use ob_rows::{Row, Table, number_at, push_number, word_at};
use ob_values::{Abstime, Value};
use std::alloc::{AllocError, Global};

/// Rows that are asked of a log.
#[derive(Drop)]
pub(crate) struct Histories {
    log: Log,
}

impl Histories {
    /// An empty log.
    pub(crate) fn new(alloc: Global) -> Self {
        Histories {
            log: Log::new(alloc),
        }
    }
}

// Puts a record of an int last, where the log takes it.
fn put(log: &mut Log, time: Abstime, number: i64) -> Result<bool, AllocError> {
    log.reserve(1)?;
    let events = log.gone() + log.len();
    let record = Record {
        time,
        kind: Kind::Int,
        slot: Slot::Is(Value::Int(number)),
    };
    if events < 9_223_372_036_854_775_807 && log.may_follow(&record) && record.fits() {
        log.push_reserved(record);
        return Ok(true);
    }
    Ok(false)
}

fn put_row(log: &mut Log, row: &str, told: &mut String) -> Result<(), AllocError> {
    let (Some(time), Ok(number)) = (time_at(row, 1), word_at(row, 2).parse::<i64>()) else {
        return told.push_str("no record");
    };
    let is_put = put(log, time, number)?;
    told.push_str(if is_put { "put" } else { "refused" })
}

fn tell_numbers(records: &[Record], told: &mut String) -> Result<(), AllocError> {
    for record in records {
        if !told.is_empty() {
            told.push_str(" ")?;
        }
        match &record.slot {
            Slot::Is(Value::Int(number)) => write!(told, "{number}")?,
            _ => told.push_str("?")?,
        }
    }
    Ok(())
}

fn query_row(log: &Log, row: &str, told: &mut String) -> Result<(), AllocError> {
    let Some(limit) = number_at(row, 1) else {
        return told.push_str("no limit");
    };
    let filter = Filter {
        limit,
        start: time_at(row, 2),
        end: time_at(row, 3),
    };
    let (front, back) = log.range(&filter);
    tell_numbers(front, told)?;
    tell_numbers(back, told)
}

// What is asked from a number on: the number of the first record given, then the numbers of the records' ints.
fn from_row(log: &Log, row: &str, told: &mut String) -> Result<(), AllocError> {
    let (Some(from), Some(limit)) = (number_at(row, 1), number_at(row, 2)) else {
        return told.push_str("no number, or no limit");
    };
    let filter = Filter {
        limit,
        start: time_at(row, 3),
        end: time_at(row, 4),
    };
    let query = Query {
        filter,
        from: Some(from),
    };
    let Stretch { first, front, back } = log.query(&query);
    if !front.is_empty() || !back.is_empty() {
        push_number(told, first)?;
        told.push_str(":")?;
    }
    tell_numbers(front, told)?;
    tell_numbers(back, told)
}

fn since_row(log: &Log, row: &str, told: &mut String) -> Result<(), AllocError> {
    let Some(event) = number_at(row, 1) else {
        return told.push_str("no event");
    };
    let (front, back) = log.since(event);
    tell_numbers(front, told)?;
    tell_numbers(back, told)
}

fn cut_row(log: &mut Log, row: &str, told: &mut String) -> Result<(), AllocError> {
    let Some(length) = number_at(row, 1) else {
        return told.push_str("no length");
    };
    log.cut(length);
    tell_lengths(log, told)
}

fn tell_lengths(log: &Log, told: &mut String) -> Result<(), AllocError> {
    push_number(told, log.len())?;
    told.push_str(" kept, ")?;
    push_number(told, log.gone())?;
    told.push_str(" gone")
}

impl Table for Histories {
    fn answer(&mut self, alloc: Global, asked: Row, told: &mut String) -> Result<(), AllocError> {
        let log = &mut self.log;
        match word_at(asked.text, 0) {
            "log" => {
                *log = match number_at(asked.text, 1) {
                    Some(capacity) => Log::with_capacity(alloc, capacity),
                    None => Log::new(alloc),
                };
                told.push_str("made")
            }
            "put" => put_row(log, asked.text, told),
            "query" => query_row(log, asked.text, told),
            "from" => from_row(log, asked.text, told),
            "since" => since_row(log, asked.text, told),
            "cut" => cut_row(log, asked.text, told),
            "settle" => {
                log.settle();
                tell_lengths(log, told)
            }
            _ => told.push_str("no such row"),
        }
    }
}
