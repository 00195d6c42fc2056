//! When weekly schedules fire, and what is in force.
use jiff::tz::TimeZone;
use ob_object::{Kind, Slot};
use ob_rows::{Row, Table, number_at, split_word};
use ob_times::Moment;
use ob_values::{Text, Value};
use ob_weekly::{Entry, Firing, Schedule, Schedules};
use std::alloc::{AllocError, Global};

/// `FROM TO ZONE DAY@MS DAY@MS .. | DAY@MS ..`: each entry of schedules, with a bar between them, that fires between two moments,
/// as its own moment, the place of its schedule and its place; and the place of the entry of the first schedule that is in
/// force at the second moment.
#[derive(Drop)]
pub(crate) struct Firings;

// An entry, whose value is its place.
fn entry(word: &str, place: i64) -> Option<Entry> {
    let (day, at_ms) = word.split_once('@')?;
    Some(Entry {
        day: day.parse::<u8>().ok()?,
        at_ms: at_ms.parse::<u32>().ok()?,
        slot: Slot::Is(Value::Int(place)),
    })
}

fn entries(alloc: Global, said: &str) -> Result<Vec<Entry>, AllocError> {
    let mut entries = Vec::new(alloc);
    let mut place = 0;
    for word in said.split_whitespace() {
        if let Some(entry) = entry(word, place) {
            entries.push(entry)?;
            place = place.wrapping_add(1);
        }
    }
    Ok(entries)
}

fn schedule(alloc: Global, said: &str) -> Result<Schedule, AllocError> {
    let entries = entries(alloc, said)?;
    let point = Text::from_ascii(alloc, "/obix/t")?;
    Ok(Schedule {
        point,
        kind: Kind::Int,
        entries,
    })
}

fn schedules(alloc: Global, said: &str) -> Result<Vec<Schedule>, AllocError> {
    let mut list = Vec::new(alloc);
    for said in said.split('|') {
        list.push(schedule(alloc, said)?)?;
    }
    Ok(list)
}

/// Tells what fires between two moments. An error only for want of memory.
pub(crate) fn tell_firings(
    alloc: Global,
    schedules: &Schedules,
    from: Moment,
    to: Moment,
    told: &mut String,
) -> Result<(), AllocError> {
    for firing in &schedules.firings(alloc, from, to)? {
        let Firing {
            at,
            schedule,
            entry,
        } = firing;
        write!(told, "{} {schedule} {entry}; ", at.ms())?;
    }
    Ok(())
}

fn tell_in_force(
    alloc: Global,
    schedules: &Schedules,
    moment: Moment,
    told: &mut String,
) -> Result<(), AllocError> {
    if schedules.list.is_empty() {
        return Ok(());
    }
    match schedules.in_force(alloc, 0, moment)? {
        Slot::Is(Value::Int(place)) => write!(told, "in force {place}"),
        _ => told.push_str("in force another"),
    }
}

fn tell(
    alloc: Global,
    zone: TimeZone<'static>,
    said: &str,
    span: (Moment, Moment),
    told: &mut String,
) -> Result<(), AllocError> {
    let (from, to) = span;
    match &Schedules::new(zone, schedules(alloc, said)?) {
        Some(schedules) => {
            tell_firings(alloc, schedules, from, to, told)?;
            tell_in_force(alloc, schedules, to, told)
        }
        None => told.push_str("not weekly"),
    }
}

// The moment at a place of a row.
fn moment_at(text: &str, place: usize) -> Option<Moment> {
    Moment::new(number_at(text, place)?)
}

impl Table for Firings {
    fn answer(&mut self, alloc: Global, asked: Row, told: &mut String) -> Result<(), AllocError> {
        let (_, said) = split_word(asked.text);
        let (_, said) = split_word(said);
        let (zone, said) = split_word(said);
        let from = moment_at(asked.text, 0);
        match (TimeZone::posix(zone), from, moment_at(asked.text, 1)) {
            (Ok(zone), Some(from), Some(to)) => tell(alloc, zone, said, (from, to), told),
            _ => told.push_str("no such row"),
        }
    }
}
