//! Alarms: what a rule makes of values, the status of its source, and the objects of alarms and events.
use ob_alarms::{AckResult, Alarms, Event, Num, Rule, Turned, What};
use ob_encoding::encode;
use ob_object::{Obj, Status};
use ob_rows::{Row, Table, number_at, push_number, push_words, text_of, word_at};
use ob_times::Moment;
use ob_values::{Dec, Text, read_dec};
use std::alloc::{AllocError, Global};

/// Rows that are asked of a board of alarms.
#[derive(Drop)]
pub(crate) struct Boards {
    alarms: Option<Alarms>,
}

impl Boards {
    /// No board yet.
    pub(crate) fn new() -> Self {
        Boards { alarms: None }
    }
}

// 2026-01-05T08:00:00Z, in milliseconds.
const START: u64 = 1_767_600_000_000;

// The moment of a row.
fn moment(row: &str) -> Option<Moment> {
    let second = number_at(row, 1)?.min(60);
    Moment::new(START + second * 1_000)
}

// One rule, of the source 7.
#[tactic(auto, using(ob_alarms::proofs::Sources::one_source))]
fn board(alloc: Global, low: Dec, high: Dec, needs_ack: bool) -> Result<Alarms, AllocError> {
    let root = Text::from_ascii(alloc, "/obix/")?;
    let path = Text::from_ascii(alloc, "/obix/t")?;
    let rules = vec![in alloc;
        Rule {
            source: 7,
            path,
            low: Num::Real(low),
            high: Num::Real(high),
            needs_ack,
        },
    ]?;
    Alarms::new(alloc, root, rules)
}

// The value of a row, if it has one.
fn value(row: &str) -> Option<Num> {
    let number = word_at(row, 2);
    match word_at(row, 0) {
        "value" => read_dec(number.as_bytes()).ok().map(Num::Real),
        "int" => number.parse::<i64>().ok().map(Num::Int),
        _ => None,
    }
}

// Gives the rule a value, where it takes it.
fn set(alarms: &mut Alarms, value: Option<Num>, now: Moment) -> Result<Option<Turned>, AllocError> {
    alarms.reserve(1)?;
    if alarms.takes(0, &value) {
        return Ok(Some(alarms.on_value(0, value, now)));
    }
    Ok(None)
}

fn tell_number(told: &mut String, word: &str, number: u64) -> Result<(), AllocError> {
    push_words(told, &[word])?;
    push_number(told, number)
}

fn set_row(alarms: &mut Alarms, row: &str, told: &mut String) -> Result<(), AllocError> {
    let Some(now) = moment(row) else {
        return told.push_str("no moment");
    };
    match set(alarms, value(row), now)? {
        Some(Turned::Nothing) => told.push_str("nothing"),
        Some(Turned::Raised { number }) => tell_number(told, "raised", number),
        Some(Turned::Normal { number }) => tell_number(told, "normal", number),
        None => told.push_str("not taken"),
    }
}

fn tell_user(told: &mut String, word: &str, user: &Option<Text>) -> Result<(), AllocError> {
    told.push_str(word)?;
    match user {
        Some(user) => told.push_str(user.as_str()),
        None => told.push_str("-"),
    }
}

fn tell_ack(outcome: &AckResult, told: &mut String) -> Result<(), AllocError> {
    match outcome {
        AckResult::Done => told.push_str("done"),
        AckResult::Already { user } => tell_user(told, "already ", user),
        AckResult::NoSuch { user } => tell_user(told, "no such ", user),
    }
}

fn ack_row(
    alloc: Global,
    alarms: &mut Alarms,
    row: &str,
    told: &mut String,
) -> Result<(), AllocError> {
    alarms.reserve(1)?;
    let (Some(now), Some(number)) = (moment(row), number_at(row, 2)) else {
        return told.push_str("no moment or number");
    };
    let user = Text::from_utf8(alloc, word_at(row, 3).as_bytes()).ok();
    let outcome = alarms.ack(number, user, now);
    tell_ack(&outcome, told)
}

fn undo_row(alarms: &mut Alarms) -> &'static str {
    if alarms.events(0).is_empty() {
        return "nothing";
    }
    alarms.undo();
    "undone"
}

fn status_word(status: Status) -> &'static str {
    match status {
        Status::UnackedAlarm => "unackedAlarm",
        Status::Alarm => "alarm",
        Status::Unacked => "unacked",
        Status::Ok => "ok",
        _ => "another",
    }
}

fn tell_events(events: &[Event], told: &mut String) -> Result<(), AllocError> {
    for event in events {
        let word = match event.what {
            What::Raised => "raised",
            What::Acked => "acked",
            What::Normal => "normal",
        };
        if !told.is_empty() {
            told.push_str(" ")?;
        }
        tell_number(told, word, event.number)?;
    }
    Ok(())
}

// Tells the second at which an alarm was raised.
fn tell_raised(moment: Option<Moment>, told: &mut String) -> Result<(), AllocError> {
    match moment {
        Some(moment) => push_number(told, moment.ms().saturating_sub(START) / 1_000),
        None => told.push_str("-"),
    }
}

fn tell_object(alloc: Global, object: &Obj, told: &mut String) -> Result<(), AllocError> {
    let bytes = encode(alloc, None, object)?;
    told.push_str(text_of(bytes.as_slice()))
}

// Tells the text of an object, or a dash where there is none.
fn tell_found(
    alloc: Global,
    object: &Result<Option<Obj>, AllocError>,
    told: &mut String,
) -> Result<(), AllocError> {
    match object {
        Ok(Some(object)) => tell_object(alloc, object, told),
        Ok(None) => told.push_str("-"),
        Err(_) => Err(AllocError),
    }
}

// What a row that changes nothing asks for.
fn ask(alloc: Global, alarms: &Alarms, row: &str, told: &mut String) -> Result<(), AllocError> {
    let Some(number) = number_at(row, 1) else {
        return told.push_str("no number");
    };
    match word_at(row, 0) {
        "status" => told.push_str(status_word(alarms.status_of(number))),
        "events" => tell_events(alarms.events(number), told),
        "raised" => tell_raised(alarms.raised(number), told),
        "event" => tell_found(alloc, &alarms.event_obj(number), told),
        "alarm" => tell_found(alloc, &alarms.alarm_obj(number), told),
        _ => told.push_str("no such row"),
    }
}

fn run(alloc: Global, alarms: &mut Alarms, row: &str, told: &mut String) -> Result<(), AllocError> {
    match word_at(row, 0) {
        "value" | "int" | "gone" => set_row(alarms, row, told),
        "ack" => ack_row(alloc, alarms, row, told),
        "undo" => told.push_str(undo_row(alarms)),
        "copy" => {
            *alarms = alarms.copy()?;
            told.push_str("copied")
        }
        _ => ask(alloc, alarms, row, told),
    }
}

// A board of a rule of 10 to 30.
fn made(alloc: Global, needs_ack: bool) -> Result<Option<Alarms>, AllocError> {
    let (Some(low), Some(high)) = (Dec::new(10, 0), Dec::new(30, 0)) else {
        return Ok(None);
    };
    Ok(Some(board(alloc, low, high, needs_ack)?))
}

impl Table for Boards {
    fn answer(&mut self, alloc: Global, asked: Row, told: &mut String) -> Result<(), AllocError> {
        if word_at(asked.text, 0) == "board" {
            self.alarms = made(alloc, word_at(asked.text, 1) == "acknowledged")?;
            return told.push_str("made");
        }
        match &mut self.alarms {
            Some(alarms) => run(alloc, alarms, asked.text, told),
            None => told.push_str("no board"),
        }
    }
}
