//! Whether alarms and their events are the same.
ghost use Rattle.std.specs.Prelude.{◌≡◌, ◌↔◌, IsTrue, option_copied};

use ob_alarms::{Ack, Alarm, Alarms, Event, Num, Turn};
use ob_values::Text;

/// Whether two numbers are one, of the same kind.
fn same_number(number: &Num, other: &Num) -> bool
    ensures { IsTrue result ↔ (number.now ≡ other.now) }
{
    match (number, other) {
        (Num::Int(number), Num::Int(other)) => *number == *other,
        (Num::Real(number), Num::Real(other)) => number == other,
        _ => false,
    }
}

/// Whether two turns are one.
fn same_turn(turn: Turn, other: Turn) -> bool
    ensures { IsTrue result ↔ (turn ≡ other) }
{
    turn.at == other.at && turn.event == other.event
}

/// Whether there is the same turn, or none in both.
fn same_normal(turn: Option<Turn>, other: Option<Turn>) -> bool
    ensures { IsTrue result ↔ (turn ≡ other) }
{
    match (turn, other) {
        (Some(turn), Some(other)) => same_turn(turn, other),
        (None, None) => true,
        (Some(_), None) | (None, Some(_)) => false,
    }
}

/// Whether the same user is named, or none in both.
fn same_user(user: &Option<Text>, other: &Option<Text>) -> bool
    ensures { IsTrue result ↔ (user.now ≡ other.now) }
{
    match (user, other) {
        (Some(user), Some(other)) => user == other,
        (None, None) => true,
        (Some(_), None) | (None, Some(_)) => false,
    }
}

/// Whether there is the same acknowledgement, or none in both.
fn same_ack(ack: &Option<Ack>, other: &Option<Ack>) -> bool
    ensures { IsTrue result ↔ (ack.now ≡ other.now) }
{
    match (ack, other) {
        (Some(ack), Some(other)) => {
            same_turn(ack.turn, other.turn) && same_user(&ack.user, &other.user)
        }
        (None, None) => true,
        (Some(_), None) | (None, Some(_)) => false,
    }
}

/// Whether two alarms are one.
fn same_alarm(alarm: &Alarm, other: &Alarm) -> bool
    ensures { IsTrue result ↔ (alarm.now ≡ other.now) }
{
    alarm.rule == other.rule
        && same_number(&alarm.value, &other.value)
        && same_turn(alarm.raised, other.raised)
        && same_normal(alarm.normal, other.normal)
        && same_ack(&alarm.ack, &other.ack)
}

/// Whether two events are one.
fn same_event(event: Event, other: Event) -> bool
    ensures { IsTrue result ↔ (event ≡ other) }
{
    event.number == other.number && event.what == other.what && event.at == other.at
}

/// Whether the events are the same, in the same order.
fn same_events(events: &[Event], others: &[Event]) -> bool
    ensures { IsTrue result ↔ (events.now ≡ others.now) }
{
    if events.len() != others.len() {
        return false;
    }
    for place in 0..events.len() {
        if !same_event(events[place], others[place]) {
            return false;
        }
    }
    true
}

/// Whether there is the same alarm, or none in both.
fn same_found(alarm: Option<&Alarm>, other: Option<&Alarm>) -> bool
    ensures { IsTrue result ↔ (option_copied alarm.entry ≡ option_copied other.entry) }
{
    match (alarm, other) {
        (Some(alarm), Some(other)) => same_alarm(alarm, other),
        (None, None) => true,
        (Some(_), None) | (None, Some(_)) => false,
    }
}

/// Whether the alarms are the same, in the same order.
fn same_list(alarms: &Alarms, others: &Alarms) -> bool
    ensures { IsTrue result ↔ (alarms.now.alarms ≡ others.now.alarms) }
{
    if alarms.len() != others.len() {
        return false;
    }
    for place in 0..alarms.len() {
        if !same_found(alarms.alarm(place + 1), others.alarm(place + 1)) {
            return false;
        }
    }
    true
}

/// Whether the alarms and their events are the same.
pub(crate) fn same_board(alarms: &Alarms, others: &Alarms) -> bool
    ensures { IsTrue result ↔ ((alarms.now.alarms ≡ others.now.alarms) × (alarms.now.events ≡ others.now.events)) }
{
    same_list(alarms, others) && same_events(alarms.events(0), others.events(0))
}
