//! Acknowledgements.
ghost use Rattle.std.specs.Prelude.{◌≡◌, IfOk, IfErr};
ghost use Rattle.std.specs.Option.{option_copied};
ghost use Rattle.ob_alarms.specs.Changes.{State as Board, alarm_of};
ghost use Rattle.ob_site_rules.specs.State.{board, with_board};
ghost use Rattle.ob_site_rules.specs.Computed.{ack_out};
ghost use Rattle.ob_site_rules.specs.Entries.{alarm_object};
ghost use Rattle.ob_site_rules.specs.Posts.{user_in, is_long_text, is_unacked, acked, ack_fault, acknowledge};
ghost use Rattle.ob_requests.specs.BatchCalls.{is_ack_in};
ghost use Rattle.ob_site_actions.specs.Stops.{IsDone, Stops};

use crate::{NotDone, ack_overfills};
use ob_alarms::Alarms;
use ob_object::{Kind, Obj, Slot};
use ob_replies::{ack_out, alarm_object};
use ob_site_rules::Fault;
use ob_site_state::State;
use ob_values::{Text, Value};
use std::alloc::AllocError;

/// The user that an AckAlarmIn names, if it names one.
fn user_in(input: &Obj) -> Option<&Text>
    ensures { option_copied result ≡ user_in input.now }
{
    match input.child("ackUser")?.slot() {
        Slot::Is(Value::Str(user)) => Some(user),
        _ => None,
    }
}

/// Whether an AckAlarmIn is an obj whose user, if it has one, is a str.
fn is_ack_in(input: &Obj) -> bool
    ensures { result ≡ is_ack_in input.now }
{
    let user = match input.child("ackUser") {
        Some(user) => user.kind().same(Kind::Str),
        None => true,
    };
    input.kind().same(Kind::Obj) && user
}

/// A copy of a user, if one is named.
fn copy_user(user: Option<&Text>) -> Result<Option<Text>, AllocError>
    ensures { IfOk result (λ copy. copy ≡ option_copied user.entry) }
{
    match user {
        Some(user) => {
            let copy = user.copy()?;
            Ok(Some(copy))
        }
        None => Ok(None),
    }
}

/// Whether a text is longer than 4,096 bytes.
fn is_long_text(text: Option<&Text>) -> bool
    ensures { result ≡ is_long_text (option_copied text.entry) }
{
    match text {
        Some(text) => text.as_str().len() > 4_096,
        None => false,
    }
}

/// Whether there is an alarm of this number that no one has acknowledged.
fn is_unacked(alarms: &Alarms, number: u64) -> bool
    ensures { result ≡ is_unacked (alarm_of number alarms.now.alarms) }
{
    match alarms.alarm(number) {
        Some(alarm) => alarm.ack.is_none(),
        None => false,
    }
}

/// What is wrong with an acknowledgement: the input has another shape, the user's text is too long, or its event would
/// be too many.
fn ack_fault(state: &State, number: u64, input: &Obj) -> Option<Fault>
    ensures { result ≡ ack_fault state.now.plan state.now.now state.now.time number input.now }
{
    if !is_ack_in(input) {
        return Some(Fault::OtherShape);
    }
    if is_long_text(user_in(input)) {
        return Some(Fault::TextTooLong);
    }
    if !is_unacked(state.alarms(), number) {
        return None;
    }
    if ack_overfills(state, number) {
        return Some(Fault::TooManyEntries);
    }
    None
}

/// Acknowledges an alarm for the user that an input names, and answers it as it then is.
fn show_acknowledged(state: &mut State, number: u64, input: &Obj) -> Result<Obj, AllocError>
    ensures ok { IfOk result (λ reply. (after : Board)
        → after ≡ acked (board state.old.plan state.old.now) number (user_in input.now) state.old.time
        → IsDone state.old state.new (with_board state.old.now after, ack_out (alarm_object after number)) reply) }
    ensures stays { state.new ≡ record state.old { now = state.new.now } }
{
    let user = copy_user(user_in(input))?;
    state.acknowledge(number, user)?;
    let alarm = alarm_object(state.allocator(), state.alarms(), number)?;
    ack_out(state.allocator(), alarm)
}

/// AckAlarmIn: the alarm is acknowledged, and answered as it then is.
///
/// Source: oBIX 1.1, chapter 15 (AckAlarm).
pub fn acknowledge(state: &mut State, number: u64, input: &Obj) -> Result<Obj, NotDone>
    ensures ok { IfOk result (IsDone state.old state.new
        (acknowledge state.old.plan state.old.now state.old.time number input.now)) }
    ensures stop { IfErr result (Stops state.old state.new
        (acknowledge state.old.plan state.old.now state.old.time number input.now)) }
{
    if let Some(fault) = ack_fault(state, number, input) {
        return Err(NotDone::Refused(fault));
    }
    let reply = show_acknowledged(state, number, input)?;
    Ok(reply)
}
