//! What a console shows of an alarm.
ghost use Rattle.std.specs.Prelude.{◌≡◌, IfOk, codes, option_map, option_and_then};
ghost use Rattle.std.specs.Option.{option_copied};
ghost use Rattle.ob_console.specs.Alarms.{if_kind, child_of, is_given, instant_in, or_null, source_of, time_of, in_alarm, value_of, acking, acking_by, state_of, shows, shows_by, child};
ghost use Rattle.ob_console.specs.Boards.{alarm_of};
ghost use Rattle.ob_console.specs.InHand as in_hand;

use ob_object::{Kind, Obj, Slot, Status};
use ob_values::{Abstime, Text, Value};
use std::alloc::{AllocError, Global};

/// What a console shows of an alarm, and the href of its op `ack`, if it has one.
pub struct Alarm {
    pub state: Status,
    pub time: Abstime,
    /// Null, or an int or a real.
    pub value: Slot,
    /// The href of its source.
    pub source: Text,
    pub ack: Option<Text>,
}

impl Drop for Alarm {
    // By one call for each part.
    fn drop(self) {
        let Alarm {
            state: _,
            time: _,
            value,
            source,
            ack,
        } = self;
        drop(value);
        drop(source);
        drop(ack);
    }
}

// The object, if it is of this kind.
fn if_kind(kind: Kind, object: &Obj) -> Option<&Obj>
    ensures { option_copied result ≡ if_kind kind object.now }
{
    if object.kind().same(kind) {
        Some(object)
    } else {
        None
    }
}

// The child of a name, if it is of this kind.
fn child_of<'a>(kind: Kind, name: &str, object: &'a Obj) -> Option<&'a Obj>
    ensures { option_copied result ≡ child_of kind name.now object.now }
{
    match object.child(name) {
        Some(child) => if_kind(kind, child),
        None => None,
    }
}

fn is_given(slot: &Slot) -> bool
    ensures { result ≡ is_given slot.now }
{
    matches!(slot, Slot::Is(_))
}

fn instant_in(slot: &Slot) -> Option<Abstime>
    ensures { result ≡ instant_in slot.now }
{
    match slot {
        Slot::Is(Value::Abstime(instant)) => Some(*instant),
        _ => None,
    }
}

// The slot, null where it has no value.
fn or_null(slot: &Slot) -> Result<Slot, AllocError>
    ensures { IfOk result (λ s. s ≡ or_null slot.now) }
{
    match slot {
        Slot::Absent => Ok(Slot::Null),
        Slot::Null => Ok(Slot::Null),
        Slot::Is(value) => Ok(Slot::Is(value.copy()?)),
    }
}

fn source_of(event: &Obj) -> Option<&Text>
    ensures { option_copied result ≡ source_of event.now }
{
    match child_of(Kind::Ref, "source", event) {
        Some(source) => source.href(),
        None => None,
    }
}

fn time_of(event: &Obj) -> Option<Abstime>
    ensures { result ≡ time_of event.now }
{
    match child_of(Kind::Abstime, "timestamp", event) {
        Some(time) => instant_in(time.slot()),
        None => None,
    }
}

fn in_alarm(event: &Obj) -> Option<bool>
    ensures { result ≡ in_alarm event.now }
{
    match child_of(Kind::Abstime, "normalTimestamp", event) {
        Some(time) => Some(!is_given(time.slot())),
        None => None,
    }
}

// The value with which it was raised, if it is an int or a real.
fn number_of(event: &Obj) -> Option<&Obj>
    ensures { option_map (λ o. or_null o.now.head.slot) result ≡ value_of event.now }
{
    match event.child("alarmValue") {
        Some(value) if value.kind().same(Kind::Int) || value.kind().same(Kind::Real) => Some(value),
        _ => None,
    }
}

/// The href of the op `ack`, and whether the alarm waits for it.
#[derive(Clone, Copy)]
pub(crate) struct Acking<'a> {
    ack: Option<&'a Text>,
    waits: bool,
}

// The href of an object that may be there.
fn href_of(object: Option<&Obj>) -> Option<&Text>
    ensures { option_copied result ≡ option_and_then (λ o. o.head.href) (option_copied object.entry) }
{
    match object {
        Some(object) => object.href(),
        None => None,
    }
}

fn acking_by<'a>(event: &'a Obj, op: &'a Obj) -> Option<Acking<'a>>
    ensures { option_map in_hand.acking result ≡ acking_by event.now op.now }
{
    let Some(href) = href_of(if_kind(Kind::Op, op)) else {
        return None;
    };
    match child_of(Kind::Abstime, "ackTimestamp", event) {
        Some(time) => Some(Acking {
            ack: Some(href),
            waits: !is_given(time.slot()),
        }),
        None => None,
    }
}

fn acking_of(event: &Obj) -> Option<Acking<'_>>
    ensures { option_map in_hand.acking result ≡ acking event.now (child (codes "ack") event.now) }
{
    match event.child("ack") {
        Some(op) => acking_by(event, op),
        None => Some(Acking {
            ack: None,
            waits: false,
        }),
    }
}

fn state_of(in_alarm: bool, waits: bool) -> Status
    ensures { result ≡ state_of in_alarm waits }
{
    if in_alarm {
        if waits {
            Status::UnackedAlarm
        } else {
            Status::Alarm
        }
    } else if waits {
        Status::Unacked
    } else {
        Status::Ok
    }
}

fn copy_href(href: Option<&Text>) -> Result<Option<Text>, AllocError>
    ensures { IfOk result (λ copy. copy ≡ option_copied href.entry) }
{
    match href {
        Some(href) => {
            let copy = href.copy()?;
            Ok(Some(copy))
        }
        None => Ok(None),
    }
}

// The parts put together.
fn put_together(
    source: &Text,
    time: Abstime,
    in_alarm: bool,
    value: &Slot,
    acking: Acking<'_>,
) -> Result<Alarm, AllocError>
    ensures { IfOk result (λ a. in_hand.shown a ≡ shows_by source.now time in_alarm (or_null value.now) (in_hand.acking acking.entry)) }
{
    let state = state_of(in_alarm, acking.waits);
    let value = or_null(value)?;
    let source = source.copy()?;
    let ack = copy_href(acking.ack)?;
    Ok(Alarm {
        state,
        time,
        value,
        source,
        ack,
    })
}

/// What is shown of an event that is an alarm, apart from its href.
pub(crate) fn shown(event: &Obj) -> Result<Option<Alarm>, AllocError>
    ensures { IfOk result (λ a. option_map in_hand.shown a ≡ shows event.now) }
{
    let Some(source) = source_of(event) else {
        return Ok(None);
    };
    let Some(time) = time_of(event) else {
        return Ok(None);
    };
    let Some(in_alarm) = in_alarm(event) else {
        return Ok(None);
    };
    let Some(value) = number_of(event) else {
        return Ok(None);
    };
    let Some(acking) = acking_of(event) else {
        return Ok(None);
    };
    let alarm = put_together(source, time, in_alarm, value.slot(), acking)?;
    Ok(Some(alarm))
}

/// An alarm under the href of its object.
#[derive(Drop)]
pub(crate) struct Named<'a> {
    pub(crate) href: &'a Text,
    pub(crate) alarm: Alarm,
}

/// The alarm that an event tells of, if it is one.
pub(crate) fn alarm_of(event: &Obj) -> Result<Option<Named<'_>>, AllocError>
    ensures { IfOk result (λ a. option_map in_hand.line a ≡ alarm_of event.now) }
{
    let Some(object) = if_kind(Kind::Obj, event) else {
        return Ok(None);
    };
    let Some(href) = object.href() else {
        return Ok(None);
    };
    match shown(object)? {
        Some(alarm) => Ok(Some(Named { href, alarm })),
        None => Ok(None),
    }
}
