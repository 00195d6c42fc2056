//! Alarms by the moments at which they were raised, and by what has happened to them since an event.
ghost use Rattle.std.specs.Prelude.{◌≡◌, ◌&&◌};
ghost use Rattle.std.specs.List.{list_any};
ghost use Rattle.ob_alarms.specs.Since.{happened_since, is_within};

use crate::alarm::Alarm;
use ob_values::Abstime;

/// Whether an alarm was raised neither before the start nor after the end, compared as instants.
pub fn is_within(alarm: &Alarm, start: &Option<Abstime>, end: &Option<Abstime>) -> bool
    ensures { result ≡ is_within start.now end.now alarm.now }
{
    let raised = alarm.raised.at.abstime().instant();
    let is_early = match start {
        Some(start) => raised < start.instant(),
        None => false,
    };
    let is_late = match end {
        Some(end) => end.instant() < raised,
        None => false,
    };
    !is_early && !is_late
}

/// Whether something happened to an alarm at an event of this number or a later one.
fn happened_since(alarm: &Alarm, from: u64) -> bool
    ensures { result ≡ happened_since from alarm.now }
{
    let has_ended = match &alarm.normal {
        Some(turn) => from <= turn.event,
        None => false,
    };
    let was_acked = match &alarm.ack {
        Some(ack) => from <= ack.turn.event,
        None => false,
    };
    from <= alarm.raised.event || has_ended || was_acked
}

/// Whether one of some alarms was raised within bounds, and something happened to it at an event of this number or a
/// later one.
pub fn any_since(
    alarms: &[Alarm],
    from: u64,
    start: &Option<Abstime>,
    end: &Option<Abstime>,
) -> bool
    ensures { result ≡ list_any (λ a. is_within start.now end.now a && happened_since from a) alarms.now }
{
    alarms.iter().any(|alarm| is_within(alarm, start, end) && happened_since(alarm, from))
}
