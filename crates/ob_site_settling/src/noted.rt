//! What was before a step, told by its notes.
ghost use Rattle.std.specs.Prelude.{◌≡◌, ◌≤◌, length, IsTrue};
ghost use Rattle.std.specs.Option.{option_copied};
ghost use Rattle.ob_site_rules.specs.State.{roll};
ghost use Rattle.ob_shown_laws.specs.Alike.{DifferInValues};
ghost use Rattle.ob_site_settling.specs.Telling.{replaced_or, TellsOf, count_before_what, count_before, is_event, events_noted};

use ob_alarms::{Event, What};
use ob_contracts::Library;
use ob_ground::Told;
use ob_site_state::{Change, State};

/// The library before this step, with the words that it tells the objects of the tree, if the step has replaced it by another one.
pub(crate) fn library_replaced(state: &State) -> Option<&Told>
    ensures library { replaced_or (option_copied result) state.now.now ≡ state.now.before.library }
    ensures told { TellsOf (option_copied result) state.now.now }
{
    let changes = state.changes();
    for change in changes {
        if let Change::Contracts { told } = change {
            return Some(told);
        }
    }
    None
}

/// The library before this step.
pub fn library_before(state: &State) -> &Library
    ensures { result.now ≡ state.now.before.library }
{
    match library_replaced(state) {
        Some(told) => told.library(),
        None => state.library(),
    }
}

/// Whether this step has changed values alone, and no library.
pub fn changes_values(state: &State) -> bool
    ensures { IsTrue result → DifferInValues state.now.before (roll state.now.now) }
{
    let changes = state.changes();
    for change in changes {
        if let Change::Contracts { told: _ } = change {
            return false;
        }
    }
    true
}

/// Whether a change is an alarm event.
fn is_event(change: &Change) -> bool
    ensures { result ≡ is_event change.now }
{
    match change {
        Change::Event { rule: _, status: _ } => true,
        Change::Slot { node: _, slot: _ }
        | Change::Records { place: _, len: _ }
        | Change::Contracts { told: _ } => false,
    }
}

/// How many of the notes are of alarm events.
fn events_noted(changes: &[Change]) -> u64
    ensures value { result ≡ events_noted changes.now }
{
    let mut count = 0;
    for change in changes {
        if is_event(change) {
            count += 1;
        }
    }
    count
}

/// How many alarms there were before an event, of so many.
fn count_before_event(event: &Event, count: u64) -> u64
    ensures { result ≡ count_before_what event.now.what event.now.number count }
{
    match event.what {
        What::Raised => count.min(event.number.saturating_sub(1)),
        What::Acked | What::Normal => count,
    }
}

/// How many alarms there were before some events, of so many.
fn count_before(events: &[Event], count: u64) -> u64
    ensures { result ≡ count_before events.now count }
{
    let mut before = count;
    for event in events {
        before = count_before_event(event, before);
    }
    before
}

/// How many alarms there were before this step.
pub(crate) fn alarms_before(state: &State) -> u64
    ensures { result ≡ length state.now.before.alarms }
{
    let noted = events_noted(state.changes());
    let alarms = state.alarms();
    let all = alarms.events(0).len() as u64;
    count_before(alarms.events(all - noted), alarms.len())
}
