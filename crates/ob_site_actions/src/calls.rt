//! Calls of ops.
ghost use Rattle.std.specs.Prelude.{◌≡◌, Some, true, IfOk, IfErr};
ghost use Rattle.std.specs.Option.{option_copied};
ghost use Rattle.ob_site_rules.specs.State.{is_among};
ghost use Rattle.ob_site_rules.specs.Places.{place_at};
ghost use Rattle.ob_site_rules.specs.Posts.{child_of_obj, write_point, call, acknowledge, or_nil};
ghost use Rattle.ob_site_actions.specs.Stops.{IsDone, Stops};

use crate::acks::acknowledge;
use crate::{NotDone, write_by, write_fault};
use ob_contracts::Steps;
use ob_object::{Kind, Obj};
use ob_replies::nil;
use ob_site_reads::{query_alarms, query_records, shown_at};
use ob_site_rules::{Fault, Resource};
use ob_site_state::State;
use ob_values::Text;
use std::sync::ledger::Ledger;

/// The child of an obj.
fn child_of_obj<'a>(object: &'a Obj, name: &str) -> Option<&'a Obj>
    ensures { option_copied result ≡ child_of_obj name.now object.entry.now }
{
    if object.kind().same(Kind::Obj) {
        object.child(name)
    } else {
        None
    }
}

/// Writes the value that a body gives to a point, which is shown.
fn write_shown<L: Ledger>(
    state: &mut State,
    point: &Text,
    new: &Obj,
    steps: &mut Steps<L>,
) -> Result<Obj, NotDone>
    requires { is_among point.now state.old.plan.points ≡ true }
    ensures ok { IfOk result (IsDone state.old state.new
        (write_point state.old.plan state.old.now state.old.time point.now (Some new.now))) }
    ensures stop { IfErr result (Stops state.old state.new
        (write_point state.old.plan state.old.now state.old.time point.now (Some new.now))) }
{
    state.sound_law();
    match shown_at(state, point, steps)? {
        Some(target) => write_by(state, point, &target, new, steps),
        None => unreachable!(),
    }
}

/// WritePointIn: the child `value` is written to the point, whether or not the point is writable. Where that is refused the
/// point isn't shown for it.
///
/// Source: oBIX 1.1, chapter 13 (WritablePoint).
#[tactic(auto, using(crate::proofs::ByHead::point_refused))]
fn write_point<L: Ledger>(
    state: &mut State,
    point: &Text,
    value: Option<&Obj>,
    steps: &mut Steps<L>,
) -> Result<Obj, NotDone>
    requires { is_among point.now state.old.plan.points ≡ true }
    ensures ok { IfOk result (IsDone state.old state.new
        (write_point state.old.plan state.old.now state.old.time point.now (option_copied value.entry))) }
    ensures stop { IfErr result (Stops state.old state.new
        (write_point state.old.plan state.old.now state.old.time point.now (option_copied value.entry))) }
{
    let Some(new) = value else {
        return Err(NotDone::Refused(Fault::OtherShape));
    };
    if let Some(fault) = write_fault(state, point, new, steps)? {
        return Err(NotDone::Refused(fault));
    }
    write_shown(state, point, new, steps)
}

/// An acknowledgement whose input may be left out: then it is Nil.
fn ack_call(state: &mut State, number: u64, input: Option<&Obj>) -> Result<Obj, NotDone>
    ensures ok { IfOk result (IsDone state.old state.new
        (acknowledge state.old.plan state.old.now state.old.time number (or_nil (option_copied input.entry)))) }
    ensures stop { IfErr result (Stops state.old state.new
        (acknowledge state.old.plan state.old.now state.old.time number (or_nil (option_copied input.entry)))) }
{
    match input {
        Some(input) => acknowledge(state, number, input),
        None => {
            let input = nil(state.allocator())?;
            acknowledge(state, number, &input)
        }
    }
}

/// A call of the op at a path, other than batch, make and those of watches. An input that is left out is Nil.
///
/// Source: oBIX 1.1, chapters 8 (Operations) and 13 to 15.
pub fn call<L: Ledger>(
    state: &mut State,
    path: &Text,
    place: &Resource,
    input: Option<&Obj>,
    steps: &mut Steps<L>,
) -> Result<Obj, NotDone>
    requires { place_at state.old.plan state.old.now path.now ≡ Some place.now }
    ensures ok { IfOk result (IsDone state.old state.new
        (call state.old.plan state.old.now state.old.time place.now (option_copied input.entry))) }
    ensures stop { IfErr result (Stops state.old state.new
        (call state.old.plan state.old.now state.old.time place.now (option_copied input.entry))) }
{
    match place {
        Resource::AckOf(number) => ack_call(state, *number, input),
        Resource::WritePointOf(point) => match input {
            Some(input) => write_point(state, point, child_of_obj(input, "value"), steps),
            None => write_point(state, point, None, steps),
        },
        Resource::QueryOf(history) => {
            let reply = query_records(state, history, input)?;
            Ok(reply)
        }
        Resource::AlarmQuery => {
            let reply = query_alarms(state, input)?;
            Ok(reply)
        }
        Resource::About
        | Resource::Batch
        | Resource::Service
        | Resource::Make
        | Resource::AlarmAt(_)
        | Resource::FeedOf(_)
        | Resource::AlarmFeed
        | Resource::Node(_) => Err(NotDone::Refused(Fault::NotSupported)),
    }
}
