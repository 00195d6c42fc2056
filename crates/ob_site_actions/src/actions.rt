//! One action at a place.
ghost use Rattle.std.specs.Prelude.{◌≡◌, Some, IfOk, IfErr};
ghost use Rattle.std.specs.Option.{option_copied};
ghost use Rattle.ob_site_rules.specs.Places.{place_at};
ghost use Rattle.ob_site_rules.specs.Actions.{put_at, act_at};
ghost use Rattle.ob_site_actions.specs.Stops.{IsDone, Stops};

use crate::calls::call;
use crate::{NotDone, put};
use ob_contracts::Steps;
use ob_object::Obj;
use ob_site_reads::object_at;
use ob_site_rules::{Fault, Request, Resource};
use ob_site_state::State;
use ob_values::{Text, Verb};
use std::sync::ledger::Ledger;

/// A write at a place: only a node is put to.
fn put_at<L: Ledger>(
    state: &mut State,
    path: &Text,
    place: &Resource,
    body: Option<&Obj>,
    steps: &mut Steps<L>,
) -> Result<Obj, NotDone>
    requires { place_at state.old.plan state.old.now path.now ≡ Some place.now }
    ensures ok { IfOk result (IsDone state.old state.new
        (put_at state.old.plan state.old.now state.old.time path.now place.now (option_copied body.entry))) }
    ensures stop { IfErr result (Stops state.old state.new
        (put_at state.old.plan state.old.now state.old.time path.now place.now (option_copied body.entry))) }
{
    match place {
        Resource::Node(object) => put(state, path, object, body, steps),
        Resource::About
        | Resource::Batch
        | Resource::Service
        | Resource::Make
        | Resource::AlarmAt(_)
        | Resource::AckOf(_)
        | Resource::WritePointOf(_)
        | Resource::QueryOf(_)
        | Resource::FeedOf(_)
        | Resource::AlarmQuery
        | Resource::AlarmFeed => Err(NotDone::Refused(Fault::NotSupported)),
    }
}

/// One action at a place: what a request asks of a path, which names this place.
///
/// Source: oBIX 1.1, chapter 10 (Networking: Read, Write and Invoke).
pub fn act_at<L: Ledger>(
    state: &mut State,
    request: &Request,
    path: &Text,
    place: Resource,
    steps: &mut Steps<L>,
) -> Result<Obj, NotDone>
    requires { place_at state.old.plan state.old.now path.now ≡ Some place }
    ensures ok { IfOk result (IsDone state.old state.new
        (act_at state.old.plan state.old.now state.old.time path.now request.now.verb place request.now.body)) }
    ensures stop { IfErr result (Stops state.old state.new
        (act_at state.old.plan state.old.now state.old.time path.now request.now.verb place request.now.body)) }
{
    let body = request.body.as_ref();
    match request.verb {
        Verb::Get => {
            let reply = object_at(state, path, place, steps)?;
            Ok(reply)
        }
        Verb::Put => put_at(state, path, &place, body, steps),
        Verb::Post => call(state, path, &place, body, steps),
    }
}
