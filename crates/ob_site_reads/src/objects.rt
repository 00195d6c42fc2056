//! The answer to a Get.
ghost use Rattle.std.specs.Prelude.{◌≡◌, IfOk};
ghost use Rattle.ob_site_rules.specs.Places.{object_at, reply_at};

use crate::shown_at;
use ob_contracts::Steps;
use ob_object::Obj;
use ob_replies::{about, ack_op, alarm_object, batch_op, make_op, refusal, service};
use ob_site_rules::{Fault, Resource, nameless};
use ob_site_state::State;
use ob_values::Text;
use std::alloc::AllocError;
use std::sync::ledger::Ledger;

/// What is shown at a path, or else a given object; without its name. An error only for want of memory.
pub fn reply_at<L: Ledger>(
    state: &State,
    path: &Text,
    default: Obj,
    steps: &mut Steps<L>,
) -> Result<Obj, AllocError>
    ensures { IfOk result (λ o. o ≡ reply_at state.now.plan state.now.now path.now default) }
{
    match shown_at(state, path, steps)? {
        Some(node) => Ok(nameless(node)),
        None => Ok(nameless(default)),
    }
}

/// The object that is read at a path, which names this place. The batch of a lobby is read as the root's child, and
/// that of another root as the op alone. An error only for want of memory.
///
/// Source: oBIX 1.1, chapter 10 (Networking: Read).
pub fn object_at<L: Ledger>(
    state: &State,
    path: &Text,
    place: Resource,
    steps: &mut Steps<L>,
) -> Result<Obj, AllocError>
    ensures { IfOk result (λ o. o ≡ object_at state.now.plan state.now.now state.now.time path.now place) }
{
    match place {
        Resource::About => about(state.allocator(), state.plan(), state.time()),
        Resource::Batch => {
            let op = batch_op(state.allocator(), state.plan())?;
            reply_at(state, path, op, steps)
        }
        Resource::Service => service(state.allocator(), state.plan()),
        Resource::Make => {
            let op = make_op(state.allocator(), state.plan())?;
            Ok(nameless(op))
        }
        Resource::AlarmAt(number) => alarm_object(state.allocator(), state.alarms(), number),
        Resource::AckOf(number) => {
            let op = ack_op(state.allocator(), state.plan(), number)?;
            Ok(nameless(op))
        }
        Resource::Node(node) => Ok(nameless(node)),
        Resource::WritePointOf(_)
        | Resource::QueryOf(_)
        | Resource::FeedOf(_)
        | Resource::AlarmQuery
        | Resource::AlarmFeed => {
            let missing = refusal(state.allocator(), Fault::NoSuchObject)?;
            reply_at(state, path, missing, steps)
        }
    }
}
