//! What is asked at a stage.
ghost use Rattle.std.specs.Prelude.{◌≡◌, Some, IfOk};
ghost use Rattle.ob_dialogue.specs.Stages.{get, request_at};
ghost use Rattle.ob_dialogue.specs.Stages as stages;
ghost use Rattle.ob_dialogue.specs.InHand as in_hand;

use crate::stage::{Stage, Watching};
use ob_asking::{Place, Request, watch_in};
use ob_object::Obj;
use ob_values::{Text, Verb};
use std::alloc::{AllocError, Global};

fn get(place: &Place) -> Result<Option<Request>, AllocError>
    ensures { IfOk result (λ r. r ≡ Some (get place.now)) }
{
    let target = place.target.copy()?;
    Ok(Some(Request {
        verb: Verb::Get,
        target,
        body: None,
    }))
}

fn post(target: &Text, body: Option<Obj>) -> Result<Option<Request>, AllocError>
    ensures { IfOk result (λ r. r ≡ Some (in_hand.post target.now body)) }
{
    let target = target.copy()?;
    Ok(Some(Request {
        verb: Verb::Post,
        target,
        body,
    }))
}

// The hrefs are added.
fn add(alloc: Global, watching: &Watching) -> Result<Option<Request>, AllocError>
    ensures { IfOk result (λ r. r ≡ request_at (stages.Adding (in_hand.watching watching.now))) }
{
    let input = watch_in(alloc, &watching.asked)?;
    post(&watching.ops.add.target, Some(input))
}

/// What is asked next by a call of the session; None at the end. An error only for want of memory.
pub(crate) fn request_at(alloc: Global, stage: &Stage) -> Result<Option<Request>, AllocError>
    requires { in_hand.IsCalled stage.now }
    ensures { IfOk result (λ r. r ≡ request_at (in_hand.stage stage.now)) }
{
    match stage {
        Stage::Lobby(place) => get(place),
        Stage::Service(place) => get(place),
        Stage::Make(place) => post(&place.target, None),
        Stage::Subject(_, place) => get(place),
        Stage::Add(watching) => add(alloc, watching),
        Stage::Ack(_, _, _) => unreachable!(),
        Stage::Poll(watching) => post(&watching.ops.changes.target, None),
        Stage::Mend(watching) => post(watching.ops.mending(), None),
        Stage::Delete(watching) => post(&watching.ops.delete.target, None),
        Stage::Over => Ok(None),
    }
}
