//! What a reply gives.
ghost use Rattle.std.specs.Prelude.{◌≡◌, ◌+◌, ◌<◌, ◌^◌, ◌++◌, IfOk, false, codes, option_map};
ghost use Rattle.ob_dialogue.specs.Plans.{child_place};
ghost use Rattle.ob_dialogue.specs.Printing.{add_heading, body_text};
ghost use Rattle.ob_dialogue.specs.Stages as stages;
ghost use Rattle.ob_dialogue.specs.Stages.{ops_of};
ghost use Rattle.ob_dialogue.specs.Taking.{silent, to_watch, to_feed, ack_target, acked, printed, taken, taken_at, on_poll};
ghost use Rattle.ob_dialogue.specs.InHand as in_hand;

use crate::ending::Peer;
use crate::lines::{add_heading, board_in, body, errs, poll_heading};
use crate::plan::{DialoguePlan, Topic};
use crate::stage::{Ops, Stage, Watching, begun, onward, ops_of};
use ob_asking::{Place, child_place, place_at};
use ob_client::MirrorFault;
use ob_console::{AckFault, ack_target};
use ob_object::{Kind, Obj};
use ob_values::Text;
use std::alloc::{AllocError, Global};

/// What is printed, and the next stage or why there is none.
#[derive(Drop)]
pub(crate) struct Outcome {
    pub(crate) lines: Vec<u8>,
    pub(crate) next: Result<Stage, Peer>,
}

// These lines are printed; without a next stage the reply's form is wrong.
fn behind(lines: Vec<u8>, next: Option<Stage>) -> Outcome
    requires { in_hand.OptionIsLive next }
    ensures value { in_hand.taken result ≡ in_hand.behind lines.items (option_map in_hand.stage next) }
    ensures live { in_hand.NextIsLive result.next }
{
    match next {
        Some(stage) => Outcome {
            lines,
            next: Ok(stage),
        },
        None => Outcome {
            lines,
            next: Err(Peer::Shape),
        },
    }
}

// Nothing is printed.
fn silent(alloc: Global, next: Option<Stage>) -> Outcome
    requires { in_hand.OptionIsLive next }
    ensures value { in_hand.taken result ≡ silent (option_map in_hand.stage next) }
    ensures live { in_hand.NextIsLive result.next }
{
    behind(Vec::new(alloc), next)
}

fn copies(alloc: Global, texts: &[Text]) -> Result<Vec<Text>, AllocError>
    ensures { IfOk result (λ copies. copies.items ≡ texts.now) }
{
    let mut copies = Vec::new(alloc);
    for text in texts {
        let copy = text.copy()?;
        copies.push(copy)?;
    }
    Ok(copies)
}

// The service is asked for.
fn to_service(place: Option<Place>) -> Option<Stage>
    ensures value { option_map in_hand.stage result ≡ option_map stages.Service place }
    ensures live { in_hand.OptionIsLive result }
{
    match place {
        Some(place) => Some(Stage::Service(place)),
        None => None,
    }
}

// A watch is made.
fn to_make(place: Option<Place>) -> Option<Stage>
    ensures value { option_map in_hand.stage result ≡ option_map stages.Make place }
    ensures live { in_hand.OptionIsLive result }
{
    match place {
        Some(place) => Some(Stage::Make(place)),
        None => None,
    }
}

// The subject is asked for.
fn to_subject(ops: Ops, place: Option<Place>) -> Option<Stage>
    ensures value { option_map in_hand.stage result ≡ option_map (stages.Subject ops) place }
    ensures live { in_hand.OptionIsLive result }
{
    match place {
        Some(place) => Some(Stage::Subject(ops, place)),
        None => None,
    }
}

// Once the watch is made: its hrefs are added, or the subject is asked for.
fn to_watch(
    alloc: Global,
    plan: &DialoguePlan,
    ops: Option<Ops>,
) -> Result<Option<Stage>, AllocError>
    ensures value { IfOk result (λ s. option_map in_hand.stage s ≡ to_watch plan.now.url plan.now.topic ops) }
    ensures live { IfOk result (λ s. in_hand.OptionIsLive s) }
{
    let Some(ops) = ops else {
        return Ok(None);
    };
    match &plan.topic {
        Topic::Watch { hrefs } => {
            let asked = copies(alloc, hrefs.as_slice())?;
            Ok(Some(Stage::Add(begun(alloc, ops, asked))))
        }
        Topic::Console {
            subject,
            ack: _,
            user: _,
        } => {
            let place = place_at(alloc, &plan.url, subject.as_str())?;
            Ok(to_subject(ops, place))
        }
    }
}

// The subject's feed is added.
fn to_feed(alloc: Global, ops: Ops, feed: Option<Place>) -> Result<Option<Stage>, AllocError>
    ensures value { IfOk result (λ s. option_map in_hand.stage s ≡ to_feed ops feed) }
    ensures live { IfOk result (λ s. in_hand.OptionIsLive s) }
{
    let Some(feed) = feed else {
        return Ok(None);
    };
    let mut asked = Vec::new(alloc);
    asked.push(feed.into_target())?;
    Ok(Some(Stage::Add(begun(alloc, ops, asked))))
}

// Where the alarm is acknowledged, if it can be. An error only for want of memory.
fn led(answer: Result<Text, AckFault>) -> Result<Option<Text>, AllocError>
    ensures { in_hand.Leads answer result }
{
    match answer {
        Ok(target) => Ok(Some(target)),
        Err(AckFault::Memory) => Err(AllocError),
        Err(_) => Ok(None),
    }
}

// Where the alarm of an href is acknowledged, if the board has it with an op for it.
fn target_of(alloc: Global, watching: &Watching, href: &Text) -> Result<Option<Text>, AllocError>
    ensures { IfOk result (λ target. target ≡ ack_target (in_hand.watching watching.now) href.now) }
{
    let Some(board) = board_in(alloc, watching)? else {
        return Ok(None);
    };
    led(ack_target(alloc, &watching.ops.add.url, &board, href.as_str()))
}

// The alarm is acknowledged there.
fn to_ack(
    watching: Watching,
    target: Option<Text>,
    user: &Text,
) -> Result<Option<Stage>, AllocError>
    requires { watching.mirror.stale ≡ false }
    ensures value { IfOk result (λ s. option_map in_hand.stage s ≡ option_map (λ t. stages.Acking (in_hand.watching watching) t user.now) target) }
    ensures live { IfOk result (λ s. in_hand.OptionIsLive s) }
{
    let Some(target) = target else {
        return Ok(None);
    };
    let user = user.copy()?;
    Ok(Some(Stage::Ack(watching, target, user)))
}

// Behind the add: the acknowledgement of an alarm, if one is wanted.
fn acked(
    alloc: Global,
    plan: &DialoguePlan,
    watching: Watching,
) -> Result<Option<Stage>, AllocError>
    requires { watching.mirror.stale ≡ false }
    ensures value { IfOk result (λ s. option_map in_hand.stage s ≡ acked plan.now plan.now.topic (in_hand.watching watching)) }
    ensures live { IfOk result (λ s. in_hand.OptionIsLive s) }
{
    match &plan.topic {
        Topic::Watch { hrefs: _ } => Ok(Some(onward(plan, watching))),
        Topic::Console {
            subject: _,
            ack,
            user,
        } => match ack {
            None => Ok(Some(onward(plan, watching))),
            Some(href) => {
                let target = target_of(alloc, &watching, href)?;
                to_ack(watching, target, user)
            }
        },
    }
}

// Whether a mirror took a reply. An error only for want of memory.
fn has_taken(answer: Result<(), MirrorFault>) -> Result<bool, AllocError>
    ensures { in_hand.HasTaken answer result }
{
    match answer {
        Ok(()) => Ok(true),
        Err(MirrorFault::Memory) => Err(AllocError),
        Err(_) => Ok(false),
    }
}

// One text of three.
fn joined(heading: Vec<u8>, body: Vec<u8>, more: Vec<u8>) -> Result<Vec<u8>, AllocError>
    ensures { IfOk result (λ text. text.items ≡ heading.items ++ (body.items ++ more.items)) }
{
    let mut text = heading;
    text.extend_from_slice(&body)?;
    text.extend_from_slice(&more)?;
    Ok(text)
}

// Under a heading what is held, and behind it the next stage.
fn printed(
    alloc: Global,
    heading: Vec<u8>,
    more: Vec<u8>,
    body: Option<Vec<u8>>,
    next: Option<Stage>,
) -> Result<Outcome, AllocError>
    requires { in_hand.OptionIsLive next }
    ensures value { IfOk result (λ t. in_hand.taken t ≡ printed heading.items more.items (option_map in_hand.bytes body) (option_map in_hand.stage next)) }
    ensures live { IfOk result (λ t. in_hand.NextIsLive t.next) }
{
    match body {
        Some(body) => {
            let lines = joined(heading, body, more)?;
            Ok(behind(lines, next))
        }
        None => Ok(silent(alloc, None)),
    }
}

// The hrefs were added, with these lines of errs.
fn added(
    alloc: Global,
    plan: &DialoguePlan,
    watching: Watching,
    errs: Vec<u8>,
) -> Result<Outcome, AllocError>
    requires { watching.mirror.stale ≡ false }
    ensures value { IfOk result (λ t. in_hand.taken t ≡ printed add_heading errs.items (body_text plan.now.topic (in_hand.watching watching)) (acked plan.now plan.now.topic (in_hand.watching watching))) }
    ensures live { IfOk result (λ t. in_hand.NextIsLive t.next) }
{
    let heading = add_heading(alloc)?;
    let body = body(alloc, &plan.topic, &watching)?;
    let next = acked(alloc, plan, watching)?;
    printed(alloc, heading, errs, body, next)
}

// The reply to an add came.
fn on_add(
    alloc: Global,
    plan: &DialoguePlan,
    mut watching: Watching,
    reply: Obj,
) -> Result<Outcome, AllocError>
    requires { watching.mirror.stale ≡ false }
    ensures value { IfOk result (λ t. in_hand.taken t ≡ taken_at plan.now (stages.Adding (in_hand.watching watching)) reply) }
    ensures live { IfOk result (λ t. in_hand.NextIsLive t.next) }
{
    let errs = errs(alloc, &plan.topic, &reply)?;
    if has_taken(watching.mirror.on_add(reply))? {
        added(alloc, plan, watching, errs)
    } else {
        Ok(silent(alloc, None))
    }
}

// A poll was answered.
fn on_poll(alloc: Global, plan: &DialoguePlan, watching: Watching) -> Result<Outcome, AllocError>
    requires { watching.mirror.stale ≡ false }
    ensures value { IfOk result (λ t. in_hand.taken t ≡ on_poll plan.now (in_hand.watching watching)) }
    ensures live { IfOk result (λ t. in_hand.NextIsLive t.next) }
{
    let heading = poll_heading(alloc, watching.polled)?;
    let body = body(alloc, &plan.topic, &watching)?;
    let next = onward(plan, watching);
    printed(alloc, heading, Vec::new(alloc), body, Some(next))
}

// The changes came.
fn on_changes(
    alloc: Global,
    plan: &DialoguePlan,
    mut watching: Watching,
    reply: Obj,
) -> Result<Outcome, AllocError>
    requires live { watching.mirror.stale ≡ false }
    requires few { watching.polled + 1 < 2 ^ 64 }
    ensures value { IfOk result (λ t. in_hand.taken t ≡ taken_at plan.now (stages.Polling (in_hand.watching watching)) reply) }
    ensures live { IfOk result (λ t. in_hand.NextIsLive t.next) }
{
    if has_taken(watching.mirror.on_changes(reply))? {
        watching.polled += 1;
        on_poll(alloc, plan, watching)
    } else {
        Ok(silent(alloc, None))
    }
}

// All that is watched came.
fn on_refresh(
    alloc: Global,
    plan: &DialoguePlan,
    mut watching: Watching,
    reply: Obj,
) -> Result<Outcome, AllocError>
    requires { watching.polled + 1 < 2 ^ 64 }
    ensures value { IfOk result (λ t. in_hand.taken t ≡ taken_at plan.now (stages.Mending (in_hand.watching watching)) reply) }
    ensures live { IfOk result (λ t. in_hand.NextIsLive t.next) }
{
    if has_taken(watching.mirror.on_refresh(reply))? {
        watching.polled += 1;
        on_poll(alloc, plan, watching)
    } else {
        Ok(silent(alloc, None))
    }
}

// Where a child of a reply from a place leads.
fn leads_on(
    alloc: Global,
    place: Place,
    reply: Obj,
    name: &str,
) -> Result<Option<Place>, AllocError>
    ensures { IfOk result (λ p. p ≡ child_place place.url reply name.now) }
{
    child_place(alloc, &place.url, &reply, name)
}

// The lobby came.
fn on_lobby(alloc: Global, place: Place, reply: Obj) -> Result<Outcome, AllocError>
    ensures value { IfOk result (λ t. in_hand.taken t ≡ silent (option_map stages.Service (child_place place.url reply (codes "watchService")))) }
    ensures live { IfOk result (λ t. in_hand.NextIsLive t.next) }
{
    let service = leads_on(alloc, place, reply, "watchService")?;
    Ok(silent(alloc, to_service(service)))
}

// The watch service came.
fn on_service(alloc: Global, place: Place, reply: Obj) -> Result<Outcome, AllocError>
    ensures value { IfOk result (λ t. in_hand.taken t ≡ silent (option_map stages.Make (child_place place.url reply (codes "make")))) }
    ensures live { IfOk result (λ t. in_hand.NextIsLive t.next) }
{
    let make = leads_on(alloc, place, reply, "make")?;
    Ok(silent(alloc, to_make(make)))
}

// The ops of a watch that came from a place.
fn ops_in(alloc: Global, mends: bool, place: Place, watch: Obj) -> Result<Option<Ops>, AllocError>
    ensures { IfOk result (λ o. o ≡ ops_of mends place.url watch) }
{
    ops_of(alloc, mends, &place.url, &watch)
}

// A watch was made.
fn on_make(
    alloc: Global,
    plan: &DialoguePlan,
    place: Place,
    reply: Obj,
) -> Result<Outcome, AllocError>
    ensures value { IfOk result (λ t. in_hand.taken t ≡ taken_at plan.now (stages.Make place) reply) }
    ensures live { IfOk result (λ t. in_hand.NextIsLive t.next) }
{
    let ops = ops_in(alloc, plan.retries > 0, place, reply)?;
    let next = to_watch(alloc, plan, ops)?;
    Ok(silent(alloc, next))
}

// The alarm subject came.
fn on_subject(alloc: Global, ops: Ops, place: Place, reply: Obj) -> Result<Outcome, AllocError>
    ensures value { IfOk result (λ t. in_hand.taken t ≡ silent (to_feed ops (child_place place.url reply (codes "feed")))) }
    ensures live { IfOk result (λ t. in_hand.NextIsLive t.next) }
{
    let feed = leads_on(alloc, place, reply, "feed")?;
    let next = to_feed(alloc, ops, feed)?;
    Ok(silent(alloc, next))
}

// What a reply that is no err gives.
fn taken_at(
    alloc: Global,
    plan: &DialoguePlan,
    stage: Stage,
    reply: Obj,
) -> Result<Outcome, AllocError>
    requires { in_hand.IsLive stage }
    ensures value { IfOk result (λ t. in_hand.taken t ≡ taken_at plan.now (in_hand.stage stage) reply) }
    ensures live { IfOk result (λ t. in_hand.NextIsLive t.next) }
{
    match stage {
        Stage::Lobby(place) => on_lobby(alloc, place, reply),
        Stage::Service(place) => on_service(alloc, place, reply),
        Stage::Make(place) => on_make(alloc, plan, place, reply),
        Stage::Subject(ops, place) => on_subject(alloc, ops, place, reply),
        Stage::Add(watching) => on_add(alloc, plan, watching, reply),
        Stage::Ack(watching, _, _) => Ok(silent(alloc, Some(onward(plan, watching)))),
        Stage::Poll(watching) => on_changes(alloc, plan, watching, reply),
        Stage::Mend(watching) => on_refresh(alloc, plan, watching, reply),
        Stage::Delete(_) => Ok(silent(alloc, Some(Stage::Over))),
        Stage::Over => Ok(silent(alloc, Some(Stage::Over))),
    }
}

/// What a reply gives at a stage. An error only for want of memory.
#[tactic(auto, unfolding(crate::specs::Taking::taken))]
pub(crate) fn taken(
    alloc: Global,
    plan: &DialoguePlan,
    stage: Stage,
    reply: Obj,
) -> Result<Outcome, AllocError>
    requires { in_hand.IsLive stage }
    ensures value { IfOk result (λ t. in_hand.taken t ≡ taken plan.now (in_hand.stage stage) reply) }
    ensures live { IfOk result (λ t. in_hand.NextIsLive t.next) }
{
    if reply.kind().same(Kind::Err) {
        return Ok(Outcome {
            lines: Vec::new(alloc),
            next: Err(Peer::Err(reply)),
        });
    }
    taken_at(alloc, plan, stage, reply)
}
