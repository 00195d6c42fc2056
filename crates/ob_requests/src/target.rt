//! Whom a request is for.
ghost use Rattle.std.specs.Prelude.{◌≡◌, IfOk};
ghost use Rattle.std.specs.Str.{bytes_eq};
ghost use Rattle.ob_site_rules.specs.Paths.{make_path, watch_part};
ghost use Rattle.ob_site_rules.specs.Watched.{call_of_watch, operation, put_to_watch, target_at, target_part};
ghost use Rattle.ob_requests.specs.Targets.{IsTarget, operation_of};

use crate::asked::{WatchInItem, asked_by, texts_of};
use crate::paths::{OfWatch, behind, is_text, watch_part};
use ob_object::Obj;
use ob_site_rules::{Fault, Plan, Request, WatchPart};
use ob_values::{Text, Verb};
use std::alloc::{AllocError, Global};

/// What is asked of a watch: to look at it or a part of it, another lease, hrefs to add, each with what
/// stands beside it, hrefs to remove, a poll, its end. `Refuse` is a request that is refused as it stands.
///
/// Source: oBIX 1.1, chapter 12 (Watches).
#[derive(Drop)]
pub enum Operation {
    Look(WatchPart),
    Renew(Option<Obj>),
    Add(Vec<WatchInItem>),
    Remove(Vec<Text>),
    PollChanges,
    PollRefresh,
    Delete,
    Refuse(Fault),
}

/// Whom a request is for: the site apart from its watches, nothing, the watch service, the watch of a
/// number, or a watch whose number no watch has.
#[derive(Drop)]
pub enum Target {
    Itself,
    Nowhere,
    NewWatch,
    OneWatch(u64, Operation),
    Beyond,
}

// A copy of an input.
fn copy_input(input: &Option<Obj>) -> Result<Option<Obj>, AllocError>
    ensures { IfOk result (λ copy. copy ≡ input.now) }
{
    match input {
        Some(input) => {
            let copy = input.copy()?;
            Ok(Some(copy))
        }
        None => Ok(None),
    }
}

// Watch.add or a refusal.
fn add(alloc: Global, input: &Option<Obj>) -> Result<Operation, AllocError>
    ensures { IfOk result (λ asks. operation_of asks ≡ call_of_watch WatchPart.Add input.now) }
{
    match asked_by(alloc, input)? {
        Some(asked) => Ok(Operation::Add(asked)),
        None => Ok(Operation::Refuse(Fault::OtherShape)),
    }
}

// Watch.remove or a refusal.
fn remove(alloc: Global, input: &Option<Obj>) -> Result<Operation, AllocError>
    ensures { IfOk result (λ asks. operation_of asks ≡ call_of_watch WatchPart.Remove input.now) }
{
    match asked_by(alloc, input)? {
        Some(asked) => {
            let texts = texts_of(alloc, &asked)?;
            Ok(Operation::Remove(texts))
        }
        None => Ok(Operation::Refuse(Fault::OtherShape)),
    }
}

// Invoke of the op of a watch.
fn call_of_watch(
    alloc: Global,
    part: WatchPart,
    input: &Option<Obj>,
) -> Result<Operation, AllocError>
    ensures { IfOk result (λ asks. operation_of asks ≡ call_of_watch part input.now) }
{
    match part {
        WatchPart::Add => add(alloc, input),
        WatchPart::Remove => remove(alloc, input),
        WatchPart::PollChanges => Ok(Operation::PollChanges),
        WatchPart::PollRefresh => Ok(Operation::PollRefresh),
        WatchPart::Delete => Ok(Operation::Delete),
        WatchPart::Whole | WatchPart::Lease => Ok(Operation::Refuse(Fault::NotSupported)),
    }
}

// Write to the lease of a watch; nothing else of it is written.
fn put_to_watch(part: WatchPart, input: &Option<Obj>) -> Result<Operation, AllocError>
    ensures { IfOk result (λ asks. operation_of asks ≡ put_to_watch part input.now) }
{
    match part {
        WatchPart::Lease => {
            let input = copy_input(input)?;
            Ok(Operation::Renew(input))
        }
        _ => Ok(Operation::Refuse(Fault::NotSupported)),
    }
}

// What a request asks of a part of a watch.
fn asks_of(
    alloc: Global,
    verb: Verb,
    part: WatchPart,
    input: &Option<Obj>,
) -> Result<Operation, AllocError>
    ensures { IfOk result (λ asks. operation_of asks ≡ operation verb part input.now) }
{
    match verb {
        Verb::Get => Ok(Operation::Look(part)),
        Verb::Put => put_to_watch(part, input),
        Verb::Post => call_of_watch(alloc, part, input),
    }
}

// Whether a path is that of the op that makes watches.
fn is_make(plan: &Plan, path: &Text) -> bool
    ensures { result ≡ bytes_eq path.now (make_path plan.now) }
{
    let root = plan.root.as_str().as_bytes();
    match behind(root, path.as_str().as_bytes()) {
        Some(rest) => is_text(rest, b"watchService/make"),
        None => false,
    }
}

// Whom a request is for that makes no watch.
fn target_part(
    alloc: Global,
    plan: &Plan,
    request: &Request,
    path: &Text,
) -> Result<Target, AllocError>
    ensures { IfOk result (λ target. IsTarget target (target_part request.now (watch_part plan.now path.now))) }
{
    match watch_part(plan, path.as_str()) {
        OfWatch::No => Ok(Target::Itself),
        OfWatch::Part(number, part) => {
            let asks = asks_of(alloc, request.verb, part, &request.body)?;
            Ok(Target::OneWatch(number, asks))
        }
        OfWatch::Beyond => Ok(Target::Beyond),
    }
}

/// Whom a request to a path is for.
///
/// Source: oBIX 1.1, chapter 12 (Watches).
pub fn target_at(
    alloc: Global,
    plan: &Plan,
    request: &Request,
    path: &Option<Text>,
) -> Result<Target, AllocError>
    ensures { IfOk result (λ target. IsTarget target (target_at plan.now request.now path.now)) }
{
    let Some(path) = path else {
        return Ok(Target::Nowhere);
    };
    if is_make(plan, path) && request.verb == Verb::Post {
        return Ok(Target::NewWatch);
    }
    target_part(alloc, plan, request, path)
}
