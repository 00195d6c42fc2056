//! Feeds, as watches report them.
ghost use Rattle.std.specs.Prelude.{◌≡◌, ◌<◌, ◌^◌, IfOk, true, is_none};
ghost use Rattle.std.specs.List.{list_all};
ghost use Rattle.ob_watching.specs.Operations.{Lists};
ghost use Rattle.ob_site_rules.specs.Watched.{is_alarm_feed, feed_there};
ghost use Rattle.ob_site_rules.specs.Replies.{content_object, dropped_child};

use crate::build::{put, valued, whole};
use crate::contract::Contract;
use crate::paths::below;
use ob_object::{Attributes, Kind, Obj, Slot};
use ob_site_rules::Plan;
use ob_values::{Text, Value};
use std::alloc::{AllocError, Global};

/// Whether a path is that of the alarm subject's feed.
fn is_alarm_feed(alloc: Global, plan: &Plan, path: &Text) -> Result<bool, AllocError>
    ensures { IfOk result (λ is. is ≡ is_alarm_feed plan.now path.now) }
{
    match &plan.subject {
        Some(subject) => {
            let feed = below(alloc, subject, "feed")?;
            Ok(feed.as_str() == path.as_str())
        }
        None => Ok(false),
    }
}

/// The feed at a path, without its events: that of the alarm subject, or else of a history.
///
/// Source: oBIX 1.1, chapters 14 (History) and 15 (AlarmSubject).
pub fn feed_there(alloc: Global, plan: &Plan, path: &Text) -> Result<Obj, AllocError>
    ensures { IfOk result (λ o. o ≡ feed_there plan.now path.now) }
{
    let contract = if is_alarm_feed(alloc, plan, path)? {
        Contract::Alarm
    } else {
        Contract::HistoryRecord
    };
    let of = contract.words(alloc)?;
    let mut head = Attributes::empty(alloc, Kind::Feed);
    if head.put_of(Some(of)).is_err() {
        return Err(AllocError);
    }
    Ok(Obj::from_attributes(alloc, head))
}

/// The child that tells how many events rolled off unreported, if there are any.
fn dropped_child(alloc: Global, dropped: u64) -> Result<Vec<Obj>, AllocError>
    requires { dropped < 2 ^ 63 }
    ensures { IfOk result (λ os. os.items ≡ dropped_child dropped) }
{
    let mut children = Vec::new(alloc);
    if dropped == 0 {
        return Ok(children);
    }
    let number = Slot::Is(Value::Int(dropped as i64));
    put(&mut children, valued(alloc, Kind::Int, "dropped", number)?)?;
    Ok(children)
}

/// A feed with some events, which have no names, and behind how many that rolled off unreported: those
/// are told by a first child `dropped`, if there are any.
///
/// Source: oBIX 1.1, chapter 12 (Watches: feeds); `dropped` is this profile's own.
#[tactic(auto, using(crate::proofs::Nameless::events_new))]
pub fn feed_entry(
    alloc: Global,
    feed: &Obj,
    dropped: u64,
    mut events: Vec<Obj>,
) -> Result<Obj, AllocError>
    requires nameless { list_all (λ o. is_none o.head.name) events.items ≡ true }
    requires counted { dropped < 2 ^ 63 }
    ensures { IfOk result (λ o. o ≡ content_object (Lists feed.now dropped events.items)) }
{
    let head = feed.head().copy()?;
    let mut children = dropped_child(alloc, dropped)?;
    children.append(&mut events)?;
    Ok(whole(head, children))
}
