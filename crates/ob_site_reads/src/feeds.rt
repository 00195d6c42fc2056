//! Feeds as watches report them.
ghost use Rattle.std.specs.Prelude.{◌≡◌, ◌<◌, ◌^◌, ◌-◌, ℕ, drop, map, true, is_none, option_to_list, IfOk};
ghost use Rattle.std.specs.List.{filter, list_all};
ghost use Rattle.ob_watch.specs.Feeds.{feed_of, feed_place};
ghost use Rattle.ob_watching.specs.Watches.{content_now, changes_of, Feed};
ghost use Rattle.ob_site_rules.specs.Build.{Text as Href};
ghost use Rattle.ob_site_rules.specs.Locating.{locate};
ghost use Rattle.ob_site_rules.specs.Replies.{content_object};
ghost use Rattle.ob_site_rules.specs.Sites.{site};
ghost use Rattle.ob_site_rules.specs.Watched.{passes, events_at, gone_at};
ghost use Rattle.ob_site_reads.specs.Events.{feed_of_some};

use crate::event_place;
use crate::events::{alarm_events, log_events};
use ob_history::Filter;
use ob_object::Obj;
use ob_replies::{feed_entry, feed_there};
use ob_site_rules::{Plan, Resource};
use ob_site_state::State;
use ob_values::Text;
use std::alloc::{AllocError, Global};

/// What is asked of a feed: events that pass a filter, behind the first so many ever, those that rolled off counted.
#[derive(Clone, Copy)]
pub struct Since {
    pub filter: Filter,
    pub given: u64,
}

/// The events of a feed that are asked for.
fn events_since(
    state: &State,
    place: &Option<Resource>,
    since: &Since,
) -> Result<Vec<Obj>, AllocError>
    ensures { IfOk result (λ events. events.items ≡ filter (passes since.now.filter) (drop (since.now.given - gone_at state.now.now place.now) (events_at state.now.plan state.now.now place.now))) }
{
    match place {
        Some(Resource::FeedOf(history)) => match state.log_at(history) {
            Some(log) => log_events(state.allocator(), log, &since.filter, since.given),
            None => Ok(Vec::new(state.allocator())),
        },
        Some(Resource::AlarmFeed) => alarm_events(
            state.allocator(),
            state.alarms(),
            &since.filter,
            since.given,
        ),
        _ => Ok(Vec::new(state.allocator())),
    }
}

/// How many events of a feed rolled off; alarm events don't.
fn gone_at(state: &State, place: &Option<Resource>) -> u64
    ensures value { result ≡ gone_at state.now.now place.now }
    ensures bounded { result < 2 ^ 63 }
{
    match place {
        Some(Resource::FeedOf(history)) => match state.log_at(history) {
            Some(log) => {
                let _counted = log.len();
                log.gone()
            }
            None => 0,
        },
        _ => 0,
    }
}

/// The number of the feed of a place, if it is one.
fn feed_of(state: &State, place: &Resource) -> Option<usize>
    ensures { result ≡ feed_of state.now.plan place.now }
{
    match place {
        Resource::FeedOf(history) => state.history_at(history),
        Resource::AlarmFeed => Some(state.plan().histories.as_slice().len()),
        _ => None,
    }
}

/// The number of the feed at a path, as watches have it, if a feed stands there. An error only for want of memory.
pub fn feed_place(state: &State, path: &Text) -> Result<Option<usize>, AllocError>
    ensures { IfOk result (λ feed. feed ≡ feed_place state.now.plan path.now) }
{
    match event_place(state, path)? {
        Some(place) => Ok(feed_of(state, &place)),
        None => Ok(None),
    }
}

/// A feed with all kept events that pass a filter. An error only for want of memory.
///
/// Source: oBIX 1.1, chapter 12 (Watch.pollRefresh).
#[tactic(auto, using(crate::proofs::Nameless::some_nameless))]
pub fn whole_feed(state: &State, path: &Text, filter: &Filter) -> Result<Obj, AllocError>
    ensures { IfOk result (λ o. (given : ℕ) → o ≡ content_object (content_now (site locate state.now.plan) state.now.now path.now (Feed filter.now given))) }
{
    let place = event_place(state, path)?;
    let all = Since {
        filter: *filter,
        given: 0,
    };
    let events = events_since(state, &place, &all)?;
    let feed = feed_there(state.allocator(), state.plan(), path)?;
    feed_entry(state.allocator(), &feed, 0, events)
}

/// A feed with events, if there are some or some rolled off unreported.
fn feed_if_some(
    alloc: Global,
    plan: &Plan,
    path: &Text,
    dropped: u64,
    events: Vec<Obj>,
) -> Result<Option<Obj>, AllocError>
    requires nameless { list_all (λ o. is_none o.head.name) events.items ≡ true }
    requires counted { dropped < 2 ^ 63 }
    ensures { IfOk result (λ o. o ≡ feed_of_some plan.now path.now dropped events.items) }
{
    if dropped == 0 && events.is_empty() {
        return Ok(None);
    }
    let feed = feed_there(alloc, plan, path)?;
    let object = feed_entry(alloc, &feed, dropped, events)?;
    Ok(Some(object))
}

/// A feed with its passing events since so many were given, if there are some or some rolled off unreported. An
/// error only for want of memory.
///
/// Source: oBIX 1.1, chapter 12 (Watch.pollChanges).
pub fn feed_since(state: &State, path: &Text, since: &Since) -> Result<Option<Obj>, AllocError>
    ensures { IfOk result (λ o. (text : Href) → option_to_list o ≡ map (λ r. content_object r.content) (changes_of (site locate state.now.plan) state.now.now text path.now (Feed since.now.filter since.now.given))) }
{
    let place = event_place(state, path)?;
    let dropped = gone_at(state, &place).saturating_sub(since.given);
    let events = events_since(state, &place, since)?;
    feed_if_some(state.allocator(), state.plan(), path, dropped, events)
}
