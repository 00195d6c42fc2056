//! The feeds of a site, as watches look at them: told by the logs of its histories and by its alarms, which alone count
//! their events.
ghost use Rattle.std.specs.Prelude.{◌≡◌, ◌-◌, drop, map};
ghost use Rattle.std.specs.List.{list_any};
ghost use Rattle.ob_site_rules.specs.Entries.{is_within};
ghost use Rattle.ob_site_state.specs.Feeds.{event_time};

use crate::State;
use ob_alarms::Alarms;
use ob_history::{Filter, Log, Query, Stretch, first_time};
use ob_watch::Feeds;

/// Whether a log keeps a record from an event number on that a filter passes, by two searches by halves.
fn has_passing(log: &Log, given: u64, filter: &Filter) -> bool
    ensures { result ≡ list_any (is_within filter.now) (drop (given - log.now.gone) (map (λ r. r.time) log.now.kept)) }
{
    let one = Filter {
        limit: 1,
        start: filter.start,
        end: filter.end,
    };
    let Stretch {
        first: _,
        front,
        back,
    } = log.query(&Query {
        filter: one,
        from: Some(given),
    });
    first_time(front, back).is_some()
}

/// Whether an alarm event from a number on is of an alarm that was raised at a time that a filter passes.
fn has_raised(alarms: &Alarms, given: u64, filter: &Filter) -> bool
    ensures { result ≡ list_any (is_within filter.now) (drop given (map (event_time alarms.now.alarms) alarms.now.events)) }
{
    alarms.events_law();
    alarms.any_since(given, &filter.start, &filter.end)
}

impl Feeds for State {
    ghost use Rattle.ob_site_state.specs.Feeds.{feed_logs};

    ghost logs = { λ k. feed_logs k.now };

    fn ever(&self, feed: usize) -> u64 {
        if feed < self.histories() {
            return self.events_ever(feed);
        }
        if feed == self.histories() {
            self.alarms().events(0).len() as u64
        } else {
            0
        }
    }

    fn gone(&self, feed: usize) -> u64 {
        if feed < self.histories() {
            self.log(feed).gone()
        } else {
            0
        }
    }

    fn passes_since(&self, feed: usize, given: u64, filter: &Filter) -> bool {
        if feed < self.histories() {
            return has_passing(self.log(feed), given, filter);
        }
        if feed == self.histories() {
            has_raised(self.alarms(), given, filter)
        } else {
            false
        }
    }
}

impl State {
    ghost use Rattle.ob_site_state.specs.Feeds.{AreFeeds};

    /// A law: the feed of each place is the one that the site's definitions have at its path, by how many events rolled off
    /// and by which of the kept ones pass a filter.
    ///
    /// Source: oBIX 1.1, chapters 12 (Watches), 14 (History) and 15 (Alarming).
    pub fn feeds_law(&self)
        ensures { AreFeeds self.now.plan self.now.now }
    {
        self.sound_law();
        self.alarms().events_law();
    }
}
