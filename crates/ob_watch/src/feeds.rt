//! The feeds of a site, as watches look at them.
ghost use Rattle.std.specs.Prelude.{◌≡◌};

use ob_history::Filter;

/// The feeds of a site by their numbers from 0: those of the histories in the plan's order, and that of the alarm subject after
/// them. A feed keeps its youngest events, and counts each from its first event ever.
///
/// Source: oBIX 1.1, chapters 14 (Histories) and 15 (Alarming).
pub trait Feeds {
    ghost use Rattle.std.specs.Prelude.{List};
    ghost use Rattle.ob_watch.specs.Feeds.{FeedLog, ever, feed_at, passes_since};

    ghost logs: { Self → List FeedLog };

    /// How many events a feed has had ever; 0 where there is no such feed.
    fn ever(&self, feed: usize) -> u64
        ensures { result ≡ ever (feed_at (logs self.now) feed) };

    /// How many events of a feed rolled off; 0 where there is no such feed.
    fn gone(&self, feed: usize) -> u64
        ensures { result ≡ (feed_at (logs self.now) feed).gone };

    /// Whether a kept event from a number on passes a filter, by its timestamp.
    fn passes_since(&self, feed: usize, given: u64, filter: &Filter) -> bool
        ensures { result ≡ passes_since (feed_at (logs self.now) feed) given filter.now };
}
