//! One item of a watch.
ghost use Rattle.std.specs.Prelude.{◌≡◌, true};
ghost use Rattle.ob_site_rules.specs.Entries.{is_within};
ghost use Rattle.ob_times.specs.Times.{Instant};
ghost use Rattle.ob_watch.specs.Feeds.{feed_at, has_news};
ghost use Rattle.ob_watch.specs.Items.{changed_by, feed_item, is_due, object_item, stamp_of};
ghost use Rattle.ob_watch.specs.Marked.{is_feed};

use crate::change::Change;
use crate::feeds::Feeds;
use ob_history::Filter;
use ob_tree::{NodeId, Tree};
use ob_values::Text;

/// What is kept of what is watched.
#[derive(Clone, Copy)]
pub enum Tracked {
    /// An object: its place in the tree, and the number of the step after which it was last reported.
    Object {
        node: NodeId,
        mark: u64,
    },
    /// A feed: its number among the feeds of the site; its filter; and how many of its events were reported or passed
    /// over, counted from the first event ever.
    Feed {
        feed: usize,
        filter: Filter,
        given: u64,
    },
}

/// An item of a watch: the href as it was asked, the path that it names, and what is kept of it.
///
/// Source: oBIX 1.1, chapter 12 (Watches).
pub struct Item {
    text: Text,
    path: Text,
    tracked: Tracked,
}

impl Drop for Item {
    // By one call for each part, so that to drop an item is one call to whoever may have to.
    fn drop(self) {
        let Item {
            text,
            path,
            tracked: _,
        } = self;
        drop(text);
        drop(path);
    }
}

/// The number of the last step that changed what is shown at an object; 0 where the tree has no such object.
pub(crate) fn stamp_of(tree: &Tree, node: NodeId) -> u64
    ensures { result ≡ stamp_of tree.now node.number }
{
    if node.number < tree.len() {
        tree.stamp(node)
    } else {
        0
    }
}

/// Whether a filter has no bounds.
#[tactic(auto, using(crate::proofs::NewsLemmas::open_passes))]
fn is_open(filter: &Filter) -> bool
    ensures { result ≡ true → (t : Instant) → is_within filter.now t ≡ true }
{
    filter.start.is_none() && filter.end.is_none()
}

/// Whether something of a feed is to be reported after so many of its events were.
fn has_news<F: Feeds>(feeds: &F, feed: usize, given: u64, filter: &Filter) -> bool
    ensures { result ≡ has_news (feed_at (F.logs feeds.now) feed) given filter.now }
{
    if given >= feeds.ever(feed) {
        return false;
    }
    if is_open(filter) {
        return true;
    }
    given < feeds.gone(feed) || feeds.passes_since(feed, given, filter)
}

impl Item {
    /// An item on an object that is reported after a step.
    pub fn object(text: Text, path: Text, node: NodeId, mark: u64) -> Item
        ensures { result ≡ object_item text path node mark }
    {
        Item {
            text,
            path,
            tracked: Tracked::Object { node, mark },
        }
    }

    /// An item on the feed of a number, of whose events so many are reported.
    pub fn feed(text: Text, path: Text, feed: usize, filter: Filter, given: u64) -> Item
        ensures { result ≡ feed_item text path feed filter given }
    {
        Item {
            text,
            path,
            tracked: Tracked::Feed {
                feed,
                filter,
                given,
            },
        }
    }

    /// The href as it was asked.
    pub fn text(&self) -> &Text
        ensures { result.now ≡ self.now.text }
    {
        &self.text
    }

    /// The path that it names.
    pub fn path(&self) -> &Text
        ensures { result.now ≡ self.now.path }
    {
        &self.path
    }

    /// What is kept of it.
    pub fn tracked(&self) -> &Tracked
        ensures { result.now ≡ self.now.tracked }
    {
        &self.tracked
    }

    /// Whether something of it is to be reported: of an object, whether its stamp in the tree is above its mark; of a feed,
    /// whether events rolled off before they were reported, or a kept one passes.
    pub fn is_due<F: Feeds>(&self, tree: &Tree, feeds: &F) -> bool
        ensures { result ≡ is_due tree.now (F.logs feeds.now) self.now }
    {
        match &self.tracked {
            Tracked::Object { node, mark } => *mark < stamp_of(tree, *node),
            Tracked::Feed {
                feed,
                filter,
                given,
            } => has_news(feeds, *feed, *given, filter),
        }
    }

    /// Whether it is on a feed.
    pub(crate) fn is_on_feed(&self) -> bool
        ensures { result ≡ is_feed self.now.tracked }
    {
        match &self.tracked {
            Tracked::Object { node: _, mark: _ } => false,
            Tracked::Feed {
                feed: _,
                filter: _,
                given: _,
            } => true,
        }
    }

    /// Changes what is kept of it.
    pub(crate) fn change<C: Change>(&mut self, change: &C)
        ensures { self.new ≡ changed_by (C.made change.now) self.old }
    {
        change.make(&mut self.tracked);
    }
}
