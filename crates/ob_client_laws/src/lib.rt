//! What a client holds that is given the site's replies on a watch: the mirror and the laws of watches together.
//!
//! A mirror answers each reply by the definition of replay, and the laws say what the replies of every legal history replay
//! to; so what the mirror holds is what is watched (`specs/Hearing.antt`), and it refuses none of them. The functions do
//! nothing.
#![tactic(auto)]

ghost use Rattle.ob_client_laws.specs.Counting.{CountsStay, OpensCounted};
ghost use Rattle.ob_client_laws.specs.Hearing.{MirrorRefusesNone, MirrorsHold, MirrorsHoldAll};
ghost use Rattle.ob_client_laws.specs.Storing.{OpenedStoresFew, StoredStays};

use ob_site_laws::{sound_stays, watch_replay, watch_replay_whole};
use ob_step_laws as opened;

/// The events of each feed stay at most so many as a mirror counts, whatever is asked of the site.
pub fn counts_stay()
    ensures { CountsStay }
{}

/// In every site that a document of fewer than 2^63 parts opens, they are.
pub fn opens_counted()
    ensures { OpensCounted }
{
    opened::opens_counted();
    opened::opens_consistent();
}

/// No more than 1,000,000 records and alarm events stay stored, whatever is asked of the site: a history with a capacity
/// counts for that.
pub fn stored_stays()
    ensures { StoredStays }
{}

/// In every site that a document opens, and whatever is asked of it, they are no more.
pub fn opened_stores_few()
    ensures { OpenedStoresFew }
{
    opened::opens_ordered();
}

/// A mirror that heard the replies on a watch, from its make on or from any pollRefresh on, takes the next WatchOut on it,
/// or has no memory for it: it refuses none, as of another shape or as stale.
///
/// Source: oBIX 1.1, chapter 12 (Watches); rolling feeds are this project's own.
pub fn mirror_refuses_none(watch: u64)
    ensures { MirrorRefusesNone watch }
{
    watch_replay(watch);
    sound_stays();
}

/// A mirror that is handed each WatchOut on a watch, and has memory for it, and is told each remove that was done, from the
/// watch's make on or from any pollRefresh on, holds after each answered poll what is watched: the same hrefs in the same
/// order, each object as it is shown with its inherited parts, each kept event of a feed once, and what rolled off
/// unreported counted.
///
/// Source: oBIX 1.1, chapter 12 (Watches); rolling feeds are this project's own.
pub fn mirror_holds(watch: u64)
    ensures { MirrorsHold watch }
{
    watch_replay(watch);
    sound_stays();
}

/// Where the feeds of the watch are those of histories without a capacity, or of alarms, what the mirror holds equals, as a
/// list, what a pollRefresh would give.
pub fn mirror_holds_whole(watch: u64)
    ensures { MirrorsHoldAll watch }
{
    watch_replay(watch);
    watch_replay_whole(watch);
    sound_stays();
}
