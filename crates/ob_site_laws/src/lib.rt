//! The laws of the watches of the whole site, over every legal history of calls from any sound state.
//!
//! Each function states a law by its contract and does nothing. What a legal history is, is said by
//! `ob_machine`; the site's step by `ob_site_rules` (`specs/Sites.antt`); the layer of watches, and what a
//! client holds that replays their replies, by `ob_watching`. That the whole site is such a site as the laws
//! ask for is proved in `proofs/Lawful.antt`.
#![tactic(auto)]

ghost use Rattle.ob_site_laws.specs.SinceRows.{NoneWithoutItsAlarm, OneIsLacking, PassesNone};
ghost use Rattle.ob_site_laws.specs.SiteLaws.{ClientsHold, ClientsHoldAll, ClientsHoldAllSince, ClientsHoldEach, GoneForGood, OthersStay, Stays};

/// After each answered poll a client that has replayed the replies on the watch, from its make on or from
/// any pollRefresh on, holds what is watched: the same hrefs in the same order, each object as it is shown
/// with its inherited parts, each kept event of a feed once, and what rolled off unreported counted.
///
/// Where no event of its feeds rolled off since they were given whole, what it holds equals as a list what a
/// pollRefresh would give. Source: oBIX 1.1, chapter Watches; rolling feeds are this project's own.
pub fn watch_replay(watch: u64)
    ensures { ClientsHold watch }
{}

/// Where the feeds of the watch are those of histories without a capacity, or of alarms, what the client
/// holds after each answered poll equals, as a list, what a pollRefresh would give.
pub fn watch_replay_whole(watch: u64)
    ensures { ClientsHoldAll watch }
{}

/// The same of each item by itself: each object, each feed of a history without a capacity and each feed of alarms is
/// held, after each answered poll, as a pollRefresh would give it, whatever other feeds of the watch have lost.
pub fn watch_replay_each(watch: u64)
    ensures { ClientsHoldEach watch }
{}

/// Of each feed of the watch, of a history or of alarms, whose filter has neither a start nor an end: the events that the
/// client holds after each answered poll and those that it was told to have missed are together as many as the feed has
/// had since an add or a pollRefresh last gave it whole.
pub fn watch_replay_since(watch: u64)
    ensures { ClientsHoldAllSince watch }
{}

/// Worked rows: of two events of the alarms since, who holds one and has missed none doesn't hold the feed; an event of an
/// alarm that isn't there is told by no alarms, and no filter passes it.
pub fn since_rows()
    ensures one_is_lacking { OneIsLacking }
    ensures none_without_its_alarm { NoneWithoutItsAlarm }
    ensures passes_none { PassesNone }
{}

/// A watch that was deleted, lapsed or gave way never comes back, its number isn't given again, and each later
/// request for it is answered with BadUriErr or for want of memory.
///
/// Source: oBIX 1.1, chapter Watches (Watch.lease, Watch.delete).
pub fn watch_gone(watch: u64)
    ensures { GoneForGood watch }
{}

/// A request for this watch leaves every other watch as it was, but an answered one drops those that have
/// lapsed.
pub fn others_stay(watch: u64)
    ensures { OthersStay watch }
{}

/// Every state that a history leads to from a sound one is sound, and its plan is the same.
pub fn sound_stays()
    ensures { Stays }
{}
