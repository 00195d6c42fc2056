//! What lasts of the whole site when its process ends, and its laws over restarts.
//!
//! Each function states a law by its contract and does nothing. What lasts, what a restart leaves, what a record keeps and
//! what a history of several runs is, are said by ob_lasting of any site; `specs/SiteLasting.antt` says them of the site of
//! ob_site_rules.
#![tactic(auto)]

ghost use Rattle.ob_site_lasting.specs.SiteLasting.{EachRunKeepsWatches, GoneOverRestarts, IsSiteRestartOf, ReadsLeaveAll, SiteCutOff, SiteDoneAgain, SiteDoneAgainFurther, SiteIsApart, SiteRecordGoesOn, SiteRecordLasts, WatchesLeaveAll};

/// What a request leaves of a site doesn't depend on which watches stand: in a batch an item for a watch is refused, whether the
/// watch stands or not.
pub fn site_is_apart()
    ensures { SiteIsApart }
{}

/// A step done again after a restart, at the time that the site had at it, leaves the same tree, library, logs, alarms and
/// events, the same number of the next watch and the same time; unless it was a make that was refused.
pub fn done_again()
    ensures { SiteDoneAgain }
{}

/// A step done again after any restart, also one that passes over numbers of watches, leaves a restart of what it left.
pub fn done_again_further()
    ensures { SiteDoneAgainFurther }
{}

/// A read, and any request for a watch, leaves the site as it was, and the number of the next watch: a record may leave it out.
pub fn left_out()
    ensures reads { ReadsLeaveAll }
    ensures watches { WatchesLeaveAll }
{}

/// A record of a history, replayed from a restart of where the history began, leads to a restart of where it ended.
pub fn record_lasts()
    ensures { SiteRecordLasts }
{}

/// The next run of the site may start in the state that the record of this one leads to, also where the record has a note of a
/// request that was never answered.
pub fn record_goes_on()
    ensures { SiteRecordGoesOn }
{}

/// A history with restarts that is cut off at any place of a run is one, whatever request was on its way: a process may be killed
/// at any moment.
pub fn cut_off()
    ensures { SiteCutOff IsSiteRestartOf }
{}

/// In each run of a history with restarts that begins in a sound state the laws of watches hold.
pub fn each_run_keeps_watches()
    ensures { EachRunKeepsWatches IsSiteRestartOf }
{}

/// A watch that was made in some run is gone in every later one: no make answers with its number, and each request for it is
/// answered with BadUriErr or for want of memory. Where it was gone in its own run it stays so there.
///
/// Source: oBIX 1.1, chapter Watches; what a restart keeps is this project's own.
pub fn watch_gone(watch: u64)
    ensures { GoneOverRestarts IsSiteRestartOf watch }
{}
