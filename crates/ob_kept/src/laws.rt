//! Laws of histories with restarts, as the contracts of functions that do nothing.
ghost use Rattle.ob_kept.specs.Fronts.{EachFrontIsKept};
ghost use Rattle.ob_kept.specs.Restarting.{EachRunKeeps, GoneLater, RestartsKeepNumbers};

/// A restart, also one that opens the site file anew while nothing has come to last, starts in a sound state without watches, and
/// gives no number of a watch again.
pub fn restarts_keep_numbers()
    ensures { RestartsKeepNumbers }
{}

/// In each run of a history with restarts that begins in a sound state the laws of watches hold.
pub fn each_run_keeps_watches()
    ensures { EachRunKeeps }
{}

/// A watch that was made in some run is gone in every later one: no make answers with its number, and each request for it is
/// answered with BadUriErr or for want of memory.
///
/// Source: oBIX 1.1, chapter Watches; what a restart keeps is this project's own.
pub fn watch_gone(watch: u64)
    ensures { GoneLater watch }
{}

/// The states that a site which is kept has been in since it was opened are those in which its calls found it: one for each call
/// that was done.
pub fn each_front_is_kept()
    ensures { EachFrontIsKept }
{}
