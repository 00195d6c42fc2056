//! Watches over any site: their state and their step, and their laws over every legal history.
//!
//! A site is a record of parameters (`specs/Sites.antt`); watches are a layer over it
//! (`specs/Watches.antt`), and the laws (`specs/Laws.antt`) are proved once, for any site that is lawful
//! (`proofs/Laws.antt`). The functions here state them of a small closed site (`specs/Small.antt`), with
//! worked rows (`specs/Rows.antt`); they do nothing. What a client holds is defined of no site: what it reads in
//! a reply by its shape (`specs/WatchOuts.antt`), and what a reply makes of what it held (`specs/Replay.antt`).
#![tactic(auto)]

ghost use Rattle.ob_watching.specs.HeardRows.{ByItsShape, DroppedInAdd, DroppedInChanges, DroppedInRefresh, ErrHeld, ErrInAdd, ErrInChanges, GoesOn, NoHref, NotAnotherKind, NotByItsContract, NotRemoved, RemovedByAny, WithoutNames};
ghost use Rattle.ob_watching.specs.Laws.{LeavesOthers, WatchReplays, WatchStaysGone};
ghost use Rattle.ob_watching.specs.Rows.{AddedAnew, AfterNoMemory, BackInOneBatch, BytesGive, DeletedIsGone, DroppedAlone, DroppedIsTold, EventOnce, FirstGives, FirstOfEqual, FromThen, HeldAfterRolling, IdlestGives, LapsesThen, LastMoment, LastNumber, LastOfBatch, MoreGive, NextNumber, NoNumber, NoneGives, NotByOthers, NotInABatch, NotOneByteMore, NotOneInAll, NotOneItemMore, NotOneMore, NothingNew, OnceTheyLapsed, OthersStand, RenewedByOwn, RolledAfterTold, RoomAfterRemove, RoomForAll, StillMarked, ThenNothing, ThereAndBack, TimeStays, TouchedAtLatest, UntoldIsNotHeld};
ghost use Rattle.ob_watching.specs.Small.{small};

/// After each answered poll a client that has replayed the replies on the watch, from its make on or from
/// any pollRefresh on, holds what is watched: the same hrefs in the same order, each object as it is shown,
/// each kept event of a feed once, and what rolled off unreported counted. What it holds of an item of which
/// nothing rolled off since it was given whole is what a pollRefresh would give, whatever becomes of the others;
/// and each event that it holds or that the filter held back is one that the feed had.
///
/// Source: oBIX 1.1, chapter Watches; rolling feeds are this project's own.
pub fn watch_replay(watch: u64)
    ensures { WatchReplays small watch }
{}

/// A watch that was deleted or has lapsed never comes back, its number isn't given again, and each later
/// request for it is answered with BadUriErr or for want of memory.
///
/// Source: oBIX 1.1, chapter Watches (Watch.lease, Watch.delete).
pub fn watch_gone(watch: u64)
    ensures { WatchStaysGone small watch }
{}

/// A request for this watch leaves every other watch as it was, but drops those that have lapsed.
pub fn others_stay(watch: u64)
    ensures { LeavesOthers small watch }
{}

/// Worked rows, each a reply that is computed from the definitions.
pub fn worked_rows()
    ensures there_and_back { ThereAndBack }
    ensures still_marked { StillMarked }
    ensures nothing_new { NothingNew }
    ensures back_in_one_batch { BackInOneBatch }
    ensures last_of_batch { LastOfBatch }
    ensures last_moment { LastMoment }
    ensures lapses_then { LapsesThen }
    ensures renewed_by_own { RenewedByOwn }
    ensures not_by_others { NotByOthers }
    ensures others_stand { OthersStand }
    ensures time_stays { TimeStays }
    ensures touched_at_latest { TouchedAtLatest }
    ensures next_number { NextNumber }
    ensures deleted_is_gone { DeletedIsGone }
    ensures event_once { EventOnce }
    ensures added_anew { AddedAnew }
    ensures then_nothing { ThenNothing }
    ensures from_then { FromThen }
    ensures first_of_equal { FirstOfEqual }
    ensures not_in_a_batch { NotInABatch }
    ensures dropped_is_told { DroppedIsTold }
    ensures rolled_after_told { RolledAfterTold }
    ensures dropped_alone { DroppedAlone }
    ensures held_after_rolling { HeldAfterRolling }
    ensures after_no_memory { AfterNoMemory }
    ensures last_number { LastNumber }
    ensures no_number { NoNumber }
    ensures not_one_more { NotOneMore }
    ensures once_they_lapsed { OnceTheyLapsed }
    ensures not_one_item_more { NotOneItemMore }
{}

/// Worked rows of the bounds over all watches, and of those that give way to a new one.
pub fn bound_rows()
    ensures not_one_in_all { NotOneInAll }
    ensures room_after_remove { RoomAfterRemove }
    ensures not_one_byte_more { NotOneByteMore }
    ensures idlest_gives { IdlestGives }
    ensures first_gives { FirstGives }
    ensures more_give { MoreGive }
    ensures none_gives { NoneGives }
    ensures room_for_all { RoomForAll }
    ensures bytes_give { BytesGive }
{}

/// An event that rolled off and was told to nobody can't be made up for by one that the filter holds back.
pub fn untold()
    ensures { UntoldIsNotHeld }
{}

/// Worked rows of what a client reads in a reply, by its shape alone, and of what it holds then.
pub fn heard_rows()
    ensures by_its_shape { ByItsShape }
    ensures not_by_its_contract { NotByItsContract }
    ensures not_another_kind { NotAnotherKind }
    ensures no_href { NoHref }
    ensures without_names { WithoutNames }
    ensures dropped_in_changes { DroppedInChanges }
    ensures dropped_in_refresh { DroppedInRefresh }
    ensures dropped_in_add { DroppedInAdd }
    ensures goes_on { GoesOn }
    ensures err_held { ErrHeld }
    ensures err_in_add { ErrInAdd }
    ensures err_in_changes { ErrInChanges }
    ensures removed_by_any { RemovedByAny }
    ensures not_removed { NotRemoved }
{}
