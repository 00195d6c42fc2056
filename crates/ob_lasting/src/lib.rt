//! What lasts of a site when its process ends, and the laws of a site that is restarted.
//!
//! `specs/Lasting.antt` says what lasts of a state and what a restart leaves, `specs/Records.antt` what a record of a
//! history keeps and gives when it is replayed, and `specs/Runs.antt` what a history of several runs is, of any machine.
//! The laws (`specs/LastingLaws.antt`) are proved once, for any site of ob_watching that is lawful and in which it makes no
//! difference to the site which watches stand. The functions here state them of the small closed site of ob_watching, with
//! worked rows (`specs/LastingRows.antt`); they do nothing.
#![tactic(auto)]

ghost use Rattle.ob_watching.specs.Small.{small};
ghost use Rattle.ob_lasting.specs.Lasting.{DoneAgain, DoneAgainFurther};
ghost use Rattle.ob_lasting.specs.LastingLaws.{CutOff, LeavesNext, LeavesSite, RecordGoesOn, RecordLasts};
ghost use Rattle.ob_lasting.specs.LastingRows.{AgainAtItsTime, AnsweredIsNotLost, AtItsTime, DayReplayed, DaysNotes, InABatchAfter, InABatchBefore, IsTheDaysRecord, LostWasDone, LostWasNotDone, MadeWithoutThem, NextOne, NoWatchStands, NumbersPassedOver, RefusedAtAThousand, StillRecorded, StillWritten};

/// A step done again after a restart, at the time that the site had at it, leaves the same site, the same number of the next
/// watch and the same time; unless it was a make that was refused where the most watches stood.
pub fn done_again()
    ensures { DoneAgain small }
{}

/// A step done again after any restart, also one that passes over numbers of watches, leaves a restart of what it left.
pub fn done_again_further()
    ensures { DoneAgainFurther small }
{}

/// A request for a watch, or for nothing, leaves the site as it was, and so does one of the site's own that changes nothing;
/// only a make changes the number of the next watch. So a record may leave them out.
pub fn left_out()
    ensures site { LeavesSite small }
    ensures next { LeavesNext small }
{}

/// A record of a history, replayed from a restart of where the history began, leads to a restart of where it ended.
pub fn record_lasts()
    ensures { RecordLasts small }
{}

/// The next run may start in the state that the record of this one leads to, also where the record has a note of a request that
/// was never answered.
pub fn record_goes_on()
    ensures { RecordGoesOn small }
{}

/// A history with restarts that is cut off at any place of a run is one, whatever request was on its way: a process may be killed
/// at any moment.
pub fn cut_off()
    ensures { CutOff small }
{}

/// Worked rows, each computed from the definitions.
pub fn worked_rows()
    ensures still_written { StillWritten }
    ensures still_recorded { StillRecorded }
    ensures no_watch_stands { NoWatchStands }
    ensures next_one { NextOne }
    ensures at_its_time { AtItsTime }
    ensures again_at_its_time { AgainAtItsTime }
    ensures refused_at_a_thousand { RefusedAtAThousand }
    ensures made_without_them { MadeWithoutThem }
    ensures in_a_batch_before { InABatchBefore }
    ensures in_a_batch_after { InABatchAfter }
    ensures days_notes { DaysNotes }
    ensures day_replayed { DayReplayed }
    ensures numbers_passed_over { NumbersPassedOver }
{}

/// A day's record is one by the definition; and a run that was cut off: the request that was never answered was done last, or
/// not at all, and what was answered isn't lost.
pub fn worked_runs()
    ensures days_record { IsTheDaysRecord }
    ensures lost_was_done { LostWasDone }
    ensures lost_was_not_done { LostWasNotDone }
    ensures answered_is_not_lost { AnsweredIsNotLost }
{}
