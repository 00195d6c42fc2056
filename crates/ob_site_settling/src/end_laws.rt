//! Laws of the end of a step.
//!
//! Each function states a law by its contract and does nothing.
ghost use Rattle.ob_site_settling.specs.Ending.{StepsEnd};
ghost use Rattle.ob_site_settling.specs.Noted.{NotesTell};
ghost use Rattle.ob_site_settling.specs.Rows.{CountIsShown, RollingIsShown, SameSecondIsNotShown};
ghost use Rattle.ob_site_settling.specs.Telling.{NotesAreValues};
ghost use Rattle.ob_site_settling.specs.Worlds.{WorldsEnd};

/// A step that touches the own nodes which show themselves otherwise leaves each item of a watch as the rules of
/// watches have it.
///
/// Source: oBIX 1.1, chapter 12 (Watch.pollChanges).
pub fn steps_end()
    ensures { StepsEnd }
{}

/// A step left every path alone but those that its notes are of: the nodes whose slots were set, the histories
/// with a new record, and with an alarm event the subject of alarms and the source of its rule.
pub fn notes_tell()
    ensures { NotesTell }
{}

/// Whatever a step does, but for another library it changes values alone: the slots of nodes, records and alarms.
pub fn notes_are_values()
    ensures { NotesAreValues }
{}

/// So such a step leaves all watches at once as the definitions' end of a step does, and no mark is of a step to
/// come.
///
/// Source: oBIX 1.1, chapter 12 (Watches).
pub fn worlds_end()
    ensures { WorldsEnd }
{}

/// Worked rows, each computed from the definitions: a history of two records that gets a third shows another start,
/// shows nothing else where all are of one second, and shows another count where it keeps all.
///
/// Source: oBIX 1.1, section 14.1 (History).
pub fn worked_rows()
    ensures rolled { RollingIsShown }
    ensures same_second { SameSecondIsNotShown }
    ensures counted { CountIsShown }
{}
