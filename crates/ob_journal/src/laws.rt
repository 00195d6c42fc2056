//! A law of what files say, as the contract of a function that does nothing.
ghost use Rattle.ob_journal.specs.Journal.{OneMeaning};

use crate::Shape;

/// No file says two lists of entries.
pub fn one_meaning<S: Shape>()
    ensures { OneMeaning S.is_entry }
{}
