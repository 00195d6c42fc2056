//! A law of records and journals, as the contract of a function that does nothing.
ghost use Rattle.ob_record_journal.specs.Runs.{RecordAtRest};

/// The file at rest of a run's blocks, with a line feed in the place of its last byte, is the record of the run.
pub fn record_at_rest()
    ensures { RecordAtRest }
{}
