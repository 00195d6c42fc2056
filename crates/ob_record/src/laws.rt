//! Laws of records, as the contracts of functions that do nothing.
ghost use Rattle.ob_record.specs.Rows.{WorkedRows};
ghost use Rattle.ob_record.specs.Broken.{OneRun, OneFault, SpelledIsUnbroken};

use ob_documents::{one_document, text_spells};

/// No bytes are the record of two runs.
pub fn one_run()
    ensures { OneRun }
{
    text_spells();
    one_document();
}

/// Bytes that are the record of a run break off nowhere: so a fault with a place comes exactly where they are that of none.
pub fn spelled_is_unbroken()
    ensures { SpelledIsUnbroken }
{
    text_spells();
    one_document();
}

/// Bytes break off at one place.
pub fn one_fault()
    ensures { OneFault }
{
    text_spells();
    one_document();
}

/// Records that are computed by the definitions, and where one that is cut breaks off.
pub fn worked_rows()
    ensures { WorkedRows }
{}
