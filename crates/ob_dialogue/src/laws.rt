//! What holds of every dialogue.
ghost use Rattle.ob_dialogue.specs.Completes.{DialoguesComplete};

/// A dialogue whose link gives replies that lead it to its end, each whole, of status 200 and with what is needed in it,
/// comes there, or memory was wanting, where no count of faults rose.
pub fn completes()
    ensures { DialoguesComplete }
{
    ob_documents::one_document();
    ob_xml::one_verdict();
    ob_documents::only();
}
