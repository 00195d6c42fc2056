//! Laws of opening, as the contracts of functions that do nothing.
ghost use Rattle.ob_load.specs.Loads.{OpenedIsNotRefused};

/// Bytes that open a site at some moment are refused at none.
pub fn opened_is_not_refused()
    ensures { OpenedIsNotRefused }
{
    ob_documents::only();
    ob_xml::one_verdict();
    ob_documents::one_document();
}
