//! What the scanner's definition says in terms of the productions.
ghost use Rattle.ob_markup.specs.Scanning.{FindsPieces, AsksForMore, RefusesOthers, RefusesAtTheEnd, ValuesStand, DocumentsAgree, DocumentsJudged, RefusedIsNone};
ghost use Rattle.ob_markup.specs.Rows.{PrintsSample, ReadsBareObject, NoDashes, NoXmlTarget, StandsForText, NoReferences, NeverADoctype, MayBeAnAttribute};

/// At each place, the scanner finds a construct and leaves the rest exactly where a piece stands of which the construct is
/// told, whose references are references, and behind which the rest stands; whether or not the input has ended.
pub fn finds_pieces()
    ensures { FindsPieces }
{}

/// Before the end of the input, the scanner asks for more exactly where no piece stands and the bytes can go on so that one
/// does.
pub fn asks_for_more()
    ensures { AsksForMore }
{
    ob_scan::judged_once();
}

/// Before the end of the input, the scanner refuses with this place and cause exactly where no piece stands however the
/// bytes go on, and the place and the cause are those of the rule; or where an attribute stands whose value has a bad
/// reference there.
pub fn refuses_others()
    ensures { RefusesOthers }
{
    ob_scan::judged_once();
}

/// At the end of the input the scanner refuses what it refuses before the end, and, at the length of the bytes, what is not
/// finished.
pub fn refuses_at_the_end()
    ensures { RefusesAtTheEnd }
{
    ob_scan::judged_once();
}

/// What the value of an attribute stands for by the scanner's definition is what it stands for by the productions.
pub fn values_stand()
    ensures { ValuesStand }
{}

/// The bytes that spell an object by the grammar over the scanner's constructs are those that are a document of it by the
/// productions.
pub fn documents_agree()
    ensures { DocumentsAgree }
{}

/// The bytes that a decoder judges to be a document are those that are one of that object by the productions; and bytes that it
/// refuses are a document of none.
pub fn documents_judged()
    ensures judged { DocumentsJudged }
    ensures refused { RefusedIsNone }
{
    ob_documents::only();
    ob_documents::spelled();
    ob_xml::one_verdict();
}

/// Worked rows of the productions.
pub fn worked_rows()
    ensures sample { PrintsSample }
    ensures bare { ReadsBareObject }
    ensures dashes { NoDashes }
    ensures target { NoXmlTarget }
    ensures value { StandsForText }
    ensures references { NoReferences }
    ensures doctype { NeverADoctype }
    ensures attribute { MayBeAnAttribute }
{
    ob_scan::judged_once();
}
