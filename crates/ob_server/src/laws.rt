//! Laws of sorting, as the contracts of functions that do nothing.
ghost use Rattle.ob_server.specs.Complete.{EndIsOne};
ghost use Rattle.ob_server.specs.Sort.{SortingIsOne};

/// A request is answered, or asked of the site, in one way.
pub fn one_sorting()
    ensures { SortingIsOne }
{
    ob_documents::only();
    ob_xml::one_verdict();
}

/// The end of a link's service is the one that the bytes taken ask for, but where it broke off, a read failed, or as many
/// bytes were taken as one link may give.
pub fn one_end()
    ensures { EndIsOne }
{
    ob_http::laws::framing_is_one();
}
