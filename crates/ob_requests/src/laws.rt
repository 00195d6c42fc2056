//! That what is asked is what the site's definitions say.
ghost use Rattle.ob_requests.specs.AsRules.{AsRules};

/// The first of equal hrefs, and the lease that is asked for, are those of the definitions of the whole
/// site, for every plan of a site.
pub fn as_the_site_says()
    ensures { AsRules }
{}
