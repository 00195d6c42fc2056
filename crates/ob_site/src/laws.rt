//! Polls, worked by computing the definitions.
ghost use Rattle.ob_site.specs.Worked.{OneIsReported, NothingIsReported};

/// How many steps a poll counts at most: 43 where it reports one point of eleven parts, and none where it reports nothing.
pub fn worked_polls()
    ensures one { OneIsReported }
    ensures nothing { NothingIsReported }
{}
