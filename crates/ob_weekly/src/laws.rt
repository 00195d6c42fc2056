//! Laws of firings, as the contracts of functions that do nothing.
ghost use Rattle.ob_weekly.specs.Behind.{InForceBehind};
ghost use Rattle.ob_weekly.specs.Laws.{OnceADate, OneList, OneInForce};

/// On one date an entry fires at one instant.
pub fn once_a_date()
    ensures { OnceADate }
{}

/// Between two moments there is one list of firings.
pub fn one_list()
    ensures { OneList }
{}

/// At a moment one slot is in force.
pub fn one_in_force()
    ensures { OneInForce }
{}

/// Behind the firings between two moments in force is what the last of a schedule's writes, or else what was in force.
pub fn in_force_behind()
    ensures { InForceBehind }
{}
