//! Laws of stamps, and of how many objects are round one.
ghost use Rattle.ob_tree.specs.Depths.{DepthsAreLevels};
ghost use Rattle.ob_tree.specs.LastTouch.{LastTouchesStamp};

/// After any number of steps and touches the stamp of an object is the number of steps at the last touch of it or
/// of one in it, as before where there was none, and 1 where the steps were counted anew later.
pub fn last_touches_stamp()
    ensures { LastTouchesStamp }
{}

/// Round an object are fewer objects than there are levels, so at most 31 where there are 32.
pub fn depths_are_levels()
    ensures { DepthsAreLevels }
{}
