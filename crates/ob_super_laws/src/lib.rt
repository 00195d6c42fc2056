//! Laws of a supervisor, as the contracts of functions that do nothing.

#![tactic(auto)]

ghost use Rattle.ob_super_laws.specs.Laws.{DownHasCause, DownIsTold, EachHasTurns, OneStaysDown, OthersStay};

/// An upstream is down after its part in a round only where the dial failed in it, its own link ended or failed in it, or the reply to
/// the last request on that link is none, or is an err, or lacks what is needed.
pub fn down_has_cause()
    ensures { DownHasCause }
{}

/// A PUT that went to an upstream is answered by the err `upstream down` exactly where that upstream goes down.
pub fn down_is_told()
    ensures { DownIsTold }
{}

/// In a round each upstream has turns of its own once, but for those that are down and are left; what an upstream comes to is decided
/// by no other's turns.
pub fn each_has_turns()
    ensures { EachHasTurns }
{}

/// After the first round at most one upstream is left down by a dial of a round.
pub fn one_stays_down()
    ensures { OneStaysDown }
{}

/// A PUT changes no upstream that holds nothing at its path.
pub fn others_stay()
    ensures { OthersStay }
{}
