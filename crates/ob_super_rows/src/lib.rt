//! Configs, trees and rounds worked by computing the definitions of ob_super.
#![tactic(auto)]

ghost use Rattle.ob_super_rows.specs.Rows.{Empty, Bare, Twice, Bounds, TwoConfigured, ShownRoot, ShownList, ShownObject, ShownNowhere, DialFails, InTurn, BesideOneUp, LapsedFirst, ErrBringsDown, AddedAndPolled};

/// The rows: which parts of small configs offend and what they tell, what is shown at the places of a tree, what a round is whose
/// dial fails, who is dialled in a round, and where replies lead.
pub fn worked_rows()
    ensures empty { Empty }
    ensures bare { Bare }
    ensures twice { Twice }
    ensures bounds { Bounds }
    ensures two_configured { TwoConfigured }
    ensures shown_root { ShownRoot }
    ensures shown_list { ShownList }
    ensures shown_object { ShownObject }
    ensures shown_nowhere { ShownNowhere }
    ensures dial_fails { DialFails }
    ensures in_turn { InTurn }
    ensures beside_one_up { BesideOneUp }
    ensures lapsed_first { LapsedFirst }
    ensures err_brings_down { ErrBringsDown }
    ensures added_and_polled { AddedAndPolled }
{}
