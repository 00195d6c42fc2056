//! What weekly schedules come to: whenever a request acts, each scheduled point holds the value in force.
//!
//! Each function states a law by its contract and does nothing.
#![tactic(auto)]

ghost use Rattle.ob_schedule_laws.specs.InForce.{PointsHoldInForce, RequestsStand};

/// Each scheduled point holds the value in force at the moment of each request when it acts: where the writes of the schedules
/// lead to their points, no request writes a scheduled point, no call a part of a contract, none of the schedules' writes wanted
/// memory or room, and the moments don't fall.
///
/// Source: oBIX 1.1, chapter 13 (Points); weekly schedules are this profile's own.
pub fn points_hold_in_force()
    ensures { PointsHoldInForce }
{}

/// Each request stands among the writes of schedules where the requests before it say.
pub fn requests_stand()
    ensures { RequestsStand }
{}
