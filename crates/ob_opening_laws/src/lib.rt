//! What the roles of a site that a document opens hold and name: records, sources that have values, and own nodes; and that
//! it opens at every moment.
//!
//! Each function states a law by its contract and does nothing.
#![tactic(auto)]

ghost use Rattle.ob_opening_laws.specs.Moments.{OpensAtEach, RefusedAtEach};
ghost use Rattle.ob_opening_laws.specs.Records.{OpensRecords};
ghost use Rattle.ob_opening_laws.specs.Roles.{OpensRoles};
ghost use Rattle.ob_opening_laws.specs.Sound.{OpensSound};
ghost use Rattle.ob_opening_laws.specs.Sources.{OpensSources};

/// The logs of the state that a well-formed document opens roll from logs of which nothing is gone, whose entries are records
/// in order, and the time is the first moment that is neither before the boot nor before one of these.
pub fn opens_records()
    ensures { OpensRecords }
{}

/// In the state that a document opens, the node at the path of a history's source is of a kind that has values.
pub fn opens_sources()
    ensures { OpensSources }
{}

/// In the state that a document opens, the path of each rule's source and that of the alarm subject are paths of own nodes.
pub fn opens_roles()
    ensures { OpensRoles }
{}

/// A document that opens a state at one moment opens it at every other one, but for the moment of the boot and the time.
pub fn opens_at_each()
    ensures { OpensAtEach }
{}

/// A document that is refused at one moment is refused so at every other one.
pub fn refused_at_each()
    ensures { RefusedAtEach }
{}

/// The state that a document opens is sound: no watch stands, the next number is 1, and each history is within its
/// capacity. So the laws of watches hold of every legal history from it.
pub fn opens_sound()
    ensures { OpensSound }
{}
