//! What an opened state owes its plan: it is consistent with it and in order; and a consistent state stays so, whatever
//! part of it a step changes, also one that writes to parts of contracts. No two nodes of an opened one have one path,
//! and no step takes a slot away that was given.
//!
//! Each function states a law by its contract and does nothing.
#![tactic(auto)]

ghost use Rattle.ob_step_laws.specs.Laws.{AddedAreTaken, TakenOnce, ApartAreOfOneKind};
ghost use Rattle.ob_step_laws.specs.Opens.{OpensConsistent, OpensCounted};
ghost use Rattle.ob_step_laws.specs.Ordered.{UnrolledIsConsistent, OpensOrdered, OpensInTime};
ghost use Rattle.ob_step_laws.specs.Stays.{StepsKeepPaths, StepsStayConsistent};
ghost use Rattle.ob_step_laws.specs.Apart.{OpensApart};
ghost use Rattle.ob_step_laws.specs.Defaults.{ChangesAreEither, DefaultsDiffer, DefaultsSettle};
ghost use Rattle.ob_step_laws.specs.Reaching.{DefaultsReach, DefaultsStand};
ghost use Rattle.ob_step_laws.specs.Given.{StepsTakeNoneAway};
ghost use Rattle.ob_step_laws.specs.Opening.{OpensPoints};

/// The state that a document opens is consistent with its plan, where the events of its histories can be counted: what
/// roles derive finds its names free, nodes at one path are of one kind, each rule's limits are of its source's kind, points
/// are nodes, and the built-in library takes the site's contracts. Its library is the one that a write makes anew, and it has
/// no alarms.
pub fn opens_consistent()
    ensures { OpensConsistent }
{}

/// The events of the histories can be counted where a document has fewer than 2^63 parts.
pub fn opens_counted()
    ensures { OpensCounted }
{}

/// A state that is consistent once its histories have rolled was so before.
pub fn unrolled_is_consistent()
    ensures { UnrolledIsConsistent }
{}

/// In the state that a document opens no two nodes have one path, and none has one that the site computes; the logs are
/// those of the plan's histories; no two rules have one source; no more is stored than may be; and the records of each log
/// are in order, none after the time.
pub fn opens_ordered()
    ensures { OpensOrdered }
{}

/// The time of the opening is the first moment that isn't before the boot, nor before a record of the logs before they roll.
pub fn opens_in_time()
    ensures { OpensInTime }
{}

/// Contracts that are all added to a library are taken by it, one after the other, and it becomes the library with
/// all of them. So the library of an opened state is the one that a write makes anew.
pub fn added_are_taken()
    ensures { AddedAreTaken }
{}

/// Paths of which none is refused as one that stands twice are apart.
pub fn taken_once()
    ensures { TakenOnce }
{}

/// Where the paths of the nodes of a row are apart, each node is of the kind of the one that is found at its path.
pub fn apart_are_of_one_kind()
    ensures { ApartAreOfOneKind }
{}

/// A state that is consistent with its plan (`IsConsistent` of `specs/Consistent.antt`) is so with another slot at any path,
/// with other logs of the same histories whose events can be counted, with another library, with other alarms,
/// and once its histories have rolled.
pub fn steps_stay_consistent()
    ensures { StepsStayConsistent }
{}

/// In each state that a document opens no two nodes have one path, those that roles derive among them.
pub fn opens_apart()
    ensures { OpensApart }
{}

/// Where no two nodes have one path, those that roles derive among them, none have after any part of a step.
pub fn steps_keep_paths()
    ensures { StepsKeepPaths }
{}

/// The libraries that two kept trees give, which differ in slots alone, differ in slots alone.
pub fn defaults_differ()
    ensures { DefaultsDiffer }
{}

/// What a watch shows of a node is as before a step that sets own slots and then takes another library, which
/// differs in slots alone, exactly where neither changes it: none undoes the other.
///
/// Source: oBIX 1.1, chapter 7 (Contracts): an own value goes before an inherited one.
pub fn changes_are_either()
    ensures { ChangesAreEither }
{}

/// So such a step leaves the watches as the comparison of all that they show would, where it stamps what the own
/// slots have changed and what the library has.
pub fn defaults_settle()
    ensures { DefaultsSettle }
{}

/// Where a watch shows a node with another library as before, it shows each node in it as before: so a step that stamps
/// the nodes which are shown otherwise, and all round them, stamps no other.
///
/// Source: oBIX 1.1, chapter 7 (Contracts).
pub fn defaults_reach()
    ensures { DefaultsReach }
{}

/// Whether another library, which differs in slots alone, changes what a watch shows of a node doesn't depend on the
/// values that are given, on records or on alarms.
///
/// Source: oBIX 1.1, chapter 7 (Contracts).
pub fn defaults_stand()
    ensures { DefaultsStand }
{}

/// A request to the site itself takes no own slot away, and leaves a library that has other slots alone: the one that
/// its own contracts make, where it was that before.
///
/// Source: oBIX 1.1, chapters 7 (Contracts) and 10 (Networking: Write).
pub fn steps_take_none_away()
    ensures { StepsTakeNoneAway }
{}

/// The writable points of a state that a document opens are of kinds that have values.
///
/// Source: oBIX 1.1, chapter 13 (Points).
pub fn opens_points()
    ensures { OpensPoints }
{}
