//! Laws of cases, each the contract of a function that does nothing.

ghost use Rattle.grid_screen.specs.FaultLaws.{ClearedIsOutage, FailureSpreads, OneNodeTrips, ZoneIsCleared, ZoneIsLeast};
ghost use Rattle.grid_screen.specs.FindingLaws.{OldFindings, TwoLists};
ghost use Rattle.grid_screen.specs.Laws.{CasesFit};

/// What a live variant stands at can be screened: it has one row per level and one flag per switch of its structure.
pub fn cases_fit()
    ensures { CasesFit }
{}

/// Each set of sites that has those of what is hit, and of each link before the fault both ends or neither, has the
/// zone.
pub fn zone_is_least()
    ensures { ZoneIsLeast }
{}

/// With more breakers that fail, the zone has all sites that it had.
pub fn failure_spreads()
    ensures { FailureSpreads }
{}

/// What is left when a fault is cleared is what an outage leaves of the ids that were out, followed by those of
/// `clearing`.
pub fn cleared_is_outage()
    ensures { ClearedIsOutage }
{}

/// In the state when a fault is cleared, no edge that passes has one node in the zone and one outside, and no terminal
/// stands in the zone. So no bus has a node of it.
pub fn zone_is_cleared()
    ensures { ZoneIsCleared }
{}

/// Each closed operable breaker with just one node in the zone trips.
pub fn one_node_trips()
    ensures { OneNodeTrips }
{}

/// What is told of a list of contingencies is what is told of its front, and then of the rest with what is made; and as
/// many are left out. So a list is cut anywhere, and the parts are screened on their own.
pub fn two_lists()
    ensures { TwoLists }
{}

/// Without a fault what is found of a contingency is the first unknown id, or else the figures after what is out, with
/// what is lost then.
pub fn old_findings()
    ensures { OldFindings }
{}
