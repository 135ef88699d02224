//! Laws, each the contract of a function that does nothing.

ghost use Rattle.grid_screened.specs.Laws.{AsDisconnect, LinesAreTold, PairsAreTold, Unconnected};

/// What became unconnected is the watts of just the loads, or of just the generators and batteries, that stand in a bus
/// before and in none after what is out, or when a fault is cleared. And what stands in a bus then stood in one before.
pub fn unconnected()
    ensures { Unconnected }
{}

/// Equal lines of the second format have equal names, whatever stands in these, and say the same of their findings.
pub fn lines_are_told()
    ensures { LinesAreTold }
{}

/// On one sound state different pairs of a name and a finding have different lines of the second format.
pub fn pairs_are_told()
    ensures { PairsAreTold }
{}

/// Where the plan that disconnects an injection opens breakers, and no branch end stands in the core of that plan,
/// these are just the breakers that trip at a fault of this one injection and have just one node in its zone.
pub fn as_disconnect()
    ensures { AsDisconnect }
{}
