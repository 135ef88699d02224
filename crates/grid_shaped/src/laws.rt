//! Laws of loaded levels with configured buses, each the contract of a function that does nothing.

ghost use Rattle.grid_shaped.specs.Laws.{LoadIsShaped, BusesAreCounted};

/// Of every draft that loads without fault, each level with configured buses stands in the loaded network in
/// node/breaker form: as the translated level of the placed level that the draft gives, whose places fit.
pub fn load_is_shaped()
    ensures { LoadIsShaped }
{}

/// A level with configured buses that loads has its bus i at node i, and as its nodes the numbers below the count of
/// its buses and terminals. So its next node is that count.
pub fn buses_are_counted()
    ensures { BusesAreCounted }
{}
