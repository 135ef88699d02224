// Laws of the sums and of the rows.
ghost use Rattle.grid_watts.specs.Shares.{EditsShift, ValuesShift};
ghost use Rattle.grid_watts.specs.Moves.{InjectionsKeepSums, RemovalsKeepSums, OthersKeepSums, ValuesKeepSums};
ghost use Rattle.grid_watts.specs.Moved.{NothingIsListing, EditsKeepListing, ValuesKeepListing, ListingsHaveRoom, ValuesMoveRows, InjectionsAreNew, InjectionsMoveRows, RemovalsMoveRows, RemovalsLeaveRows, LevelsMoveRows, OthersLeaveRows};

/// By what the sums change: of the edits only a new injection and the removal of equipment change them, by the watts of
/// that equipment, and a value that is set by its difference to the former one.
pub fn totals_shift()
    ensures edits { EditsShift }
    ensures values { ValuesShift }
{}

/// The two numbers of a list stay the sums over the structure: where a new injection is gained, where removed
/// equipment is lost, where any other edit leaves the list as it is, and where a value is set.
pub fn sums_stay()
    ensures injections { InjectionsKeepSums }
    ensures removals { RemovalsKeepSums }
    ensures others { OthersKeepSums }
    ensures values { ValuesKeepSums }
{}

/// What is listed is there: of the structure that stands, under any edit, and where a value is set. So the sums of a
/// variant have room.
pub fn listed_is_there()
    ensures nothing { NothingIsListing }
    ensures edits { EditsKeepListing }
    ensures values { ValuesKeepListing }
    ensures room { ListingsHaveRoom }
{}

/// What becomes of the rows and sums of a variant: a value that is set is a pair at the node; a new injection is not
/// listed, and brings its record's watts to a sum; removed equipment takes its watts and its pair away; a new level
/// has no pair; and any other edit leaves all.
pub fn rows_move()
    ensures values { ValuesMoveRows }
    ensures unlisted { InjectionsAreNew }
    ensures injections { InjectionsMoveRows }
    ensures removals { RemovalsMoveRows }
    ensures others_removed { RemovalsLeaveRows }
    ensures levels { LevelsMoveRows }
    ensures others { OthersLeaveRows }
{}
