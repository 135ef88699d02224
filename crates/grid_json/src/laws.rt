// Laws of what is read and loaded: the formats before the fifth give what they gave before levels could have configured
// buses, and the places of such buses are their positions.
ghost use Rattle.grid_json.specs.BusPositions.{BusesAreSections, PlacesArePositions};
ghost use Rattle.grid_json.specs.OlderFormats.{OlderFormatsReadNodes, OlderFormatsHaveNodes, NodesLoadByEdits};

/// In a format before the fifth, a level and an end of a branch is read as one of nodes, and no network has another.
pub fn older_formats_are_of_nodes()
    ensures reads { OlderFormatsReadNodes }
    ensures has { OlderFormatsHaveNodes }
{}

/// A network of levels of nodes alone and of ends at nodes alone is loaded by the edits of its parts, one for each.
pub fn nodes_load_by_edits()
    ensures { NodesLoadByEdits }
{}

/// Loading the buses of a level makes them its busbar sections, each at the node of its position; the place of a bus is
/// its position, whatever else stands behind them.
pub fn buses_have_places()
    ensures sections { BusesAreSections }
    ensures places { PlacesArePositions }
{}
