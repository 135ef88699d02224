// Where converter stations stand.
ghost use Rattle.std.specs.Prelude.{◌≡◌, ◌<◌, IfSome, length, option_map};
ghost use Rattle.grid_structure.specs.Sites.{levels, terminal_spot};
ghost use Rattle.grid_hvdc.specs.Stations as stations;
ghost use Rattle.grid_hvdc.specs.Stations.{station_of, number_of_station};

use grid_busview::BusPlaces;
use grid_ids::Id;
use grid_islands::number_of_node;
use grid_kinds::Injection;
use grid_level::Stand;
use grid_structure::{Site, Structure};

// Whether what is injected is a converter station's.
#[tactic(auto, unfolding(crate::specs::Stations::is_station_item))]
fn is_station_item(item: &Injection) -> bool
    ensures { result ≡ stations.is_station_item item.now }
{
    match item {
        Injection::Load { .. } => false,
        Injection::Generator { .. } => false,
        Injection::Battery { .. } => false,
        Injection::ShuntCompensator { .. } => false,
        Injection::StaticVarCompensator { .. } => false,
        Injection::ConverterStation { .. } => true,
    }
}

// Whether a converter station stands there.
#[tactic(auto, unfolding(crate::specs::Stations::is_station))]
fn is_station(stand: &Stand) -> bool
    ensures { result ≡ stations.is_station stand.now }
{
    match stand {
        Stand::Busbar => false,
        Stand::Feeder(item) => is_station_item(item),
        Stand::BranchEnd => false,
    }
}

// Whether a converter station stands at a node of a level.
#[tactic(auto, unfolding(crate::specs::Stations::is_station_at))]
fn is_station_at(structure: &Structure, site: Site) -> bool
    requires { site.level < length (levels structure.now) }
    ensures { result ≡ stations.is_station_at structure.now (site.level, site.node) }
{
    match structure.level(site.level).placed_at(site.node) {
        Some(placed) => is_station(&placed.stand),
        None => false,
    }
}

/// Where the converter station of an id stands; None exactly where no converter station has the id. It takes no memory.
pub fn find_station(structure: &Structure, id: &Id) -> Option<Site>
    ensures site { result ≡ option_map terminal_spot (station_of structure.now id.now) }
    ensures level { IfSome result (λ site. site.level < length (levels structure.now)) }
{
    let site = match structure.site(id, 1) {
        Some(site) => site,
        None => return None,
    };
    if is_station_at(structure, site) {
        Some(site)
    } else {
        None
    }
}

// The number of the bus in which the converter station of an id stands, where each level's row has the number of each
// node's bus.
pub(crate) fn station_bus(structure: &Structure, rows: &[BusPlaces], id: &Id) -> Option<u32>
    requires { length rows.now ≡ length (levels structure.now) }
    ensures { result ≡ number_of_station structure.now rows.now id.now }
{
    let site = match find_station(structure, id) {
        Some(site) => site,
        None => return None,
    };
    number_of_node(
        structure.level(site.level),
        rows[site.level as usize].slice(),
        i64::from(site.node),
    )
}
