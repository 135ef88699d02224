// The buses of a network in the order of their numbers.
ghost use Rattle.std.specs.Prelude.{◌≡◌, ◌++◌, ◌<◌, ◌^◌, IfOk, OnOk, length, map};
ghost use Rattle.grid_structure.specs.Sites.{levels};
ghost use Rattle.grid_islands.specs.Numbering.{FlagsFit, numbered};
ghost use Rattle.grid_hvdc.specs.Names.{name_at, bus_names};

use grid_busview::node_buses;
use grid_ids::{Memory, Seq};
use grid_islands::Numbered;
use grid_states::States;
use grid_structure::Structure;
use std::alloc::Global;

/// A bus by the place of its level and its least node.
#[derive(Clone, Copy, Debug, PartialEq, Eq)]
pub(crate) struct BusName {
    pub level: u32,
    pub least: u16,
}

/// The buses of a network: the number of each node's bus, and each bus's name by its number.
#[derive(Drop)]
pub(crate) struct NetworkBuses {
    pub numbered: Numbered,
    pub names: Seq<BusName>,
}

// Puts the names of a level's buses last.
fn push_names(names: &mut Seq<BusName>, level: u32, leasts: &[u16]) -> Result<(), Memory>
    ensures { OnOk result (names.new ≡ names.old ++ map (name_at level) leasts.now) }
{
    for least in leasts {
        names.push(BusName {
            level,
            least: *least,
        })?;
    }
    Ok(())
}

/// The buses of all levels, whose switches have the flags opened of these states.
pub(crate) fn list_buses(
    alloc: Global,
    structure: &Structure,
    states: &States,
) -> Result<NetworkBuses, Memory>
    requires rows { length states.now.opened ≡ length (levels structure.now) }
    requires flags { FlagsFit structure.now states.now.opened }
    ensures numbered { IfOk result (λ all. all.numbered ≡ numbered structure.now states.now.opened) }
    ensures names { IfOk result (λ all. all.names ≡ bus_names structure.now states.now.opened) }
{
    let mut numbered = Numbered::empty(alloc);
    let mut names = Seq::empty(alloc);
    for place in 0..structure.level_count() {
        let buses = node_buses(alloc, structure.level(place), states.opened_row(place))?;
        numbered.add(alloc, &buses)?;
        push_names(&mut names, place, buses.leasts.slice())?;
    }
    Ok(NetworkBuses { numbered, names })
}
