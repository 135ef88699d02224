// The pairs of buses that HVDC lines join.
ghost use Rattle.std.specs.Prelude.{◌≡◌, ◌++◌, IfOk, OnOk, length, flat_map};
ghost use Rattle.grid_structure.specs.Sites.{levels};
ghost use Rattle.grid_hvdc.specs.Stations.{link_between, links_of_line, number_of_station};

use crate::HvdcLine;
use crate::stations::station_bus;
use grid_busview::BusPlaces;
use grid_ids::{Memory, Seq};
use grid_structure::Structure;
use std::alloc::Global;

// Pairs of buses, by their numbers.
pub(crate) type Pairs = Seq<(u32, u32)>;

// Puts the pair of two buses last, where there are both and they differ.
#[tactic(auto, unfolding(crate::specs::Stations::link_between))]
fn push_pair(links: &mut Pairs, first: Option<u32>, second: Option<u32>) -> Result<(), Memory>
    ensures { OnOk result (links.new ≡ links.old ++ link_between first second) }
{
    match (first, second) {
        (Some(first), Some(second)) => {
            if first == second {
                Ok(())
            } else {
                links.push((first, second))
            }
        }
        (Some(_), None) => Ok(()),
        (None, _) => Ok(()),
    }
}

// Puts the pair of the buses in which a line's stations stand last.
#[tactic(auto, unfolding(crate::specs::Stations::links_of_line))]
fn push_line(
    links: &mut Pairs,
    structure: &Structure,
    rows: &[BusPlaces],
    line: &HvdcLine,
) -> Result<(), Memory>
    requires { length rows.now ≡ length (levels structure.now) }
    ensures { OnOk result (links.new ≡ links.old ++ links_of_line structure.now rows.now line.now) }
{
    let first = station_bus(structure, rows, &line.station1);
    let second = station_bus(structure, rows, &line.station2);
    push_pair(links, first, second)
}

/// The pairs that HVDC lines make of buses, where each level's row has the number of each node's bus.
pub(crate) fn link_pairs(
    alloc: Global,
    structure: &Structure,
    rows: &[BusPlaces],
    lines: &[HvdcLine],
) -> Result<Pairs, Memory>
    requires { length rows.now ≡ length (levels structure.now) }
    ensures { IfOk result (λ links. links
        ≡ flat_map (links_of_line structure.now rows.now) lines.now) }
{
    let mut links = Pairs::empty(alloc);
    for line in lines {
        push_line(&mut links, structure, rows, line)?;
    }
    Ok(links)
}
