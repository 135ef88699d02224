// The view of configured buses, told by the bus view of the level's node/breaker form.
ghost use Rattle.std.specs.Prelude.{◌≡◌, IfOk, map};
ghost use Rattle.grid_configured.specs.Viewed.{section_total, told_bus, told_view};

use crate::{ConfiguredBus, ConfiguredBuses, ConfiguredView};
use grid_busview::{BusView, ViewBus};
use grid_ids::{Duplicate, Ids, Memory};
use grid_level::{Terminal, Terminals};
use std::alloc::Global;

// How many nodes are those of buses, which are the first ones.
#[tactic(auto, unfolding(crate::specs::Viewed::section_total))]
fn section_count(nodes: &[u16], count: usize) -> usize
    ensures { result ≡ section_total count nodes.now }
{
    nodes
        .iter()
        .filter(|node| usize::from(**node) < count)
        .count()
}

// The equipment of some terminals.
fn equipment_of(alloc: Global, terminals: &[Terminal]) -> Result<Ids, Memory>
    ensures { IfOk result (λ ids. ids ≡ map (λ t. t.equipment) terminals.now) }
{
    let mut ids = Ids::empty(alloc);
    for terminal in terminals {
        ids.push(terminal.equipment.copy()?)?;
    }
    Ok(ids)
}

// Copies of some terminals.
fn copies_of(alloc: Global, terminals: &[Terminal]) -> Result<Terminals, Memory>
    ensures { IfOk result (λ list. list ≡ terminals.now) }
{
    let mut list = Terminals::empty(alloc);
    for terminal in terminals {
        list.push(terminal.copy()?)?;
    }
    Ok(list)
}

// A bus of a level that has so many buses.
#[tactic(auto, unfolding(crate::specs::Viewed::told_bus))]
fn tell_bus(alloc: Global, bus: &ViewBus, count: usize) -> Result<ConfiguredBus, Memory>
    ensures { IfOk result (λ told. told ≡ told_bus count bus.now) }
{
    let all = bus.terminals.slice();
    let own = section_count(bus.nodes.slice(), count).min(all.len());
    let buses = equipment_of(alloc, &all[..own])?;
    let terminals = copies_of(alloc, &all[own..])?;
    Ok(ConfiguredBus {
        place: u32::from(bus.least),
        buses,
        terminals,
        load: bus.load,
        generation: bus.generation,
    })
}

// The buses of a level that has so many.
fn tell_buses(alloc: Global, buses: &[ViewBus], count: usize) -> Result<ConfiguredBuses, Memory>
    ensures { IfOk result (λ list. list ≡ map (told_bus count) buses.now) }
{
    let mut list = ConfiguredBuses::empty(alloc);
    for bus in buses {
        list.push(tell_bus(alloc, bus, count)?)?;
    }
    Ok(list)
}

/// The view of a level that has so many buses, by the bus view of its node/breaker form.
#[tactic(auto, unfolding(crate::specs::Viewed::told_view))]
pub(crate) fn tell_view(
    alloc: Global,
    view: BusView,
    count: usize,
) -> Result<ConfiguredView, Memory>
    ensures { IfOk result (λ told. told ≡ told_view count view) }
{
    let buses = tell_buses(alloc, view.buses.slice(), count)?;
    Ok(ConfiguredView {
        level: view.level,
        buses,
    })
}
