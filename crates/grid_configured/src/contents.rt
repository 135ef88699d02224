// What stands in a level: its buses, its switches and its injections, each behind the earlier ones.
ghost use Rattle.std.specs.Prelude.{◌≡◌, ◌+◌, ◌≤◌, [], ◌++◌, OnOk, codes, length};
ghost use Rattle.grid_json.specs.Reading.{Gives};
ghost use Rattle.grid_configured.specs.Checks.{bus_check, each_check, item_check, item_ids, level_edges, level_nodes, list_check, part_ids, parts_check, switch_check, switch_ids};
ghost use Rattle.grid_json.specs.Seen.{Knows};

use crate::network::ConfiguredLevel;
use crate::reasons::{Counts, check_bus, check_item, check_switch};
use grid_ids::Id;
use grid_json::{BusInjection, BusSwitch, ReadError, SeenIds};
use std::alloc::Global;

// Each bus of a level, at its position; they are put into `own` too.
fn check_buses(
    alloc: Global,
    ids: &mut SeenIds,
    own: &mut SeenIds,
    buses: &[Id],
) -> Result<(), ReadError>
    requires { own.old ≡ [] }
    ensures check { Gives result (each_check (bus_check ids.old) [] 0 buses.now) }
    ensures known { OnOk result (Knows ids.new (ids.old ++ buses.now)) }
    ensures own { OnOk result (Knows own.new buses.now) }
    ensures few { OnOk result (length buses.now ≤ 1024) }
{
    for (i, bus) in buses.iter().enumerate() {
        match check_bus(alloc, ids, i, bus) {
            Ok(()) => {}
            Err(e) => return Err(e.under_position(alloc, i)),
        }
        own.add(bus)?;
    }
    Ok(())
}

// Each switch of a level with these buses, at its position, in a network with so many switches before them.
fn check_switches(
    alloc: Global,
    ids: &mut SeenIds,
    buses: &SeenIds,
    total: usize,
    switches: &[BusSwitch],
) -> Result<(), ReadError>
    requires { total ≤ 200000 }
    ensures check { Gives result (each_check (switch_check ids.old buses.now total) [] 0
        switches.now) }
    ensures known { OnOk result (Knows ids.new (ids.old ++ switch_ids switches.now)) }
    ensures few { OnOk result ((length switches.now ≤ 4096)
        × ((total + length switches.now) ≤ 200000)) }
{
    for (i, switch) in switches.iter().enumerate() {
        match check_switch(alloc, ids, buses, i, total + i, switch) {
            Ok(()) => {}
            Err(e) => return Err(e.under_position(alloc, i)),
        }
    }
    Ok(())
}

// What stands after so many terminals more.
fn counts_after(counts: Counts, terminals: usize) -> Counts
    requires nodes { (counts.nodes + terminals) ≤ 1024 }
    requires edges { (counts.edges + terminals) ≤ 4096 }
    requires switches { (counts.switches + terminals) ≤ 200000 }
    ensures { result
        ≡ record {
          nodes = counts.nodes + terminals;
          edges = counts.edges + terminals;
          switches = counts.switches + terminals;
        } }
{
    Counts {
        nodes: counts.nodes + terminals,
        edges: counts.edges + terminals,
        switches: counts.switches + terminals,
    }
}

// Each injection of a level with these buses, at its position, where so much stands before them.
fn check_items(
    alloc: Global,
    ids: &mut SeenIds,
    buses: &SeenIds,
    counts: Counts,
    items: &[BusInjection],
) -> Result<(), ReadError>
    requires nodes { counts.nodes ≤ 1024 }
    requires edges { counts.edges ≤ 4096 }
    requires switches { counts.switches ≤ 200000 }
    ensures check { Gives result (each_check
        (item_check ids.old buses.now counts.nodes counts.edges counts.switches) [] 0 items.now) }
    ensures known { OnOk result (Knows ids.new (ids.old ++ item_ids items.now)) }
    ensures few { OnOk result (((counts.nodes + length items.now) ≤ 1024)
        × ((counts.edges + length items.now) ≤ 4096)
        × ((counts.switches + length items.now) ≤ 200000)) }
{
    for (i, item) in items.iter().enumerate() {
        match check_item(alloc, ids, buses, counts_after(counts, i), item) {
            Ok(()) => {}
            Err(e) => return Err(e.under_position(alloc, i)),
        }
    }
    Ok(())
}

// The buses under their name.
fn check_buses_under(
    alloc: Global,
    ids: &mut SeenIds,
    own: &mut SeenIds,
    level: &ConfiguredLevel,
) -> Result<(), ReadError>
    requires { own.old ≡ [] }
    ensures check { Gives result (list_check (bus_check ids.old) (codes "buses") level.now.buses) }
    ensures known { OnOk result (Knows ids.new (ids.old ++ level.now.buses)) }
    ensures own { OnOk result (Knows own.new level.now.buses) }
    ensures few { OnOk result (length level.now.buses ≤ 1024) }
{
    match check_buses(alloc, ids, own, level.buses.slice()) {
        Ok(()) => Ok(()),
        Err(e) => Err(e.under(alloc, "buses")),
    }
}

// The switches under their name.
fn check_switches_under(
    alloc: Global,
    ids: &mut SeenIds,
    buses: &SeenIds,
    total: usize,
    level: &ConfiguredLevel,
) -> Result<(), ReadError>
    requires { total ≤ 200000 }
    ensures check { Gives result (list_check (switch_check ids.old buses.now total)
        (codes "switches") level.now.switches) }
    ensures known { OnOk result (Knows ids.new (ids.old ++ switch_ids level.now.switches)) }
    ensures few { OnOk result ((length level.now.switches ≤ 4096)
        × ((total + length level.now.switches) ≤ 200000)) }
{
    match check_switches(alloc, ids, buses, total, level.switches.slice()) {
        Ok(()) => Ok(()),
        Err(e) => Err(e.under(alloc, "switches")),
    }
}

// The injections under their name.
fn check_items_under(
    alloc: Global,
    ids: &mut SeenIds,
    buses: &SeenIds,
    counts: Counts,
    level: &ConfiguredLevel,
) -> Result<(), ReadError>
    requires nodes { counts.nodes ≤ 1024 }
    requires edges { counts.edges ≤ 4096 }
    requires switches { counts.switches ≤ 200000 }
    ensures check { Gives result (list_check
        (item_check ids.old buses.now counts.nodes counts.edges counts.switches)
        (codes "injections") level.now.items) }
    ensures known { OnOk result (Knows ids.new (ids.old ++ item_ids level.now.items)) }
    ensures few { OnOk result (((counts.nodes + length level.now.items) ≤ 1024)
        × ((counts.edges + length level.now.items) ≤ 4096)
        × ((counts.switches + length level.now.items) ≤ 200000)) }
{
    match check_items(alloc, ids, buses, counts, level.items.slice()) {
        Ok(()) => Ok(()),
        Err(e) => Err(e.under(alloc, "injections")),
    }
}

/// What stands in a level, where things with `ids` stand before it and the network has so many switches; its buses are
/// put into `own`.
#[tactic(auto, unfolding(crate::specs::Checks::parts_check, crate::specs::Checks::level_nodes, crate::specs::Checks::level_edges))]
pub(crate) fn check_contents(
    alloc: Global,
    ids: &mut SeenIds,
    own: &mut SeenIds,
    total: usize,
    level: &ConfiguredLevel,
) -> Result<(), ReadError>
    requires none { own.old ≡ [] }
    requires few { total ≤ 200000 }
    ensures check { Gives result (parts_check ids.old total level.now) }
    ensures known { OnOk result (Knows ids.new (ids.old ++ part_ids level.now)) }
    ensures own { OnOk result (Knows own.new level.now.buses) }
    ensures few { OnOk result ((level_nodes level.now ≤ 1024) × (level_edges level.now ≤ 4096)
        × ((total + level_edges level.now) ≤ 200000)) }
{
    check_buses_under(alloc, ids, own, level)?;
    check_switches_under(alloc, ids, own, total, level)?;
    let counts = Counts {
        nodes: level.buses.len(),
        edges: level.switches.len(),
        switches: total + level.switches.len(),
    };
    check_items_under(alloc, ids, own, counts, level)
}
