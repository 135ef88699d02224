// What is held against one thing, by what holds of it.
ghost use Rattle.std.specs.Prelude.{◌≡◌, ◌<◌, ◌&&◌, false, [], ◌∷◌, ◌++◌, None, OnOk};
ghost use Rattle.grid_ids.specs.Name.{has_id, same_id};
ghost use Rattle.grid_ids.specs.Refusing.{refuse_by};
ghost use Rattle.grid_kinds.specs.Records.{level_fault, injection_fault};
ghost use Rattle.grid_json.specs.Reading.{Gives, here};
ghost use Rattle.grid_configured.specs.Checks.{bus_reasons, buses_reasons, id_reasons, item_reasons, level_reasons, record_fault, switch_reasons, terminal_reasons};
ghost use Rattle.grid_json.specs.Seen.{Knows};

use crate::network::ConfiguredLevel;
use grid_ids::Id;
use grid_json::{BusInjection, BusSwitch, ReadError, Reason, SeenIds};
use grid_kinds::{Injection, check_injection, check_level};
use grid_structure::EditFault;
use std::alloc::Global;

/// The most levels that a network has.
const MOST_LEVELS: usize = 10_000;

/// The most nodes that a level has.
const MOST_NODES: usize = 1024;

/// The most edges that a level has.
const MOST_EDGES: usize = 4096;

/// The most switches that a network has.
const MOST_SWITCHES: usize = 200_000;

/// How many nodes and edges a level has, and how many switches its network.
#[derive(Clone, Copy, Debug, PartialEq, Eq)]
pub(crate) struct Counts {
    pub nodes: usize,
    pub edges: usize,
    pub switches: usize,
}

/// A fault that an edit of the same kind would be refused with.
pub(crate) fn refused(alloc: Global, fault: EditFault) -> ReadError
    ensures { result ≡ ReadError.Fault (here (Reason.Load fault)) }
{
    ReadError::here(alloc, Reason::Load(fault))
}

/// A new id, which is seen from then on.
#[tactic(auto, unfolding(crate::specs::Checks::id_reasons))]
pub(crate) fn check_id(alloc: Global, ids: &mut SeenIds, id: &Id) -> Result<(), ReadError>
    ensures check { Gives result (id_reasons (has_id ids.old id.now)) }
    ensures known { OnOk result (Knows ids.new (ids.old ++ id.now ∷ [])) }
    ensures new { OnOk result (has_id ids.old id.now ≡ false) }
{
    if ids.add(id)? {
        Ok(())
    } else {
        Err(refused(alloc, EditFault::IdTaken))
    }
}

/// Room for one more terminal.
#[tactic(auto, unfolding(crate::specs::Checks::terminal_reasons))]
pub(crate) fn check_terminal(alloc: Global, counts: Counts) -> Result<(), ReadError>
    ensures check { Gives result (terminal_reasons counts.nodes counts.edges counts.switches) }
    ensures room { OnOk result ((counts.nodes < 1024) × (counts.edges < 4096)
        × (counts.switches < 200000)) }
{
    if counts.nodes >= MOST_NODES {
        return Err(refused(alloc, EditFault::TooManyNodes));
    }
    if counts.edges >= MOST_EDGES {
        return Err(refused(alloc, EditFault::TooManyEdges));
    }
    if counts.switches >= MOST_SWITCHES {
        return Err(refused(alloc, EditFault::TooManySwitches));
    }
    Ok(())
}

// A level's record.
fn check_nominal(alloc: Global, nominal_v: i64) -> Result<(), ReadError>
    ensures { Gives result (refuse_by record_fault (level_fault nominal_v None None)) }
{
    match check_level(nominal_v, None, None) {
        Ok(()) => Ok(()),
        Err(fault) => Err(refused(alloc, EditFault::Check(fault))),
    }
}

// An injection's record.
fn check_injected(alloc: Global, item: &Injection) -> Result<(), ReadError>
    ensures { Gives result (refuse_by record_fault (injection_fault item.now)) }
{
    match check_injection(item) {
        Ok(()) => Ok(()),
        Err(fault) => Err(refused(alloc, EditFault::Check(fault))),
    }
}

/// One more level, behind so many.
#[tactic(auto, unfolding(crate::specs::Checks::level_reasons))]
pub(crate) fn check_level_itself(
    alloc: Global,
    ids: &mut SeenIds,
    levels: usize,
    level: &ConfiguredLevel,
) -> Result<(), ReadError>
    ensures check { Gives result (level_reasons (has_id ids.old level.now.id) levels
        (level_fault level.now.nominal_v None None)) }
    ensures known { OnOk result (Knows ids.new (ids.old ++ level.now.id ∷ [])) }
    ensures new { OnOk result (has_id ids.old level.now.id ≡ false) }
{
    check_id(alloc, ids, &level.id)?;
    if levels >= MOST_LEVELS {
        return Err(refused(alloc, EditFault::TooManyLevels));
    }
    check_nominal(alloc, level.nominal_v)
}

/// One more bus in a level with so many nodes.
#[tactic(auto, unfolding(crate::specs::Checks::bus_reasons))]
pub(crate) fn check_bus(
    alloc: Global,
    ids: &mut SeenIds,
    nodes: usize,
    bus: &Id,
) -> Result<(), ReadError>
    ensures check { Gives result (bus_reasons (has_id ids.old bus.now) nodes) }
    ensures known { OnOk result (Knows ids.new (ids.old ++ bus.now ∷ [])) }
    ensures room { OnOk result (nodes < 1024) }
{
    check_id(alloc, ids, bus)?;
    if nodes >= MOST_NODES {
        return Err(refused(alloc, EditFault::TooManyNodes));
    }
    Ok(())
}

// Whether both buses of a switch are there.
fn has_both(buses: &SeenIds, switch: &BusSwitch) -> bool
    ensures { result ≡ (has_id buses.now switch.now.bus1 && has_id buses.now switch.now.bus2) }
{
    buses.has(&switch.bus1) && buses.has(&switch.bus2)
}

// The two buses of a switch, in a level with these buses.
#[tactic(auto, unfolding(crate::specs::Checks::buses_reasons))]
fn check_buses_of(alloc: Global, buses: &SeenIds, switch: &BusSwitch) -> Result<(), ReadError>
    ensures { Gives result (buses_reasons
        (has_id buses.now switch.now.bus1 && has_id buses.now switch.now.bus2) (same_id
        switch.now.bus1 switch.now.bus2)) }
{
    if !has_both(buses, switch) {
        return Err(ReadError::here(alloc, Reason::NoBus));
    }
    if switch.bus1 == switch.bus2 {
        return Err(ReadError::here(alloc, Reason::SameBus));
    }
    Ok(())
}

/// One more switch in a level with these buses and so many edges, of a network with so many switches.
#[tactic(auto, unfolding(crate::specs::Checks::switch_reasons))]
pub(crate) fn check_switch(
    alloc: Global,
    ids: &mut SeenIds,
    buses: &SeenIds,
    edges: usize,
    switches: usize,
    switch: &BusSwitch,
) -> Result<(), ReadError>
    ensures check { Gives result (switch_reasons (has_id ids.old switch.now.id)
        (has_id buses.now switch.now.bus1 && has_id buses.now switch.now.bus2)
        (same_id switch.now.bus1 switch.now.bus2) edges switches) }
    ensures known { OnOk result (Knows ids.new (ids.old ++ switch.now.id ∷ [])) }
    ensures room { OnOk result ((edges < 4096) × (switches < 200000)) }
{
    check_id(alloc, ids, &switch.id)?;
    check_buses_of(alloc, buses, switch)?;
    if edges >= MOST_EDGES {
        return Err(refused(alloc, EditFault::TooManyEdges));
    }
    if switches >= MOST_SWITCHES {
        return Err(refused(alloc, EditFault::TooManySwitches));
    }
    Ok(())
}

/// One more injection in a level with these buses, where so much stands.
#[tactic(auto, unfolding(crate::specs::Checks::item_reasons))]
pub(crate) fn check_item(
    alloc: Global,
    ids: &mut SeenIds,
    buses: &SeenIds,
    counts: Counts,
    item: &BusInjection,
) -> Result<(), ReadError>
    ensures check { Gives result (item_reasons (has_id ids.old item.now.id)
        (has_id buses.now item.now.bus) (injection_fault item.now.item) counts.nodes counts.edges
        counts.switches) }
    ensures known { OnOk result (Knows ids.new (ids.old ++ item.now.id ∷ [])) }
    ensures room { OnOk result ((counts.nodes < 1024) × (counts.edges < 4096)
        × (counts.switches < 200000)) }
{
    check_id(alloc, ids, &item.id)?;
    if !buses.has(&item.bus) {
        return Err(ReadError::here(alloc, Reason::NoBus));
    }
    check_injected(alloc, &item.item)?;
    check_terminal(alloc, counts)
}
