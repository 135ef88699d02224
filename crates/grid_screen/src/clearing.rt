//! What is opened and removed when a fault is cleared.
ghost use Rattle.std.specs.Prelude.{◌≡◌, ◌++◌, [], ◌∷◌, IfOk, OnOk, IsTrue, filter, flat_map};
ghost use Rattle.std.specs.List.{list_all};
ghost use Rattle.grid_level.specs.Kept.{among};
ghost use Rattle.grid_level.specs.Passing.{nodes};
ghost use Rattle.grid_screen.specs.Faults.{switch_ids, AreTripped, IsClearedBehind, IsClearing};
ghost use Rattle.grid_screen.specs.Findings.{CaseFits};
ghost use Rattle.grid_screen.specs.Listing.{Fits};
ghost use Rattle.grid_screen.specs.Opening.{AreSwitches, equipment_hit, network_equipment};
ghost use Rattle.grid_screen.specs.Outages as outages;
ghost use Rattle.grid_screen.specs.Walks.{AreTouched, IsSwitchOf};

use crate::faults::Breakers;
use crate::scene::{Scene, set_of};
use crate::tripped::{is_hit_at, list_tripped};
use crate::walk::{Touched, Touches, walk_from};
use grid_contingencies::FaultCase;
use grid_core::Case;
use grid_ids::{Duplicate, Id, Ids, Memory};
use grid_level::Placed;
use grid_structure::{Structure, SwitchAt};
use std::alloc::Global;

// The id of a switch.
fn id_of<'a>(structure: &'a Structure, at: &SwitchAt) -> &'a Id
    requires { IsSwitchOf structure.now at.now }
    ensures { switch_ids structure.now at.now ≡ result.now ∷ [] }
{
    &structure.level(at.level).switch(at.place).id
}

// Puts the ids of these switches last.
fn push_switches(ids: &mut Ids, structure: &Structure, switches: &[SwitchAt]) -> Result<(), Memory>
    requires { AreSwitches structure.now switches.now }
    ensures { OnOk result (ids.new ≡ ids.old ++ flat_map (switch_ids structure.now) switches.now) }
{
    for at in switches {
        ids.push(id_of(structure, at).copy()?)?;
    }
    Ok(())
}

// Whether a switch has the id.
#[tactic(auto, unfolding(crate::specs::Outages::is_switch))]
fn is_switch(structure: &Structure, id: &Id) -> bool
    ensures { result ≡ outages.is_switch structure.now id.now }
{
    structure.find_switch(id).is_some()
}

// Puts those of these ids last that are of switches.
fn push_hit_switches(ids: &mut Ids, structure: &Structure, hit: &[Id]) -> Result<(), Memory>
    ensures { OnOk result (ids.new ≡ ids.old ++ filter (outages.is_switch structure.now) hit.now) }
{
    for id in hit {
        if !is_switch(structure, id) {
            continue;
        }
        ids.push(id.copy()?)?;
    }
    Ok(())
}

// Puts the equipment of those terminals of a level last that are at nodes that are hit.
fn push_equipment(ids: &mut Ids, touched: &Touched, placed: &[Placed]) -> Result<(), Memory>
    requires nodes { IsTrue (list_all (λ p. among (nodes touched.now.level.now) p.node) placed.now) }
    requires fits { Fits touched.now }
    ensures { OnOk result (ids.new ≡ ids.old ++ equipment_hit touched.now placed.now) }
{
    for placed in placed {
        if !is_hit_at(touched, placed.node) {
            continue;
        }
        ids.push(placed.terminal.equipment.copy()?)?;
    }
    Ok(())
}

// Puts the equipment with terminals last that a walk has hit.
fn push_hit_equipment(ids: &mut Ids, scene: &Scene, touched: &Touches) -> Result<(), Memory>
    requires { AreTouched scene.now touched.now }
    ensures { OnOk result (ids.new ≡ ids.old ++ network_equipment scene.now touched.now) }
{
    scene.keeps();
    for (place, here) in touched.iter() {
        push_equipment(ids, here, scene.level(*place).placed())?;
    }
    Ok(())
}

/// How a fault is cleared: the breakers that trip, and ids with those of what is opened and removed.
#[derive(Drop)]
pub(crate) struct Cleared {
    pub tripped: Breakers,
    pub ids: Ids,
}

/// How the fault of a case is cleared, the ids of what is opened and removed put behind these.
pub(crate) fn clear(
    alloc: Global,
    case: &Case,
    fault: &FaultCase,
    ids: Ids,
) -> Result<Cleared, Memory>
    requires { CaseFits case.now }
    ensures tripped { IfOk result (λ cleared. AreTripped case.now fault.now cleared.tripped) }
    ensures ids { IfOk result (λ cleared. IsClearedBehind case.now fault.now ids cleared.ids) }
{
    let scene = Scene::before_fault(alloc, case, fault)?;
    scene.keeps();
    let hit = set_of(alloc, fault.fault.slice())?;
    let walk = walk_from(alloc, &scene, fault.fault.slice())?;
    let tripped = list_tripped(alloc, &scene, &hit, &walk.touched)?;
    let mut ids = ids;
    push_switches(&mut ids, &case.structure, tripped.slice())?;
    push_hit_switches(&mut ids, &case.structure, fault.fault.slice())?;
    push_hit_equipment(&mut ids, &scene, &walk.touched)?;
    Ok(Cleared { tripped, ids })
}

/// What is out, besides the ids that were out before, when the fault of a case is cleared, whose states have one row
/// per level and one flag per switch of its structure: the breakers that trip, then the switches that are hit, then the
/// equipment with a terminal in the zone, once for each terminal there. The time is that of `tripped`, and of the
/// terminals of the levels that are hit.
pub fn clearing(alloc: Global, case: &Case, fault: &FaultCase) -> Result<Ids, Memory>
    requires { CaseFits case.now }
    ensures { IfOk result (IsClearing case.now fault.now) }
{
    Ok(clear(alloc, case, fault, Ids::empty(alloc))?.ids)
}
