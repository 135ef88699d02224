//! The breakers that protection opens when a fault comes.
ghost use Rattle.std.specs.Prelude.{◌≡◌, ◌++◌, ◌||◌, IfOk, OnOk, IsTrue};
ghost use Rattle.grid_level.specs.Kept.{among};
ghost use Rattle.grid_level.specs.Passing.{nodes};
ghost use Rattle.grid_screen.specs.Faults as faults;
ghost use Rattle.grid_screen.specs.Faults.{AreTripped};
ghost use Rattle.grid_screen.specs.Findings.{CaseFits};
ghost use Rattle.grid_screen.specs.Grounds.{with_flag_of};
ghost use Rattle.grid_screen.specs.Listing.{Fits};
ghost use Rattle.grid_screen.specs.Opening.{level_trips, network_trips};
ghost use Rattle.grid_screen.specs.Walks.{AreTouched, IsTouched, hits_in};

use crate::faults::Breakers;
use crate::scene::{Scene, set_of};
use crate::walk::{Touched, Touches, label_at, walk_from};
use grid_contingencies::{FaultCase, is_operable};
use grid_core::Case;
use grid_ids::Memory;
use grid_json::SeenIds;
use grid_level::Switch;
use grid_structure::SwitchAt;
use std::alloc::Global;

// Whether a node is hit.
pub(crate) fn is_hit_at(touched: &Touched, node: u16) -> bool
    requires node { IsTrue (among (nodes touched.now.level.now) node) }
    requires fits { Fits touched.now }
    ensures { result ≡ hits_in touched.now node }
{
    touched.hit[label_at(touched, node) as usize]
}

// Whether protection can open a switch in this position, the ids that are hit in a set.
#[tactic(auto, unfolding(crate::specs::Faults::can_trip, grid_level::specs::Passing::is_operable))]
fn can_trip(switch: &Switch, opened: bool, stuck: &SeenIds, hit: &SeenIds) -> bool
    ensures { result ≡ faults.can_trip stuck.now hit.now (with_flag_of (switch.now, opened)) }
{
    !opened && (is_operable(switch) && (!stuck.has(&switch.id) && !hit.has(&switch.id)))
}

// Whether a node of a switch is hit.
fn is_at_hit(switch: &Switch, touched: &Touched) -> bool
    requires first { IsTrue (among (nodes touched.now.level.now) switch.now.node1) }
    requires second { IsTrue (among (nodes touched.now.level.now) switch.now.node2) }
    requires fits { Fits touched.now }
    ensures { result ≡ (hits_in touched.now switch.now.node1 || hits_in touched.now switch.now.node2) }
{
    is_hit_at(touched, switch.node1) || is_hit_at(touched, switch.node2)
}

// Puts the breakers of a level that trip last.
fn push_tripped(
    tripped: &mut Breakers,
    scene: &Scene,
    hit: &SeenIds,
    place: u32,
    touched: &Touched,
) -> Result<(), Memory>
    requires { IsTouched scene.now place touched.now }
    ensures { OnOk result (tripped.new ≡ tripped.old ++ level_trips scene.now hit.now place touched.now) }
{
    scene.keeps();
    let opened = scene.opened(place);
    for index in 0..touched.level.switch_count() {
        let switch = touched.level.switch(index);
        if !can_trip(switch, opened[index as usize], scene.stuck(), hit) {
            continue;
        }
        if !is_at_hit(switch, touched) {
            continue;
        }
        tripped.push(SwitchAt {
            level: place,
            place: index,
        })?;
    }
    Ok(())
}

/// The breakers that trip where a walk has hit these levels, the ids that are hit in a set.
pub(crate) fn list_tripped(
    alloc: Global,
    scene: &Scene,
    hit: &SeenIds,
    touched: &Touches,
) -> Result<Breakers, Memory>
    requires { AreTouched scene.now touched.now }
    ensures { IfOk result (λ tripped. tripped ≡ network_trips scene.now hit.now touched.now) }
{
    scene.keeps();
    let mut tripped = Breakers::empty(alloc);
    for (place, here) in touched.iter() {
        push_tripped(&mut tripped, scene, hit, *place, here)?;
    }
    Ok(tripped)
}

/// The breakers that protection opens when a fault comes to a case, whose states have one row per level and one flag
/// per switch of its structure: the closed operable breakers with a node in the zone, with what is out, but those that
/// are stuck and those that are hit; by place of level, then by place there. The time is that of `zone`, and of each
/// switch of the levels that are hit.
pub fn tripped(alloc: Global, case: &Case, fault: &FaultCase) -> Result<Breakers, Memory>
    requires { CaseFits case.now }
    ensures { IfOk result (AreTripped case.now fault.now) }
{
    let scene = Scene::before_fault(alloc, case, fault)?;
    scene.keeps();
    let hit = set_of(alloc, fault.fault.slice())?;
    let walk = walk_from(alloc, &scene, fault.fault.slice())?;
    list_tripped(alloc, &scene, &hit, &walk.touched)
}
