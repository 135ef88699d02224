//! The zone of a fault.
ghost use Rattle.std.specs.Prelude.{◌≡◌, ◌++◌, ◌<◌, ℕ, IfOk, OnOk, filter, length, map};
ghost use Rattle.grid_structure.specs.Sites.{levels};
ghost use Rattle.grid_screen.specs.Faults.{IsZone};
ghost use Rattle.grid_screen.specs.Findings.{CaseFits};
ghost use Rattle.grid_screen.specs.Walks.{AreTouched, IsTouched, hits};
ghost use Rattle.grid_screen.specs.Zones.{network_sites};
ghost use Rattle.grid_screen.specs.Listing as listing;
ghost use Rattle.grid_screen.specs.Listing.{hit_sites};

use crate::faults::Zone;
use crate::scene::Scene;
use crate::walk::{Touched, Touches, walk_from};
use grid_contingencies::FaultCase;
use grid_core::Case;
use grid_ids::Memory;
use grid_structure::Site;
use std::alloc::Global;

// Whether the node of an index is hit.
fn is_hit(touched: &Touched, index: u32) -> bool
    requires index { index < length touched.now.labels.items }
    requires below { listing.AreBelow touched.now }
    ensures { result ≡ listing.is_hit touched.now index }
{
    touched.hit[touched.labels[index as usize] as usize]
}

// Puts the sites of a level that are hit last.
fn push_hit(zone: &mut Zone, place: u32, touched: &Touched) -> Result<(), Memory>
    requires { listing.Fits touched.now }
    ensures { OnOk result (zone.new ≡ zone.old ++ hit_sites place touched.now) }
{
    for index in 0..touched.level.node_count() {
        if !is_hit(touched, index) {
            continue;
        }
        let node = touched.level.node_at(index);
        zone.push(Site { level: place, node })?;
    }
    Ok(())
}

// The sites that are hit.
fn list_hit(alloc: Global, scene: &Scene, touched: &Touches) -> Result<Zone, Memory>
    requires { AreTouched scene.now touched.now }
    ensures { IfOk result (λ zone. zone ≡ filter (hits touched.now) (network_sites scene.now.net)) }
{
    scene.keeps();
    let mut zone = Zone::empty(alloc);
    for (place, here) in touched.iter() {
        push_hit(&mut zone, *place, here)?;
    }
    Ok(zone)
}

/// The zone of a fault on a case, whose states have one row per level and one flag per switch of its structure: the
/// sites that are joined to one of a hit id, by place of level, then by node. Sites are joined by each internal
/// connection, by each closed switch that is no operable breaker, by each operable breaker that is stuck, and by each
/// two ends of a branch, where these are left by what is out; the sites of what is hit are those before anything is
/// out. An id that nothing has counts for nothing. The time is that of the levels that are hit, and of a look-up for
/// each branch end there.
pub fn zone(alloc: Global, case: &Case, fault: &FaultCase) -> Result<Zone, Memory>
    requires { CaseFits case.now }
    ensures { IfOk result (IsZone case.now fault.now) }
{
    let scene = Scene::before_fault(alloc, case, fault)?;
    scene.keeps();
    let walk = walk_from(alloc, &scene, fault.fault.slice())?;
    list_hit(alloc, &scene, &walk.touched)
}
