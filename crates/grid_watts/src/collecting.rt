// What a variant lists by node, by id.
ghost use Rattle.std.specs.Prelude.{◌≡◌, ◌<◌, List, IfOk, OnOk, length};
ghost use Rattle.grid_powers.specs.Listed.{Listed, PowerList};
ghost use Rattle.grid_structure.specs.Sites.{levels};
ghost use Rattle.grid_watts.specs.Nodes.{listed_rows, with_pair_of, with_pairs_of, IsListing};

use grid_ids::{Duplicate, Memory};
use grid_level::Level;
use grid_powers::Powers;
use grid_states::{NodeWatts, States};
use grid_structure::Structure;
use std::alloc::Global;

/// What a variant lists, by id, with its sums.
pub fn collected(alloc: Global, structure: &Structure, states: &States) -> Result<Powers, Memory>
    requires { length states.now.opened ≡ length (levels structure.now) }
    ensures { (listed : Listed) → IsListing structure.now listed
        → states.now.watts ≡ listed_rows listed structure.now
        → IfOk result (λ powers. powers
        ≡ record { listed = listed; load = states.now.load; generation = states.now.generation }) }
{
    structure.keeps();
    let mut powers = Powers::opening(alloc, states.load(), states.generation());
    for place in 0..structure.level_count() {
        collect_level(&mut powers, structure.level(place), states.watts_row(place))?;
    }
    Ok(powers)
}

// Puts the pair of a node of a level to those that are collected, by the id of what stands there.
#[tactic(auto, unfolding(crate::specs::Nodes::with_pair_of))]
fn collect_pair(powers: &mut Powers, level: &Level, pair: &NodeWatts) -> Result<(), Memory>
    ensures { OnOk result (powers.new
        ≡ record powers.old { listed = with_pair_of level.now powers.old.listed pair.now }) }
{
    if let Some(placed) = level.placed_at(pair.node) {
        let id = placed.terminal.equipment.copy()?;
        powers.put(id, pair.watts)?;
    }
    Ok(())
}

// Puts the pairs of a level's row to those that are collected.
fn collect_level(powers: &mut Powers, level: &Level, row: &[NodeWatts]) -> Result<(), Memory>
    ensures { OnOk result (powers.new
        ≡ record powers.old { listed = with_pairs_of level.now row.now powers.old.listed }) }
{
    for pair in row {
        collect_pair(powers, level, pair)?;
    }
    Ok(())
}
