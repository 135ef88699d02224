// The sums of a structure under the records.
ghost use Rattle.std.specs.Prelude.{◌≡◌, ◌<◌, ◌+◌, [], length};
ghost use Rattle.grid_structure.specs.Sites.{levels};
ghost use Rattle.grid_watts.specs.Watts.{terminals_before};
ghost use Rattle.grid_watts.specs.Ranges.{HasSumsOf, IsSummed};

use crate::moves::gain;
use grid_powers::Powers;
use grid_structure::Structure;
use std::alloc::Global;

// Adds the watts of the level at a place to the sums over the levels before it.
fn gain_level(powers: &mut Powers, structure: &Structure, place: u32)
    requires place { place < length (levels structure.now) }
    requires before { HasSumsOf (terminals_before structure.now place) powers.old }
    ensures { HasSumsOf (terminals_before structure.now (place + 1)) powers.new }
{
    structure.keeps();
    for placed in structure.level(place).placed() {
        gain(powers, &placed.terminal.equipment, &placed.stand);
    }
}

/// An empty list, and the sums over the structure under the records. It takes no memory.
pub fn opening_powers(alloc: Global, structure: &Structure) -> Powers
    ensures listed { result.listed ≡ [] }
    ensures summed { IsSummed structure.now result }
{
    let mut powers = Powers::opening(alloc, 0, 0);
    for place in 0..structure.level_count() {
        gain_level(&mut powers, structure, place);
    }
    powers
}
