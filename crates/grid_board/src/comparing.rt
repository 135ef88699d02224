// Whether a base is a level as it stands in a worker's working variant. None of these takes memory. Where the level as
// recorded is known to be the base's, it is not compared.
ghost use Rattle.std.specs.Prelude.{◌≡◌, ◌↔◌, ◌<◌, length, slice_get, Some, IsTrue};
ghost use Rattle.grid_structure.specs.Sites.{levels};
ghost use Rattle.grid_powers.specs.Listed.{Listed};
ghost use Rattle.grid_watts.specs.Watts.{level_watts};
ghost use Rattle.grid_watts.specs.Nodes.{listed_row};
ghost use Rattle.grid_core.specs.History.{structure};
ghost use Rattle.grid_core.specs.Solo.{State};
ghost use Rattle.grid_core.specs.Worlds.{worker_live, worker_state};
ghost use Rattle.grid_board.specs.Current.{IsSeen};
ghost use Rattle.grid_board.specs.Questions as questions;

use grid_bench::BaseLevel;
use grid_core::World;
use grid_ids::Same;
use grid_level::Level;
use grid_states::{NodeWatts, States};
use grid_structure::Structure;
use grid_watts::next_watts;

// Whether the watts are those of a level's terminals under the row of the level: one pass over both, by rising node.
#[tactic(auto, unfolding(grid_watts::specs::Watts::level_watts))]
fn same_watts(level: &Level, row: &[NodeWatts], watts: &[i64]) -> bool
    ensures { (listed : Listed) → row.now ≡ listed_row listed level.now
        → IsTrue result ↔ (level_watts listed level.now ≡ watts.now) }
{
    let placed = level.placed();
    if placed.len() != watts.len() {
        return false;
    }
    level.keeps();
    let mut behind = row;
    for place in 0..placed.len() {
        let (found, rest) = next_watts(&placed[place], behind);
        if found != watts[place] {
            return false;
        }
        behind = rest;
    }
    true
}

// Whether two lists of flags are equal. The loop goes to its end, so that many flags can be compared at once.
fn same_flags(flags: &[bool], others: &[bool]) -> bool
    ensures { IsTrue result ↔ (flags.now ≡ others.now) }
{
    if flags.len() != others.len() {
        return false;
    }
    let mut same = true;
    for place in 0..flags.len() {
        same &= flags[place] == others[place];
    }
    same
}

// Whether two levels are equal, which may be known.
fn is_level(level: &Level, other: &Level, known: bool) -> bool
    requires { IsTrue known → level.now ≡ other.now }
    ensures { IsTrue result ↔ (level.now ≡ other.now) }
{
    known || (level.id().same(other.id()) && level.same(other))
}

// Whether a part is the level at a place as it stands in a variant, of which these are the structure and the states.
// That the level is the part's may be known.
fn is_part(
    structure: &Structure,
    states: &States,
    place: u32,
    part: &BaseLevel,
    known: bool,
) -> bool
    requires level { place < length (levels structure.now) }
    requires row { place < length states.now.opened }
    requires known { IsTrue known → slice_get (levels structure.now) place ≡ Some part.now.level }
    ensures { (state : State) → IsSeen state structure.now states.now
        → IsTrue result ↔ (questions.base_of state place ≡ Some part.now) }
{
    let level = structure.level(place);
    same_flags(states.opened_row(place), part.states.slice())
        && same_flags(states.retained_row(place), part.retained.slice())
        && is_level(level, part.level.get(), known)
        && same_watts(level, states.watts_row(place), part.powers.slice())
}

/// Whether a part is the level at a place of the structure as it stands, for a worker whose working variant is live.
/// Where it is known that the level is the part's, only flags and watts are compared.
pub(crate) fn is_base_of(
    world: &World,
    worker: u32,
    place: u32,
    part: &BaseLevel,
    known: bool,
) -> bool
    requires worker { worker < world.now.workers }
    requires live { IsTrue (worker_live world.now worker) }
    requires level { place < length (levels (structure world.now.origin world.now.steps)) }
    requires known { IsTrue known
        → slice_get (levels (structure world.now.origin world.now.steps)) place
        ≡ Some part.now.level }
    ensures { IsTrue result
        ↔ (questions.base_of (worker_state world.now worker) place ≡ Some part.now) }
{
    is_part(world.structure(), world.states(worker), place, part, known)
}
