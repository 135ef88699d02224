// The watts of a level's terminals, taken in order out of the row of the level. Both are by rising node, so nothing is
// searched.
ghost use Rattle.std.specs.Prelude.{◌≡◌, ◌∷◌, List, IsTrue, filter_map, map};
ghost use Rattle.grid_level.specs.Passing.{is_rising};
ghost use Rattle.grid_level.specs.declared.Placed as placeds;
ghost use Rattle.grid_powers.specs.Listed.{Listed};
ghost use Rattle.grid_watts.specs.Watts as specs;
ghost use Rattle.grid_watts.specs.Nodes.{listed_pair};

use grid_busview::watts_of;
use grid_level::Placed;
use grid_states::NodeWatts;

/// The watts of a terminal, in W, where the row has what a variant lists of this terminal and of those behind it; and
/// the row of those behind it. It takes no memory.
pub fn next_watts<'a>(placed: &Placed, row: &'a [NodeWatts]) -> (i64, &'a [NodeWatts])
    ensures { (listed : Listed) (rest : List placeds.Placed)
        → IsTrue (is_rising (map (λ p. p.node) (placed.now ∷ rest)))
        → row.now ≡ filter_map (listed_pair listed) (placed.now ∷ rest)
        → (result.0 ≡ specs.watts_at listed placed.now)
        × (result.1.now ≡ filter_map (listed_pair listed) rest) }
{
    match row.split_first() {
        Some((pair, rest)) if pair.node == placed.node => (pair.watts, rest),
        _ => (watts_of(&placed.stand), row),
    }
}
