// The load, generator or battery of an id, and the place of its level.
ghost use Rattle.std.specs.Prelude.{◌≡◌, ◌<◌, length, option_map, IfSome};
ghost use Rattle.grid_structure.specs.Sites.{levels};
ghost use Rattle.grid_watts.specs.Nodes as nodes;
ghost use Rattle.grid_watts.specs.Watts as specs;

use crate::watts::is_powered;
use grid_ids::Id;
use grid_level::Placed;
use grid_structure::Structure;

/// The load, generator or battery of an id, with the place of its level; None exactly where no such equipment has the
/// id. It is looked up, and takes no memory.
#[tactic(auto, unfolding(crate::specs::Nodes::powered_at))]
pub fn powered_at<'a>(structure: &'a Structure, id: &Id) -> Option<(u32, &'a Placed)>
    ensures found { option_map (λ found. (found.0, found.1.now)) result
        ≡ nodes.powered_at structure.now id.now }
    ensures below { IfSome result (λ found. found.0 < length (levels structure.now)) }
{
    structure.keeps();
    let site = structure.site(id, 1)?;
    let placed = structure.level(site.level).placed_at(site.node)?;
    if is_powered(&placed.stand) {
        Some((site.level, placed))
    } else {
        None
    }
}

/// The load, generator or battery of an id, where it stands; None exactly where no such equipment has the id. It is
/// looked up, and takes no memory.
pub fn powered<'a>(structure: &'a Structure, id: &Id) -> Option<&'a Placed>
    ensures { option_map (λ p. p.now) result ≡ specs.powered structure.now id.now }
{
    structure.keeps();
    let (_, placed) = powered_at(structure, id)?;
    Some(placed)
}
