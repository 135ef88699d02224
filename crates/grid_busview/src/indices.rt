// The indices of a level's nodes, one after the other.
ghost use Rattle.std.specs.Prelude.{◌≡◌, ◌≤◌, IsTrue};
ghost use Rattle.grid_level.specs.Passing.{nodes};
ghost use Rattle.grid_level.specs.Kept.{among};
ghost use Rattle.grid_groups.specs.Labels.{index_in};

use grid_level::Level;

/// The index of a node that stands no earlier than at some index. Who asks for one after the other, rising, passes each
/// node once, and searches nothing.
pub(crate) fn index_from(level: &Level, start: u32, node: u16) -> u32
    requires node { IsTrue (among (nodes level.now) node) }
    requires start { start ≤ index_in (nodes level.now) node }
    ensures { result ≡ index_in (nodes level.now) node }
{
    level.keeps();
    let mut index = start;
    while level.node_at(index) != node {
        index += 1;
    }
    index
}
