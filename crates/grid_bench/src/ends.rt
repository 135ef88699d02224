// Whether two levels have the same ends.
ghost use Rattle.std.specs.Prelude.{◌≡◌, ◌↔◌, IsTrue, length};
ghost use Rattle.grid_level.specs.Passing.{nodes};
ghost use Rattle.grid_bench.specs.Ends.{IsGapless, SameEnds};

use grid_ids::same_items;
use grid_level::Level;

// Whether both levels have the same nodes. The loop goes to its end, so that several nodes can be compared at once.
fn same_nodes(level: &Level, other: &Level) -> bool
    ensures { IsTrue result ↔ (nodes level.now ≡ nodes other.now) }
{
    if level.node_count() != other.node_count() {
        return false;
    }
    let mut same = true;
    for index in 0..level.node_count() {
        same &= level.node_at(index) == other.node_at(index);
    }
    same
}

// Whether the level's nodes are counted from 0 without a gap, as the last of them tells.
fn is_gapless(level: &Level) -> bool
    ensures { IsTrue result → IsGapless (nodes level.now) }
{
    level.keeps();
    match level.node_count().checked_sub(1) {
        Some(last) => u32::from(level.node_at(last)) == last,
        None => false,
    }
}

// Whether both levels have the same nodes. Where both count theirs from 0 without a gap, how many there are tells.
fn have_same_nodes(level: &Level, other: &Level) -> bool
    ensures { IsTrue result ↔ (nodes level.now ≡ nodes other.now) }
{
    if is_gapless(level) && is_gapless(other) {
        return level.node_count() == other.node_count();
    }
    same_nodes(level, other)
}

// Zero exactly where both pairs are equal. Each is taken as one number, so that several can be compared at once.
fn difference(pair: (u16, u16), other: (u16, u16)) -> u32
    ensures { (result ≡ 0) ↔ (pair ≡ other) }
{
    let number = u32::from(pair.1) * 0x1_0000 + u32::from(pair.0);
    let other_number = u32::from(other.1) * 0x1_0000 + u32::from(other.0);
    number ^ other_number
}

// Whether both lists have the same pairs of nodes. The loop goes to its end, so that many can be compared at once.
fn same_pairs(list: &[(u16, u16)], others: &[(u16, u16)]) -> bool
    ensures { IsTrue result ↔ (list.now ≡ others.now) }
{
    if list.len() != others.len() {
        return false;
    }
    let mut differences = 0;
    for place in 0..list.len() {
        differences |= difference(list[place], others[place]);
    }
    differences == 0
}

/// Whether both levels have the same nodes, and their switches and internal connections stand between the same ones.
/// The switches' nodes are read from the level's list of them. It reads each once, and takes no memory.
pub(crate) fn same_ends(level: &Level, other: &Level) -> bool
    ensures { IsTrue result ↔ SameEnds level.now other.now }
{
    same_pairs(level.switch_ends(), other.switch_ends())
        && same_items(level.internals(), other.internals())
        && have_same_nodes(level, other)
}
