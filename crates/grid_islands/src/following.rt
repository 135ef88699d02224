// What changes in the components where one level alone has other buses.
ghost use Rattle.std.specs.Prelude.{◌≡◌, ℕ, ◌<◌, true, Some, List, length, map, flat_map, slice_get, slice_index};
ghost use Rattle.grid_graph.specs.Graph.{EndsBelow};
ghost use Rattle.grid_islands.specs.declared.kept.KeptLevel.{KeptLevel};
ghost use Rattle.grid_islands.specs.declared.level_ends.LevelEnd.{LevelEnd};
ghost use Rattle.grid_islands.specs.declared.spots.BranchBuses.{BranchBuses};
ghost use Rattle.grid_islands.specs.LevelEnds.{AreLinked, HasEnd, IsIndexOf};
ghost use Rattle.grid_islands.specs.Rejoining.{is_marked, AreMarked};
ghost use Rattle.grid_islands.specs.Spots.{NumbersFit, SameElsewhere, buses_of_spots, pairs_of_buses};

use crate::kept::KeptLevel;
use crate::level_ends::LevelEnds;
use crate::rejoining::mark_branch;
use crate::spots::{BranchBuses, Ends, IndexedSpots, buses_at};

/// Marks the components that the buses had, by these labels, in which the branches stand that have an end in a level.
pub(crate) fn mark_level(
    marks: &mut Vec<bool>,
    labels: &[u32],
    ends: &[BranchBuses],
    index: &LevelEnds,
    level: u32,
)
    requires linked { AreLinked index.now.ends index.now.lasts }
    requires inside { level < length index.now.lasts }
    requires below { (place : ℕ) (end : LevelEnd) → slice_get index.now.ends place ≡ Some end
        → end.branch < length ends.now }
    ensures long { length marks.new.items ≡ length marks.old.items }
    ensures kept { (x : ℕ) → is_marked labels.now marks.old.items x ≡ true
        → is_marked labels.now marks.new.items x ≡ true }
    ensures marked { EndsBelow (flat_map pairs_of_buses ends.now) (length labels.now)
        → ((x : ℕ) → x < length labels.now → slice_index labels.now x < length marks.old.items)
        → (branch : ℕ) (own : BranchBuses) → HasEnd index.now level branch
        → slice_get ends.now branch ≡ Some own
        → AreMarked (is_marked labels.now marks.new.items) own }
{
    let mut at = index.last(level);
    while let Some(place) = at {
        let end = index.ends[place as usize];
        mark_branch(marks, labels, &ends[end.branch as usize]);
        at = end.before;
    }
}

/// Writes the numbers of the buses at the spots of the branches that stand in a level anew, where what is kept of that
/// level alone is another than when they were found.
pub(crate) fn follow_level(
    ends: &mut Ends,
    firsts: &[u32],
    kept: &[KeptLevel],
    spots: &IndexedSpots,
    level: u32,
)
    requires fit { NumbersFit firsts.now kept.now }
    requires long { length ends.old ≡ length spots.now.branches }
    requires index { IsIndexOf spots.now.branches spots.now.index }
    requires inside { level < length spots.now.index.lasts }
    ensures { (before : List KeptLevel) → SameElsewhere level before kept.now
        → ends.old ≡ map (buses_of_spots firsts.now before) spots.now.branches
        → ends.new ≡ map (buses_of_spots firsts.now kept.now) spots.now.branches }
{
    let mut at = spots.index.last(level);
    while let Some(place) = at {
        let end = spots.index.ends[place as usize];
        let branch = end.branch as usize;
        ends.set(branch, buses_at(firsts, kept, &spots.branches[branch]));
        at = end.before;
    }
}
