// The buses that the ends of branches join.
ghost use Rattle.std.specs.Prelude.{◌≡◌, IfOk, length, flat_map};
ghost use Rattle.grid_graph.specs.Graph.{Graph, graph, EndsBelow};
ghost use Rattle.grid_queue.specs.Parents.{AreLabelsOf};
ghost use Rattle.grid_islands.specs.Islands.{pair_between};
ghost use Rattle.grid_islands.specs.Spots.{pairs_of_buses, with_pairs};

use crate::spots::BranchBuses;
use grid_ids::Memory;
use grid_queue::Joiner;
use std::alloc::Global;

// Joins two buses, where there are both.
#[tactic(auto, unfolding(crate::specs::Islands::pair_between))]
fn join_between(joiner: &mut Joiner, first: Option<u32>, second: Option<u32>)
    requires { EndsBelow (pair_between first second) (length joiner.old) }
    ensures long { length joiner.new ≡ length joiner.old }
    ensures labels { (net : Graph) → AreLabelsOf net joiner.old
        → AreLabelsOf (with_pairs net (pair_between first second)) joiner.new }
{
    if let (Some(first), Some(second)) = (first, second) {
        joiner.join(first, second);
    }
}

/// Joins the buses in which the ends of a branch stand.
pub(crate) fn join_branch(joiner: &mut Joiner, branch: &BranchBuses)
    requires { EndsBelow (pairs_of_buses branch.now) (length joiner.old) }
    ensures long { length joiner.new ≡ length joiner.old }
    ensures labels { (net : Graph) → AreLabelsOf net joiner.old
        → AreLabelsOf (with_pairs net (pairs_of_buses branch.now)) joiner.new }
{
    join_between(joiner, branch.first, branch.second);
    // Few branches have a third end.
    match branch.third {
        Some(third) => {
            join_between(joiner, branch.first, Some(third));
            join_between(joiner, branch.second, Some(third));
        }
        None => {}
    }
}

/// For each bus below a count the least one that is joined to it by the branches whose ends stand in these buses.
pub(crate) fn join_ends(
    alloc: Global,
    count: u32,
    branches: &[BranchBuses],
) -> Result<Vec<u32>, Memory>
    requires { EndsBelow (flat_map pairs_of_buses branches.now) count }
    ensures { IfOk result (λ labels. AreLabelsOf
        (graph count (flat_map pairs_of_buses branches.now)) labels.items) }
{
    let mut joiner = Joiner::new(alloc, count)?;
    for branch in branches {
        join_branch(&mut joiner, branch);
    }
    Ok(joiner.into_labels())
}
