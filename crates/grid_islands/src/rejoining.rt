// Labels of buses that are followed: only what was in marked components is joined anew.
ghost use Rattle.std.specs.Prelude.{◌≡◌, ℕ, ◌<◌, ◌^◌, true, Some, List, length, flat_map, slice_index, IfOk};
ghost use Rattle.grid_graph.specs.Graph.{Graph, graph, EndsBelow};
ghost use Rattle.grid_queue.specs.Parents.{AreLabelsOf, AreParents};
ghost use Rattle.grid_islands.specs.declared.spots.BranchBuses.{BranchBuses};
ghost use Rattle.grid_islands.specs.Spots.{pairs_of_buses, with_pairs};
ghost use Rattle.grid_islands.specs.Rejoining as rejoining;
ghost use Rattle.grid_islands.specs.Rejoining.{has_mark, either_marked, marked_pairs, AreApart, AreMarked, AreOthersMarked};

use crate::joins::join_branch;
use crate::spots::BranchBuses;
use grid_ids::Memory;
use grid_queue::Joiner;
use std::alloc::Global;

/// So many marks, of which none is set.
pub(crate) fn no_marks(alloc: Global, count: usize) -> Result<Vec<bool>, Memory>
    ensures { IfOk result (λ marks. length marks.items ≡ count) }
{
    match vec![in alloc; false; count] {
        Ok(marks) => Ok(marks),
        Err(_) => Err(Memory),
    }
}

// Marks the component that a bus had, where there is a bus.
fn mark_bus(marks: &mut Vec<bool>, labels: &[u32], bus: Option<u32>)
    ensures long { length marks.new.items ≡ length marks.old.items }
    ensures kept { (x : ℕ) → rejoining.is_marked labels.now marks.old.items x ≡ true
        → rejoining.is_marked labels.now marks.new.items x ≡ true }
    ensures marked { (x : ℕ) → bus ≡ Some x → x < length labels.now
        → slice_index labels.now x < length marks.old.items
        → rejoining.is_marked labels.now marks.new.items x ≡ true }
{
    let Some(bus) = bus else {
        return;
    };
    if bus as usize >= labels.len() {
        return;
    }
    let label = labels[bus as usize] as usize;
    if label < marks.len() {
        marks[label] = true;
    }
}

/// Marks the components that the buses had in which the ends of a branch stand.
pub(crate) fn mark_branch(marks: &mut Vec<bool>, labels: &[u32], branch: &BranchBuses)
    ensures long { length marks.new.items ≡ length marks.old.items }
    ensures kept { (x : ℕ) → rejoining.is_marked labels.now marks.old.items x ≡ true
        → rejoining.is_marked labels.now marks.new.items x ≡ true }
    ensures marked { EndsBelow (pairs_of_buses branch.now) (length labels.now)
        → ((x : ℕ) → x < length labels.now → slice_index labels.now x < length marks.old.items)
        → AreMarked (rejoining.is_marked labels.now marks.new.items) branch.now }
{
    mark_bus(marks, labels, branch.first);
    mark_bus(marks, labels, branch.second);
    mark_bus(marks, labels, branch.third);
}

// Sets the buses apart whose component is marked by its label: each is its own label then. Each bus has its component's
// mark then.
fn set_apart(labels: &mut Vec<u32>, marks: &mut Vec<bool>)
    requires few { length labels.old.items < 2 ^ 32 }
    requires labels { (net : Graph) × AreLabelsOf net labels.old.items }
    requires marks { length marks.old.items ≡ length labels.old.items }
    ensures long { length marks.new.items ≡ length labels.old.items }
    ensures marks { (bus : ℕ) → has_mark marks.new.items bus
        ≡ rejoining.is_marked labels.old.items marks.old.items bus }
    ensures apart { AreApart labels.old.items (has_mark marks.new.items) labels.new.items }
{
    // A label is no later bus than one that has it, and its own label: so its mark never changes.
    let count = labels.len() as u32;
    for bus in 0..count {
        let marked = marks[labels[bus as usize] as usize];
        marks[bus as usize] = marked;
        if marked {
            labels[bus as usize] = bus;
        }
    }
}

// Whether the bus with a number has a mark, where there is one.
fn bus_marked(marks: &[bool], bus: u32) -> bool
    ensures { result ≡ has_mark marks.now bus }
{
    match marks.get(bus as usize) {
        Some(mark) => *mark,
        None => false,
    }
}

// Whether the first end of a branch that stands in a bus has a mark.
#[tactic(auto, unfolding(crate::specs::Rejoining::either_marked))]
fn stands_marked(marks: &[bool], branch: &BranchBuses) -> bool
    requires { EndsBelow (pairs_of_buses branch.now) (length marks.now) }
    ensures { result ≡ either_marked (has_mark marks.now) branch.now.first branch.now.second }
{
    match (branch.first, branch.second) {
        (Some(first), Some(_)) => marks[first as usize],
        (Some(first), None) => bus_marked(marks, first),
        (None, Some(second)) => bus_marked(marks, second),
        (None, None) => false,
    }
}

// For each bus the least one that is joined to it by what the buses point to, and by the branches that stand in marked
// ones.
fn join_marked(labels: Vec<u32>, marks: &[bool], branches: &[BranchBuses]) -> Vec<u32>
    requires parents { (net : Graph) × AreParents net labels.items }
    requires long { length marks.now ≡ length labels.items }
    requires ends { EndsBelow (flat_map pairs_of_buses branches.now) (length labels.items) }
    ensures { (net : Graph) → AreParents net labels.items → AreLabelsOf
        (with_pairs net (flat_map (marked_pairs (has_mark marks.now)) branches.now)) result.items }
{
    let mut joiner = Joiner::of_parents(labels);
    for branch in branches {
        if stands_marked(marks, branch) {
            join_branch(&mut joiner, branch);
        }
    }
    joiner.into_labels()
}

/// For each bus the least one that is joined to it by branches, some of which stood elsewhere before: by the labels
/// that the buses had then, where the components of all buses are marked that those branches joined or join.
pub(crate) fn rejoin(
    mut labels: Vec<u32>,
    mut marks: Vec<bool>,
    branches: &[BranchBuses],
) -> Vec<u32>
    requires few { length labels.items < 2 ^ 32 }
    requires long { length marks.items ≡ length labels.items }
    requires ends { EndsBelow (flat_map pairs_of_buses branches.now) (length labels.items) }
    requires labels { (before : List BranchBuses)
        × AreLabelsOf (graph (length labels.items) (flat_map pairs_of_buses before)) labels.items }
    ensures { (before : List BranchBuses)
        → AreLabelsOf (graph (length labels.items) (flat_map pairs_of_buses before)) labels.items
        → AreOthersMarked (rejoining.is_marked labels.items marks.items) before branches.now
        → AreLabelsOf (graph (length labels.items) (flat_map pairs_of_buses branches.now))
        result.items }
{
    set_apart(&mut labels, &mut marks);
    join_marked(labels, &marks, branches)
}
