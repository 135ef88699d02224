// The label of each node.
ghost use Rattle.std.specs.Prelude.{◌≡◌, IfOk, IsTrue, ◌∷◌, [], length, map, filter, not};
ghost use Rattle.std.specs.List.{zip};
ghost use Rattle.grid_level.specs.Passing.{nodes, ends, switch_edge, internal_edge};
ghost use Rattle.grid_level.specs.Kept.{among};
ghost use Rattle.grid_groups.specs.Labels.{index_in, pair_by_index, pair_of, passing_flags, labels_where, Joins};

use crate::node_indices::NodeIndices;
use grid_ids::Memory;
use grid_level::Level;
use grid_queue::Joiner;
use std::alloc::Global;

/// The index of a node of the level. Where the nodes are counted from 0 without a gap, it is the node's number.
pub fn index_of(level: &Level, node: u16) -> u32
    requires { IsTrue (among (nodes level.now) node) }
    ensures { result ≡ index_in (nodes level.now) node }
{
    level.index_of(node).unwrap()
}

// Joins a pair of nodes.
fn join_pair(joiner: &mut Joiner, indices: &NodeIndices, node1: u16, node2: u16)
    requires first { IsTrue (among (nodes indices.now) node1) }
    requires second { IsTrue (among (nodes indices.now) node2) }
    requires long { length joiner.old ≡ length (nodes indices.now) }
    ensures long { length joiner.new ≡ length joiner.old }
    ensures joined { Joins (length (nodes indices.now))
        (pair_by_index (nodes indices.now) (pair_of node1 node2) ∷ []) joiner.old joiner.new }
{
    joiner.join(indices.of_node(node1), indices.of_node(node2));
}

// Joins the ends of each switch whose flag has the value that lets pass.
fn join_switches(joiner: &mut Joiner, indices: &NodeIndices, flags: &[bool], passing: bool)
    requires flags { length flags.now ≡ length indices.now.switches }
    requires long { length joiner.old ≡ length (nodes indices.now) }
    ensures long { length joiner.new ≡ length joiner.old }
    ensures joined { Joins (length (nodes indices.now))
        (map (pair_by_index (nodes indices.now)) (map (λ pair. ends (switch_edge pair.0)) (filter
        (λ pair. pair.1) (zip indices.now.switches (passing_flags passing flags.now)))))
        joiner.old joiner.new }
{
    let level = indices.level();
    level.keeps();
    for (pair, flag) in level.switch_ends().iter().zip(flags) {
        if *flag == passing {
            join_pair(joiner, indices, pair.0, pair.1);
        }
    }
}

// Joins the ends of each internal connection.
fn join_internals(joiner: &mut Joiner, indices: &NodeIndices)
    requires { length joiner.old ≡ length (nodes indices.now) }
    ensures { Joins (length (nodes indices.now))
        (map (pair_by_index (nodes indices.now)) (map (λ i. ends (internal_edge i))
        indices.now.internals)) joiner.old joiner.new }
{
    let level = indices.level();
    level.keeps();
    for internal in level.internals() {
        join_pair(joiner, indices, internal.node1, internal.node2);
    }
}

// The labels where the switches pass whose flag has one value.
fn labels_by(
    alloc: Global,
    level: &Level,
    flags: &[bool],
    passing: bool,
) -> Result<Vec<u32>, Memory>
    requires { length flags.now ≡ length level.now.switches }
    ensures { IfOk result (λ labels. labels.items
        ≡ labels_where level.now (passing_flags passing flags.now)) }
{
    let indices = NodeIndices::of(alloc, level)?;
    let Ok(mut joiner) = Joiner::new(alloc, level.node_count()) else {
        return Err(Memory);
    };
    join_switches(&mut joiner, &indices, flags, passing);
    join_internals(&mut joiner, &indices);
    Ok(joiner.into_labels())
}

/// For each node of the level, by rising number, the index of the least node joined to it. The switches whose flag
/// in `passes` is set let pass, and so does each internal connection.
pub fn labels(alloc: Global, level: &Level, passes: &[bool]) -> Result<Vec<u32>, Memory>
    requires { length passes.now ≡ length level.now.switches }
    ensures { IfOk result (λ labels. labels.items ≡ labels_where level.now passes.now) }
{
    labels_by(alloc, level, passes, true)
}

/// The same labels where the closed switches pass: those whose flag in `opened` is not set. It takes no list of flags.
pub fn closed_labels(alloc: Global, level: &Level, opened: &[bool]) -> Result<Vec<u32>, Memory>
    requires { length opened.now ≡ length level.now.switches }
    ensures { IfOk result (λ labels. labels.items ≡ labels_where level.now (map not opened.now)) }
{
    labels_by(alloc, level, opened, false)
}
