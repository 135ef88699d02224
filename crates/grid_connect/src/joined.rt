// The nodes that are joined to a node, and the busbar section among them.
ghost use Rattle.std.specs.Prelude.{◌≡◌, ◌&&◌, ◌==◌, length, map, not, IfOk, IsTrue};
ghost use Rattle.std.specs.Option.{option_copied};
ghost use Rattle.grid_graph.specs.Graph.{labels_of};
ghost use Rattle.grid_level.specs.Kept.{among};
ghost use Rattle.grid_level.specs.Passing as passing;
ghost use Rattle.grid_level.specs.Passing.{nodes, bus, positioned};
ghost use Rattle.grid_groups.specs.Labels.{graph_under, label_of};
ghost use Rattle.grid_connect.specs.Indexed.{marks_where, is_marked, marked_busbar, labelled_busbar};

use grid_groups::{NodeIndices, index_of, labels};
use grid_ids::Memory;
use grid_level::{Level, Placed, Stand};
use std::alloc::Global;

// Whether this is a busbar section.
#[tactic(auto, unfolding(grid_level::specs::Passing::is_busbar))]
pub(crate) fn is_busbar(stand: &Stand) -> bool
    ensures { result ≡ passing.is_busbar stand.now }
{
    match stand {
        Stand::Busbar => true,
        Stand::Feeder(_) => false,
        Stand::BranchEnd => false,
    }
}

// Which switches pass: the closed ones.
pub(crate) fn closed(alloc: Global, opened: &[bool]) -> Result<Vec<bool>, Memory>
    ensures { IfOk result (λ closed. closed.items ≡ map not opened.now) }
{
    Ok(opened.iter().map(|opened| !*opened).collect(alloc)?)
}

// Which labels equal this one.
fn equal_to(alloc: Global, labels: &[u32], own: u32) -> Result<Vec<bool>, Memory>
    ensures { IfOk result (λ marks. marks.items ≡ map (λ label. label == own) labels.now) }
{
    Ok(labels.iter().map(|label| *label == own).collect(alloc)?)
}

// The label of a node.
fn label_at(level: &Level, labels: &[u32], node: u16) -> u32
    requires node { IsTrue (among (nodes level.now) node) }
    requires long { length labels.now ≡ length (nodes level.now) }
    ensures { result ≡ label_of (nodes level.now) labels.now node }
{
    labels[index_of(level, node) as usize]
}

// Which nodes are joined to this one, where the switches whose flag is set pass.
pub(crate) fn joined_to(
    alloc: Global,
    level: &Level,
    passes: &[bool],
    node: u16,
) -> Result<Vec<bool>, Memory>
    requires flags { length passes.now ≡ length level.now.switches }
    requires node { IsTrue (among (nodes level.now) node) }
    ensures marks { IfOk result (λ marks. marks.items ≡ marks_where level.now passes.now node) }
    ensures long { IfOk result (λ marks. length marks.items ≡ length (nodes level.now)) }
{
    level.keeps();
    let labels = labels(alloc, level, passes)?;
    let own = label_at(level, labels.as_slice(), node);
    equal_to(alloc, labels.as_slice(), own)
}

// Whether the node is marked.
pub(crate) fn has_mark(indices: &NodeIndices, marks: &[bool], node: u16) -> bool
    requires node { IsTrue (among (nodes indices.now) node) }
    requires long { length marks.now ≡ length (nodes indices.now) }
    ensures { result ≡ is_marked (nodes indices.now) marks.now node }
{
    marks[indices.of_node(node) as usize]
}

// Whether a busbar section stands at a marked node.
fn is_marked_busbar(indices: &NodeIndices, marks: &[bool], placed: &Placed) -> bool
    requires node { IsTrue (among (nodes indices.now) placed.now.node) }
    requires long { length marks.now ≡ length (nodes indices.now) }
    ensures { result
        ≡ (is_marked (nodes indices.now) marks.now placed.now.node && passing.is_busbar
        placed.now.stand) }
{
    has_mark(indices, marks, placed.node) && is_busbar(&placed.stand)
}

// The first busbar section at a marked node.
pub(crate) fn first_busbar<'a>(indices: &NodeIndices<'a>, marks: &[bool]) -> Option<&'a Placed>
    requires { length marks.now ≡ length (nodes indices.now) }
    ensures { option_copied result
        ≡ marked_busbar (nodes indices.now) marks.now indices.now.placed }
{
    let level = indices.level();
    level.keeps();
    for placed in level.placed() {
        if is_marked_busbar(indices, marks, placed) {
            return Some(placed);
        }
    }
    None
}

// Whether this is a busbar section at a node with this label.
fn is_labelled_busbar(level: &Level, labels: &[u32], own: u32, placed: &Placed) -> bool
    requires node { IsTrue (among (nodes level.now) placed.now.node) }
    requires long { length labels.now ≡ length (nodes level.now) }
    ensures { result
        ≡ ((label_of (nodes level.now) labels.now placed.now.node == own) && passing.is_busbar
        placed.now.stand) }
{
    is_busbar(&placed.stand) && label_at(level, labels, placed.node) == own
}

// Whether a busbar section stands at a node with this label.
fn has_busbar(level: &Level, labels: &[u32], own: u32) -> bool
    requires { length labels.now ≡ length (nodes level.now) }
    ensures { result ≡ labelled_busbar (nodes level.now) labels.now own level.now.placed }
{
    level.keeps();
    for placed in level.placed() {
        if is_labelled_busbar(level, labels, own, placed) {
            return true;
        }
    }
    false
}

// Whether the node is joined to a busbar section over internal connections and closed switches, by labels of the
// level's nodes, by index, where the closed switches pass.
pub(crate) fn is_connected_by(level: &Level, states: &[bool], labels: &[u32], node: u16) -> bool
    requires flags { length states.now ≡ length level.now.switches }
    requires node { IsTrue (among (nodes level.now) node) }
    requires labels { labels.now ≡ labels_of (graph_under bus (positioned level.now states.now)) }
    ensures { result ≡ passing.is_connected (positioned level.now states.now) node }
{
    level.keeps();
    has_busbar(level, labels, label_at(level, labels, node))
}

// The same, by labels that are made of the level.
pub(crate) fn is_connected(
    alloc: Global,
    level: &Level,
    states: &[bool],
    node: u16,
) -> Result<bool, Memory>
    requires flags { length states.now ≡ length level.now.switches }
    requires node { IsTrue (among (nodes level.now) node) }
    ensures { IfOk result (λ connected. connected
        ≡ passing.is_connected (positioned level.now states.now) node) }
{
    let closed = closed(alloc, states)?;
    let labels = labels(alloc, level, closed.as_slice())?;
    Ok(is_connected_by(level, states, labels.as_slice(), node))
}
