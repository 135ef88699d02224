// A level's net. It is a list of flags that says which switches pass, so that one piece serves every rule.
ghost use Rattle.std.specs.Prelude.{◌≡◌, ◌≤◌, ◌+◌, IfOk, IsTrue, length};
ghost use Rattle.grid_level.specs.Kept.{among};
ghost use Rattle.grid_level.specs.Passing.{nodes};
ghost use Rattle.grid_groups.specs.Nets as nets;
ghost use Rattle.grid_groups.specs.Nets.{switch_net_edge, internal_net_edge, switch_net_edges, net_where};

use crate::node_indices::NodeIndices;
use grid_ids::Memory;
use grid_level::{Internal, Switch};
use grid_queue::{Net, NetEdge, Steps};
use std::alloc::Global;
use std::sync::ledger::Ledger;

// The switch as an edge of the net.
fn switch_edge(indices: &NodeIndices, switch: &Switch, passing: bool) -> NetEdge
    requires first { IsTrue (among (nodes indices.now) switch.now.node1) }
    requires second { IsTrue (among (nodes indices.now) switch.now.node2) }
    ensures { result ≡ switch_net_edge (nodes indices.now) switch.now passing }
{
    NetEdge {
        a: indices.of_node(switch.node1),
        b: indices.of_node(switch.node2),
        passing,
    }
}

// The internal connection as an edge of the net.
fn internal_edge(indices: &NodeIndices, internal: &Internal) -> NetEdge
    requires first { IsTrue (among (nodes indices.now) internal.now.node1) }
    requires second { IsTrue (among (nodes indices.now) internal.now.node2) }
    ensures { result ≡ internal_net_edge (nodes indices.now) internal.now }
{
    NetEdge {
        a: indices.of_node(internal.node1),
        b: indices.of_node(internal.node2),
        passing: true,
    }
}

// The switches as edges, which pass where their flag is set.
fn switch_edges(
    alloc: Global,
    indices: &NodeIndices,
    passes: &[bool],
) -> Result<Vec<NetEdge>, Memory>
    requires { length passes.now ≡ length indices.now.switches }
    ensures { IfOk result (λ edges. edges.items
        ≡ switch_net_edges (nodes indices.now) indices.now.switches passes.now) }
{
    let level = indices.level();
    level.keeps();
    let mut edges = Vec::with_capacity(alloc, level.edge_count() as usize)?;
    for (place, switch) in level.switches().iter().enumerate() {
        edges.push(switch_edge(indices, switch, passes[place]))?;
    }
    Ok(edges)
}

// The edges of the level's net.
fn net_edges(alloc: Global, indices: &NodeIndices, passes: &[bool]) -> Result<Vec<NetEdge>, Memory>
    requires { length passes.now ≡ length indices.now.switches }
    ensures { IfOk result (λ edges. edges.items ≡ nets.net_edges indices.now passes.now) }
{
    let level = indices.level();
    level.keeps();
    let mut edges = switch_edges(alloc, indices, passes)?;
    for internal in level.internals() {
        edges.push(internal_edge(indices, internal))?;
    }
    Ok(edges)
}

/// The net of a level whose switches pass where their flag is set, at a step for each node at most.
pub fn net_of<L: Ledger>(
    alloc: Global,
    indices: &NodeIndices,
    passes: &[bool],
    steps: &mut Steps<L>,
) -> Result<Net, Memory>
    requires { length passes.now ≡ length indices.now.switches }
    ensures net { IfOk result (λ net. net ≡ net_where indices.now passes.now) }
    ensures cost { steps.new ≤ steps.old + length (nodes indices.now) }
{
    let level = indices.level();
    level.keeps();
    let edges = net_edges(alloc, indices, passes)?;
    match Net::build(alloc, level.node_count(), &edges, steps) {
        Ok(net) => Ok(net),
        Err(_) => Err(Memory),
    }
}
