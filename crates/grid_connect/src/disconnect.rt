// The plan that disconnects a node.
ghost use Rattle.std.specs.Prelude.{◌≡◌, length, IfOk, IsTrue};
ghost use Rattle.grid_graph.specs.Graph.{labels_of};
ghost use Rattle.grid_level.specs.Kept.{among};
ghost use Rattle.grid_level.specs.Passing as passing;
ghost use Rattle.grid_level.specs.Passing.{nodes, positioned};
ghost use Rattle.grid_groups.specs.Nets.{net_where, closed_flags};
ghost use Rattle.grid_queue.specs.Net.{passing_graph};
ghost use Rattle.grid_connect.specs.Plans.{disconnect_plan_of};
ghost use Rattle.grid_connect.specs.Effects.{Disconnects};
ghost use Rattle.grid_connect.specs.Indexed.{core_flags, leaves_marked, leaving_marked};

use crate::joined::{first_busbar, has_mark, is_connected, is_connected_by, joined_to};
use crate::paths::is_operable;
use crate::{DisconnectPlan, LabelledNet};
use grid_groups::NodeIndices;
use grid_ids::{Duplicate, Memory};
use grid_level::{Level, Switch};
use grid_paths::Places;
use std::alloc::Global;

// Which switches pass in the core: the closed ones that are not operable breakers.
fn closed_core(alloc: Global, level: &Level, states: &[bool]) -> Result<Vec<bool>, Memory>
    ensures { IfOk result (λ passes. passes.items ≡ core_flags level.now.switches states.now) }
{
    Ok(
        level
            .switches()
            .iter()
            .zip(states)
            .map(|(switch, opened)| !*opened && !is_operable(switch))
            .collect(alloc)?,
    )
}

// Whether the switch is a closed operable breaker with exactly one marked end.
fn leaves(indices: &NodeIndices, marks: &[bool], switch: &Switch, opened: bool) -> bool
    requires first { IsTrue (among (nodes indices.now) switch.now.node1) }
    requires second { IsTrue (among (nodes indices.now) switch.now.node2) }
    requires long { length marks.now ≡ length (nodes indices.now) }
    ensures { result ≡ leaves_marked (nodes indices.now) marks.now switch.now opened }
{
    if opened || !is_operable(switch) {
        return false;
    }
    has_mark(indices, marks, switch.node1) != has_mark(indices, marks, switch.node2)
}

// The places of the closed operable breakers with exactly one marked end.
fn leaving(
    alloc: Global,
    indices: &NodeIndices,
    states: &[bool],
    marks: &[bool],
) -> Result<Places, Memory>
    requires flags { length states.now ≡ length indices.now.switches }
    requires long { length marks.now ≡ length (nodes indices.now) }
    ensures { IfOk result (λ places. places
        ≡ leaving_marked (nodes indices.now) marks.now 0 indices.now.switches states.now) }
{
    let level = indices.level();
    level.keeps();
    let mut places = Places::empty(alloc);
    for (place, switch) in level.switches().iter().enumerate() {
        if leaves(indices, marks, switch, states[place]) {
            places.push(place as u32)?;
        }
    }
    Ok(places)
}

// The plan that disconnects a node, of which it is known whether it is connected.
fn disconnect_if(
    alloc: Global,
    level: &Level,
    states: &[bool],
    node: u16,
    connected: bool,
) -> Result<DisconnectPlan, Memory>
    requires flags { length states.now ≡ length level.now.switches }
    requires node { IsTrue (among (nodes level.now) node) }
    requires connected { connected ≡ passing.is_connected (positioned level.now states.now) node }
    ensures plan { IfOk result (λ plan. plan
        ≡ disconnect_plan_of (positioned level.now states.now) node) }
    ensures disconnects { IfOk result (Disconnects (positioned level.now states.now) node) }
{
    level.keeps();
    if !connected {
        return Ok(DisconnectPlan::AlreadyDisconnected);
    }
    let closed = closed_core(alloc, level, states)?;
    let core = joined_to(alloc, level, closed.as_slice(), node)?;
    let indices = NodeIndices::of(alloc, level)?;
    match first_busbar(&indices, core.as_slice()) {
        Some(placed) => Ok(DisconnectPlan::NoBreaker(placed.terminal.copy()?)),
        None => Ok(DisconnectPlan::Opens(leaving(alloc, &indices, states, core.as_slice())?)),
    }
}

/// What disconnects a node of the level, with its switches in these positions, one flag per switch, true for open. The
/// core is the nodes joined to the node by internal connections and by closed switches other than breakers that are not
/// fictitious; the plan opens each of these breakers that leaves the core. Where the core has a busbar section, no
/// breaker stands before the one at its least such node. The rule is this project's own.
pub fn plan_disconnect(
    alloc: Global,
    level: &Level,
    states: &[bool],
    node: u16,
) -> Result<DisconnectPlan, Memory>
    requires flags { length states.now ≡ length level.now.switches }
    requires node { IsTrue (among (nodes level.now) node) }
    ensures plan { IfOk result (λ plan. plan
        ≡ disconnect_plan_of (positioned level.now states.now) node) }
    ensures disconnects { IfOk result (Disconnects (positioned level.now states.now) node) }
{
    let connected = is_connected(alloc, level, states, node)?;
    disconnect_if(alloc, level, states, node, connected)
}

/// The same plan by the level's net that is kept with its labels, where the closed switches pass. Where the node is not
/// connected, it searches nothing.
pub fn plan_disconnect_from(
    alloc: Global,
    level: &Level,
    states: &[bool],
    node: u16,
    kept: &LabelledNet,
) -> Result<DisconnectPlan, Memory>
    requires flags { length states.now ≡ length level.now.switches }
    requires node { IsTrue (among (nodes level.now) node) }
    requires net { kept.now.net.now ≡ net_where level.now (closed_flags states.now) }
    requires labels { kept.now.labels.now ≡ labels_of (passing_graph kept.now.net.now) }
    ensures plan { IfOk result (λ plan. plan
        ≡ disconnect_plan_of (positioned level.now states.now) node) }
    ensures disconnects { IfOk result (Disconnects (positioned level.now states.now) node) }
{
    let connected = is_connected_by(level, states, kept.labels.numbers(), node);
    disconnect_if(alloc, level, states, node, connected)
}
