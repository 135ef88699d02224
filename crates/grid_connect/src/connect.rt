// The plan that connects a node.
ghost use Rattle.std.specs.Prelude.{◌≡◌, ◌<◌, ◌≤◌, ◌||◌, ◌&&◌, ◌==◌, ℕ, length, filter, IfOk, IsTrue, false, slice_index_or};
ghost use Rattle.grid_graph.specs.Graph.{labels_of};
ghost use Rattle.grid_level.specs.Kept.{among};
ghost use Rattle.grid_level.specs.Passing as passing;
ghost use Rattle.grid_level.specs.Passing.{nodes, positioned};
ghost use Rattle.grid_groups.specs.Nets.{net_where, closed_flags};
ghost use Rattle.grid_queue.specs.Net.{passing_graph};
ghost use Rattle.grid_paths.specs.Routes.{is_goal};
ghost use Rattle.grid_connect.specs.Plans.{connect_plan_of};
ghost use Rattle.grid_connect.specs.Effects.{Connects};
ghost use Rattle.grid_connect.specs.Indexed.{AreBusbars};

use crate::joined::{is_busbar, is_connected, is_connected_by};
use crate::paths::{LevelPaths, bus_net};
use crate::{ConnectPlan, LabelledNet};
use grid_groups::index_of;
use grid_ids::Memory;
use grid_level::Level;
use grid_paths::{Places, least_path};
use grid_queue::Net;
use std::alloc::Global;

// Marks an index, if a busbar section stands there.
fn mark_if(marks: &mut Vec<bool>, index: u32, busbar: bool)
    requires { index < length marks.old.items }
    ensures long { length marks.new.items ≡ length marks.old.items }
    ensures marks { (k : ℕ) → is_goal marks.new.items k
        ≡ (is_goal marks.old.items k || ((index == k) && busbar)) }
{
    if busbar {
        marks[index as usize] = true;
    }
}

// The nodes with a busbar section.
fn busbars(alloc: Global, level: &Level) -> Result<Vec<bool>, Memory>
    ensures long { IfOk result (λ marks. length marks.items ≡ length (nodes level.now)) }
    ensures busbars { IfOk result (λ marks. AreBusbars level.now marks.items) }
{
    level.keeps();
    let count = level.node_count() as usize;
    let mut marks = vec![in alloc; false; count]?;
    for placed in level.placed() {
        mark_if(
            &mut marks,
            index_of(level, placed.node),
            is_busbar(&placed.stand),
        );
    }
    Ok(marks)
}

// Whether the edge at a place is an open switch.
fn is_open(states: &[bool], place: u32) -> bool
    ensures { result ≡ slice_index_or states.now place false }
{
    match states.get(place as usize) {
        Some(opened) => *opened,
        None => false,
    }
}

// The open switches of a path, in its order.
fn open_places(alloc: Global, states: &[bool], path: &[u32]) -> Result<Places, Memory>
    ensures { IfOk result (λ opens. opens
        ≡ filter (λ p. slice_index_or states.now p false) path.now) }
{
    let mut opens = Places::empty(alloc);
    for place in path {
        if is_open(states, *place) {
            opens.push(*place)?;
        }
    }
    Ok(opens)
}

// The plan that connects a node which is not connected.
fn connect_over(
    alloc: Global,
    level: &Level,
    states: &[bool],
    node: u16,
    net: &Net,
) -> Result<ConnectPlan, Memory>
    requires flags { length states.now ≡ length level.now.switches }
    requires node { IsTrue (among (nodes level.now) node) }
    requires net { net.now ≡ net_where level.now (closed_flags states.now) }
    requires apart { passing.is_connected (positioned level.now states.now) node ≡ false }
    ensures plan { IfOk result (λ plan. plan
        ≡ connect_plan_of (positioned level.now states.now) node) }
    ensures connects { IfOk result (λ plan. Connects (positioned level.now states.now) node plan) }
{
    level.keeps();
    let goals = busbars(alloc, level)?;
    let paths = LevelPaths::over(level, states, net);
    match least_path(alloc, &paths, index_of(level, node), goals.as_slice())? {
        Some(path) => {
            let opens = open_places(alloc, states, path.slice())?;
            Ok(ConnectPlan::Close(opens))
        }
        None => Ok(ConnectPlan::NoPath),
    }
}

/// What connects a node of the level, with its switches in these positions, one flag per switch, true for open. Of the
/// paths from the node to a busbar section over internal connections, closed switches and open breakers that are not
/// fictitious, it takes the one with the least count of open breakers, then of edges, then the least list of places.
/// The rule is this project's own.
pub fn plan_connect(
    alloc: Global,
    level: &Level,
    states: &[bool],
    node: u16,
) -> Result<ConnectPlan, Memory>
    requires flags { length states.now ≡ length level.now.switches }
    requires node { IsTrue (among (nodes level.now) node) }
    ensures plan { IfOk result (λ plan. plan
        ≡ connect_plan_of (positioned level.now states.now) node) }
    ensures connects { IfOk result (λ plan. Connects (positioned level.now states.now) node plan) }
{
    if is_connected(alloc, level, states, node)? {
        return Ok(ConnectPlan::AlreadyConnected);
    }
    let net = bus_net(alloc, level, states)?;
    connect_over(alloc, level, states, node, &net)
}

/// The same plan by the level's net that is kept with its labels, where the closed switches pass. Where the node is
/// connected, it searches nothing.
pub fn plan_connect_from(
    alloc: Global,
    level: &Level,
    states: &[bool],
    node: u16,
    kept: &LabelledNet,
) -> Result<ConnectPlan, Memory>
    requires flags { length states.now ≡ length level.now.switches }
    requires node { IsTrue (among (nodes level.now) node) }
    requires net { kept.now.net.now ≡ net_where level.now (closed_flags states.now) }
    requires labels { kept.now.labels.now ≡ labels_of (passing_graph kept.now.net.now) }
    ensures plan { IfOk result (λ plan. plan
        ≡ connect_plan_of (positioned level.now states.now) node) }
    ensures connects { IfOk result (λ plan. Connects (positioned level.now states.now) node plan) }
{
    if is_connected_by(level, states, kept.labels.numbers(), node) {
        return Ok(ConnectPlan::AlreadyConnected);
    }
    connect_over(alloc, level, states, node, kept.net)
}
