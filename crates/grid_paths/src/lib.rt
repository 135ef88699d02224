//! The path of least measure from a node to a goal.
#![tactic(auto)]

mod front;

ghost use Rattle.std.specs.Prelude.{◌≡◌, ℕ, ◌+◌, ◌<◌, ◌∷◌, length, IfOk, OnOk, IfSome, IfNone, IsTrue, not, List, Bool, false, true, slice_set, slice_get, Some};
ghost use Rattle.std.specs.List.Sorted.{IsPermutation};
ghost use Rattle.grid_paths.specs.Routes.{PathEdge, EndsBelow, IsLeastRoute, all_ends, is_route, is_goal};
ghost use Rattle.grid_paths.specs.Search as search;
ghost use Rattle.grid_paths.specs.Search.{weight_of_lem, AreNexts, IsTight, IsBest, IsStarted, AreLeastCosts, Walks, cost_at, far, Takes, Spreads, Visits};
ghost use Rattle.grid_paths.specs.Laws.{EqualMeasureIsEqualPath};

use front::Front;
use grid_ids::{Memory, Seq};
use grid_queue::Next;
use std::alloc::Global;

/// What it takes to pass along an edge.
#[derive(Debug, Clone, Copy, PartialEq, Eq)]
pub enum Way {
    /// It may be passed as it is.
    Free,
    /// It may be passed once it is closed.
    Closable,
    /// No path passes it.
    Barred,
}

/// A list of places of edges, counted from 0.
pub type Places = Seq<u32>;

/// Numbered nodes with the edges at each of them, seen as the list of the edges. Nodes are numbers from 0 on.
pub trait PathNet {
    ghost use Rattle.std.specs.Prelude.{ℕ, List};
    ghost use Rattle.grid_paths.specs.Routes.{PathEdge};

    ghost nodes: { Self → ℕ };

    ghost edges: { Self → List PathEdge };

    /// Tells that the ends of the edges are nodes.
    fn ends_below(&self)
        ensures { EndsBelow (edges self.now) (nodes self.now) };

    /// The edges at a node in order of place, each with its other end.
    fn nexts(&self, node: u32) -> &[Next]
        requires { node < nodes self.now }
        ensures { AreNexts (all_ends (edges self.now)) node result.now };

    /// What it takes to pass along the edge at a place.
    fn way(&self, place: u32) -> Way
        requires { place < length (edges self.now) }
        ensures { (edge : PathEdge) → slice_get (edges self.now) place ≡ Some edge
            → result ≡ edge.way };
}

/// More than any route costs.
const FAR: u64 = u64::MAX;

/// The weight of an edge, if it isn't barred: a closing weighs more than any count of edges.
fn weight_of(way: Way) -> Option<u64>
    ensures { result ≡ weight_of_lem way }
{
    match way {
        Way::Free => Some(1),
        Way::Closable => Some(4_294_967_297),
        Way::Barred => None,
    }
}

/// The weight of the edge at a place, if it isn't barred.
fn step_weight<N: PathNet>(net: &N, place: u32) -> Option<u64>
    requires { place < length (N.edges net.now) }
    ensures { result ≡ search.step_weight (N.edges net.now) place }
{
    weight_of(net.way(place))
}

/// Whether the step costs just what was found at its start. As none is for nothing, only one to a node of lesser cost
/// is weighed.
fn is_tight<N: PathNet>(net: &N, next: Next, found: &[u64], here: u64) -> bool
    requires edge { next.edge < length (N.edges net.now) }
    requires node { next.node < length found.now }
    ensures yes { result ≡ true → IsTight (N.edges net.now) found.now here next }
    ensures no { result ≡ false → IsTight (N.edges net.now) found.now here next → ⊥ }
{
    let beyond = found[next.node as usize];
    if beyond >= here {
        return false;
    }
    match step_weight(net, next.edge) {
        Some(weight) => here - beyond == weight,
        None => false,
    }
}

/// Of the steps that cost just what was found at their start, the one of least place.
fn best_step<N: PathNet>(net: &N, found: &[u64], node: u32) -> Option<Next>
    requires long { length found.now ≡ N.nodes net.now }
    requires node { node < length found.now }
    ensures { IsBest (N.edges net.now) found.now node result }
{
    net.ends_below();
    let here = found[node as usize];
    for next in net.nexts(node) {
        if is_tight(net, *next, found, here) {
            return Some(*next);
        }
    }
    None
}

/// What was found so far, and the nodes from which the search goes on.
#[derive(Drop)]
struct Search {
    found: Vec<u64>,
    front: Front,
}

impl Search {
    /// The search at its start: each goal costs nothing, and all else is far.
    fn start(alloc: Global, goals: &[bool]) -> Result<Search, Memory>
        requires { length goals.now < 4294967296 }
        ensures { IfOk result (λ search. IsStarted goals.now (length goals.now) search.found.items
            search.front) }
    {
        let mut search = Search {
            found: vec![in alloc; FAR; goals.len()]?,
            front: Front::with_room(alloc, goals.len())?,
        };
        for (node, goal) in goals.iter().enumerate() {
            search.begin(node as u32, *goal)?;
        }
        Ok(search)
    }

    /// Begins at one more node, if it is a goal.
    fn begin(&mut self, node: u32, goal: bool) -> Result<(), Memory>
        requires { node < length self.old.found.items }
        ensures { OnOk result ((goals : List Bool) → is_goal goals node ≡ goal
            → IsStarted goals node self.old.found.items self.old.front
            → IsStarted goals (node + 1) self.new.found.items self.new.front) }
    {
        if !goal {
            return Ok(());
        }
        self.found[node as usize] = 0;
        self.front.put(0, node, false)
    }

    /// A node can be reached at a lesser cost.
    fn lower(&mut self, node: u32, cost: u64, by_closing: bool) -> Result<(), Memory>
        requires { node < length self.old.found.items }
        ensures found { self.new.found.items ≡ slice_set self.old.found.items node cost }
        ensures front { OnOk result (IsPermutation ((cost, node) ∷ self.old.front)
            self.new.front) }
    {
        self.found[node as usize] = cost;
        self.front.put(cost, node, by_closing)
    }

    /// A step from a node that costs this much. As each step weighs 1 at least, only one to a node that costs more than
    /// that is weighed.
    fn take<N: PathNet>(&mut self, net: &N, next: Next, cost: u64) -> Result<(), Memory>
        requires edge { next.edge < length (N.edges net.now) }
        requires node { next.node < length self.old.found.items }
        ensures { OnOk result (Takes (search.step_weight (N.edges net.now) next.edge) next.node cost
            self.old.found.items self.old.front self.new.found.items self.new.front) }
    {
        let excess = self.found[next.node as usize].saturating_sub(cost);
        if excess <= 1 {
            return Ok(());
        }
        match step_weight(net, next.edge) {
            Some(weight) if excess > weight => self.lower(next.node, weight + cost, weight > 1),
            _ => Ok(()),
        }
    }

    /// The steps from a node that costs this much.
    fn spread<N: PathNet>(&mut self, net: &N, node: u32, cost: u64) -> Result<(), Memory>
        requires long { length self.old.found.items ≡ N.nodes net.now }
        requires node { node < length self.old.found.items }
        ensures { OnOk result (Spreads (N.edges net.now) node cost self.old.found.items
            self.old.front self.new.found.items self.new.front) }
    {
        net.ends_below();
        for next in net.nexts(node) {
            self.take(net, *next, cost)?;
        }
        Ok(())
    }

    /// A node that waited at this cost: its steps are taken, unless it was found at a lesser one since, or `from` at no
    /// greater one.
    fn visit<N: PathNet>(&mut self, net: &N, from: u32, cost: u64, node: u32) -> Result<(), Memory>
        requires long { length self.old.found.items ≡ N.nodes net.now }
        requires from { from < length self.old.found.items }
        requires node { node < length self.old.found.items }
        ensures { OnOk result (Visits (N.edges net.now) from cost node self.old.found.items
            self.old.front self.new.found.items self.new.front) }
    {
        let limit = self.found[from as usize];
        if cost >= limit || self.found[node as usize] != cost {
            return Ok(());
        }
        self.spread(net, node, cost)
    }
}

/// For each node the least cost of a route to a goal, as far as that is no more than the least cost from `from`: what
/// costs more isn't looked for.
fn least_costs<N: PathNet>(
    alloc: Global,
    net: &N,
    from: u32,
    goals: &[bool],
) -> Result<Vec<u64>, Memory>
    requires long { length goals.now ≡ N.nodes net.now }
    requires few { length goals.now < 4294967296 }
    requires from { from < length goals.now }
    ensures { IfOk result (λ found. AreLeastCosts (N.edges net.now) goals.now found.items
        (cost_at found.items from)) }
{
    let mut search = Search::start(alloc, goals)?;
    while let Some((cost, node)) = search.front.take() {
        search.visit(net, from, cost, node)?;
    }
    Ok(search.found)
}

/// Walks down the costs to a goal, each time by the least place.
fn walk<N: PathNet>(alloc: Global, net: &N, found: &[u64], from: u32) -> Result<Places, Memory>
    requires long { length found.now ≡ N.nodes net.now }
    requires from { from < length found.now }
    ensures { IfOk result (λ path. (goals : List Bool)
        → AreLeastCosts (N.edges net.now) goals found.now (cost_at found.now from)
        → cost_at found.now from < far
        → Walks (N.edges net.now) goals found.now from path) }
{
    net.ends_below();
    let mut path = Places::empty(alloc);
    let mut node = from;
    while let Some(next) = best_step(net, found, node) {
        path.push(next.edge)?;
        node = next.node;
    }
    Ok(path)
}

/// The path from a node to a goal, over edges that are not barred and without a repeated node, of least measure: the
/// count of edges that have to be closed, then the count of edges, then the places item by item. The path of no edges
/// counts. None exactly where there is no such path. `goals` has one truth value per node. The measure is this
/// project's own.
pub fn least_path<N: PathNet>(
    alloc: Global,
    net: &N,
    from: u32,
    goals: &[bool],
) -> Result<Option<Places>, Memory>
    requires goals { length goals.now ≡ N.nodes net.now }
    requires few { length goals.now < 4294967296 }
    requires from { from < length goals.now }
    ensures least { IfOk result (λ answer. IfSome answer (λ path. IsLeastRoute (N.edges net.now)
        goals.now from path)) }
    ensures none { IfOk result (λ answer. IfNone answer ((path : List ℕ) → IsTrue (not (is_route
        (N.edges net.now) goals.now from path)))) }
{
    net.ends_below();
    let found = least_costs(alloc, net, from, goals)?;
    if found[from as usize] < FAR {
        Ok(Some(walk(alloc, net, found.as_slice(), from)?))
    } else {
        Ok(None)
    }
}

/// Two lists of places of equal measure are one list, whatever the places cost.
pub fn equal_measure_is_equal_path()
    ensures { EqualMeasureIsEqualPath }
{}
