// A level's nets under the rules of both views.
ghost use Rattle.std.specs.Prelude.{◌≡◌, ◌≤◌, ◌+◌, ◌*◌, IfOk, OnOk, OnErr, IsTrue, length, slice_get, Some, unwrap_or};
ghost use Rattle.grid_graph.specs.Graph.{labels_of};
ghost use Rattle.grid_level.specs.Passing.{nodes};
ghost use Rattle.grid_queue.specs.Net.{with_passing, passing_graph};
ghost use Rattle.grid_groups.specs.Nets.{net_where};
ghost use Rattle.grid_bench.specs.Nets.{net_pair, IsEdgeOf};
ghost use Rattle.grid_bench.specs.Costs.{set_cost};

use crate::nets::Labelled;
use grid_connect::LabelledNet;
use grid_groups::NodeIndices;
use grid_ids::{Memory, same_items};
use grid_labels::Labels;
use grid_queue::{Counts, Steps};
use std::alloc::Global;
use std::marker::Model;
use std::sync::ledger::Ledger;

/// A level's nets under the rules of the bus view and of the bus/breaker view, with the labels of their nodes. Where no
/// closed switch is retained they are the same, and one serves both. It is seen as the two nets.
pub(crate) struct ViewNets {
    alloc: Global,
    bus: Labelled,
    // None where it is the same as that of the bus view.
    breaker: Option<Labelled>,
}

// Written out, so that where one is dropped a proof sees one call.
impl Drop for ViewNets {
    fn drop(self) {
        let ViewNets {
            alloc: _,
            bus: _,
            breaker: _,
        } = self;
    }
}

impl Model for ViewNets {
    ghost use Rattle.std.specs.Prelude.{unwrap_or};
    ghost use Rattle.grid_bench.specs.Nets.{NetPair, net_pair};

    ghost Value = { NetPair };

    ghost view = { λ nets. net_pair nets.bus (unwrap_or nets.breaker nets.bus) };
}

// The net of a level under a second rule, where it passes other switches than the first. It costs two visits per node
// at most.
fn second_net<L: Ledger>(
    alloc: Global,
    indices: &NodeIndices,
    first: &[bool],
    second: &[bool],
    steps: &mut Steps<L>,
) -> Result<Option<Labelled>, Memory>
    requires { length second.now ≡ length indices.now.switches }
    ensures net { IfOk result (λ net. unwrap_or net (net_where indices.now first.now)
        ≡ net_where indices.now second.now) }
    ensures cost { steps.new ≤ steps.old + 2 * length (nodes indices.now) }
{
    if same_items(first, second) {
        return Ok(None);
    }
    Ok(Some(Labelled::of(alloc, indices, second, steps)?))
}

// Lets an edge pass or not in the second of two nets, where another flag is set in the first one thereafter. None for
// the second net says that it is the first, and it becomes one of its own where the two flags differ.
fn set_second<L: Ledger, W: Ledger>(
    alloc: Global,
    second: &mut Option<Labelled>,
    first: &Labelled,
    edge: u32,
    ends: (u32, u32),
    flags: (bool, bool),
    counts: &mut Counts<L, W>,
) -> Result<(), Memory>
    requires { IsEdgeOf (unwrap_or second.old first.now) edge ends.0 ends.1 }
    ensures net { OnOk result (unwrap_or second.new (with_passing first.now edge flags.0)
        ≡ with_passing (unwrap_or second.old first.now) edge flags.1) }
    ensures same { OnErr result (second.new ≡ second.old) }
    ensures free { OnErr result (counts.new ≡ counts.old) }
    ensures visits { counts.new.visits
        ≤ counts.old.visits + set_cost (unwrap_or second.old first.now) edge ends.0 ends.1 flags.1 }
    ensures writes { counts.new.writes
        ≤ counts.old.writes + set_cost (unwrap_or second.old first.now) edge ends.0 ends.1 flags.1 }
{
    if let Some(net) = second {
        net.set(edge, ends, flags.1, counts);
        return Ok(());
    }
    if flags.0 == flags.1 {
        return Ok(());
    }
    let mut net = first.copy(alloc)?;
    net.set(edge, ends, flags.1, counts);
    *second = Some(net);
    Ok(())
}

impl ViewNets {
    /// The nets of a level whose switches pass where their flag for the view is set. They cost four visits per node at
    /// most.
    pub(crate) fn of<L: Ledger>(
        alloc: Global,
        indices: &NodeIndices,
        bus: &[bool],
        breaker: &[bool],
        steps: &mut Steps<L>,
    ) -> Result<ViewNets, Memory>
        requires bus { length bus.now ≡ length indices.now.switches }
        requires breaker { length breaker.now ≡ length indices.now.switches }
        ensures nets { IfOk result (λ nets. nets
            ≡ net_pair (net_where indices.now bus.now) (net_where indices.now breaker.now)) }
        ensures cost { steps.new ≤ steps.old + 4 * length (nodes indices.now) }
    {
        let breaker = second_net(alloc, indices, bus, breaker, steps)?;
        let bus = Labelled::of(alloc, indices, bus, steps)?;
        Ok(ViewNets {
            alloc,
            bus,
            breaker,
        })
    }

    /// The labels of the net of the bus view.
    pub(crate) fn bus_labels(&self) -> &Labels
        ensures { result.now ≡ labels_of (passing_graph self.now.bus) }
    {
        self.bus.labels()
    }

    /// The net of the bus view with its labels.
    pub(crate) fn bus_net(&self) -> LabelledNet<'_>
        ensures net { result.net.now ≡ self.now.bus }
        ensures labels { result.labels.now ≡ labels_of (passing_graph self.now.bus) }
    {
        self.bus.lent()
    }

    /// The labels of the net of the bus/breaker view.
    pub(crate) fn breaker_labels(&self) -> &Labels
        ensures { result.now ≡ labels_of (passing_graph self.now.breaker) }
    {
        match &self.breaker {
            Some(breaker) => breaker.labels(),
            None => self.bus.labels(),
        }
    }

    /// Lets the edge at a place, between two nodes, pass or not in each net, and tells whether all labels of the bus
    /// view are known to stay. It visits, and writes to, at most the nodes that are joined to one of them before or
    /// after. Where memory runs out the nets are as they were, and nothing was visited or written.
    pub(crate) fn set<L: Ledger, W: Ledger>(
        &mut self,
        edge: u32,
        ends: (u32, u32),
        bus: bool,
        breaker: bool,
        counts: &mut Counts<L, W>,
    ) -> Result<bool, Memory>
        requires bus { IsEdgeOf self.old.bus edge ends.0 ends.1 }
        requires breaker { IsEdgeOf self.old.breaker edge ends.0 ends.1 }
        ensures nets { OnOk result (self.new
            ≡ net_pair (with_passing self.old.bus edge bus) (with_passing self.old.breaker edge
            breaker)) }
        ensures stay { IfOk result (λ stay. IsTrue stay → labels_of (passing_graph self.new.bus)
            ≡ labels_of (passing_graph self.old.bus)) }
        ensures same { OnErr result (self.new ≡ self.old) }
        ensures free { OnErr result (counts.new ≡ counts.old) }
        ensures visits { counts.new.visits
            ≤ counts.old.visits + (set_cost self.old.bus edge ends.0 ends.1 bus + set_cost self.old.breaker
            edge ends.0 ends.1 breaker) }
        ensures writes { counts.new.writes
            ≤ counts.old.writes + (set_cost self.old.bus edge ends.0 ends.1 bus + set_cost self.old.breaker
            edge ends.0 ends.1 breaker) }
    {
        let flags = (bus, breaker);
        set_second(
            self.alloc,
            &mut self.breaker,
            &self.bus,
            edge,
            ends,
            flags,
            counts,
        )?;
        Ok(self.bus.set(edge, ends, bus, counts))
    }
}
