// What a bench finds of a level: its views where the level is kept, and its plans, by the net that is at hand.
ghost use Rattle.std.specs.Prelude.{◌≡◌, ◌<◌, IfOk, IfSome, OnOk, OnErr, IsTrue, IsSome, Some, None, length};
ghost use Rattle.grid_graph.specs.Graph.{labels_of};
ghost use Rattle.grid_level.specs.Passing.{nodes, positioned, stood};
ghost use Rattle.grid_level.specs.Kept.{among};
ghost use Rattle.grid_groups.specs.Nets.{net_where, closed_flags};
ghost use Rattle.grid_queue.specs.Net.{passing_graph};
ghost use Rattle.grid_busbreaker.specs.Views.{bus_breaker_view_of};
ghost use Rattle.grid_busview.specs.Views.{bus_view_of};
ghost use Rattle.grid_connect.specs.Plans.{connect_plan_of, disconnect_plan_of};
ghost use Rattle.grid_bench.specs.Contents.{content};
ghost use Rattle.grid_bench.specs.Stores.{kept_for, KeepsOthers};

use crate::Bench;
use crate::kept::Kept;
use grid_busbreaker::{BusBreakerView, bus_breaker_from};
use grid_busview::{BusView, bus_view_from};
use grid_connect::{
    ConnectPlan, DisconnectPlan, LabelledNet, plan_connect, plan_connect_from, plan_disconnect,
    plan_disconnect_from,
};
use grid_ids::{Duplicate, Id, Memory, Seq};
use grid_level::{Level, Values};
use grid_queue::Counts;
use grid_shared::Shared;
use std::alloc::Global;
use std::marker::Brand;
use std::sync::ledger::{Blank, Ledger};

// A copy of the watts.
fn values_of(alloc: Global, powers: &[i64]) -> Result<Values, Memory>
    ensures { IfOk result (λ values. values ≡ powers.now) }
{
    Ok(Seq::from_vec(Vec::from_slice(alloc, powers)?))
}

impl Bench {
    // What is kept of the level of an id, which is kept.
    fn kept_of(&self, level: &Id) -> &Kept
        requires { IsSome (kept_for self.now level.now) }
        ensures { kept_for self.now level.now ≡ Some result.now }
    {
        self.find(level).unwrap()
    }

    // The net that is kept of a level under the rule of the bus view, with its labels, where it is that of the level
    // with these flags.
    fn net_kept(
        &self,
        level: &Shared<Level>,
        opened: &[bool],
        retained: &[bool],
    ) -> Option<LabelledNet<'_>>
        requires opened { length opened.now ≡ length level.now.switches }
        requires retained { length retained.now ≡ length level.now.switches }
        ensures net { IfSome result (λ kept. kept.net.now
            ≡ net_where level.now (closed_flags opened.now)) }
        ensures labels { IfSome result (λ kept. kept.labels.now
            ≡ labels_of (passing_graph kept.net.now)) }
    {
        match self.find(level.get().id()) {
            Some(kept) => kept.bus_net_under(level, opened, retained),
            None => None,
        }
    }

    /// The plan that connects a node of a level whose switches have these flags. It goes by the net that is kept,
    /// where it is that of the level as it stands, and else makes one.
    pub fn connect(
        &self,
        level: &Shared<Level>,
        opened: &[bool],
        retained: &[bool],
        node: u16,
    ) -> Result<ConnectPlan, Memory>
        requires opened { length opened.now ≡ length level.now.switches }
        requires retained { length retained.now ≡ length level.now.switches }
        requires node { IsTrue (among (nodes level.now) node) }
        ensures { IfOk result (λ plan. plan
            ≡ connect_plan_of (positioned level.now opened.now) node) }
    {
        match self.net_kept(level, opened, retained) {
            Some(kept) => plan_connect_from(self.alloc(), level.get(), opened, node, &kept),
            None => plan_connect(self.alloc(), level.get(), opened, node),
        }
    }

    /// The plan that disconnects a node of a level whose switches have these flags. It goes by the net that is kept,
    /// where it is that of the level as it stands, and else makes one.
    pub fn disconnect(
        &self,
        level: &Shared<Level>,
        opened: &[bool],
        retained: &[bool],
        node: u16,
    ) -> Result<DisconnectPlan, Memory>
        requires opened { length opened.now ≡ length level.now.switches }
        requires retained { length retained.now ≡ length level.now.switches }
        requires node { IsTrue (among (nodes level.now) node) }
        ensures { IfOk result (λ plan. plan
            ≡ disconnect_plan_of (positioned level.now opened.now) node) }
    {
        match self.net_kept(level, opened, retained) {
            Some(kept) => plan_disconnect_from(self.alloc(), level.get(), opened, node, &kept),
            None => plan_disconnect(self.alloc(), level.get(), opened, node),
        }
    }

    // The net of a level that is kept with these flags, under the rule of the bus view, with its labels.
    fn net_of_kept(&self, level: &Level, opened: &[bool], retained: &[bool]) -> LabelledNet<'_>
        requires opened { length opened.now ≡ length level.now.switches }
        requires retained { length retained.now ≡ length level.now.switches }
        requires kept { kept_for self.now level.now.id
            ≡ Some (content level.now opened.now retained.now) }
        ensures net { result.net.now ≡ net_where level.now (closed_flags opened.now) }
        ensures labels { result.labels.now ≡ labels_of (passing_graph result.net.now) }
    {
        self.kept_of(level.id()).bus_net()
    }

    /// The plan that connects a node of a level that is kept with these flags.
    pub fn connect_kept(
        &self,
        level: &Level,
        opened: &[bool],
        retained: &[bool],
        node: u16,
    ) -> Result<ConnectPlan, Memory>
        requires opened { length opened.now ≡ length level.now.switches }
        requires retained { length retained.now ≡ length level.now.switches }
        requires kept { kept_for self.now level.now.id
            ≡ Some (content level.now opened.now retained.now) }
        requires node { IsTrue (among (nodes level.now) node) }
        ensures { IfOk result (λ plan. plan
            ≡ connect_plan_of (positioned level.now opened.now) node) }
    {
        let net = self.net_of_kept(level, opened, retained);
        plan_connect_from(self.alloc(), level, opened, node, &net)
    }

    /// The plan that disconnects a node of a level that is kept with these flags.
    pub fn disconnect_kept(
        &self,
        level: &Level,
        opened: &[bool],
        retained: &[bool],
        node: u16,
    ) -> Result<DisconnectPlan, Memory>
        requires opened { length opened.now ≡ length level.now.switches }
        requires retained { length retained.now ≡ length level.now.switches }
        requires kept { kept_for self.now level.now.id
            ≡ Some (content level.now opened.now retained.now) }
        requires node { IsTrue (among (nodes level.now) node) }
        ensures { IfOk result (λ plan. plan
            ≡ disconnect_plan_of (positioned level.now opened.now) node) }
    {
        let net = self.net_of_kept(level, opened, retained);
        plan_disconnect_from(self.alloc(), level, opened, node, &net)
    }

    // Makes the bus/breaker view of a level that is kept with these flags.
    fn make_breaker_view(
        &self,
        level: &Level,
        opened: &[bool],
        retained: &[bool],
    ) -> Result<Shared<BusBreakerView>, Memory>
        requires opened { length opened.now ≡ length level.now.switches }
        requires retained { length retained.now ≡ length level.now.switches }
        requires kept { kept_for self.now level.now.id
            ≡ Some (content level.now opened.now retained.now) }
        ensures { IfOk result (λ view. view
            ≡ bus_breaker_view_of (stood level.now opened.now retained.now)) }
    {
        let labels = self.kept_of(level.id()).breaker_labels();
        let view = bus_breaker_from(self.alloc(), level, opened, retained, labels)?;
        Shared::new(self.alloc(), view)
    }

    /// The bus/breaker view of a level that is kept with these flags. Where memory runs out nothing is kept of it.
    pub fn bus_breaker_view(
        &mut self,
        level: &Shared<Level>,
        opened: &[bool],
        retained: &[bool],
    ) -> Result<Shared<BusBreakerView>, Memory>
        requires opened { length opened.now ≡ length level.now.switches }
        requires retained { length retained.now ≡ length level.now.switches }
        requires kept { kept_for self.old level.now.id
            ≡ Some (content level.now opened.now retained.now) }
        ensures view { IfOk result (λ view. view
            ≡ bus_breaker_view_of (stood level.now opened.now retained.now)) }
        ensures same { OnOk result (self.new ≡ self.old) }
        ensures gone { OnErr result (kept_for self.new level.now.id ≡ None) }
        ensures others { KeepsOthers self.old self.new level.now.id }
    {
        match self.make_breaker_view(level.get(), opened, retained) {
            Ok(view) => Ok(view),
            Err(_) => {
                self.forget(level.get().id());
                Err(Memory)
            }
        }
    }

    // Makes the bus view of a level that is kept with these flags.
    fn make_bus_view(
        &self,
        level: &Level,
        opened: &[bool],
        retained: &[bool],
        powers: &[i64],
    ) -> Result<Shared<BusView>, Memory>
        requires opened { length opened.now ≡ length level.now.switches }
        requires powers { length powers.now ≡ length level.now.placed }
        requires kept { kept_for self.now level.now.id
            ≡ Some (content level.now opened.now retained.now) }
        ensures { IfOk result (λ view. view
            ≡ bus_view_of (positioned level.now opened.now) powers.now) }
    {
        let _ = retained;
        let labels = self.kept_of(level.id()).bus_labels();
        let view = bus_view_from(self.alloc(), level, opened, powers, labels)?;
        Shared::new(self.alloc(), view)
    }

    // The bus view of a level that is kept with these flags: the one that was made last, where that is still the view.
    // Else it is made, and kept.
    fn shown_or_made(
        &mut self,
        level: &Level,
        opened: &[bool],
        retained: &[bool],
        powers: &[i64],
    ) -> Result<Shared<BusView>, Memory>
        requires opened { length opened.now ≡ length level.now.switches }
        requires powers { length powers.now ≡ length level.now.placed }
        requires kept { kept_for self.old level.now.id
            ≡ Some (content level.now opened.now retained.now) }
        ensures view { IfOk result (λ view. view
            ≡ bus_view_of (positioned level.now opened.now) powers.now) }
        ensures same { self.new ≡ self.old }
    {
        if let Some(view) = self.kept_of(level.id()).shown_under(powers) {
            return view.copy();
        }
        let view = self.make_bus_view(level, opened, retained, powers)?;
        let watts = values_of(self.alloc(), powers)?;
        self.show(level.id(), watts, view.copy()?);
        Ok(view)
    }

    /// The bus view of a level that is kept with these flags, under the watts of its placed terminals, by rising node:
    /// the one that was made last, where that is still the view. Else it is made, and kept. Where memory runs out
    /// nothing is kept of the level.
    pub fn bus_view(
        &mut self,
        level: &Shared<Level>,
        opened: &[bool],
        retained: &[bool],
        powers: &[i64],
    ) -> Result<Shared<BusView>, Memory>
        requires opened { length opened.now ≡ length level.now.switches }
        requires powers { length powers.now ≡ length level.now.placed }
        requires kept { kept_for self.old level.now.id
            ≡ Some (content level.now opened.now retained.now) }
        ensures view { IfOk result (λ view. view
            ≡ bus_view_of (positioned level.now opened.now) powers.now) }
        ensures same { OnOk result (self.new ≡ self.old) }
        ensures gone { OnErr result (kept_for self.new level.now.id ≡ None) }
        ensures others { KeepsOthers self.old self.new level.now.id }
    {
        match self.shown_or_made(level.get(), opened, retained, powers) {
            Ok(view) => Ok(view),
            Err(_) => {
                self.forget(level.get().id());
                Err(Memory)
            }
        }
    }

    // Keeps a level with these flags, with counters of its own.
    fn keep_counted<L: Ledger, W: Ledger>(
        &mut self,
        level: &Shared<Level>,
        opened: &[bool],
        retained: &[bool],
        visits: Blank,
        writes: Blank,
    ) -> Result<(), Memory>
        requires visits_name { visits.name ≡ L.name }
        requires visits_parts { visits.parts ≡ L.parts }
        requires visits_some { 0 < visits.parts }
        requires writes_name { writes.name ≡ W.name }
        requires writes_parts { writes.parts ≡ W.parts }
        requires writes_some { 0 < writes.parts }
        requires opened { length opened.now ≡ length level.now.switches }
        requires retained { length retained.now ≡ length level.now.switches }
        ensures kept { OnOk result (kept_for self.new level.now.id
            ≡ Some (content level.now opened.now retained.now)) }
        ensures gone { OnErr result (kept_for self.new level.now.id ≡ None) }
        ensures others { KeepsOthers self.old self.new level.now.id }
    {
        let mut counts: Counts<L, W> = Counts::begin(visits, writes);
        self.refresh(level, opened, retained, &mut counts)
    }

    /// Keeps a level with these flags as `refresh` does, for a caller that counts nothing.
    pub fn keep(
        &mut self,
        level: &Shared<Level>,
        opened: &[bool],
        retained: &[bool],
    ) -> Result<(), Memory>
        requires opened { length opened.now ≡ length level.now.switches }
        requires retained { length retained.now ≡ length level.now.switches }
        ensures kept { OnOk result (kept_for self.new level.now.id
            ≡ Some (content level.now opened.now retained.now)) }
        ensures gone { OnErr result (kept_for self.new level.now.id ≡ None) }
        ensures others { KeepsOthers self.old self.new level.now.id }
    {
        let (visits, writes) = (Blank::new(1), Blank::new(1));
        self.keep_counted::<Brand, Brand>(level, opened, retained, visits, writes)
    }
}
