// A level's net as a net of paths, where its closed switches pass.
ghost use Rattle.std.specs.Prelude.{◌≡◌, ◌<◌, length, Some, IfOk};
ghost use Rattle.grid_level.specs.Passing as passing;
ghost use Rattle.grid_level.specs.Passing.{positioned};
ghost use Rattle.grid_groups.specs.Nets.{net_where, closed_flags};
ghost use Rattle.grid_connect.specs.Indexed.{way_through};

use crate::joined::closed;
use grid_groups::{NodeIndices, net_of};
use grid_ids::Memory;
use grid_kinds::SwitchKind;
use grid_level::{Level, Switch};
use grid_paths::{PathNet, Way};
use grid_queue::{Net, Next, Steps};
use std::alloc::Global;
use std::marker::{Brand, Model};
use std::sync::ledger::{Blank, Ledger};

// Whether the switch is a breaker that is not fictitious.
#[tactic(auto, unfolding(grid_level::specs::Passing::is_operable, grid_level::specs::Passing::is_breaker))]
pub(crate) fn is_operable(switch: &Switch) -> bool
    ensures { result ≡ passing.is_operable switch.now }
{
    match switch.kind {
        SwitchKind::Breaker => !switch.fictitious,
        SwitchKind::Disconnector => false,
        SwitchKind::LoadBreakSwitch => false,
    }
}

// How the switch may be passed in this position.
fn way_of(switch: &Switch, opened: bool) -> Way
    ensures { result ≡ way_through switch.now opened }
{
    if !opened {
        return Way::Free;
    }
    if is_operable(switch) {
        Way::Closable
    } else {
        Way::Barred
    }
}

/// A level whose switches are in these positions, with its net in which the closed ones pass. It is seen as the level
/// as it stands.
#[derive(Drop)]
pub(crate) struct LevelPaths<'a> {
    level: &'a Level,
    states: &'a [bool],
    net: &'a Net,
}

impl<'a> Model for LevelPaths<'a> {
    ghost use Rattle.grid_level.specs.VoltageLevel.{VoltageLevel};
    ghost use Rattle.grid_level.specs.Passing.{positioned};
    ghost use Rattle.grid_connect.specs.Indexed.{IsBusNet};

    ghost Value = { VoltageLevel };

    ghost view = { λ paths. positioned paths.level.now paths.states.now };

    ghost invariant = { λ paths. IsBusNet paths.level.now paths.states.now paths.net.now };
}

impl<'a> LevelPaths<'a> {
    pub(crate) fn over(level: &'a Level, states: &'a [bool], net: &'a Net) -> LevelPaths<'a>
        requires flags { length states.now ≡ length level.now.switches }
        requires net { net.now ≡ net_where level.now (closed_flags states.now) }
        ensures { result ≡ positioned level.now states.now }
    {
        LevelPaths { level, states, net }
    }
}

impl<'a> PathNet for LevelPaths<'a> {
    ghost use Rattle.std.specs.Prelude.{length};
    ghost use Rattle.grid_level.specs.Passing.{nodes};
    ghost use Rattle.grid_connect.specs.Indexed.{path_edges_of};

    ghost nodes = { λ level. length (nodes level) };

    ghost edges = { path_edges_of };

    fn ends_below(&self) {
        self.level.keeps();
    }

    fn nexts(&self, node: u32) -> &[Next] {
        self.net.nexts(node)
    }

    fn way(&self, place: u32) -> Way {
        if place as usize >= self.states.len() {
            return Way::Free;
        }
        way_of(self.level.switch(place), self.states[place as usize])
    }
}

// The net of a level in which its closed switches pass, with a counter of its own.
fn net_counted<L: Ledger>(
    alloc: Global,
    level: &Level,
    states: &[bool],
    visits: Blank,
) -> Result<Net, Memory>
    requires name { visits.name ≡ L.name }
    requires parts { visits.parts ≡ L.parts }
    requires some { 0 < visits.parts }
    requires flags { length states.now ≡ length level.now.switches }
    ensures { IfOk result (λ net. net ≡ net_where level.now (closed_flags states.now)) }
{
    let mut steps: Steps<L> = Steps::begin(visits);
    let indices = NodeIndices::of(alloc, level)?;
    let passes = closed(alloc, states)?;
    net_of(alloc, &indices, passes.as_slice(), &mut steps)
}

// The net of a level in which its closed switches pass.
pub(crate) fn bus_net(alloc: Global, level: &Level, states: &[bool]) -> Result<Net, Memory>
    requires { length states.now ≡ length level.now.switches }
    ensures { IfOk result (λ net. net ≡ net_where level.now (closed_flags states.now)) }
{
    net_counted::<Brand>(alloc, level, states, Blank::new(1))
}
