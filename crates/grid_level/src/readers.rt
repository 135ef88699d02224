// What a level tells of itself. None of these takes memory.
ghost use Rattle.std.specs.Prelude.{◌≡◌, ◌==◌, ◌<◌, ◌≤◌, length, map, Some, slice_get, position};
ghost use Rattle.std.specs.Option.{option_copied, option_map};
ghost use Rattle.grid_level.specs.Passing as passing;
ghost use Rattle.grid_level.specs.Passing.{edges, ends, nodes};
ghost use Rattle.grid_level.specs.Kept.{KeepsLimits};

use crate::{Internal, Level, Placed, Switch, place_of, stands_at};
use grid_ids::Id;

impl Level {
    pub fn id(&self) -> &Id
        ensures { result.now ≡ self.now.id }
    {
        &self.id
    }

    /// The nominal voltage in V.
    pub fn nominal_v(&self) -> i64
        ensures { result ≡ self.now.nominal_v }
    {
        self.nominal_v
    }

    /// The low voltage limit in V.
    pub fn low_v(&self) -> Option<i64>
        ensures { result ≡ self.now.low_v }
    {
        self.low_v
    }

    /// The high voltage limit in V.
    pub fn high_v(&self) -> Option<i64>
        ensures { result ≡ self.now.high_v }
    {
        self.high_v
    }

    /// The switches in order of creation.
    pub fn switches(&self) -> &[Switch]
        ensures { result.now ≡ self.now.switches }
    {
        self.switches.as_slice()
    }

    /// The two nodes of each switch, in order of creation.
    pub fn switch_ends(&self) -> &[(u16, u16)]
        ensures { result.now ≡ map passing.switch_ends self.now.switches }
    {
        self.ends.as_slice()
    }

    /// The internal connections in order of creation.
    pub fn internals(&self) -> &[Internal]
        ensures { result.now ≡ self.now.internals }
    {
        self.internals.as_slice()
    }

    /// The terminals by rising node.
    pub fn placed(&self) -> &[Placed]
        ensures { result.now ≡ self.now.placed }
    {
        self.placed.as_slice()
    }

    pub fn switch_count(&self) -> u32
        ensures { result ≡ length self.now.switches }
    {
        self.switches.len() as u32
    }

    pub fn switch(&self, place: u32) -> &Switch
        requires { place < length self.now.switches }
        ensures { slice_get self.now.switches place ≡ Some result.now }
    {
        &self.switches[place as usize]
    }

    pub fn edge_count(&self) -> u32
        ensures { result ≡ length (edges self.now) }
    {
        (self.switches.len() + self.internals.len()) as u32
    }

    /// The two nodes of an edge: the edges are the switches, then the internal connections.
    pub fn edge_ends(&self, place: u32) -> (u16, u16)
        requires { place < length (edges self.now) }
        ensures { option_map ends (slice_get (edges self.now) place) ≡ Some result }
    {
        let place = place as usize;
        if place < self.ends.len() {
            return self.ends[place];
        }
        let internal = &self.internals[place - self.ends.len()];
        (internal.node1, internal.node2)
    }

    /// How many different nodes an edge or a terminal names.
    pub fn node_count(&self) -> u32
        ensures { result ≡ length (nodes self.now) }
    {
        self.uses.len() as u32
    }

    /// The node of this number in the rising list of the nodes.
    pub fn node_at(&self, index: u32) -> u16
        requires { index < length (nodes self.now) }
        ensures { slice_get (nodes self.now) index ≡ Some result }
    {
        self.uses.at(index as usize)
    }

    /// The number of a node in the rising list of the nodes, or none where no edge and no terminal names it.
    pub fn index_of(&self, node: u16) -> Option<u32>
        ensures { result ≡ position (λ m. m == node) (nodes self.now) }
    {
        match self.uses.find(node) {
            Some(place) => Some(place as u32),
            None => None,
        }
    }

    /// What stands at a node.
    pub fn placed_at(&self, node: u16) -> Option<&Placed>
        ensures { option_copied result ≡ passing.placed_at self.now node }
    {
        let place = place_of(self.placed.as_slice(), node);
        if !stands_at(self.placed.as_slice(), place, node) {
            return None;
        }
        Some(&self.placed[place])
    }

    /// Tells what every level keeps: its limits, and that its edges join two different nodes of its own.
    pub fn keeps(&self)
        ensures { KeepsLimits self.now }
    {
        let _ = &self.uses;
    }
}
