//! One voltage level: its switches, internal connections and placed terminals.
#![tactic(auto)]

ghost use Rattle.std.specs.Prelude.{◌≡◌, ◌≢◌, ◌<◌, ◌≤◌, [], ◌∷◌, ◌++◌, length, true, IfOk, IfErr, OnOk, OnErr, IsSome, IsTrue, ◌↔◌, slice_get, Some, Ok, remove, map, position};
ghost use Rattle.std.proofs.Common.{rules};
ghost use Rattle.grid_ids.specs.Refusing.{map_fault};
ghost use Rattle.grid_level.specs.LevelEdits as edits;
ghost use Rattle.grid_level.specs.LevelEdits.{level_fault_of, refusal_of};
ghost use Rattle.grid_level.specs.Passing as passing;
ghost use Rattle.grid_level.specs.Passing.{edges, nodes, with_node, is_rising};
ghost use Rattle.grid_level.specs.Uses.{with_use, without_use, total, place_among, key_here};
ghost use Rattle.grid_level.specs.Kept.{lists_of};

mod parts;
mod readers;
mod uses;

use grid_ids::{Duplicate, Id, Memory, Seq};
use grid_kinds::{Injection, SwitchKind};
use std::alloc::Global;
use std::marker::Model;
use uses::Uses;

/// A list of node numbers.
pub type Nodes = Seq<u16>;

/// A list of terminals.
pub type Terminals = Seq<Terminal>;

/// A list of truth values, such as one position per switch.
pub type Flags = Seq<bool>;

/// A list of numbers.
pub type Values = Seq<i64>;

/// A side of an equipment: 1 for busbar sections and injections, 1 to 3 for branches.
#[derive(Clone, Debug, Drop)]
pub struct Terminal {
    pub equipment: Id,
    pub side: u8,
}

/// What stands at a node.
#[derive(Clone, Debug, Drop)]
pub enum Stand {
    Busbar,
    Feeder(Injection),
    BranchEnd,
}

/// A terminal at its node.
#[derive(Clone, Debug, Drop)]
pub struct Placed {
    pub node: u16,
    pub terminal: Terminal,
    pub stand: Stand,
}

/// A switch between two nodes, with its flags as they were recorded: `opened` is its opening position.
#[derive(Clone, Debug, Drop)]
pub struct Switch {
    pub id: Id,
    pub kind: SwitchKind,
    pub node1: u16,
    pub node2: u16,
    pub opened: bool,
    pub retained: bool,
    pub fictitious: bool,
}

/// An internal connection, which always joins its two nodes.
#[derive(Clone, Debug, Drop)]
pub struct Internal {
    pub node1: u16,
    pub node2: u16,
}

/// Why a level refuses an edit: the first that holds, in this order. The rules are the IIDM documentation's,
/// the two limits this project's own.
#[derive(Debug, Drop)]
pub enum LevelFault {
    /// 20: the node is below 0 or above 65,535; the first such one.
    NodeRange { node: i64 },
    /// 22: an edge's two nodes are equal.
    SameNode { node: i64 },
    /// 21: the node of a new terminal carries one.
    NodeTaken { terminal: Terminal },
    /// 23: there is no such internal connection.
    NoEdge,
    /// 25: an edge is to be added to 4,096 edges.
    TooManyEdges,
    /// 24: there would be more than 1,024 different nodes.
    TooManyNodes,
    /// Out of memory; comes only where none of the others does.
    Memory,
}

impl From<Memory> for LevelFault {
    ghost use Rattle.std.specs.Prelude.{◌≡◌};
    ghost use Rattle.grid_level.specs.declared.LevelFault.TheVariants as variants;

    ghost from_gives = { λ _ fault. fault ≡ variants.Memory };

    fn from(_memory: Memory) -> LevelFault {
        LevelFault::Memory
    }
}

/// A voltage level, seen as its record of lists: id, voltages in V, switches and internal connections in order
/// of creation, and terminals by rising node.
pub struct Level {
    id: Id,
    nominal_v: i64,
    low_v: Option<i64>,
    high_v: Option<i64>,
    switches: Vec<Switch>,
    // The two nodes of each switch, in order of creation, to be read without the switches.
    ends: Vec<(u16, u16)>,
    internals: Vec<Internal>,
    placed: Vec<Placed>,
    uses: Uses,
}

// Written out, so that where one is dropped a proof sees one call.
impl Drop for Level {
    fn drop(self) {
        let Level {
            id: _,
            nominal_v: _,
            low_v: _,
            high_v: _,
            switches: _,
            ends: _,
            internals: _,
            placed: _,
            uses: _,
        } = self;
    }
}

impl Model for Level {
    ghost use Rattle.grid_level.specs.VoltageLevel.{VoltageLevel};
    ghost use Rattle.grid_level.specs.Kept.{IsKept, lists_of};

    ghost Value = { VoltageLevel };

    ghost view = { λ a. lists_of a.id a.nominal_v a.low_v a.high_v a.switches.items
        a.internals.items a.placed.items };

    ghost invariant = { λ a. IsKept
        (lists_of a.id a.nominal_v a.low_v a.high_v a.switches.items a.internals.items
        a.placed.items) a.uses a.ends.items };
}

// The node of this number.
#[tactic(auto, unfolding(crate::specs::LevelEdits::node_of, crate::specs::LevelEdits::level_fault_of))]
fn node_of(node: i64) -> Result<u16, LevelFault>
    ensures { result ≡ map_fault level_fault_of (edits.node_of node) }
{
    match u16::try_from(node) {
        Ok(number) => Ok(number),
        Err(_) => Err(LevelFault::NodeRange { node }),
    }
}

impl Level {
    /// A level of nothing, which takes no memory.
    pub fn empty(
        alloc: Global,
        id: Id,
        nominal_v: i64,
        low_v: Option<i64>,
        high_v: Option<i64>,
    ) -> Level
        ensures { result ≡ lists_of id nominal_v low_v high_v [] [] [] }
    {
        Level {
            id,
            nominal_v,
            low_v,
            high_v,
            switches: Vec::new(alloc),
            ends: Vec::new(alloc),
            internals: Vec::new(alloc),
            placed: Vec::new(alloc),
            uses: Uses::empty(alloc),
        }
    }

    // How many nodes there are, with these two.
    fn nodes_with(&self, a: u16, b: u16) -> u32
        requires { a ≢ b }
        ensures { result ≡ length (with_node a (with_node b (nodes self.now))) }
    {
        self.uses.len() as u32 + self.uses.missing(a) + self.uses.missing(b)
    }

    // The two nodes of a new edge.
    #[tactic(auto, unfolding(crate::specs::LevelEdits::edge_fits, crate::specs::LevelEdits::level_fault_of), using(crate::proofs::CodePromises::map_ok, crate::proofs::CodePromises::map_err))]
    fn edge_fits(&self, node1: i64, node2: i64) -> Result<(u16, u16), LevelFault>
        ensures { result ≡ map_fault level_fault_of (edits.edge_fits self.now node1 node2) }
    {
        let a = node_of(node1)?;
        let b = node_of(node2)?;
        if a == b {
            return Err(LevelFault::SameNode { node: node1 });
        }
        if self.edge_count() >= 4096 {
            return Err(LevelFault::TooManyEdges);
        }
        if self.nodes_with(a, b) > 1024 {
            return Err(LevelFault::TooManyNodes);
        }
        Ok((a, b))
    }

    /// Puts a switch last among the switches, and answers its place. Refuses with NodeRange, SameNode,
    /// TooManyEdges or TooManyNodes.
    pub fn add_switch(
        &mut self,
        id: Id,
        kind: SwitchKind,
        node1: i64,
        node2: i64,
        opened: bool,
        retained: bool,
        fictitious: bool,
    ) -> Result<u32, LevelFault>
        ensures done { OnOk result (edits.level_with_switch self.old id kind node1 node2 opened
            retained fictitious ≡ Ok self.new) }
        ensures place { IfOk result (λ place. place ≡ length self.old.switches) }
        ensures same { OnErr result (self.new ≡ self.old) }
        ensures refused { IfErr result (λ fault. fault
            ≡ refusal_of (edits.level_with_switch self.old id kind node1 node2 opened retained
            fictitious)) }
    {
        let (a, b) = match self.edge_fits(node1, node2) {
            Ok(pair) => pair,
            Err(fault) => return Err(fault),
        };
        let place = self.switches.len() as u32;
        match add_two(&mut self.uses, a, b) {
            Ok(()) => {}
            Err(_) => return Err(LevelFault::Memory),
        }
        let switch = Switch {
            id,
            kind,
            node1: a,
            node2: b,
            opened,
            retained,
            fictitious,
        };
        match push_switch(&mut self.switches, &mut self.ends, switch) {
            Ok(()) => {}
            Err(_) => {
                take_two(&mut self.uses, a, b);
                return Err(LevelFault::Memory);
            }
        }
        Ok(place)
    }

    /// Takes the switch at a place out; later ones move down by one. It takes no memory.
    pub fn remove_switch(&mut self, place: u32) -> Switch
        requires { place < length self.old.switches }
        ensures item { slice_get self.old.switches place ≡ Some result }
        ensures rest { self.new ≡ record self.old { switches = remove self.old.switches place } }
    {
        let switch = self.switches.remove(place as usize);
        self.ends.remove(place as usize);
        take_two(&mut self.uses, switch.node1, switch.node2);
        switch
    }

    /// Puts an internal connection last. Refuses with NodeRange, SameNode, TooManyEdges or TooManyNodes.
    pub fn add_internal(&mut self, node1: i64, node2: i64) -> Result<(), LevelFault>
        ensures done { OnOk result (edits.level_with_internal self.old node1 node2 ≡ Ok self.new) }
        ensures same { OnErr result (self.new ≡ self.old) }
        ensures refused { IfErr result (λ fault. fault
            ≡ refusal_of (edits.level_with_internal self.old node1 node2)) }
    {
        let (a, b) = match self.edge_fits(node1, node2) {
            Ok(pair) => pair,
            Err(fault) => return Err(fault),
        };
        match add_two(&mut self.uses, a, b) {
            Ok(()) => {}
            Err(_) => return Err(LevelFault::Memory),
        }
        match self.internals.push(Internal { node1: a, node2: b }) {
            Ok(()) => {}
            Err(_) => {
                take_two(&mut self.uses, a, b);
                return Err(LevelFault::Memory);
            }
        }
        Ok(())
    }

    /// Takes the first internal connection that joins the two nodes, in either order, out. Refuses with NoEdge
    /// alone, and takes no memory.
    pub fn remove_internal(&mut self, node1: i64, node2: i64) -> Result<(), LevelFault>
        ensures done { OnOk result (edits.level_without_internal self.old node1 node2
            ≡ Ok self.new) }
        ensures same { OnErr result (self.new ≡ self.old) }
        ensures refused { IfErr result (λ fault. fault
            ≡ refusal_of (edits.level_without_internal self.old node1 node2)) }
        ensures sure { IfErr result (λ fault. fault ≡ LevelFault.NoEdge) }
    {
        let place = match place_of_joining(self.internals.as_slice(), node1, node2) {
            Some(place) => place,
            None => return Err(LevelFault::NoEdge),
        };
        let internal = self.internals.remove(place);
        take_two(&mut self.uses, internal.node1, internal.node2);
        Ok(())
    }

    // Whether a new terminal's node may be one of the level's, which carries none yet.
    fn has_room(&self, node: u16) -> bool
        ensures { IsTrue result ↔ (length (with_node node (nodes self.now)) ≤ 1024) }
    {
        self.uses.len() as u32 + self.uses.missing(node) <= 1024
    }

    // The node of a new terminal, with its place among those that are placed.
    fn terminal_fits(&self, node: i64) -> Result<(u16, usize), LevelFault>
        ensures fits { IfOk result (λ pair. edits.terminal_fits self.now node ≡ Ok pair.0) }
        ensures place { IfOk result (λ pair. pair.1
            ≡ place_among (λ p. p.node) pair.0 self.now.placed) }
        ensures refused { IfErr result (λ fault. fault ≢ LevelFault.Memory
            → fault ≡ refusal_of (edits.terminal_fits self.now node)) }
    {
        let number = match node_of(node) {
            Ok(number) => number,
            Err(fault) => return Err(fault),
        };
        let place = place_of(self.placed.as_slice(), number);
        if stands_at(self.placed.as_slice(), place, number) {
            return match self.placed[place].terminal.copy() {
                Ok(terminal) => Err(LevelFault::NodeTaken { terminal }),
                Err(_) => Err(LevelFault::Memory),
            };
        }
        if !self.has_room(number) {
            return Err(LevelFault::TooManyNodes);
        }
        Ok((number, place))
    }

    /// Places a terminal by its node. Refuses with NodeRange, NodeTaken or TooManyNodes.
    pub fn place_terminal(
        &mut self,
        node: i64,
        terminal: Terminal,
        stand: Stand,
    ) -> Result<(), LevelFault>
        ensures done { OnOk result (edits.level_with_terminal self.old node terminal stand
            ≡ Ok self.new) }
        ensures same { OnErr result (self.new ≡ self.old) }
        ensures refused { IfErr result (λ fault. fault ≢ LevelFault.Memory
            → fault ≡ refusal_of (edits.level_with_terminal self.old node terminal stand)) }
    {
        let (number, place) = match self.terminal_fits(node) {
            Ok(pair) => pair,
            Err(fault) => return Err(fault),
        };
        match self.uses.add(number) {
            Ok(()) => {}
            Err(_) => return Err(LevelFault::Memory),
        }
        let placed = Placed {
            node: number,
            terminal,
            stand,
        };
        match self.placed.insert(place, placed) {
            Ok(()) => {}
            Err(_) => {
                self.uses.take(number);
                return Err(LevelFault::Memory);
            }
        }
        Ok(())
    }

    /// Takes the terminal at a node out, and takes no memory.
    pub fn take_terminal(&mut self, node: u16) -> Placed
        requires { IsSome (passing.placed_at self.old node) }
        ensures item { passing.placed_at self.old node ≡ Some result }
        ensures rest { self.new ≡ edits.level_without_terminal node self.old }
    {
        let place = place_of(self.placed.as_slice(), node);
        let placed = self.placed.remove(place);
        self.uses.take(node);
        placed
    }
}

// How many stand before the first whose node is no less.
fn place_of(placed: &[Placed], node: u16) -> usize
    requires { IsTrue (is_rising (map (λ p. p.node) placed.now)) }
    ensures value { result ≡ place_among (λ p. p.node) node placed.now }
    ensures bound { result ≤ length placed.now }
{
    placed.partition_point(|p| p.node < node)
}

// Whether a terminal stands at the node, whose place this is.
fn stands_at(placed: &[Placed], place: usize, node: u16) -> bool
    requires { place ≡ place_among (λ p. p.node) node placed.now }
    ensures value { result ≡ key_here (λ p. p.node) node placed.now }
    ensures bound { result ≡ true → place < length placed.now }
{
    match placed.get(place) {
        Some(found) => found.node == node,
        None => false,
    }
}

// Whether the connection joins these two nodes, in either order.
#[tactic(auto, unfolding(crate::specs::LevelEdits::joins))]
fn joins(internal: &Internal, node1: i64, node2: i64) -> bool
    ensures { result ≡ edits.joins node1 node2 internal.now }
{
    let a = internal.node1 as i64;
    let b = internal.node2 as i64;
    (a == node1 && b == node2) || (a == node2 && b == node1)
}

// The place of the first that joins them.
fn place_of_joining(internals: &[Internal], node1: i64, node2: i64) -> Option<usize>
    ensures { result ≡ position (edits.joins node1 node2) internals.now }
{
    internals.iter().position(|i| joins(i, node1, node2))
}

// Puts a switch last, and its two nodes; or leaves both lists as they were.
fn push_switch(
    switches: &mut Vec<Switch>,
    ends: &mut Vec<(u16, u16)>,
    switch: Switch,
) -> Result<(), Memory>
    ensures switches { OnOk result (switches.new.items ≡ switches.old.items ++ switch ∷ []) }
    ensures ends { OnOk result (ends.new.items ≡ ends.old.items
        ++ passing.switch_ends switch ∷ []) }
    ensures same_switches { OnErr result (switches.new.items ≡ switches.old.items) }
    ensures same_ends { OnErr result (ends.new.items ≡ ends.old.items) }
{
    match ends.push((switch.node1, switch.node2)) {
        Ok(()) => {}
        Err(_) => return Err(Memory),
    }
    match switches.push(switch) {
        Ok(()) => Ok(()),
        Err(_) => {
            ends.pop();
            Err(Memory)
        }
    }
}

// One more use of two nodes.
fn add_two(uses: &mut Uses, a: u16, b: u16) -> Result<(), Memory>
    requires { total uses.old < 65535 }
    ensures ok { OnOk result (uses.new ≡ with_use a (with_use b uses.old)) }
    ensures err { OnErr result (uses.new ≡ uses.old) }
{
    uses.add(b)?;
    match uses.add(a) {
        Ok(()) => Ok(()),
        Err(memory) => {
            uses.take(b);
            Err(memory)
        }
    }
}

// One use of two nodes less.
fn take_two(uses: &mut Uses, a: u16, b: u16)
    ensures { uses.new ≡ without_use b (without_use a uses.old) }
{
    uses.take(a);
    uses.take(b);
}
