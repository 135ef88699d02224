// Watts by node of one level. A node is found by binary search.
ghost use Rattle.std.specs.Prelude.{◌≡◌, ◌<◌, ◌≤◌, true, [], length, OnOk, OnErr};
ghost use Rattle.std.proofs.Common.{rules};
ghost use Rattle.grid_level.specs.Uses.{place_among, key_here};
ghost use Rattle.grid_states.specs.Pairs.{PairsRise, value_at, with_pair, without_pair};

use grid_ids::{Duplicate, Memory, clone_items};
use std::alloc::{AllocError, Global};
use std::marker::Model;

/// The watts that a variant lists for the terminal at a node, in W.
#[derive(Clone, Copy, Debug)]
pub struct NodeWatts {
    pub node: u16,
    pub watts: i64,
}

impl Duplicate for NodeWatts {
    ghost clone_equals = { Prim.search rules };
}

// What a variant lists of one level, by rising node. It is seen as the list of the pairs.
#[derive(Debug, Drop)]
pub(crate) struct WattsRow {
    pairs: Vec<NodeWatts>,
}

impl Model for WattsRow {
    ghost use Rattle.std.specs.Prelude.{List};
    ghost use Rattle.grid_states.specs.declared.row.NodeWatts.{NodeWatts};
    ghost use Rattle.grid_states.specs.Pairs.{PairsRise};

    ghost Value = { List NodeWatts };

    ghost view = { λ row. row.pairs.items };

    ghost invariant = { λ row. PairsRise row.pairs.items };
}

impl Clone for WattsRow {
    ghost is_clone = { λ x y. y ≡ x };

    fn clone(&self) -> Result<WattsRow, AllocError> {
        Ok(WattsRow {
            pairs: clone_items(&self.pairs)?,
        })
    }
}

impl Duplicate for WattsRow {
    ghost clone_equals = { Prim.search rules };
}

// How many stand before the first whose node is no less.
fn place_of(pairs: &[NodeWatts], node: u16) -> usize
    requires { PairsRise pairs.now }
    ensures value { result ≡ place_among (λ w. w.node) node pairs.now }
    ensures bound { result ≤ length pairs.now }
{
    pairs.partition_point(|pair| pair.node < node)
}

// Whether the node has the pair at its place.
fn stands_at(pairs: &[NodeWatts], place: usize, node: u16) -> bool
    requires { place ≡ place_among (λ w. w.node) node pairs.now }
    ensures value { result ≡ key_here (λ w. w.node) node pairs.now }
    ensures bound { result ≡ true → place < length pairs.now }
{
    match pairs.get(place) {
        Some(found) => found.node == node,
        None => false,
    }
}

impl WattsRow {
    // No pair, without memory.
    pub(crate) fn empty(alloc: Global) -> WattsRow
        ensures { result ≡ [] }
    {
        WattsRow {
            pairs: Vec::new(alloc),
        }
    }

    // The pairs. It takes no memory.
    pub(crate) fn slice(&self) -> &[NodeWatts]
        ensures pairs { result.now ≡ self.now }
        ensures rise { PairsRise result.now }
    {
        self.pairs.as_slice()
    }

    // The watts of a node; None exactly where none are listed. It takes no memory.
    pub(crate) fn value(&self, node: u16) -> Option<i64>
        ensures { result ≡ value_at node self.now }
    {
        let place = place_of(self.pairs.as_slice(), node);
        if stands_at(self.pairs.as_slice(), place, node) {
            Some(self.pairs[place].watts)
        } else {
            None
        }
    }

    // Gives a node these watts.
    pub(crate) fn set(&mut self, node: u16, watts: i64) -> Result<(), Memory>
        ensures ok { OnOk result (self.new ≡ with_pair node watts self.old) }
        ensures err { OnErr result (self.new ≡ self.old) }
    {
        let place = place_of(self.pairs.as_slice(), node);
        if stands_at(self.pairs.as_slice(), place, node) {
            self.pairs[place].watts = watts;
            return Ok(());
        }
        self.pairs.insert(place, NodeWatts { node, watts })?;
        Ok(())
    }

    // Takes the pair of a node out, where there is one. It takes no memory.
    pub(crate) fn forget(&mut self, node: u16)
        ensures { self.new ≡ without_pair node self.old }
    {
        let place = place_of(self.pairs.as_slice(), node);
        if stands_at(self.pairs.as_slice(), place, node) {
            self.pairs.remove(place);
        }
    }
}
