// Copies and comparisons of what a level is made of.
ghost use Rattle.std.specs.Prelude.{◌≡◌};
ghost use Rattle.std.proofs.Common.{rules};

use crate::{Internal, Level, Placed, Stand, Switch, Terminal};
use grid_ids::{Duplicate, Same, clone_items, same_items};
use std::alloc::AllocError;

impl Duplicate for Terminal {
    ghost clone_equals = { Prim.search rules };
}

impl Duplicate for Stand {
    ghost clone_equals = { Prim.search rules };
}

impl Duplicate for Placed {
    ghost clone_equals = { Prim.search rules };
}

impl Duplicate for Switch {
    ghost clone_equals = { Prim.search rules };
}

impl Duplicate for Internal {
    ghost clone_equals = { Prim.search rules };
}

impl Same for Terminal {
    fn same(&self, other: &Terminal) -> bool {
        self.side == other.side && self.equipment.same(&other.equipment)
    }
}

impl Same for Stand {
    fn same(&self, other: &Stand) -> bool {
        match (self, other) {
            (Stand::Busbar, Stand::Busbar) => true,
            (Stand::Feeder(item), Stand::Feeder(other)) => item.same(other),
            (Stand::BranchEnd, Stand::BranchEnd) => true,
            _ => false,
        }
    }
}

impl Same for Placed {
    fn same(&self, other: &Placed) -> bool {
        self.node == other.node
            && self.terminal.same(&other.terminal)
            && self.stand.same(&other.stand)
    }
}

impl Same for Switch {
    fn same(&self, other: &Switch) -> bool {
        self.id.same(&other.id)
            && self.kind.same(&other.kind)
            && self.node1 == other.node1
            && self.node2 == other.node2
            && self.opened == other.opened
            && self.retained == other.retained
            && self.fictitious == other.fictitious
    }
}

impl Same for Internal {
    fn same(&self, other: &Internal) -> bool {
        self.node1 == other.node1 && self.node2 == other.node2
    }
}

impl Clone for Level {
    ghost is_clone = { λ x y. y ≡ x };

    fn clone(&self) -> Result<Level, AllocError> {
        Ok(Level {
            id: self.id.clone()?,
            nominal_v: self.nominal_v,
            low_v: self.low_v,
            high_v: self.high_v,
            switches: clone_items(&self.switches)?,
            ends: clone_items(&self.ends)?,
            internals: clone_items(&self.internals)?,
            placed: clone_items(&self.placed)?,
            uses: self.uses.clone()?,
        })
    }
}

impl Duplicate for Level {
    ghost clone_equals = { Prim.search rules };
}

impl Same for Level {
    fn same(&self, other: &Level) -> bool {
        self.id.same(&other.id)
            && self.nominal_v == other.nominal_v
            && self.low_v.same(&other.low_v)
            && self.high_v.same(&other.high_v)
            && same_items(self.switches.as_slice(), other.switches.as_slice())
            && same_items(self.internals.as_slice(), other.internals.as_slice())
            && same_items(self.placed.as_slice(), other.placed.as_slice())
    }
}
