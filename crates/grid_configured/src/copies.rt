// Copies of what is seen of levels with configured buses.
ghost use Rattle.std.proofs.Common.{rules};
ghost use Rattle.grid_ids.specs.Clones.{items_clone_equals};

use crate::{ConfiguredBus, ConfiguredView};
use grid_ids::Duplicate;

impl Duplicate for ConfiguredBus {
    ghost clone_equals = { Prim.search (rules, items_clone_equals) };
}

impl Duplicate for ConfiguredView {
    ghost clone_equals = { Prim.search (rules, items_clone_equals) };
}
