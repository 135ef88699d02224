// Copies of the plans.
ghost use Rattle.std.proofs.Common.{rules};
ghost use Rattle.grid_ids.specs.Clones.{items_clone_equals};

use crate::{ConnectPlan, DisconnectPlan};
use grid_ids::Duplicate;

impl Duplicate for ConnectPlan {
    ghost clone_equals = { Prim.search (rules, items_clone_equals) };
}

impl Duplicate for DisconnectPlan {
    ghost clone_equals = { Prim.search (rules, items_clone_equals) };
}
