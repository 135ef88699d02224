// The keys of levels by place, which copies share.
ghost use Rattle.std.specs.Prelude.{◌≡◌, ◌<◌, ◌≤◌, [], length, insert, slice_index_or, OnOk, OnErr, IfOk};
ghost use Rattle.std.proofs.Common.{rules};
ghost use Rattle.grid_ids.specs.Clones.{items_clone_equals};

use grid_ids::{Duplicate, Memory, Seq};
use std::alloc::{AllocError, Global};
use std::marker::Model;
use std::sync::Arc;

// The key of each level, by place. A copy shares them, until one of the two gets a level more. It is seen as their
// list.
#[derive(Debug, Drop)]
pub(crate) struct Order {
    keys: Arc<Seq<u32>>,
}

impl Model for Order {
    ghost use Rattle.std.specs.Prelude.{List, ℕ};
    ghost use Rattle.std.specs.Arc.{arc_value};

    ghost Value = { List ℕ };

    ghost view = { λ order. arc_value order.keys };
}

// It shares the keys: one more owner, and no memory.
impl Clone for Order {
    ghost is_clone = { λ x y. y ≡ x };

    fn clone(&self) -> Result<Order, AllocError> {
        Ok(Order {
            keys: Arc::try_clone(&self.keys)?,
        })
    }
}

impl Duplicate for Order {
    ghost clone_equals = { Prim.search rules };
}

impl Order {
    // No level.
    pub(crate) fn empty(alloc: Global) -> Result<Order, Memory>
        ensures { IfOk result (λ order. order ≡ []) }
    {
        Ok(Order {
            keys: Arc::new(alloc, Seq::empty(alloc))?,
        })
    }

    // How many levels there are.
    pub(crate) fn len(&self) -> usize
        ensures { result ≡ length self.now }
    {
        self.keys.len()
    }

    // The key of the level at a place.
    pub(crate) fn key(&self, level: u32) -> usize
        requires { level < length self.now }
        ensures { result ≡ slice_index_or self.now level result }
    {
        self.keys[level as usize] as usize
    }

    // Puts a key at a place, in a list of its own. Those from there on move up by one.
    #[tactic(auto, using(grid_ids::specs::Clones::items_clone_equals))]
    pub(crate) fn insert(&mut self, level: usize, key: u32) -> Result<(), Memory>
        requires { level ≤ length self.old }
        ensures ok { OnOk result (self.new ≡ insert self.old level key) }
        ensures err { OnErr result (self.new ≡ self.old) }
    {
        Arc::make_mut(&mut self.keys)?.insert(level, key)
    }
}
