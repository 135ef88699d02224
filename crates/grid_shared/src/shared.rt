// A value that several owners read.
ghost use Rattle.std.specs.Prelude.{◌≡◌, IfOk};
ghost use Rattle.std.proofs.Common.{rules};

use grid_ids::{Duplicate, Memory, Same};
use std::alloc::{AllocError, Global};
use std::marker::Model;
use std::sync::Arc;

/// A value that stays as it is while several owners read it, on several threads too. A copy is one more owner and takes
/// no memory. It is seen as the value, so that no contract above tells what is shared from what is not.
#[derive(Debug, Drop)]
pub struct Shared<T> {
    held: Arc<T>,
}

impl<T> Model for Shared<T> {
    ghost use Rattle.std.specs.Arc.{arc_value};

    ghost Value = { T };

    ghost view = { λ shared. arc_value shared.held };
}

impl<T: Drop> Shared<T> {
    /// The value with this owner alone.
    pub fn new(alloc: Global, value: T) -> Result<Shared<T>, Memory>
        ensures { IfOk result (λ shared. shared ≡ value) }
    {
        Ok(Shared {
            held: Arc::new(alloc, value)?,
        })
    }

    /// The value. It takes no memory.
    pub fn get(&self) -> &T
        ensures { result.now ≡ self.now }
    {
        &self.held
    }
}

// One more owner, and no memory: the count of owners alone may be full.
impl<T: Drop> Clone for Shared<T> {
    ghost is_clone = { λ x y. y ≡ x };

    fn clone(&self) -> Result<Shared<T>, AllocError> {
        Ok(Shared {
            held: Arc::try_clone(&self.held)?,
        })
    }
}

impl<T: Drop> Duplicate for Shared<T> {
    ghost clone_equals = { Prim.search rules };
}

impl<T: Same + Drop> Same for Shared<T> {
    fn same(&self, other: &Shared<T>) -> bool {
        self.get().same(other.get())
    }
}
