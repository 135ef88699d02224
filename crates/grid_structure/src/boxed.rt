// The branch of an edit that adds it.
ghost use Rattle.std.specs.Prelude.{◌≡◌, IfOk};
ghost use Rattle.std.proofs.Common.{rules};

use crate::Branch;
use grid_ids::{Duplicate, Memory};
use std::alloc::{AllocError, Global};
use std::marker::Model;

/// A branch outside of the edit that adds it, so that edits of other kinds take less memory. It is seen as the branch.
#[derive(Debug, Drop)]
pub struct BoxedBranch {
    branch: Box<Branch>,
}

impl Model for BoxedBranch {
    ghost use Rattle.grid_structure.specs.declared.Branch.{Branch};

    ghost Value = { Branch };

    ghost view = { λ boxed. boxed.branch.value };
}

impl BoxedBranch {
    /// The same branch.
    pub fn new(alloc: Global, branch: Branch) -> Result<BoxedBranch, Memory>
        ensures { IfOk result (λ boxed. boxed ≡ branch) }
    {
        match Box::new(alloc, branch) {
            Ok(branch) => Ok(BoxedBranch { branch }),
            Err(_) => Err(Memory),
        }
    }

    /// The branch itself.
    pub fn branch(&self) -> &Branch
        ensures { result.now ≡ self.now }
    {
        &self.branch
    }
}

impl Clone for BoxedBranch {
    ghost is_clone = { λ x y. y ≡ x };

    fn clone(&self) -> Result<BoxedBranch, AllocError> {
        Ok(BoxedBranch {
            branch: self.branch.clone()?,
        })
    }
}

impl Duplicate for BoxedBranch {
    ghost clone_equals = { Prim.search rules };
}
