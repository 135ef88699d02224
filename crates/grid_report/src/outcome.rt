// What came of a job.
ghost use Rattle.std.specs.Prelude.{◌≡◌, IfOk};
ghost use Rattle.std.proofs.Common.{rules};

use grid_busview::BusView;
use grid_core::Journal;
use grid_events::Filters;
use grid_ids::{Duplicate, Id, Seq};
use grid_shared::Shared;
use std::alloc::AllocError;

/// The bus views of the levels of a network, by place. Variants share those that they show alike.
pub type BusViews = Seq<Shared<BusView>>;

/// A variant's name, and the bus view of each level in it.
#[derive(Debug, Drop)]
pub struct VariantView {
    pub name: Id,
    pub views: BusViews,
}

/// The live variants, by byte order of their names.
pub type VariantViews = Seq<VariantView>;

/// What came of a job: what a report tells.
#[derive(Debug, Drop)]
pub struct Outcome {
    /// The steps, in the order in which they were made.
    pub journal: Journal,
    /// How many workers there are. The report has the steps of those below this number.
    pub workers: u32,
    /// The views that the steps leave.
    pub views: VariantViews,
    /// What each listener wants to hear, in the order of the listeners.
    pub filters: Filters,
}

// An equal value.
fn clone_item<T: Duplicate>(item: &T) -> Result<T, AllocError>
    ensures { IfOk result (λ copy. copy ≡ item.now) }
{
    item.clone()
}

impl Clone for VariantView {
    ghost is_clone = { λ x y. y ≡ x };

    fn clone(&self) -> Result<VariantView, AllocError> {
        Ok(VariantView {
            name: clone_item(&self.name)?,
            views: clone_item(&self.views)?,
        })
    }
}

impl Duplicate for VariantView {
    ghost clone_equals = { Prim.search rules };
}
