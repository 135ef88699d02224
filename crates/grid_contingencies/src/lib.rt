//! Contingencies: what is out and what a fault hits, those that are made of a network's pieces, and the reading of jobs
//! with contingencies from JSON.
#![tactic(auto)]

ghost use Rattle.std.proofs.Common.{rules};
ghost use Rattle.grid_ids.specs.Clones.{items_clone_equals};

mod listing;
mod making;
mod read;

use grid_ids::{Duplicate, Id, Ids, Same, Seq};
use grid_json::{Format, Job};
pub use listing::is_operable;
pub use making::{count_made, made};
pub use read::read_screen;

/// A fault that comes when some ids are out: what it hits, and the breakers that fail to open. Several ids that are hit
/// are one event. The rules are this project's own.
#[derive(Clone, Debug, Drop)]
pub struct FaultCase {
    /// The ids of the switches that were opened and of the equipment that was removed before, in this order.
    pub out: Ids,
    /// The ids of the switches and of the equipment that are hit.
    pub fault: Ids,
    /// The ids of the breakers that stay closed.
    pub stuck: Ids,
}

/// A contingency by its name.
#[derive(Clone, Debug, Drop)]
pub struct Contingency {
    pub name: Id,
    pub event: FaultCase,
    /// Whether there is a fault, which may hit nothing. Without one only what is out counts.
    pub has_fault: bool,
}

/// A list of contingencies.
pub type Contingencies = Seq<Contingency>;

/// The kinds of pieces of which contingencies are made.
#[derive(Clone, Copy, Debug, PartialEq, Eq)]
pub enum Piece {
    Line,
    TwoWindings,
    ThreeWindings,
    Generator,
    Load,
    BusbarSection,
    /// A breaker that is not fictitious, whether it is open or closed.
    Breaker,
}

/// What becomes of the piece of a made contingency: it is out, or it is hit by a fault.
#[derive(Clone, Copy, Debug, PartialEq, Eq)]
pub enum Role {
    Out,
    Fault,
}

/// One contingency for each piece of a kind.
#[derive(Clone, Copy, Debug, PartialEq, Eq)]
pub struct Each {
    pub kind: Piece,
    pub role: Role,
}

/// Items of which contingencies are made, in order.
pub type Eaches = Seq<Each>;

/// Of which findings the lines are told.
#[derive(Clone, Copy, Debug, PartialEq, Eq)]
pub enum Told {
    All,
    /// Of those alone that are losses.
    Losses,
}

/// A job with the contingencies that are screened on what one of its variants stands at in the end.
#[derive(Drop)]
pub struct ScreenJob {
    /// The first or the second.
    pub format: Format,
    pub job: Job,
    /// The variant, where it is not the initial one.
    pub variant: Option<Id>,
    pub contingencies: Contingencies,
    /// What is made of the pieces that the variant's structure has in the end; no item stands twice.
    pub each: Eaches,
    pub only: Told,
}

impl Duplicate for FaultCase {
    ghost clone_equals = { Prim.search (rules, items_clone_equals) };
}

impl Duplicate for Contingency {
    ghost clone_equals = { Prim.search (rules, items_clone_equals) };
}

impl Same for FaultCase {
    fn same(&self, other: &FaultCase) -> bool {
        self.out.same(&other.out) && self.fault.same(&other.fault) && self.stuck.same(&other.stuck)
    }
}
