//! Contingency screening: what outages of switches and equipment, and faults that breakers clear, change in the figures
//! of a network, each on its own and in several threads.
#![tactic(auto)]

ghost use Rattle.std.proofs.Common.{rules};
ghost use Rattle.grid_ids.specs.Clones.{items_clone_equals};

mod alike;
mod amiss;
pub mod clearing;
pub mod faults;
pub mod find;
pub mod laws;
mod line;
pub mod loss;
mod parallel;
mod part;
mod scene;
mod screened;
pub mod tripped;
mod walk;
mod write;
pub mod zone;

use faults::Breakers;
pub use find::find_one;
pub use grid_figures::Figures;
use grid_ids::{Duplicate, Id, Seq};
use grid_json::Format;
use grid_structure::Structure;
pub use line::put_finding_line;
pub use loss::is_loss;
pub use parallel::screen;
pub use screened::ScreenedCase;
pub use write::put_finding;

/// What a contingency costs, in W: sums before less those after, which may be below 0.
#[derive(Clone, Copy, Debug, PartialEq, Eq)]
pub struct Losses {
    /// What the main component lost.
    pub load: i128,
    pub generation: i128,
    /// What all buses lost: the watts of what stands in no bus any more.
    pub unconnected_load: i128,
    pub unconnected_generation: i128,
}

/// What is found of a contingency.
#[derive(Clone, Debug, Drop)]
pub enum Finding {
    /// The first id that is of no switch and of no equipment before the outage.
    UnknownId(Id),
    /// The first id of what is stuck that is of no breaker, or of a fictitious one.
    NoBreaker(Id),
    /// The figures after the outage, or when the fault is cleared.
    Effect {
        after: Figures,
        losses: Losses,
        /// Where there is a fault, the breakers that protection opened, in the structure before the outage.
        tripped: Option<Breakers>,
    },
}

/// Findings in the order of their contingencies.
pub type Findings = Seq<Finding>;

/// How findings are told: the format of the job, and the structure in which the breakers are that opened.
#[derive(Clone, Copy)]
pub struct Telling<'a> {
    pub format: Format,
    pub structure: &'a Structure,
}

impl Duplicate for Losses {
    ghost clone_equals = { Prim.search (rules, items_clone_equals) };
}

impl Duplicate for Finding {
    ghost clone_equals = { Prim.search (rules, items_clone_equals) };
}
