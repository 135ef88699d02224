//! HVDC lines: which buses they connect beside the branches, what is written of it, and their reading from JSON.
#![tactic(auto)]

mod buses;
mod checks;
pub mod laws;
mod lines;
mod links;
mod numbers;
mod read;
mod stations;
mod write;

ghost use Rattle.std.proofs.Common.{rules};

use grid_ids::{Duplicate, Id, Seq};
use grid_json::Job;
pub use lines::{count_buses, put_variant_lines};
pub use numbers::hvdc_numbers;
pub use read::read_hvdc;
pub use stations::find_station;
pub use write::put_variant;

/// The components of a bus: the connected one, over branches and HVDC lines, and the synchronous one, over branches
/// alone. A component's number is how many components have more buses, or as many buses and an earlier first bus.
#[derive(Clone, Copy, Debug, PartialEq, Eq)]
pub struct HvdcNumber {
    /// The number of the connected component.
    pub connected: u32,
    /// How many buses the connected component has.
    pub connected_size: u32,
    /// The number of the synchronous component.
    pub synchronous: u32,
    /// How many buses the synchronous component has.
    pub synchronous_size: u32,
}

/// The components of each bus, by its number.
pub type HvdcNumbers = Seq<HvdcNumber>;

/// An HVDC line between two converter stations, which it names by their ids.
#[derive(Clone, Debug, Drop)]
pub struct HvdcLine {
    pub id: Id,
    pub station1: Id,
    pub station2: Id,
}

/// A list of HVDC lines.
pub type HvdcLines = Seq<HvdcLine>;

/// A job with the HVDC lines of its network.
#[derive(Drop)]
pub struct HvdcJob {
    pub job: Job,
    pub lines: HvdcLines,
}

impl Duplicate for HvdcNumber {
    ghost clone_equals = { Prim.search rules };
}

impl Duplicate for HvdcLine {
    ghost clone_equals = { Prim.search rules };
}
