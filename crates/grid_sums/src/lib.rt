//! The sums of watts of a level's buses, and the bus of each node, at one look.
#![tactic(auto)]

mod summing;

pub use summing::{LevelBuses, level_buses};
