//! The watts of equipment in a variant, and their sums.
#![tactic(auto)]

mod collecting;
mod finding;
pub mod laws;
mod merge;
mod moves;
mod opening;
mod rows;
mod watts;

pub use collecting::collected;
pub use finding::{powered, powered_at};
pub use merge::next_watts;
pub use moves::{gain, lose, set};
pub use opening::opening_powers;
pub use rows::{change_of, counted, gain_of, row_watts, watts_in};
pub use watts::{level_watts, watts_at, watts_for};
