//! Classes of numbers under pairs that were joined one after the other, of which the newest can be taken back.
#![tactic(auto)]

mod forest;
mod join;
mod marks;
mod ranks;
mod summed;
mod sweeps;
mod unions;

pub use summed::{Summed, Sums};
pub use sweeps::{Change, Found, sweep};
pub use unions::Unions;
