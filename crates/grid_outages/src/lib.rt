//! What outages of switches and equipment change of the buses and links of a network.
#![tactic(auto)]

mod effect;
mod outage;
mod screening;
mod table;

pub use effect::outage_of;
pub use outage::{Changed, Changes, Shown, changes_without, find_changes};
pub use screening::{EndBus, Link, Screening, make_screening};
