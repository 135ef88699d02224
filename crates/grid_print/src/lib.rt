//! Jobs and networks as JSON text.
#![tactic(auto)]

mod command;
mod formats;
mod job;
mod laws;
mod level;
mod network;
mod object;

pub use job::{print_job, print_network};
pub use laws::{networks_are_loaded, networks_are_read};
