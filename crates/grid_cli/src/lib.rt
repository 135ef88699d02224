//! The top call.
#![tactic(auto)]

mod configured;
mod counts;
mod findings;
mod hvdc;
mod jobs;
mod layout;
mod make;
mod once;
mod print;
mod replay;
mod running;
mod screen;
mod serving;
mod threaded;
mod trial;
mod views;

pub use once::grid_once;
pub use threaded::grid;
