//! Laws of what screening finds and tells.
#![tactic(auto)]

pub mod laws;
