//! What JSON Lines tell: laws of the lines of an outcome.
#![tactic(auto)]

pub mod laws;
