//! What the JSON Lines of the further forms tell: laws of the lines of components over HVDC lines, of contingencies
//! and of configured outcomes.
#![tactic(auto)]

pub mod laws;
