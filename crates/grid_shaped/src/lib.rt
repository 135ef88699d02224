//! What loading makes of levels with configured buses: the levels in node/breaker form that the draft means.
#![tactic(auto)]

pub mod laws;
