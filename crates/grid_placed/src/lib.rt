//! One level with configured buses: what it is in node/breaker form, and what the views and the plans of that form tell
//! of its buses and terminals.
#![tactic(auto)]

pub mod laws;
