//! What the JSON Lines of the forms `hvdc` and `screen` tell: laws of the whole lists of objects that they write.
#![tactic(auto)]

pub mod laws;
