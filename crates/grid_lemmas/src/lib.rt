//! Lemmas on lists, options, results, numbers and tests that several crates use. There is no code here.
#![tactic(auto)]
