//! Lists of options of which only those that are there take memory.
#![tactic(auto)]

mod sparse;

pub use sparse::Sparse;

#[cfg(test)]
mod tests;
