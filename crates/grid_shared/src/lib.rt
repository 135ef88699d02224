//! Values that several owners read.
#![tactic(auto)]

mod shared;

pub use shared::Shared;

#[cfg(test)]
mod tests;
