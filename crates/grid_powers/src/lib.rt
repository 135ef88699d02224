//! The powers that a variant sets apart from the records: watts by id, and two sums.
#![tactic(auto)]

mod powers;

pub use powers::Powers;

#[cfg(test)]
mod tests;
