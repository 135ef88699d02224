//! The figures of a network after each of many outages, at the cost of what each outage changes.
#![tactic(auto)]

mod after;
mod layout;
mod network;
mod outage;
mod seats;
mod totals;

pub use after::figures_after_each;
pub use outage::{BusAt, ChangedSums, Outage};

/// The figures of a network: how many buses and components it has, and what stands in the main component, which is
/// component 0: the one with the most buses, and of those with as many the one with the earliest bus. All are 0 where
/// there is no bus. The figures are this project's own.
#[derive(Clone, Copy, Debug, PartialEq, Eq)]
pub struct Figures {
    /// How many buses there are, over the bus views of all levels.
    pub buses: u32,
    /// How many components they make.
    pub components: u32,
    /// How many buses the main component has.
    pub main: u32,
    /// The sum over the loads of the main component's buses, in W.
    pub load: i128,
    /// The sum over the generators and batteries of the main component's buses, in W.
    pub generation: i128,
    /// The sum over the loads of all buses, in W.
    pub total_load: i128,
    /// The sum over the generators and batteries of all buses, in W.
    pub total_generation: i128,
}
